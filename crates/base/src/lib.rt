// What the layers above share in code: a refusal table's rule, an entry widened, a test of a whole slice, a part of one copied.
#![tactic(auto)]

ghost use Rattle.std.specs.Prelude.{◌≡◌, ◌+◌, ℕ, ◌<◌, ◌≤◌, leb, length, get_or};
ghost use Rattle.base.specs.Rules.{or_when};
ghost use Rattle.base.specs.Refusals.{number, refused_by};
ghost use Rattle.base.specs.Fill.{laid};
ghost use Rattle.base.specs.Matrix.{all_below, all_are};

// What a call gives when it declines, with document 01's numbers. 14 is retired. An opening that declines by 6 or 7 has a type of its own.
#[derive(Clone, Copy, Debug, PartialEq, Eq)]
pub enum Refusal {
    // p is none of the five primes, or not 65521 with corrections.
    NoField = 1,
    // ℓ, e or n is beyond its limits.
    Limits = 2,
    // A length is not the one needed.
    Length = 3,
    // A field element is p or more.
    Element = 4,
    // A holder, column, position or set is out of range.
    Range = 5,
    // Another mark than the record's.
    Mark = 8,
    // Dealing number 0, or not the file's.
    DealingNumber = 9,
    // A record comes again.
    Repeated = 10,
    // The file ends with a record missing.
    Missing = 11,
    // A verdict is neither 0 nor 1.
    NoVerdict = 12,
    // The own verdict is not what the own judgement gives.
    OwnVerdict = 13,
    // The field has fewer than d + n elements.
    TooFewPoints = 15,
    // An opened position is 256 and so no byte.
    NoByte = 16,
    // A record is not the next one due.
    Order = 17,
    // Round 65535 is the last.
    LastRound = 18,
    // The rounds of the shares differ.
    Rounds = 19,
    // Two records of one share at one round have unequal values.
    UnequalValues = 20,
    // The records are of different shares, or of combinations.
    OtherShare = 21,
    // A correction or constant is beyond the range.
    Correction = 22,
}

impl Refusal {
    pub fn number(self) -> u16
        ensures { result ≡ number self }
    {
        self as u16
    }
}

// One rule of a refusal table: the refusal, where its test holds.
pub fn refuse_if(holds: bool, refusal: Refusal) -> Result<(), Refusal>
    ensures { refused_by result ≡ or_when 0 (number refusal) holds }
{
    if holds { Err(refusal) } else { Ok(()) }
}

// The number that a call gives when it declines, 0 where it answers.
pub fn declined<T: Copy>(answer: Result<T, Refusal>) -> u16
    ensures { result ≡ refused_by answer }
{
    match answer {
        Ok(_) => 0,
        Err(refusal) => refusal.number(),
    }
}

// An entry, widened.
pub fn at(s: &[u16], i: usize) -> u64
    requires { i < length s.now }
    ensures { (result ≡ get_or s.now i 0) × (result ≤ 65535) }
{
    u64::from(s[i])
}

// The lowest number that every entry is below: one more than the largest, 0 of none. It reads the whole slice and gives one number, so that it takes the
// same time for every content, and lists are tested together by the largest of their bounds, in one branch.
pub fn bound(s: &[u16]) -> u32
    ensures { (p : ℕ) → leb result p ≡ all_below p s.now }
{
    if s.is_empty() {
        return 0;
    }
    u32::from(s.iter().fold(0, |most, x| most.max(*x))) + 1
}

// Whether every entry is below p.
pub fn all_below(s: &[u16], p: u16) -> bool
    ensures { result ≡ all_below p s.now }
{
    bound(s) <= u32::from(p)
}

// Whether every entry is x. It reads the whole slice too.
pub fn all_are(s: &[u16], x: u16) -> bool
    ensures { result ≡ all_are x s.now }
{
    !s.iter().fold(false, |other, y| other | (*y != x))
}

// Copies n entries of m, from `from` on, into a, from t on. They are few, as in a row of a matrix, and for few the slice's own copy takes longer.
pub fn copy(a: &mut [u16], t: usize, m: &[u16], from: usize, n: usize)
    requires { (t + n ≤ length a.old) × (from + n ≤ length m.now) }
    ensures { a.new ≡ laid (λ j. get_or m.now (from + j) 0) t n a.old }
{
    for j in 0..n {
        a[t + j] = m[from + j];
    }
}
