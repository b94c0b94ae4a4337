// The types that the calls take and answer with, and the refusals that they share. What each case of a type means in document 01 is said by the
// `paper` definitions of specs/Answers.antt.
#![tactic(auto)]

ghost use Rattle.std.specs.Prelude.{◌≡◌, not, [], ◌+◌, ◌*◌, ◌≤◌, eqb};
ghost use Rattle.base.specs.Rules.{or_when, refusal};
ghost use Rattle.base.specs.Refusals.{refused_by};
ghost use Rattle.base.specs.Matrix.{all_below};
ghost use Rattle.scheme.specs.Setup.{setup_of};
ghost use Rattle.scheme.specs.Opening.{round_of, agree};
ghost use Rattle.scheme.specs.Calls.{outside, limits, setup_rules};

use base::Refusal;

// The numbers of a setup; the matrix is lent beside them.
#[derive(Clone, Copy)]
pub struct Params {
    pub p: u16,
    pub l: u16,
    pub e: u16,
    pub n: u16,
}

impl Params {
    // d = ℓ + e.
    pub fn dim(self) -> usize
        ensures { (result ≡ self.l + self.e) × (result ≤ 131070) }
    {
        (self.l as usize) + (self.e as usize)
    }

    // The length of the matrix, and of a list of one part for each holder: n * d.
    pub fn matrix_len(self) -> usize
        ensures { result ≡ self.n * (self.l + self.e) }
    {
        (self.n as usize) * self.dim()
    }
}

// A share: its value and its round.
#[derive(Clone, Copy)]
pub struct Share {
    pub value: u16,
    pub round: u16,
}

// A holder's judgement of a dealing: a rejection names the lowest holder whose value differs; of two dealings tied by a map, only the check of the map
// may fail.
#[derive(Clone, Copy)]
pub enum Judgement {
    Accept,
    Reject(u16),
    RejectMap,
}

// What became of a dealing: an abort names the lowest holder that said reject.
#[derive(Clone, Copy)]
pub enum Fate {
    Kept,
    Aborted(u16),
}

// How a dealing ended at one holder.
#[derive(Clone, Copy)]
pub struct Outcome {
    pub judgement: Judgement,
    pub fate: Fate,
}

// The dealer's rehearsal: the first pair (i, j) that disagrees, where i checks the value of j.
#[derive(Clone, Copy)]
pub enum Rehearsal {
    Fair,
    Disagree(u16, u16),
}

// The judgement of a set at a position, with its row steps.
#[derive(Clone, Copy)]
pub enum SetJudgement {
    Row(u16),
    Vector(u16),
    Neither(u16),
}

// Why an opening gives no secrets: the lowest position with no row, shares that no vector gives, or a refusal that other calls have too.
#[derive(Clone, Copy, Debug, PartialEq, Eq)]
pub enum NotOpened {
    Undetermined(u16),
    Inconsistent,
    Refused(Refusal),
}

impl From<Refusal> for NotOpened {
    ghost use Rattle.scheme.specs.declared.NotOpened.TheVariants.{Refused};

    ghost from_gives = { λ refusal e. e ≡ Refused refusal };

    fn from(refusal: Refusal) -> NotOpened {
        NotOpened::Refused(refusal)
    }
}

// Whether x is below low or above high.
fn outside(low: u16, high: u16, x: u16) -> bool
    ensures { result ≡ outside low high x }
{
    x < low || high < x
}

// Refusals 1 and 2, which every call with a setup has.
pub fn check_limits(s: Params) -> Result<(), Refusal>
    ensures { refused_by result ≡ refusal (limits (setup_of s [])) }
{
    base::refuse_if(field::no_field(s.p), Refusal::NoField)?;
    base::refuse_if(outside(1, 8, s.l), Refusal::Limits)?;
    base::refuse_if(outside(1, 8, s.e), Refusal::Limits)?;
    base::refuse_if(outside(1, 32, s.n), Refusal::Limits)
}

// Refusal 3: a lent length is not the one needed.
pub fn check_size(len: usize, needed: usize) -> Result<(), Refusal>
    ensures { refused_by result ≡ or_when 0 3 (not (eqb len needed)) }
{
    base::refuse_if(len != needed, Refusal::Length)
}

// Refusal 4: an element is p or more.
pub fn check_elements(p: u16, s: &[u16]) -> Result<(), Refusal>
    ensures { refused_by result ≡ or_when 0 4 (not (all_below p s.now)) }
{
    base::refuse_if(!base::all_below(s, p), Refusal::Element)
}

// The round of shares that are combined; of none it is 0.
pub fn round_of(rounds: &[u16]) -> u16
    ensures { result ≡ round_of rounds.now }
{
    match rounds.first() {
        Some(round) => *round,
        None => 0,
    }
}

// Refusal 19: the rounds differ.
pub fn check_rounds(rounds: &[u16]) -> Result<(), Refusal>
    ensures { refused_by result ≡ or_when 0 19 (not (agree rounds.now)) }
{
    let round = round_of(rounds);
    base::refuse_if(!base::all_are(rounds, round), Refusal::Rounds)
}

// The limits and the length of a matrix, with which the calls on a matrix begin.
pub fn check_matrix_len(s: Params, len: usize) -> Result<(), Refusal>
    ensures { refused_by result ≡ refusal (setup_rules (setup_of s []) len) }
{
    check_limits(s)?;
    check_size(len, s.matrix_len())
}
