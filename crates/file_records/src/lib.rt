// The records of a holder's file behind its SU, DL or DZ, and DF: its PV by rising sender, with a DF its PF by rising sender, then its VD by rising holder, read to the
// file's end or to the first that is faulty or missing; and the lists that stand in its SU, DL or DZ, and DF.
#![tactic(auto)]

ghost use Rattle.std.specs.Prelude.{◌≡◌, [], ◌++◌, ◌+◌, ◌*◌, ◌≤◌, length, take, drop, replicate};
ghost use Rattle.base.specs.Refusals.{number, refused_by};
ghost use Rattle.base.specs.Fill.{tab};
ghost use Rattle.scheme.specs.Setup.{setup_of};
ghost use Rattle.record_words.specs.Words.{word_at, words_at};
ghost use Rattle.record_layouts.specs.Records.{setup_size, mapped_size, mapped_phi};
ghost use Rattle.file_records.specs.Received.{pair_records, place, pair_fault, verdict_fault, mark_fault, record_fault, fault_at, reached};
ghost use Rattle.file_records.specs.Inner.{Sends, Small, HoldsPart};

use base::Refusal;
use record_layouts::{PAIR_SIZE, PairRecord, VERDICT_SIZE, VerdictRecord};
use scheme::Params;

// What stands before the records decides: p, n, the file's dealing number and holder, whether it has a DF, and whether it is a zero dealing's.
#[derive(Clone, Copy)]
pub struct Head {
    pub p: u16,
    pub n: u16,
    pub dealing: u16,
    pub holder: u16,
    pub mapped: bool,
    pub zero: bool,
}

// Whether a record is refused, and the byte where the faulty record starts or a missing one would, else where the last one ends; and what the n holders sent, by sender:
// by PV, by PF and by VD. Refused or not, these are the words at the places of the records; a byte past the file's end counts as 0.
#[derive(Clone, Copy)]
pub struct Sent {
    pub refused: Result<(), Refusal>,
    pub byte: usize,
    pub values: [u16; 32],
    pub values2: [u16; 32],
    pub verdicts: [u16; 32],
}

// Why a file is refused, and the byte where the faulty record starts or a missing one would.
#[derive(Clone, Copy)]
pub struct Fault {
    pub refusal: Refusal,
    pub byte: usize,
}

// The lists of a DL, DZ or DF.
#[derive(Clone, Copy)]
pub struct PartLists {
    pub shares: [u16; 8],
    pub h: [u16; 16],
}

// How many PV and PF there are.
fn pair_records(h: Head) -> u16
    requires { h.n ≤ 32 }
    ensures { (result ≡ pair_records h) × (result ≤ 64) }
{
    if h.mapped { 2 * h.n } else { h.n }
}

// The byte where record k starts, counted from where the records start: each PV and PF before it has ten and each VD eight.
fn place(h: Head, k: u16) -> usize
    requires { (h.n ≤ 32) × (k ≤ 96) }
    ensures { result ≡ place h k }
{
    let i = usize::from(k);
    let pairs = pair_records(h);
    if k < pairs {
        return PAIR_SIZE * i;
    }
    VERDICT_SIZE * i + 2 * usize::from(pairs)
}

// A PV or PF with the fields x, of which len bytes are there, where record k is due; that from holder 0 is record `first`.
#[tactic(auto, unfolding(crate::specs::Received::pair_fault))]
fn check_pair(x: PairRecord, len: usize, h: Head, k: u16, first: u16) -> Result<(), Refusal>
    requires { (h.n ≤ 32) × (first ≤ 32) }
    ensures { refused_by result ≡ pair_fault h k first len x }
{
    base::refuse_if(len < PAIR_SIZE, Refusal::Length)?;
    base::refuse_if(h.p <= x.value, Refusal::Element)?;
    base::refuse_if(h.n <= x.sender, Refusal::Range)?;
    base::refuse_if(x.receiver != h.holder, Refusal::Range)?;
    base::refuse_if(x.dealing != h.dealing, Refusal::DealingNumber)?;
    let number = first + x.sender;
    base::refuse_if(number < k, Refusal::Repeated)?;
    base::refuse_if(number != k, Refusal::Order)
}

// A VD likewise; they come behind all PV and PF.
#[tactic(auto, unfolding(crate::specs::Received::verdict_fault))]
fn check_verdict(x: VerdictRecord, len: usize, h: Head, k: u16) -> Result<(), Refusal>
    requires { h.n ≤ 32 }
    ensures { refused_by result ≡ verdict_fault h k len x }
{
    base::refuse_if(len < VERDICT_SIZE, Refusal::Length)?;
    base::refuse_if(h.n <= x.holder, Refusal::Range)?;
    base::refuse_if(x.dealing != h.dealing, Refusal::DealingNumber)?;
    let own = pair_records(h) + x.holder;
    base::refuse_if(own < k, Refusal::Repeated)?;
    base::refuse_if(2 <= x.verdict, Refusal::NoVerdict)?;
    base::refuse_if(own != k, Refusal::Order)
}

// Another mark, which is refused in any case.
#[tactic(auto, unfolding(crate::specs::Received::mark_fault))]
fn mark_fault(h: Head, m: u16) -> Refusal
    ensures { number result ≡ mark_fault h m }
{
    let again = m == record_layouts::MARK_SU
        || m == record_layouts::MARK_DL && !h.zero
        || m == record_layouts::MARK_DZ && h.zero
        || m == record_layouts::MARK_DF && h.mapped;
    if again {
        return Refusal::Repeated;
    }
    Refusal::Mark
}

// The record that stands at the start of u, where record k is due.
#[tactic(auto, unfolding(crate::specs::Received::record_fault))]
fn check_record(u: &[u8], h: Head, k: u16) -> Result<(), Refusal>
    requires { h.n ≤ 32 }
    ensures { refused_by result ≡ record_fault h k u.now }
{
    if u.len() < 2 {
        return Err(Refusal::Length);
    }
    let m = record_words::word(u, 0);
    if m == record_layouts::MARK_PV {
        return check_pair(record_layouts::pair_at(u), u.len(), h, k, 0);
    }
    if m == record_layouts::MARK_PF {
        return if h.mapped {
            check_pair(record_layouts::pair_at(u), u.len(), h, k, h.n)
        } else {
            Err(Refusal::Mark)
        };
    }
    if m == record_layouts::MARK_VD {
        return check_verdict(record_layouts::verdict_at(u), u.len(), h, k);
    }
    Err(mark_fault(h, m))
}

// Record k of t, the file from the byte on where the records start. It may be missing, and behind the last one nothing is due.
fn check_at(t: &[u8], h: Head, k: u16) -> Result<(), Refusal>
    requires { (h.n ≤ 32) × (k ≤ 96) }
    ensures { refused_by result ≡ fault_at h t.now k }
{
    let at = place(h, k);
    if t.len() <= at {
        return base::refuse_if(k < pair_records(h) + h.n, Refusal::Missing);
    }
    check_record(&t[at..], h, k)
}

// The first record that is faulty or missing, or the number of records.
fn reached(t: &[u8], h: Head) -> u16
    requires { h.n ≤ 32 }
    ensures { result ≡ reached h t.now }
{
    let count = pair_records(h) + h.n;
    for k in 0..count {
        if check_at(t, h, k).is_err() {
            return k;
        }
    }
    count
}

// n words of t, word i the first and each `step` words behind the one before.
fn words_apart(t: &[u8], i: usize, step: usize, n: usize) -> [u16; 32]
    requires { (i ≤ 1000) × (step ≤ 5) × (n ≤ 32) }
    ensures { (length result ≡ 32) × (take n result ≡ tab n (λ j. word_at t.now (i + step * j))) }
{
    let mut out = [0u16; 32];
    for j in 0..n {
        out[j] = record_words::word(t, i + step * j);
    }
    out
}

// The PV, PF and VD of t, the file from the byte on where they start.
pub fn read_received(t: &[u8], h: Head) -> Sent
    requires { h.n ≤ 32 }
    ensures { Sends h t.now result }
{
    let k = reached(t, h);
    let refused = check_at(t, h, k);
    let byte = place(h, k);
    let n = usize::from(h.n);
    let pairs = usize::from(pair_records(h));
    let values = words_apart(t, 4, 5, n);
    let values2 = words_apart(t, 5 * n + 4, 5, n);
    let verdicts = words_apart(t, 5 * pairs + 3, 4, n);
    Sent {
        refused,
        byte,
        values,
        values2,
        verdicts,
    }
}

// THE LISTS, each at the start of its array, and zeros behind it.
// n words of s, from word i on.
fn words_first<const N: usize>(s: &[u8], i: usize, n: usize) -> [u16; N]
    requires room { n ≤ N }
    requires inside { 2 * (i + n) ≤ length s.now }
    ensures { result ≡ words_at s.now i n ++ drop n (replicate N 0) }
{
    let mut words = [0u16; N];
    record_words::get_words(s, i, &mut words[..n]);
    words
}

// The matrix of an SU that stands at the start of a file.
pub fn read_matrix(s: Params, file: &[u8]) -> [u16; 512]
    requires { Small (setup_of s []) × (setup_size (setup_of s []) ≤ length file.now) }
    ensures { (length result ≡ 512) × (take (s.n * (s.l + s.e)) result ≡ words_at file.now 5 (s.n * (s.l + s.e))) }
{
    words_first(file, 5, s.matrix_len())
}

// The shares and h of a DL, DZ or DF that stands at the start of a part of a file and whose h has k entries.
pub fn read_part(s: Params, part: &[u8], k: usize) -> PartLists
    requires { Small (setup_of s []) × (k ≤ 16) × (6 + 2 * (s.l + s.e + k) ≤ length part.now) }
    ensures { HoldsPart (setup_of s []) k part.now result }
{
    let shares = words_first(part, 3, usize::from(s.l));
    let h = words_first(part, 3 + s.dim(), k);
    PartLists { shares, h }
}

// The map of a DF that stands there.
pub fn read_map(s: Params, part: &[u8]) -> [u16; 64]
    requires { Small (setup_of s []) × (mapped_size (setup_of s []) ≤ length part.now) }
    ensures { (length result ≡ 64) × (take (s.l * s.l) result ≡ mapped_phi (setup_of s []) part.now) }
{
    let l = usize::from(s.l);
    words_first(part, 3 + 2 * s.dim(), l * l)
}
