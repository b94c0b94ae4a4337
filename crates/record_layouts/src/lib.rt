// Records: their fields as types, and the rules that writing and reading share. What each layout is, and what
// each call refuses, answers and leaves in its buffers, is said by specs/Records.antt.
#![tactic(auto)]

ghost use Rattle.std.specs.Prelude.{◌≡◌, [], ◌*◌, ◌≤◌};
ghost use Rattle.base.specs.Rules.{refusal};
ghost use Rattle.base.specs.Refusals.{refused_by};
ghost use Rattle.scheme.specs.Setup.{setup_of};
ghost use Rattle.record_layouts.specs.Records.{due, params_at, dealing_at, pair_at, verdict_at, share_at, dealing_faults, pair_faults, verdict_faults, share_faults};

use base::Refusal;
use scheme::Params;

// MARKS AND SIZES
// The marks, low byte first.
pub const MARK_SU: u16 = 0x5553;

pub const MARK_DL: u16 = 0x4C44;

pub const MARK_PV: u16 = 0x5650;

pub const MARK_VD: u16 = 0x4456;

pub const MARK_SH: u16 = 0x4853;

pub const MARK_DF: u16 = 0x4644;

pub const MARK_PF: u16 = 0x4650;

pub const MARK_DZ: u16 = 0x5A44;

// How many bytes SU, and DL, DZ and DF, have before their lists.
pub const SETUP_HEAD: usize = 10;

pub const DEALING_HEAD: usize = 6;

// How many bytes a record of one size has.
pub const PAIR_SIZE: usize = 10;

pub const VERDICT_SIZE: usize = 8;

pub const SHARE_SIZE: usize = 12;

// THE RECORDS
// DL and DZ without g and h, and DF without g, h and φ.
#[derive(Clone, Copy)]
pub struct DealingRecord {
    pub dealing: u16,
    pub holder: u16,
}

// PV and PF.
#[derive(Clone, Copy)]
pub struct PairRecord {
    pub dealing: u16,
    pub sender: u16,
    pub receiver: u16,
    pub value: u16,
}

// VD: 1 accepts, 0 rejects.
#[derive(Clone, Copy)]
pub struct VerdictRecord {
    pub dealing: u16,
    pub holder: u16,
    pub verdict: u16,
}

// SH: dealing 0 marks a combination.
#[derive(Clone, Copy)]
pub struct ShareRecord {
    pub dealing: u16,
    pub holder: u16,
    pub column: u16,
    pub value: u16,
    pub round: u16,
}

// THE FIELDS of a record that stands at the start of a part of a file; what follows the record is not looked at.
pub fn params_at(s: &[u8]) -> Params
    ensures { result ≡ params_at s.now }
{
    Params {
        p: record_words::word(s, 1),
        l: record_words::word(s, 2),
        e: record_words::word(s, 3),
        n: record_words::word(s, 4),
    }
}

pub fn dealing_at(s: &[u8]) -> DealingRecord
    ensures { result ≡ dealing_at s.now }
{
    DealingRecord {
        dealing: record_words::word(s, 1),
        holder: record_words::word(s, 2),
    }
}

pub fn pair_at(s: &[u8]) -> PairRecord
    ensures { result ≡ pair_at s.now }
{
    PairRecord {
        dealing: record_words::word(s, 1),
        sender: record_words::word(s, 2),
        receiver: record_words::word(s, 3),
        value: record_words::word(s, 4),
    }
}

pub fn verdict_at(s: &[u8]) -> VerdictRecord
    ensures { result ≡ verdict_at s.now }
{
    VerdictRecord {
        dealing: record_words::word(s, 1),
        holder: record_words::word(s, 2),
        verdict: record_words::word(s, 3),
    }
}

pub fn share_at(s: &[u8]) -> ShareRecord
    ensures { result ≡ share_at s.now }
{
    ShareRecord {
        dealing: record_words::word(s, 1),
        holder: record_words::word(s, 2),
        column: record_words::word(s, 3),
        value: record_words::word(s, 4),
        round: record_words::word(s, 5),
    }
}

// FAULTS of a record's own fields, whether it is written or read, as its layout has them.
pub fn check_dealing(s: Params, x: DealingRecord) -> Result<(), Refusal>
    ensures { refused_by result ≡ refusal (dealing_faults (setup_of s []) x) }
{
    base::refuse_if(s.n <= x.holder, Refusal::Range)?;
    base::refuse_if(x.dealing == 0, Refusal::DealingNumber)
}

pub fn check_pair(s: Params, x: PairRecord) -> Result<(), Refusal>
    ensures { refused_by result ≡ refusal (pair_faults (setup_of s []) x) }
{
    base::refuse_if(s.p <= x.value, Refusal::Element)?;
    base::refuse_if(s.n <= x.sender, Refusal::Range)?;
    base::refuse_if(s.n <= x.receiver, Refusal::Range)?;
    base::refuse_if(x.dealing == 0, Refusal::DealingNumber)
}

pub fn check_verdict(s: Params, x: VerdictRecord) -> Result<(), Refusal>
    ensures { refused_by result ≡ refusal (verdict_faults (setup_of s []) x) }
{
    base::refuse_if(s.n <= x.holder, Refusal::Range)?;
    base::refuse_if(x.dealing == 0, Refusal::DealingNumber)?;
    base::refuse_if(2 <= x.verdict, Refusal::NoVerdict)
}

pub fn check_share(s: Params, x: ShareRecord) -> Result<(), Refusal>
    ensures { refused_by result ≡ refusal (share_faults (setup_of s []) x) }
{
    base::refuse_if(s.p <= x.value, Refusal::Element)?;
    base::refuse_if(s.n <= x.holder, Refusal::Range)?;
    base::refuse_if(s.l <= x.column, Refusal::Range)?;
    base::refuse_if(x.dealing == 0 && x.column != 0, Refusal::Range)
}

// A RECORD AT THE START OF A PART OF A FILE: its mark and its length.
pub fn check_due(s: &[u8], mark: u16, needed: usize) -> Result<(), Refusal>
    ensures { refused_by result ≡ refusal (due mark needed s.now) }
{
    base::refuse_if(s.len() < 2, Refusal::Length)?;
    base::refuse_if(record_words::word(s, 0) != mark, Refusal::Mark)?;
    base::refuse_if(s.len() < needed, Refusal::Length)
}

// How many entries φ has: ℓ * ℓ.
pub fn map_len(s: Params) -> usize
    ensures { (result ≡ s.l * s.l) × (result ≤ 4294836225) }
{
    (s.l as usize) * (s.l as usize)
}
