// Which of two share records counts: of two SH records of one share, the one with the higher round. What the calls refuse and answer, and of which lent
// slice they return which part, is said by specs/Superseding.antt.
#![tactic(auto)]

ghost use Rattle.std.specs.Prelude.{◌≡◌, [], ◌∷◌};
ghost use Rattle.base.specs.Choice.{pick};
ghost use Rattle.base.specs.Rules.{refusal, given, answer_by};
ghost use Rattle.base.specs.Refusals.{refused_by};
ghost use Rattle.scheme.specs.Setup.{setup_of};
ghost use Rattle.superseding.specs.Superseding.{superseding_faults, superseding_call, superseding_part, is_second, later, paper_superseding};

use base::Refusal;
use record_layouts::{SHARE_SIZE, ShareRecord};
use scheme::Params;

#[derive(Clone, Copy)]
pub enum Superseding {
    First,
    Second,
}

// What refuses two records that each read well.
fn check_two(x: ShareRecord, y: ShareRecord) -> Result<(), Refusal>
    ensures { refused_by result ≡ refusal (superseding_faults x y) }
{
    base::refuse_if(x.dealing != y.dealing, Refusal::OtherShare)?;
    base::refuse_if(x.holder != y.holder, Refusal::OtherShare)?;
    base::refuse_if(x.column != y.column, Refusal::OtherShare)?;
    base::refuse_if(x.dealing == 0, Refusal::OtherShare)?;
    base::refuse_if(
        x.round == y.round && x.value != y.value,
        Refusal::UnequalValues,
    )
}

// Two records that each read well.
fn newer(x: ShareRecord, y: ShareRecord) -> Result<Superseding, Refusal>
    ensures { paper_superseding result ≡ answer_by (refusal (superseding_faults x y)) (given (pick (later x y) 2 1 ∷ [])) }
{
    check_two(x, y)?;
    if x.round < y.round {
        return Ok(Superseding::Second);
    }
    Ok(Superseding::First)
}

// Which of the two records at the start of two lent slices supersedes; what follows them is not looked at.
pub fn superseding_record(s: Params, first: &[u8], second: &[u8]) -> Result<Superseding, Refusal>
    ensures { paper_superseding result ≡ superseding_call (setup_of s []) first.now second.now }
{
    let x = record_reading::read_share(s, first)?;
    let y = record_reading::read_share(s, second)?;
    newer(x, y)
}

// That record's own bytes, as the part of the slice that it stands in, from its start to byte 12; an empty part where the call is refused.
pub fn superseding_part<'a>(s: Params, first: &'a [u8], second: &'a [u8]) -> &'a [u8]
    ensures content { result.now ≡ superseding_part (setup_of s []) first.now second.now }
    ensures place { result.ref_ptr ≡ pick (is_second (setup_of s []) first.now second.now) second.entry.ref_ptr first.entry.ref_ptr }
{
    match superseding_record(s, first, second) {
        Ok(Superseding::First) => &first[..SHARE_SIZE],
        Ok(Superseding::Second) => &second[..SHARE_SIZE],
        Err(_) => &first[..0],
    }
}

// Why the part is empty: the refusal's number, 0 where there is none.
pub fn superseding_refusal(s: Params, first: &[u8], second: &[u8]) -> u16
    ensures { result ≡ (superseding_call (setup_of s []) first.now second.now).number }
{
    base::declined(superseding_record(s, first, second))
}
