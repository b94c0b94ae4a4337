// Writing the records of a fixed length, PV, PF, VD and SH, into lent bytes: the open calls. What each refuses, answers and leaves in its buffer is said by record_layouts'
// specs/Records.antt; where nothing is refused the buffer has just the record's bytes.
#![tactic(auto)]

ghost use Rattle.std.specs.Prelude.{◌≡◌, []};
ghost use Rattle.scheme.specs.Setup.{setup_of};
ghost use Rattle.scheme.specs.Answers.{paper_written};
ghost use Rattle.record_layouts.specs.Records.{pair_layout_of, write_call, write_left, write_pair_call, write_pair_left, write_mapped_pair_call, write_mapped_pair_left};
ghost use Rattle.record_layouts.specs.Records.{write_verdict_call, write_verdict_left, write_share_call, write_share_left};

use base::Refusal;
use record_layouts::{
    MARK_PF, MARK_PV, MARK_SH, MARK_VD, PAIR_SIZE, PairRecord, SHARE_SIZE, ShareRecord,
    VERDICT_SIZE, VerdictRecord,
};
use scheme::Params;

// PV AND PF
// PV's fields, under a mark.
fn write_pair(mark: u16, s: Params, x: PairRecord, out: &mut [u8]) -> Result<(), Refusal>
    ensures answer { paper_written result ≡ write_call (pair_layout_of mark) (setup_of s []) x out.old }
    ensures buffer { out.new ≡ write_left (pair_layout_of mark) (setup_of s []) x out.old }
{
    scheme::check_limits(s)?;
    scheme::check_size(out.len(), PAIR_SIZE)?;
    record_layouts::check_pair(s, x)?;
    let all = [mark, x.dealing, x.sender, x.receiver, x.value];
    record_words::put_words(out, 0, &all);
    Ok(())
}

pub fn write_pair_value(s: Params, x: PairRecord, out: &mut [u8]) -> Result<(), Refusal>
    ensures answer { paper_written result ≡ write_pair_call (setup_of s []) x out.old }
    ensures buffer { out.new ≡ write_pair_left (setup_of s []) x out.old }
{
    write_pair(MARK_PV, s, x, out)
}

pub fn write_mapped_pair_value(s: Params, x: PairRecord, out: &mut [u8]) -> Result<(), Refusal>
    ensures answer { paper_written result ≡ write_mapped_pair_call (setup_of s []) x out.old }
    ensures buffer { out.new ≡ write_mapped_pair_left (setup_of s []) x out.old }
{
    write_pair(MARK_PF, s, x, out)
}

// VD
pub fn write_verdict(s: Params, x: VerdictRecord, out: &mut [u8]) -> Result<(), Refusal>
    ensures answer { paper_written result ≡ write_verdict_call (setup_of s []) x out.old }
    ensures buffer { out.new ≡ write_verdict_left (setup_of s []) x out.old }
{
    scheme::check_limits(s)?;
    scheme::check_size(out.len(), VERDICT_SIZE)?;
    record_layouts::check_verdict(s, x)?;
    let all = [MARK_VD, x.dealing, x.holder, x.verdict];
    record_words::put_words(out, 0, &all);
    Ok(())
}

// SH
pub fn write_share(s: Params, x: ShareRecord, out: &mut [u8]) -> Result<(), Refusal>
    ensures answer { paper_written result ≡ write_share_call (setup_of s []) x out.old }
    ensures buffer { out.new ≡ write_share_left (setup_of s []) x out.old }
{
    scheme::check_limits(s)?;
    scheme::check_size(out.len(), SHARE_SIZE)?;
    record_layouts::check_share(s, x)?;
    let all = [MARK_SH, x.dealing, x.holder, x.column, x.value, x.round];
    record_words::put_words(out, 0, &all);
    Ok(())
}
