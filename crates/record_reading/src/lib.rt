// Reading records: the open calls. Each takes a part of a file from a record's first byte on and reads the record that stands there; what follows it
// is not looked at. What each refuses, answers and leaves in its buffers is said by record_layouts' specs/Records.antt.
#![tactic(auto)]

ghost use Rattle.std.specs.Prelude.{◌≡◌, [], ◌+◌, ◌*◌, ◌≤◌, length};
ghost use Rattle.scheme.specs.Setup.{dim, setup_of};
ghost use Rattle.scheme.specs.Answers.{paper_written};
ghost use Rattle.record_layouts.specs.Records.{read_setup_call, read_matrix_call, read_matrix_left, read_dealing_call, read_dealing_left_g, read_dealing_left_h};
ghost use Rattle.record_layouts.specs.Records.{dealing_g, parts_h, read_zero_call, read_zero_left_g, read_zero_left_h};
ghost use Rattle.record_layouts.specs.Records.{read_mapped_call, read_mapped_left_g, read_mapped_left_h, read_mapped_left_phi};
ghost use Rattle.record_layouts.specs.Records.{pair_layout_of, pair_at, pair_values, read_call, read_pair_call, read_mapped_pair_call, read_verdict_call, read_share_call};
ghost use Rattle.record_layouts.specs.Records.{paper_setup_read, paper_dealing_read, paper_pair_read, paper_verdict_read, paper_share_read};

use base::Refusal;
use record_layouts::{
    DealingRecord, MARK_PF, MARK_PV, MARK_SH, MARK_VD, PAIR_SIZE, PairRecord, SHARE_SIZE,
    ShareRecord, VERDICT_SIZE, VerdictRecord,
};
use scheme::Params;

// The four numbers of an SU.
pub fn read_setup_head(s: &[u8]) -> Result<Params, Refusal>
    ensures { paper_setup_read result ≡ read_setup_call s.now }
{
    list_records::check_setup(s)?;
    Ok(record_layouts::params_at(s))
}

// The matrix of an SU, into a lent one of n * d entries.
pub fn read_setup_matrix(s: &[u8], matrix: &mut [u16]) -> Result<(), Refusal>
    ensures answer { paper_written result ≡ read_matrix_call s.now matrix.old }
    ensures buffer { matrix.new ≡ read_matrix_left s.now matrix.old }
{
    list_records::check_matrix(s, matrix.len())?;
    record_words::get_words(s, 5, matrix);
    Ok(())
}

// g and h of a DL, a DZ or a DF; h as many entries as the lent buffer holds.
fn get_parts(s: Params, part: &[u8], g: &mut [u16], h: &mut [u16])
    requires { (length g.old ≡ s.l + s.e) × (6 + 2 * (dim (setup_of s []) + length h.old) ≤ length part.now) }
    ensures row { g.new ≡ dealing_g (setup_of s []) part.now }
    ensures column { h.new ≡ parts_h (length h.old) (setup_of s []) part.now }
{
    record_words::get_words(part, 3, g);
    record_words::get_words(part, 3 + s.dim(), h);
}

// The dealing number and the holder of a DL; g and h go into lent buffers of d entries.
pub fn read_dealing(
    s: Params,
    part: &[u8],
    g: &mut [u16],
    h: &mut [u16],
) -> Result<DealingRecord, Refusal>
    ensures answer { paper_dealing_read result ≡ read_dealing_call (setup_of s []) part.now g.old h.old }
    ensures row { g.new ≡ read_dealing_left_g (setup_of s []) part.now g.old h.old }
    ensures column { h.new ≡ read_dealing_left_h (setup_of s []) part.now g.old h.old }
{
    list_records::check_dealing_lent(s, part, g.len(), h.len())?;
    get_parts(s, part, g, h);
    Ok(record_layouts::dealing_at(part))
}

// The dealing number and the holder of a DZ; g and h go into lent buffers of d and e entries.
pub fn read_zero_dealing(
    s: Params,
    part: &[u8],
    g: &mut [u16],
    h: &mut [u16],
) -> Result<DealingRecord, Refusal>
    ensures answer { paper_dealing_read result ≡ read_zero_call (setup_of s []) part.now g.old h.old }
    ensures row { g.new ≡ read_zero_left_g (setup_of s []) part.now g.old h.old }
    ensures column { h.new ≡ read_zero_left_h (setup_of s []) part.now g.old h.old }
{
    list_records::check_zero_lent(s, part, g.len(), h.len())?;
    get_parts(s, part, g, h);
    Ok(record_layouts::dealing_at(part))
}

// The dealing number and the holder of a DF; g, h and φ go into lent buffers of d, d and ℓ * ℓ entries.
pub fn read_mapped_dealing(
    s: Params,
    part: &[u8],
    g: &mut [u16],
    h: &mut [u16],
    phi: &mut [u16],
) -> Result<DealingRecord, Refusal>
    ensures answer { paper_dealing_read result ≡ read_mapped_call (setup_of s []) part.now g.old h.old phi.old }
    ensures row { g.new ≡ read_mapped_left_g (setup_of s []) part.now g.old h.old phi.old }
    ensures column { h.new ≡ read_mapped_left_h (setup_of s []) part.now g.old h.old phi.old }
    ensures map { phi.new ≡ read_mapped_left_phi (setup_of s []) part.now g.old h.old phi.old }
{
    list_records::check_mapped_lent(s, part, g.len(), h.len(), phi.len())?;
    get_parts(s, part, g, h);
    record_words::get_words(part, 3 + 2 * s.dim(), phi);
    Ok(record_layouts::dealing_at(part))
}

// PV's fields, under a mark.
fn read_pair(mark: u16, s: Params, part: &[u8]) -> Result<PairRecord, Refusal>
    ensures { paper_pair_read result ≡ read_call (pair_layout_of mark) (setup_of s []) [] part.now (pair_values (pair_at part.now)) }
{
    scheme::check_limits(s)?;
    record_layouts::check_due(part, mark, PAIR_SIZE)?;
    let x = record_layouts::pair_at(part);
    record_layouts::check_pair(s, x)?;
    Ok(x)
}

pub fn read_pair_value(s: Params, part: &[u8]) -> Result<PairRecord, Refusal>
    ensures { paper_pair_read result ≡ read_pair_call (setup_of s []) part.now }
{
    read_pair(MARK_PV, s, part)
}

pub fn read_mapped_pair_value(s: Params, part: &[u8]) -> Result<PairRecord, Refusal>
    ensures { paper_pair_read result ≡ read_mapped_pair_call (setup_of s []) part.now }
{
    read_pair(MARK_PF, s, part)
}

pub fn read_verdict(s: Params, part: &[u8]) -> Result<VerdictRecord, Refusal>
    ensures { paper_verdict_read result ≡ read_verdict_call (setup_of s []) part.now }
{
    scheme::check_limits(s)?;
    record_layouts::check_due(part, MARK_VD, VERDICT_SIZE)?;
    let x = record_layouts::verdict_at(part);
    record_layouts::check_verdict(s, x)?;
    Ok(x)
}

pub fn read_share(s: Params, part: &[u8]) -> Result<ShareRecord, Refusal>
    ensures { paper_share_read result ≡ read_share_call (setup_of s []) part.now }
{
    scheme::check_limits(s)?;
    record_layouts::check_due(part, MARK_SH, SHARE_SIZE)?;
    let x = record_layouts::share_at(part);
    record_layouts::check_share(s, x)?;
    Ok(x)
}
