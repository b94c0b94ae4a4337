// Writing the records with lists, SU, DL, DZ and DF, into lent bytes: the open calls. What each refuses, answers and leaves in its buffer is said by record_layouts'
// specs/Records.antt; where nothing is refused the buffer has just the record's bytes.
#![tactic(auto)]

ghost use Rattle.std.specs.Prelude.{◌≡◌, [], ◌∷◌, ◌++◌, ◌+◌, ◌*◌, ◌≤◌, length};
ghost use Rattle.std.proofs.lemmas.List.Edits.{sets};
ghost use Rattle.base.specs.Rules.{refusal};
ghost use Rattle.base.specs.Refusals.{refused_by};
ghost use Rattle.scheme.specs.Setup.{dim, setup_of};
ghost use Rattle.scheme.specs.Calls.{limits, size, beyond_field};
ghost use Rattle.scheme.specs.Answers.{paper_written};
ghost use Rattle.record_words.specs.Words.{bytes};
ghost use Rattle.record_layouts.specs.Records.{setup_words, write_setup_call, write_setup_left, mapped_words, write_mapped_call, write_mapped_left};
ghost use Rattle.record_layouts.specs.Records.{parts, parts_layout_of, write_call, write_left, write_dealing_call, write_dealing_left, write_zero_call, write_zero_left};

use base::Refusal;
use record_layouts::{DEALING_HEAD, DealingRecord, MARK_DF, MARK_DL, MARK_DZ, MARK_SU, SETUP_HEAD};
use scheme::Params;

// SU
// The words of an SU, which fill the buffer.
fn put_setup(s: Params, matrix: &[u16], out: &mut [u8])
    requires { 2 * (5 + length matrix.now) ≡ length out.old }
    ensures { out.new ≡ bytes (setup_words (setup_of s matrix.now)) }
{
    let head = [MARK_SU, s.p, s.l, s.e, s.n];
    record_words::put_words(out, 0, &head);
    record_words::put_words(out, 5, matrix);
}

pub fn write_setup(s: Params, matrix: &[u16], out: &mut [u8]) -> Result<(), Refusal>
    ensures answer { paper_written result ≡ write_setup_call (setup_of s matrix.now) out.old }
    ensures buffer { out.new ≡ write_setup_left (setup_of s matrix.now) out.old }
{
    let len = s.matrix_len();
    scheme::check_matrix_len(s, matrix.len())?;
    scheme::check_size(out.len(), SETUP_HEAD + 2 * len)?;
    scheme::check_elements(s.p, matrix)?;
    put_setup(s, matrix, out);
    Ok(())
}

// DL, DZ AND DF
// DL's words, under a mark.
fn put_dealing(mark: u16, x: DealingRecord, g: &[u16], h: &[u16], out: &mut [u8])
    requires { 2 * (3 + length g.now + length h.now) ≤ length out.old }
    ensures { out.new ≡ sets out.old 0 (bytes (mark ∷ x.dealing ∷ x.holder ∷ g.now ++ h.now)) }
{
    let head = [mark, x.dealing, x.holder];
    record_words::put_words(out, 0, &head);
    record_words::put_words(out, 3, g);
    record_words::put_words(out, 3 + g.len(), h);
}

// The words of a DF, which fill the buffer.
fn put_mapped(x: DealingRecord, g: &[u16], h: &[u16], phi: &[u16], out: &mut [u8])
    requires { 2 * (3 + length g.now + length h.now + length phi.now) ≡ length out.old }
    ensures { out.new ≡ bytes (mapped_words x g.now h.now phi.now) }
{
    put_dealing(MARK_DF, x, g, h, out);
    record_words::put_words(out, 3 + g.len() + h.len(), phi);
}

// The limits, and the lengths of the buffer, of g and of h, which has `many` entries.
fn check_lengths(
    s: Params,
    room: usize,
    needed: usize,
    g_len: usize,
    h_len: usize,
    many: usize,
) -> Result<(), Refusal>
    ensures { refused_by result ≡ refusal (limits (setup_of s []) ++ size «room» «needed» ∷ size g_len (dim (setup_of s [])) ∷ size h_len many ∷ []) }
{
    scheme::check_limits(s)?;
    scheme::check_size(room, needed)?;
    scheme::check_size(g_len, s.dim())?;
    scheme::check_size(h_len, many)
}

// The elements of g and of h.
fn check_lists(p: u16, g: &[u16], h: &[u16]) -> Result<(), Refusal>
    ensures { refused_by result ≡ refusal (beyond_field p g.now ∷ beyond_field p h.now ∷ []) }
{
    scheme::check_elements(p, g)?;
    scheme::check_elements(p, h)
}

// DL's fields, with `many` entries of h, under a mark.
fn write_parts(
    mark: u16,
    many: usize,
    s: Params,
    x: DealingRecord,
    g: &[u16],
    h: &[u16],
    out: &mut [u8],
) -> Result<(), Refusal>
    requires { many ≤ 131070 }
    ensures answer { paper_written result ≡ write_call (parts_layout_of mark (λ S. 6 + 2 * (dim S + many)) (λ S. many)) (setup_of s []) (parts x g.now h.now) out.old }
    ensures buffer { out.new ≡ write_left (parts_layout_of mark (λ S. 6 + 2 * (dim S + many)) (λ S. many)) (setup_of s []) (parts x g.now h.now) out.old }
{
    let needed = DEALING_HEAD + 2 * (s.dim() + many);
    check_lengths(s, out.len(), needed, g.len(), h.len(), many)?;
    check_lists(s.p, g, h)?;
    record_layouts::check_dealing(s, x)?;
    put_dealing(mark, x, g, h, out);
    Ok(())
}

pub fn write_dealing(
    s: Params,
    x: DealingRecord,
    g: &[u16],
    h: &[u16],
    out: &mut [u8],
) -> Result<(), Refusal>
    ensures answer { paper_written result ≡ write_dealing_call (setup_of s []) x g.now h.now out.old }
    ensures buffer { out.new ≡ write_dealing_left (setup_of s []) x g.now h.now out.old }
{
    write_parts(MARK_DL, s.dim(), s, x, g, h, out)
}

pub fn write_zero_dealing(
    s: Params,
    x: DealingRecord,
    g: &[u16],
    h: &[u16],
    out: &mut [u8],
) -> Result<(), Refusal>
    ensures answer { paper_written result ≡ write_zero_call (setup_of s []) x g.now h.now out.old }
    ensures buffer { out.new ≡ write_zero_left (setup_of s []) x g.now h.now out.old }
{
    write_parts(MARK_DZ, s.e as usize, s, x, g, h, out)
}

pub fn write_mapped_dealing(
    s: Params,
    x: DealingRecord,
    g: &[u16],
    h: &[u16],
    phi: &[u16],
    out: &mut [u8],
) -> Result<(), Refusal>
    ensures answer { paper_written result ≡ write_mapped_call (setup_of s []) x g.now h.now phi.now out.old }
    ensures buffer { out.new ≡ write_mapped_left (setup_of s []) x g.now h.now phi.now out.old }
{
    let len = record_layouts::map_len(s);
    let d = s.dim();
    let needed = DEALING_HEAD + 4 * d + 2 * len;
    check_lengths(s, out.len(), needed, g.len(), h.len(), d)?;
    scheme::check_size(phi.len(), len)?;
    check_lists(s.p, g, h)?;
    scheme::check_elements(s.p, phi)?;
    record_layouts::check_dealing(s, x)?;
    put_mapped(x, g, h, phi, out);
    Ok(())
}
