// Dealing zeros, and judging such a dealing: the open calls. Each first works out its refusal by the table of scheme's specs/Calls.antt; where there is
// none it works on inputs that are in order. The work of dealing neither branches on nor indexes by a random entry.
#![tactic(auto)]

ghost use Rattle.std.specs.Prelude.{◌≡◌, [], ◌∷◌, ◌+◌, ◌*◌, replicate};
ghost use Rattle.base.specs.Rules.{refusal};
ghost use Rattle.base.specs.Refusals.{refused_by};
ghost use Rattle.base.specs.Fill.{filled};
ghost use Rattle.base.specs.Matrix.{flat};
ghost use Rattle.scheme.specs.Setup.{setup_of};
ghost use Rattle.scheme.specs.Answers.{paper_written, paper_judged};
ghost use Rattle.scheme.specs.Dealing.{zero_entry, judgement_zero};
ghost use Rattle.scheme.specs.Calls.{table, elements, room, deal_zero_call, deal_zero_left_g, deal_zero_left_h, deal_zero_all_call, deal_zero_all_left_g, deal_zero_all_left_h, judge_zero_rules, judge_zero_call};
ghost use Rattle.dealing.specs.Inner.{sized};
ghost use Rattle.zero_dealing.specs.Inner.{ZeroRoom, LastRoom, last_of};

use base::Refusal;
use scheme::{Judgement, Params};

// F
// F by rows, into the first d * d places of zeros: the first ℓ rows stay as they are, and the rows below are the random entries.
fn fill_zero(s: Params, random: &[u16], f: &mut [u16])
    requires { ZeroRoom s.l s.e random.now f.old }
    ensures { f.new ≡ filled (flat (s.l + s.e) (zero_entry (sized 0 s.l s.e) random.now)) ((s.l + s.e) * (s.l + s.e)) (replicate 256 0) }
{
    let l = s.l as usize;
    let e = s.e as usize;
    let d = l + e;
    base::copy(f, l * d, random, 0, e * d);
}

// DEAL ZERO
// Refusals 1 to 4 of both calls, with the lengths of the two buffers, which need `row` and `column` entries.
fn check_lent(
    s: Params,
    matrix: &[u16],
    random: &[u16],
    g: usize,
    row: usize,
    h: usize,
    column: usize,
) -> Result<(), Refusal>
    ensures { refused_by result ≡ refusal (table (setup_of s matrix.now) (elements matrix.now (s.n * (s.l + s.e)) ∷ elements random.now (s.e * (s.l + s.e)) ∷ room g row ∷ room h column ∷ []) []) }
{
    scheme::check_matrix_len(s, matrix.len())?;
    scheme::check_size(random.len(), (s.e as usize) * s.dim())?;
    scheme::check_size(g, row)?;
    scheme::check_size(h, column)?;
    scheme::check_elements(s.p, matrix)?;
    scheme::check_elements(s.p, random)
}

// A holder's part of a zero dealing: the whole column is worked out, and its last e entries are the holder's h.
pub fn deal_zero(
    s: Params,
    matrix: &[u16],
    random: &[u16],
    holder: u16,
    g: &mut [u16],
    h: &mut [u16],
) -> Result<(), Refusal>
    ensures result_value { paper_written result ≡ deal_zero_call (setup_of s matrix.now) random.now holder g.old h.old }
    ensures g_after { g.new ≡ deal_zero_left_g (setup_of s matrix.now) random.now holder g.old h.old }
    ensures h_after { h.new ≡ deal_zero_left_h (setup_of s matrix.now) random.now holder g.old h.old }
{
    let l = s.l as usize;
    let e = s.e as usize;
    let d = l + e;
    check_lent(s, matrix, random, g.len(), d, h.len(), e)?;
    base::refuse_if(s.n <= holder, Refusal::Range)?;
    let mut f = [0u16; 256];
    fill_zero(s, random, &mut f);
    let mut column = [0u16; 16];
    dealing::write_part(s, matrix, &f, holder, g, &mut column[..d]);
    base::copy(h, 0, &column, l, e);
    Ok(())
}

// DEAL ZERO TO ALL
// The last e entries of each of n columns of ℓ + e entries.
fn keep_last(n: usize, l: usize, e: usize, columns: &[u16], hs: &mut [u16])
    requires { LastRoom n l e columns.now hs.old }
    ensures { hs.new ≡ filled (flat e (last_of l e columns.now)) (n * e) hs.old }
{
    let d = l + e;
    for i in 0..n {
        base::copy(hs, i * e, columns, i * d + l, e);
    }
}

// Every holder's part of a zero dealing.
pub fn deal_zero_all(
    s: Params,
    matrix: &[u16],
    random: &[u16],
    gs: &mut [u16],
    hs: &mut [u16],
) -> Result<(), Refusal>
    ensures result_value { paper_written result ≡ deal_zero_all_call (setup_of s matrix.now) random.now gs.old hs.old }
    ensures gs_after { gs.new ≡ deal_zero_all_left_g (setup_of s matrix.now) random.now gs.old hs.old }
    ensures hs_after { hs.new ≡ deal_zero_all_left_h (setup_of s matrix.now) random.now gs.old hs.old }
{
    let n = s.n as usize;
    let l = s.l as usize;
    let e = s.e as usize;
    let d = l + e;
    let len = n * d;
    check_lent(s, matrix, random, gs.len(), len, hs.len(), n * e)?;
    let mut f = [0u16; 256];
    fill_zero(s, random, &mut f);
    let mut columns = [0u16; 512];
    parts::write_all(s.p, d, n, matrix, &f, gs, &mut columns[..len]);
    keep_last(n, l, e, &columns, hs);
    Ok(())
}

// JUDGE ZERO
fn check_judge_zero(s: Params, matrix: &[u16], h: &[u16], values: &[u16]) -> Result<(), Refusal>
    ensures { refused_by result ≡ refusal (judge_zero_rules (setup_of s matrix.now) h.now values.now) }
{
    scheme::check_matrix_len(s, matrix.len())?;
    scheme::check_size(h.len(), s.e as usize)?;
    scheme::check_size(values.len(), s.n as usize)?;
    scheme::check_elements(s.p, matrix)?;
    scheme::check_elements(s.p, h)?;
    scheme::check_elements(s.p, values)
}

// A holder's judgement of the n values it received in a zero dealing, on its column part h, from inputs that are in order: h with the ℓ zeros before it that
// are not sent is judged as a dealing's column part is.
pub fn judgement_zero(s: Params, matrix: &[u16], h: &[u16], values: &[u16]) -> Judgement
    requires { refusal (judge_zero_rules (setup_of s matrix.now) h.now values.now) ≡ 0 }
    ensures { result ≡ judgement_zero (setup_of s matrix.now) h.now values.now }
{
    let l = s.l as usize;
    let e = s.e as usize;
    let d = l + e;
    let mut column = [0u16; 16];
    base::copy(&mut column, l, h, 0, e);
    judging::judgement(s, matrix, &column[..d], values)
}

// That judgement, or what refuses the inputs.
pub fn judge_zero(
    s: Params,
    matrix: &[u16],
    h: &[u16],
    values: &[u16],
) -> Result<Judgement, Refusal>
    ensures { paper_judged result ≡ judge_zero_call (setup_of s matrix.now) h.now values.now }
{
    check_judge_zero(s, matrix, h, values)?;
    Ok(judgement_zero(s, matrix, h, values))
}
