// The three questions about a set, open calls: whether it is private, whether it determines the secrets, and what it is at a position. Each first works
// out its refusal by the table of scheme's specs/Calls.antt. Where there is none it eliminates systems of `set_systems`, in buffers of its own, and reads
// the answer off.
#![tactic(auto)]

ghost use Rattle.std.specs.Prelude.{◌≡◌, ◌+◌, ◌<◌, length};
ghost use Rattle.base.specs.Rules.{refusal};
ghost use Rattle.base.specs.Refusals.{refused_by};
ghost use Rattle.base.specs.Fill.{tab};
ghost use Rattle.base.specs.Matrix.{Below};
ghost use Rattle.elimination.specs.Inner.{buffers, Fits};
ghost use Rattle.scheme.specs.Setup.{setup_of};
ghost use Rattle.scheme.specs.Answers.{paper_decided, paper_set_judged};
ghost use Rattle.scheme.specs.Sets.{holds, members};
ghost use Rattle.scheme.specs.Calls.{private_call, determines_call, judge_set_rules, judge_set_call};
ghost use Rattle.set_systems.specs.Inner.{SetTaken};
ghost use Rattle.set_questions.specs.Buffer.{SetBuffer};
ghost use Rattle.set_questions.specs.Inner.{negated, RowSought, VectorSought};

use base::Refusal;
use scheme::{Params, SetJudgement};

// PRIVATE
// Whether a set is called private: whether every position has a sweeping vector. One elimination serves all positions.
pub fn private(s: Params, matrix: &[u16], set: u32) -> Result<bool, Refusal>
    ensures { paper_decided result ≡ private_call (setup_of s matrix.now) set }
{
    set_systems::check_set(s, matrix, set)?;
    let mut buffer = [0u16; 512];
    let mut marks = [0u16; 32];
    let l = s.l as usize;
    let e = s.e as usize;
    let d = s.dim();
    let k = set_systems::size(set);
    let end = k * d;
    let a = &mut buffer[..end];
    let used = &mut marks[..k];
    set_systems::reduce_aside(s, matrix, set, a, used);
    Ok(read_off::all_solved(a, used, k, d, e, l))
}

// DETERMINES
// Whether a set determines the secrets: whether every position has a reconstruction row.
pub fn determines(s: Params, matrix: &[u16], set: u32) -> Result<bool, Refusal>
    ensures { paper_decided result ≡ determines_call (setup_of s matrix.now) set }
{
    set_systems::check_set(s, matrix, set)?;
    let mut buffer = [0u16; 544];
    let mut marks = [0u16; 32];
    let zeros = [0u16; 32];
    let l = s.l as usize;
    let k = set_systems::size(set);
    let end = k * (s.dim() + 1);
    let q = set_systems::reduce_beside(
        s,
        matrix,
        set,
        &zeros[..k],
        &mut buffer[..end],
        &mut marks[..k],
    );
    Ok(l <= q)
}

// A RECONSTRUCTION ROW
// Whether a row was found, and the row steps that it took to know.
#[derive(Clone, Copy)]
struct Sought {
    found: bool,
    steps: u16,
}

// Writes the set's row for position q into one entry for each member, where there is one: it is 0 at each member whose column got no pivot.
fn seek_row(s: Params, matrix: &[u16], set: u32, q: usize, out: &mut [u16]) -> Sought
    requires set_taken { SetTaken (setup_of s matrix.now) set }
    requires q_lt_l { (q < s.l) × (length out.old ≡ length (members 32 (holds set))) }
    ensures { RowSought (setup_of s matrix.now) set q out.old result.found result.steps out.new }
{
    let mut buffer = [0u16; 528];
    let mut marks = [0u16; 16];
    let d = s.dim();
    let k = out.len();
    let end = d * (k + 1);
    let a = &mut buffer[..end];
    let used = &mut marks[..d];
    let steps = set_systems::reduce_across(s, matrix, set, q, a, used);
    if read_off::unsolved(a, used, d, k + 1, k) < d {
        return Sought {
            found: false,
            steps,
        };
    }
    read_off::solution(a, used, d, k + 1, k, out);
    Sought { found: true, steps }
}

// A SWEEPING VECTOR
// Entry j of the sweeping vector that the reduced system shows.
fn sweep_entry(
    s: Params,
    a: &[u16],
    used: &[u16],
    rows: usize,
    width: usize,
    q: usize,
    j: usize,
) -> u16
    requires fits { Fits rows width a.now used.now }
    requires below { Below s.p a.now }
    requires q_bound { (s.e + q < width) × (j < 64) }
    ensures { result ≡ negated s.p rows width s.l s.e q (buffers a.now used.now) j }
{
    let l = s.l as usize;
    if j < l {
        return set_systems::unit(q, j);
    }
    let b = (s.e as usize) + q;
    let x = read_off::shown(a, used, rows, width, b, j - l);
    field::negative(s.p, x)
}

// Writes the sweeping vector that the reduced system shows.
fn write_sweep(s: Params, a: &[u16], used: &[u16], rows: usize, q: usize, out: &mut [u16])
    requires fits { Fits rows (length out.old) a.now used.now }
    requires below { Below s.p a.now }
    requires q_in_bounds { s.e + q < length out.old }
    ensures { out.new ≡ tab (length out.old) (negated s.p rows (length out.old) s.l s.e q (buffers a.now used.now)) }
{
    let d = out.len();
    for (place, entry) in out.iter_mut().enumerate() {
        *entry = sweep_entry(s, a, used, rows, d, q, place);
    }
}

// Writes a sweeping vector for position q into d entries, where there is one.
fn seek_vector(s: Params, matrix: &[u16], set: u32, q: usize, out: &mut [u16]) -> bool
    requires set_taken { SetTaken (setup_of s matrix.now) set }
    requires q_lt_l { (q < s.l) × (length out.old ≡ s.l + s.e) }
    ensures { VectorSought (setup_of s matrix.now) set q out.old result out.new }
{
    let mut buffer = [0u16; 512];
    let mut marks = [0u16; 32];
    let d = out.len();
    let k = set_systems::size(set);
    let end = k * d;
    let a = &mut buffer[..end];
    let used = &mut marks[..k];
    set_systems::reduce_aside(s, matrix, set, a, used);
    let b = (s.e as usize) + q;
    if read_off::unsolved(a, used, k, d, b) < k {
        return false;
    }
    write_sweep(s, a, used, k, q, out);
    true
}

// JUDGE A SET
fn check_judge_set(
    s: Params,
    matrix: &[u16],
    set: u32,
    position: u16,
    out: &[u16],
) -> Result<(), Refusal>
    ensures { refused_by result ≡ refusal (judge_set_rules (setup_of s matrix.now) set position out.now) }
{
    scheme::check_matrix_len(s, matrix.len())?;
    scheme::check_size(out.len(), 32)?;
    scheme::check_elements(s.p, matrix)?;
    base::refuse_if(set_systems::beyond(s.n, set), Refusal::Range)?;
    base::refuse_if(s.l <= position, Refusal::Range)
}

// Judges a set at a position: a reconstruction row, a sweeping vector, or neither, with the row steps; the row or a vector into 32 entries, then zeros.
pub fn judge_set(
    s: Params,
    matrix: &[u16],
    set: u32,
    position: u16,
    out: &mut [u16],
) -> Result<SetJudgement, Refusal>
    ensures result_value { paper_set_judged result ≡ judge_set_call (setup_of s matrix.now) set position out.old }
    ensures set_buffer { SetBuffer (setup_of s matrix.now) set position out.old (paper_set_judged result) out.new }
{
    check_judge_set(s, matrix, set, position, out)?;
    out.fill(0);
    let q = position as usize;
    let k = set_systems::size(set);
    let row = seek_row(s, matrix, set, q, &mut out[..k]);
    if row.found {
        return Ok(SetJudgement::Row(row.steps));
    }
    let d = s.dim();
    if seek_vector(s, matrix, set, q, &mut out[..d]) {
        return Ok(SetJudgement::Vector(row.steps));
    }
    Ok(SetJudgement::Neither(row.steps))
}
