// Judging a dealing: the pair value, the judgement of the values received and the dealer's rehearsal. Each call first works out its refusal by the table
// of scheme's specs/Calls.antt; where there is none it works on inputs that are in order.
#![tactic(auto)]

ghost use Rattle.std.specs.Prelude.{◌≡◌, [], ◌∷◌, ◌+◌, ◌*◌, ◌%◌, ◌<◌, ◌≤◌, length};
ghost use Rattle.base.specs.Rules.{refusal};
ghost use Rattle.base.specs.Refusals.{refused_by};
ghost use Rattle.base.specs.Search.{first};
ghost use Rattle.base.specs.Matrix.{entry};
ghost use Rattle.field.specs.Dot.{dot};
ghost use Rattle.scheme.specs.Setup.{setup_of};
ghost use Rattle.scheme.specs.Answers.{paper_value, paper_judged, paper_rehearsed, paper_rehearsal};
ghost use Rattle.scheme.specs.Dealing.{differs, judgement_of, rehearse};
ghost use Rattle.scheme.specs.Calls.{size, beyond_field, pair_value_rules, pair_value_call, judge_rules, judge_call, rehearse_rules, rehearse_call};

use base::Refusal;
use scheme::{Judgement, Params, Rehearsal};

// The product of row i of u and row j of v, both with d columns.
pub fn rows_product(p: u16, d: usize, u: &[u16], i: usize, v: &[u16], j: usize) -> u16
    requires { (0 < p) × (d ≤ 65536) × (i * d + d ≤ length u.now) × (j * d + d ≤ length v.now) }
    ensures { result ≡ dot d (entry d u.now i) (entry d v.now j) % p }
{
    field::dot_product(p, d, u, i * d, v, j * d, 1)
}

// PAIR VALUE
fn check_pair_value(s: Params, matrix: &[u16], g: &[u16], to: u16) -> Result<(), Refusal>
    ensures { refused_by result ≡ refusal (pair_value_rules (setup_of s matrix.now) g.now to) }
{
    scheme::check_matrix_len(s, matrix.len())?;
    scheme::check_size(g.len(), s.dim())?;
    scheme::check_elements(s.p, matrix)?;
    scheme::check_elements(s.p, g)?;
    base::refuse_if(s.n <= to, Refusal::Range)
}

// The pair value, for holder `to`, of the holder whose row part is g.
pub fn pair_value(s: Params, matrix: &[u16], g: &[u16], to: u16) -> Result<u16, Refusal>
    ensures { paper_value result ≡ pair_value_call (setup_of s matrix.now) g.now to }
{
    check_pair_value(s, matrix, g, to)?;
    let value = rows_product(s.p, s.dim(), g, 0, matrix, to as usize);
    Ok(value)
}

// JUDGE
// Refusal 3 of a column part and the values received.
pub fn check_received_sizes(s: Params, h: &[u16], values: &[u16]) -> Result<(), Refusal>
    ensures { refused_by result ≡ refusal (size (length h.now) (s.l + s.e) ∷ size (length values.now) s.n ∷ []) }
{
    scheme::check_size(h.len(), s.dim())?;
    scheme::check_size(values.len(), s.n as usize)
}

// Refusal 4 of the same.
pub fn check_received_elements(p: u16, h: &[u16], values: &[u16]) -> Result<(), Refusal>
    ensures { refused_by result ≡ refusal (beyond_field p h.now ∷ beyond_field p values.now ∷ []) }
{
    scheme::check_elements(p, h)?;
    scheme::check_elements(p, values)
}

fn check_judge(s: Params, matrix: &[u16], h: &[u16], values: &[u16]) -> Result<(), Refusal>
    ensures { refused_by result ≡ refusal (judge_rules (setup_of s matrix.now) h.now values.now) }
{
    scheme::check_matrix_len(s, matrix.len())?;
    check_received_sizes(s, h, values)?;
    scheme::check_elements(s.p, matrix)?;
    check_received_elements(s.p, h, values)
}

// The lowest holder whose value differs from what is due, or n where none does.
pub fn lowest_that_differs(s: Params, matrix: &[u16], h: &[u16], values: &[u16]) -> u16
    requires { refusal (judge_rules (setup_of s matrix.now) h.now values.now) ≡ 0 }
    ensures { result ≡ first (differs (setup_of s matrix.now) h.now values.now) s.n }
{
    let d = s.dim();
    for j in 0..s.n {
        let due = rows_product(s.p, d, matrix, j as usize, h, 0);
        if values[j as usize] != due {
            return j;
        }
    }
    s.n
}

// A holder's judgement of the n values it received, on its column part h, from inputs that are in order.
pub fn judgement(s: Params, matrix: &[u16], h: &[u16], values: &[u16]) -> Judgement
    requires { refusal (judge_rules (setup_of s matrix.now) h.now values.now) ≡ 0 }
    ensures { result ≡ judgement_of (setup_of s matrix.now) h.now values.now }
{
    let n = s.n;
    let j = lowest_that_differs(s, matrix, h, values);
    if n <= j {
        return Judgement::Accept;
    }
    Judgement::Reject(j)
}

// That judgement, or what refuses the inputs.
pub fn judge(s: Params, matrix: &[u16], h: &[u16], values: &[u16]) -> Result<Judgement, Refusal>
    ensures { paper_judged result ≡ judge_call (setup_of s matrix.now) h.now values.now }
{
    check_judge(s, matrix, h, values)?;
    Ok(judgement(s, matrix, h, values))
}

// REHEARSE
fn check_rehearse(s: Params, matrix: &[u16], gs: &[u16], hs: &[u16]) -> Result<(), Refusal>
    ensures { refused_by result ≡ refusal (rehearse_rules (setup_of s matrix.now) gs.now hs.now) }
{
    let len = s.matrix_len();
    scheme::check_matrix_len(s, matrix.len())?;
    scheme::check_size(gs.len(), len)?;
    scheme::check_size(hs.len(), len)?;
    scheme::check_elements(s.p, matrix)?;
    scheme::check_elements(s.p, gs)?;
    scheme::check_elements(s.p, hs)
}

// The first pair (i, j), by i and then by j, at which what j sends to i and what is due differ; own pairs too.
fn first_pair(s: Params, matrix: &[u16], gs: &[u16], hs: &[u16]) -> Rehearsal
    requires { refusal (rehearse_rules (setup_of s matrix.now) gs.now hs.now) ≡ 0 }
    ensures { paper_rehearsed result ≡ rehearse (setup_of s matrix.now) gs.now hs.now }
{
    let n = s.n;
    let d = s.dim();
    let mut answer = Rehearsal::Fair;
    'holders: for i in 0..n {
        for j in 0..n {
            let sent = rows_product(s.p, d, gs, j as usize, matrix, i as usize);
            let due = rows_product(s.p, d, matrix, j as usize, hs, i as usize);
            if sent != due {
                answer = Rehearsal::Disagree(i, j);
                break 'holders;
            }
        }
    }
    answer
}

// The dealer's rehearsal on all n parts.
pub fn rehearse(s: Params, matrix: &[u16], gs: &[u16], hs: &[u16]) -> Result<Rehearsal, Refusal>
    ensures { paper_rehearsal result ≡ rehearse_call (setup_of s matrix.now) gs.now hs.now }
{
    check_rehearse(s, matrix, gs, hs)?;
    Ok(first_pair(s, matrix, gs, hs))
}
