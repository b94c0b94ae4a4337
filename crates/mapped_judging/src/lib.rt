// Judging two dealings tied by a map: the holder's values in both, and that the first entries of the second part are the map of those of the first. The call first
// works out its refusal by the table of scheme's specs/Calls.antt; where there is none it works on inputs that are in order.
#![tactic(auto)]

ghost use Rattle.std.specs.Prelude.{◌≡◌, [], ◌*◌, ◌<◌, ◌≤◌, length};
ghost use Rattle.base.specs.Rules.{refusal};
ghost use Rattle.base.specs.Refusals.{refused_by};
ghost use Rattle.base.specs.Search.{first};
ghost use Rattle.scheme.specs.Setup.{setup_of};
ghost use Rattle.scheme.specs.Answers.{paper_judged};
ghost use Rattle.scheme.specs.Dealing.{differs_in, map_holds, judgement_mapped};
ghost use Rattle.scheme.specs.Calls.{judge_rules, judge_mapped_rules, judge_mapped_call};

use base::Refusal;
use scheme::{Judgement, Params};

fn check_judge_mapped(
    s: Params,
    matrix: &[u16],
    h: &[u16],
    values: &[u16],
    phi: &[u16],
    h2: &[u16],
    values2: &[u16],
) -> Result<(), Refusal>
    ensures { refused_by result ≡ refusal (judge_mapped_rules (setup_of s matrix.now) h.now values.now phi.now h2.now values2.now) }
{
    let l = s.l as usize;
    scheme::check_matrix_len(s, matrix.len())?;
    judging::check_received_sizes(s, h, values)?;
    scheme::check_size(phi.len(), l * l)?;
    judging::check_received_sizes(s, h2, values2)?;
    scheme::check_elements(s.p, matrix)?;
    judging::check_received_elements(s.p, h, values)?;
    scheme::check_elements(s.p, phi)?;
    judging::check_received_elements(s.p, h2, values2)
}

// The lowest holder whose value differs from what is due in either dealing, or n where none does.
fn lowest_in_either(
    s: Params,
    matrix: &[u16],
    h: &[u16],
    values: &[u16],
    h2: &[u16],
    values2: &[u16],
) -> u16
    requires { (refusal (judge_rules (setup_of s matrix.now) h.now values.now) ≡ 0) × (refusal (judge_rules (setup_of s matrix.now) h2.now values2.now) ≡ 0) }
    ensures { result ≡ first (differs_in (setup_of s matrix.now) h.now values.now h2.now values2.now) s.n }
{
    let i = judging::lowest_that_differs(s, matrix, h, values);
    let j = judging::lowest_that_differs(s, matrix, h2, values2);
    if i <= j {
        return i;
    }
    j
}

// Are the first ℓ entries of h2 the map of those of h?
fn map_holds(s: Params, h: &[u16], phi: &[u16], h2: &[u16]) -> bool
    requires { (0 < s.p) × (s.l * s.l ≤ length phi.now) × (s.l ≤ length h.now) × (s.l ≤ length h2.now) }
    ensures { result ≡ map_holds (setup_of s []) h.now phi.now h2.now }
{
    let l = s.l as usize;
    for k in 0..l {
        let due = judging::rows_product(s.p, l, phi, k, h, 0);
        if h2[k] != due {
            return false;
        }
    }
    true
}

// A holder's judgement of two dealings tied by the map φ, from inputs that are in order.
pub fn judgement_mapped(
    s: Params,
    matrix: &[u16],
    h: &[u16],
    values: &[u16],
    phi: &[u16],
    h2: &[u16],
    values2: &[u16],
) -> Judgement
    requires { refusal (judge_mapped_rules (setup_of s matrix.now) h.now values.now phi.now h2.now values2.now) ≡ 0 }
    ensures { result ≡ judgement_mapped (setup_of s matrix.now) h.now values.now phi.now h2.now values2.now }
{
    let n = s.n;
    let j = lowest_in_either(s, matrix, h, values, h2, values2);
    if j < n {
        return Judgement::Reject(j);
    }
    if map_holds(s, h, phi, h2) {
        return Judgement::Accept;
    }
    Judgement::RejectMap
}

// That judgement, or what refuses the inputs.
pub fn judge_mapped(
    s: Params,
    matrix: &[u16],
    h: &[u16],
    values: &[u16],
    phi: &[u16],
    h2: &[u16],
    values2: &[u16],
) -> Result<Judgement, Refusal>
    ensures { paper_judged result ≡ judge_mapped_call (setup_of s matrix.now) h.now values.now phi.now h2.now values2.now }
{
    check_judge_mapped(s, matrix, h, values, phi, h2, values2)?;
    Ok(judgement_mapped(s, matrix, h, values, phi, h2, values2))
}
