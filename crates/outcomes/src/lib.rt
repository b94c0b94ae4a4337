// The outcome of a dealing, from the verdicts of all holders, and the shares of one that is kept. The call first works out its refusal by the table of scheme's
// specs/Calls.antt; where there is none it works on inputs that are in order.
#![tactic(auto)]

ghost use Rattle.std.specs.Prelude.{◌≡◌, [], ◌≤◌, length, take};
ghost use Rattle.base.specs.Rules.{refusal};
ghost use Rattle.base.specs.Refusals.{refused_by};
ghost use Rattle.base.specs.Search.{first};
ghost use Rattle.scheme.specs.Setup.{setup_of};
ghost use Rattle.scheme.specs.Answers.{paper_settled};
ghost use Rattle.scheme.specs.Dealing.{said_reject, fate_of};
ghost use Rattle.scheme.specs.Calls.{outcome_rules, outcome_call, outcome_left};

use base::Refusal;
use scheme::{Fate, Params};

fn check_outcome(s: Params, g: &[u16], verdicts: &[u16], shares: &[u16]) -> Result<(), Refusal>
    ensures { refused_by result ≡ refusal (outcome_rules (setup_of s []) g.now verdicts.now shares.now) }
{
    scheme::check_limits(s)?;
    scheme::check_size(g.len(), s.dim())?;
    scheme::check_size(verdicts.len(), s.n as usize)?;
    scheme::check_size(shares.len(), s.l as usize)?;
    scheme::check_elements(s.p, g)?;
    base::refuse_if(!base::all_below(verdicts, 2), Refusal::NoVerdict)
}

// The lowest of n holders that said reject, or n where none did.
fn lowest_reject(n: u16, verdicts: &[u16]) -> u16
    requires { n ≤ length verdicts.now }
    ensures { result ≡ first (said_reject verdicts.now) n }
{
    for i in 0..n {
        if verdicts[i as usize] != 1 {
            return i;
        }
    }
    n
}

// What became of a dealing, from the n verdicts received.
pub fn fate(s: Params, verdicts: &[u16]) -> Fate
    requires { s.n ≤ length verdicts.now }
    ensures { result ≡ fate_of (setup_of s []) verdicts.now }
{
    let n = s.n;
    let i = lowest_reject(n, verdicts);
    if i < n {
        return Fate::Aborted(i);
    }
    Fate::Kept
}

// The first entries of g, as many as there are shares.
fn keep_shares(g: &[u16], shares: &mut [u16])
    requires { length shares.old ≤ length g.now }
    ensures { shares.new ≡ take (length shares.old) g.now }
{
    // By an index: the slice's own copy asks an archive's user for `memmove`.
    let len = shares.len();
    for b in 0..len {
        shares[b] = g[b];
    }
}

// The outcome from the n verdicts received; where the dealing is kept, the first ℓ entries of the row part g are the shares.
pub fn outcome(s: Params, g: &[u16], verdicts: &[u16], shares: &mut [u16]) -> Result<Fate, Refusal>
    ensures answer { paper_settled result ≡ outcome_call (setup_of s []) g.now verdicts.now shares.old }
    ensures left { shares.new ≡ outcome_left (setup_of s []) g.now verdicts.now shares.old }
{
    check_outcome(s, g, verdicts, shares)?;
    let fate = fate(s, verdicts);
    if let Fate::Kept = fate {
        keep_shares(g, shares);
    }
    Ok(fate)
}
