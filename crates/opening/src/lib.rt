// Opening the shares of a set, an open call. It first works out its refusal by the table of scheme's specs/Calls.antt; where there is none it
// eliminates the members' rows beside the shares, in buffers of its own, and reads the answer off.
#![tactic(auto)]

ghost use Rattle.std.specs.Prelude.{◌≡◌, ◌+◌, length};
ghost use Rattle.base.specs.Rules.{refusal};
ghost use Rattle.base.specs.Refusals.{refused_by};
ghost use Rattle.scheme.specs.Setup.{setup_of};
ghost use Rattle.scheme.specs.Answers.{paper_opened};
ghost use Rattle.scheme.specs.Sets.{holds, members};
ghost use Rattle.scheme.specs.Calls.{open_rules, open_call, open_left};
ghost use Rattle.set_systems.specs.Inner.{Fresh};
ghost use Rattle.opening.specs.Inner.{OpenTaken, OpenedAs};

use base::Refusal;
use scheme::{NotOpened, Params};

fn check_open(
    s: Params,
    matrix: &[u16],
    set: u32,
    shares: &[u16],
    rounds: &[u16],
    secrets: &[u16],
) -> Result<(), Refusal>
    ensures { refused_by result ≡ refusal (open_rules (setup_of s matrix.now) set shares.now rounds.now secrets.now) }
{
    scheme::check_matrix_len(s, matrix.len())?;
    let k = set_systems::size(set);
    scheme::check_size(shares.len(), k)?;
    scheme::check_size(rounds.len(), k)?;
    scheme::check_size(secrets.len(), s.l as usize)?;
    scheme::check_elements(s.p, matrix)?;
    scheme::check_elements(s.p, shares)?;
    base::refuse_if(set_systems::beyond(s.n, set), Refusal::Range)?;
    scheme::check_rounds(rounds)
}

// Opens from inputs that are in order, in lent buffers: every share is an equation.
fn open_by(
    s: Params,
    matrix: &[u16],
    set: u32,
    shares: &[u16],
    secrets: &mut [u16],
    a: &mut [u16],
    used: &mut [u16],
) -> Result<(), NotOpened>
    requires open_taken { OpenTaken (setup_of s matrix.now) set shares.now secrets.old }
    requires fresh { Fresh (length (members 32 (holds set))) (s.l + s.e + 1) a.old used.old }
    ensures { OpenedAs (setup_of s matrix.now) set shares.now secrets.old (paper_opened result) secrets.new }
{
    let k = shares.len();
    let q = set_systems::reduce_beside(s, matrix, set, shares, a, used);
    if q < (s.l as usize) {
        let position = q as u16;
        return Err(NotOpened::Undetermined(position));
    }
    let d = s.dim();
    if read_off::unsolved(a, used, k, d + 1, d) < k {
        return Err(NotOpened::Inconsistent);
    }
    read_off::solution(a, used, k, d + 1, d, secrets);
    Ok(())
}

// Opens the shares of a set, by rising holder, which come with their rounds, into ℓ secrets.
pub fn open(
    s: Params,
    matrix: &[u16],
    set: u32,
    shares: &[u16],
    rounds: &[u16],
    secrets: &mut [u16],
) -> Result<(), NotOpened>
    ensures result_value { paper_opened result ≡ open_call (setup_of s matrix.now) set shares.now rounds.now secrets.old }
    ensures secrets_after { secrets.new ≡ open_left (setup_of s matrix.now) set shares.now rounds.now secrets.old }
{
    check_open(s, matrix, set, shares, rounds, secrets)?;
    let mut buffer = [0u16; 544];
    let mut marks = [0u16; 32];
    let k = shares.len();
    let end = k * (s.dim() + 1);
    open_by(
        s,
        matrix,
        set,
        shares,
        secrets,
        &mut buffer[..end],
        &mut marks[..k],
    )
}
