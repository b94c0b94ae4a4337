// Combinations and refreshes of one holder's shares, open calls. What each refuses and answers is said by the table of scheme's specs/Calls.antt.
#![tactic(auto)]

ghost use Rattle.std.specs.Prelude.{◌≡◌, ◌≤◌, eqb, length};
ghost use Rattle.base.specs.Rules.{refusal};
ghost use Rattle.base.specs.Refusals.{refused_by};
ghost use Rattle.base.specs.Search.{every};
ghost use Rattle.field.specs.Dot.{at, dot};
ghost use Rattle.scheme.specs.Answers.{paper_share};
ghost use Rattle.scheme.specs.Calls.{combine_rules, combine_call, refresh_rules, refresh_call};
ghost use Rattle.combining.specs.Inner.{even, as_long};

use base::Refusal;
use scheme::Share;

// COMBINE
// `combine` looks for anything odd in one pass, and works the table out only where there is something.
fn check_combine(p: u16, constants: &[u16], shares: &[u16], rounds: &[u16]) -> Result<(), Refusal>
    ensures { refused_by result ≡ refusal (combine_rules p constants.now shares.now rounds.now) }
{
    base::refuse_if(field::no_field(p), Refusal::NoField)?;
    scheme::check_size(shares.len(), constants.len())?;
    scheme::check_size(rounds.len(), constants.len())?;
    base::refuse_if(64 < constants.len(), Refusal::Length)?;
    scheme::check_elements(p, constants)?;
    scheme::check_elements(p, shares)?;
    scheme::check_rounds(rounds)
}

// Whether there are as many constants as shares and as rounds, and at most 64.
fn as_long(constants: &[u16], shares: &[u16], rounds: &[u16]) -> bool
    ensures { result ≡ as_long (length constants.now) (length shares.now) (length rounds.now) }
{
    if shares.len() != constants.len() {
        return false;
    }
    if rounds.len() != constants.len() {
        return false;
    }
    constants.len() <= 64
}

// 0 exactly where no entry of two lists is above `most` and every round is the one given, of lists that are all as long. No branch depends on an entry.
fn odd(most: u16, u: &[u16], v: &[u16], rounds: &[u16], round: u16) -> u16
    requires { (length v.now ≡ length u.now) × (length rounds.now ≡ length u.now) }
    ensures { eqb result 0 ≡ every (length u.now) (even most u.now v.now rounds.now round) }
{
    let mut odd = 0;
    for i in 0..u.len() {
        let a = u[i].saturating_sub(most);
        let b = v[i].saturating_sub(most);
        odd = odd | a | b | (rounds[i] ^ round);
    }
    odd
}

// The sum of the products, not yet reduced. A loop over an index: as a chain over pairs it made a combination of one term slower by a tenth or two.
fn products(constants: &[u16], shares: &[u16]) -> u64
    requires { (length shares.now ≡ length constants.now) × (length constants.now ≤ 64) }
    ensures { result ≡ dot (length constants.now) (at constants.now) (at shares.now) }
{
    let mut sum = 0;
    for k in 0..constants.len() {
        sum += base::at(constants, k) * base::at(shares, k);
    }
    sum
}

// The sum of the products of constants and one holder's shares, which come with their rounds: a share of that round. The test of the
// field stands beside the reduction, so that p is looked up once; a p of 0 wraps to the last number before it.
pub fn combine(p: u16, constants: &[u16], shares: &[u16], rounds: &[u16]) -> Result<Share, Refusal>
    ensures { paper_share result ≡ combine_call p constants.now shares.now rounds.now }
{
    if !as_long(constants, shares, rounds) {
        check_combine(p, constants, shares, rounds)?;
    }
    let round = scheme::round_of(rounds);
    let odd = odd(p.wrapping_sub(1), constants, shares, rounds, round);
    let sum = products(constants, shares);
    if odd != 0 {
        check_combine(p, constants, shares, rounds)?;
    }
    if field::no_field(p) {
        return Err(Refusal::NoField);
    }
    let value = field::residue(p, sum);
    Ok(Share { value, round })
}

// REFRESH
fn check_refresh(p: u16, share: u16, round: u16, zero: u16) -> Result<(), Refusal>
    ensures { refused_by result ≡ refusal (refresh_rules p share round zero) }
{
    base::refuse_if(field::no_field(p), Refusal::NoField)?;
    base::refuse_if(p <= share, Refusal::Element)?;
    base::refuse_if(p <= zero, Refusal::Element)?;
    base::refuse_if(65535 <= round, Refusal::LastRound)
}

// The share of the next round: the old share and a zero share of its column, added.
#[tactic(auto, unfolding(scheme::specs::Opening::refresh))]
pub fn refresh(p: u16, share: u16, round: u16, zero: u16) -> Result<Share, Refusal>
    ensures { paper_share result ≡ refresh_call p share round zero }
{
    check_refresh(p, share, round, zero)?;
    let value = field::residue(p, u64::from(share) + u64::from(zero));
    Ok(Share {
        value,
        round: round + 1,
    })
}
