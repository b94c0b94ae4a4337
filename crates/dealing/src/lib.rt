// Dealing to one holder and to all: the open calls. Each first works out its refusal by the table of scheme's specs/Calls.antt; where there is none it
// works on inputs that are in order. The work neither branches on nor indexes by a secret or a random entry.
#![tactic(auto)]

ghost use Rattle.std.specs.Prelude.{◌≡◌, ◌&&◌, [], ◌++◌, ℕ, ◌+◌, ◌-◌, ◌*◌, ◌<◌, ◌≤◌, leb, length};
ghost use Rattle.base.specs.Rules.{refusal};
ghost use Rattle.base.specs.Refusals.{refused_by};
ghost use Rattle.base.specs.Fill.{filled, laid};
ghost use Rattle.base.specs.Matrix.{flat, all_below};
ghost use Rattle.field.specs.Dot.{along};
ghost use Rattle.scheme.specs.Setup.{setup_of};
ghost use Rattle.scheme.specs.Answers.{paper_written};
ghost use Rattle.scheme.specs.Dealing.{dealt_entry, part_g, part_h};
ghost use Rattle.scheme.specs.Calls.{limits, sizes, in_field, deal_lent, deal_rules, deal_call, deal_left_g, deal_left_h, deal_all_rules, deal_all_call, deal_all_left_g, deal_all_left_h};
ghost use Rattle.dealing.specs.Inner.{sized, DealtRoom, HolderRoom};

use base::Refusal;
use scheme::Params;

// F
// `count` entries of `from`, `step` apart from place `start` on, into `out` from place `at` on.
#[tactic(auto, unfolding(base::specs::Fill::laid))]
pub fn copy(from: &[u16], start: usize, step: usize, count: usize, out: &mut [u16], at: usize)
    requires count_in_bounds { at + count ≤ length out.old }
    requires by_index { (k : ℕ) → k < count → start + k * step < length from.now }
    ensures { out.new ≡ laid (along from.now start step) at count out.old }
{
    for k in 0..count {
        out[at + k] = from[start + k * step];
    }
}

// F by rows, into the first d * d places of f: each row below ℓ is position k of every secret vector and then e random entries; the rows below it
// are the random entries that are left.
pub fn fill_dealt(s: Params, secrets: &[u16], random: &[u16], f: &mut [u16])
    requires { DealtRoom s.l s.e secrets.now random.now f.old }
    ensures { f.new ≡ filled (flat (s.l + s.e) (dealt_entry (sized 0 s.l s.e) secrets.now random.now)) ((s.l + s.e) * (s.l + s.e)) f.old }
{
    let l = usize::from(s.l);
    let e = usize::from(s.e);
    let d = l + e;
    for k in 0..l {
        copy(secrets, k, l, l, f, k * d);
        copy(random, k * e, 1, e, f, k * d + l);
    }
    copy(random, l * e, 1, e * d, f, l * d);
}

// DEAL
// The length of the random entries: d * d - ℓ * ℓ.
fn random_len(s: Params) -> usize
    ensures { result ≡ (s.l + s.e) * (s.l + s.e) - s.l * s.l }
{
    let l = usize::from(s.l);
    let d = s.dim();
    d * d - l * l
}

// Refusals 1 to 3 of what both calls take.
pub fn check_input_sizes(
    s: Params,
    matrix: &[u16],
    secrets: &[u16],
    random: &[u16],
) -> Result<(), Refusal>
    ensures { refused_by result ≡ refusal (limits (setup_of s []) ++ sizes (deal_lent (setup_of s matrix.now) secrets.now random.now)) }
{
    let l = s.l as usize;
    scheme::check_matrix_len(s, matrix.len())?;
    scheme::check_size(secrets.len(), l * l)?;
    scheme::check_size(random.len(), random_len(s))
}

// The bound of the secret and the random entries together: what is tested of it is one branch that depends on them.
pub fn secret_bound(secrets: &[u16], random: &[u16]) -> u32
    ensures { (p : ℕ) → leb result p ≡ (all_below p secrets.now && all_below p random.now) }
{
    base::bound(secrets).max(base::bound(random))
}

// Refusal 4 of what both calls take.
pub fn check_input_elements(
    s: Params,
    matrix: &[u16],
    secrets: &[u16],
    random: &[u16],
) -> Result<(), Refusal>
    ensures { refused_by result ≡ refusal (in_field s.p (deal_lent (setup_of s matrix.now) secrets.now random.now)) }
{
    scheme::check_elements(s.p, matrix)?;
    base::refuse_if(
        u32::from(s.p) < secret_bound(secrets, random),
        Refusal::Element,
    )
}

fn check_deal(
    s: Params,
    matrix: &[u16],
    secrets: &[u16],
    random: &[u16],
    holder: u16,
    g: &[u16],
    h: &[u16],
) -> Result<(), Refusal>
    ensures { refused_by result ≡ refusal (deal_rules (setup_of s matrix.now) secrets.now random.now holder g.now h.now) }
{
    let d = s.dim();
    check_input_sizes(s, matrix, secrets, random)?;
    scheme::check_size(g.len(), d)?;
    scheme::check_size(h.len(), d)?;
    check_input_elements(s, matrix, secrets, random)?;
    base::refuse_if(s.n <= holder, Refusal::Range)
}

// A holder's part: its h along the rows of F, then its g along the columns.
pub fn write_part(s: Params, matrix: &[u16], f: &[u16], holder: u16, g: &mut [u16], h: &mut [u16])
    requires { HolderRoom (setup_of s matrix.now) f.now holder g.old h.old }
    ensures g_after { g.new ≡ part_g (setup_of s matrix.now) f.now holder }
    ensures h_after { h.new ≡ part_h (setup_of s matrix.now) f.now holder }
{
    let d = s.dim();
    parts::write_one(s.p, d, matrix, holder as usize, f, d, 1, h, 0);
    parts::write_one(s.p, d, matrix, holder as usize, f, 1, d, g, 0);
}

// A holder's part of a dealing.
pub fn deal(
    s: Params,
    matrix: &[u16],
    secrets: &[u16],
    random: &[u16],
    holder: u16,
    g: &mut [u16],
    h: &mut [u16],
) -> Result<(), Refusal>
    ensures result_value { paper_written result ≡ deal_call (setup_of s matrix.now) secrets.now random.now holder g.old h.old }
    ensures g_after { g.new ≡ deal_left_g (setup_of s matrix.now) secrets.now random.now holder g.old h.old }
    ensures h_after { h.new ≡ deal_left_h (setup_of s matrix.now) secrets.now random.now holder g.old h.old }
{
    check_deal(s, matrix, secrets, random, holder, g, h)?;
    let mut f = [0u16; 256];
    fill_dealt(s, secrets, random, &mut f);
    write_part(s, matrix, &f, holder, g, h);
    Ok(())
}

// DEAL TO ALL
fn check_deal_all(
    s: Params,
    matrix: &[u16],
    secrets: &[u16],
    random: &[u16],
    gs: &[u16],
    hs: &[u16],
) -> Result<(), Refusal>
    ensures { refused_by result ≡ refusal (deal_all_rules (setup_of s matrix.now) secrets.now random.now gs.now hs.now) }
{
    let size = s.matrix_len();
    check_input_sizes(s, matrix, secrets, random)?;
    scheme::check_size(gs.len(), size)?;
    scheme::check_size(hs.len(), size)?;
    check_input_elements(s, matrix, secrets, random)
}

// Every holder's part of a dealing: the inputs are checked and F is made once.
pub fn deal_all(
    s: Params,
    matrix: &[u16],
    secrets: &[u16],
    random: &[u16],
    gs: &mut [u16],
    hs: &mut [u16],
) -> Result<(), Refusal>
    ensures result_value { paper_written result ≡ deal_all_call (setup_of s matrix.now) secrets.now random.now gs.old hs.old }
    ensures gs_after { gs.new ≡ deal_all_left_g (setup_of s matrix.now) secrets.now random.now gs.old hs.old }
    ensures hs_after { hs.new ≡ deal_all_left_h (setup_of s matrix.now) secrets.now random.now gs.old hs.old }
{
    check_deal_all(s, matrix, secrets, random, gs, hs)?;
    let d = s.dim();
    let mut f = [0u16; 256];
    fill_dealt(s, secrets, random, &mut f);
    parts::write_all(s.p, d, s.n as usize, matrix, &f, gs, hs);
    Ok(())
}
