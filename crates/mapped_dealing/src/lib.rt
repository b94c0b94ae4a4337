// Dealing with a map: a dealing and a second one, whose array is the map of the first, to one holder and to all. Each call first works out its refusal by
// the table of scheme's specs/Calls.antt; where there is none it works on inputs that are in order. The work neither branches on nor indexes by a secret or a
// random entry.
#![tactic(auto)]

ghost use Rattle.std.specs.Prelude.{◌≡◌, [], ◌∷◌, ◌+◌, ◌*◌};
ghost use Rattle.base.specs.Rules.{refusal};
ghost use Rattle.base.specs.Refusals.{refused_by};
ghost use Rattle.base.specs.Fill.{filled, laid};
ghost use Rattle.base.specs.Matrix.{flat};
ghost use Rattle.scheme.specs.Setup.{setup_of};
ghost use Rattle.scheme.specs.Answers.{paper_written};
ghost use Rattle.scheme.specs.Dealing.{mapped_entry};
ghost use Rattle.scheme.specs.Calls.{sizes, beyond_field, table, room, buffers, mapped_lent, deal_mapped_call, deal_mapped_left, deal_mapped_all_call, deal_mapped_all_left};
ghost use Rattle.parts.specs.Inner.{line_entry};
ghost use Rattle.dealing.specs.Inner.{sized};
ghost use Rattle.mapped_dealing.specs.Inner.{RowRoom, MappedRoom};

use base::Refusal;
use scheme::Params;

// F_φ
// Row k of F_φ, for k below ℓ: the products of row k of φ and the first ℓ entries of d lines of F. Line b starts at b * apart and goes on by `step`.
#[tactic(auto, unfolding(base::specs::Fill::laid, parts::specs::Inner::line_entry))]
fn map_row(
    p: u16,
    l: usize,
    d: usize,
    phi: &[u16],
    k: usize,
    f: &[u16],
    apart: usize,
    step: usize,
    f2: &mut [u16],
)
    requires { RowRoom p l d phi.now k f.now apart step f2.old }
    ensures { f2.new ≡ laid (line_entry p l phi.now f.now apart step k) (k * d) d f2.old }
{
    for b in 0..d {
        f2[k * d + b] = field::dot_product(p, l, phi, k * l, f, b * apart, step);
    }
}

// F_φ by rows, into the first d * d places of f2: the first ℓ entries of each column are the map of those of F's column, and the rows below are the second
// random entries.
fn fill_mapped(s: Params, phi: &[u16], random2: &[u16], f: &[u16], f2: &mut [u16])
    requires { MappedRoom s.p s.l s.e phi.now random2.now f.now f2.old }
    ensures { f2.new ≡ filled (flat (s.l + s.e) (mapped_entry (sized s.p s.l s.e) f.now phi.now random2.now)) ((s.l + s.e) * (s.l + s.e)) f2.old }
{
    let p = s.p;
    let l = s.l as usize;
    let e = s.e as usize;
    let d = l + e;
    for k in 0..l {
        map_row(p, l, d, phi, k, f, 1, d, f2);
    }
    dealing::copy(random2, 0, 1, e * d, f2, l * d);
}

// DEAL WITH A MAP
// Refusal 3 of the four buffers of a dealing with a map, by their lengths.
fn check_buffers(needed: usize, g: usize, h: usize, g2: usize, h2: usize) -> Result<(), Refusal>
    ensures { refused_by result ≡ refusal (sizes (room g needed ∷ room h needed ∷ room g2 needed ∷ room h2 needed ∷ [])) }
{
    scheme::check_size(g, needed)?;
    scheme::check_size(h, needed)?;
    scheme::check_size(g2, needed)?;
    scheme::check_size(h2, needed)
}

// Refusal 4: of the matrix and the map, which are public, and of the secret lists together, so that one branch depends on them.
fn check_elements(
    p: u16,
    matrix: &[u16],
    secrets: &[u16],
    random: &[u16],
    phi: &[u16],
    random2: &[u16],
) -> Result<(), Refusal>
    ensures { refused_by result ≡ refusal (beyond_field p matrix.now ∷ beyond_field p secrets.now ∷ beyond_field p random.now ∷ beyond_field p phi.now ∷ beyond_field p random2.now ∷ []) }
{
    scheme::check_elements(p, matrix)?;
    scheme::check_elements(p, phi)?;
    let bound = dealing::secret_bound(secrets, random).max(base::bound(random2));
    base::refuse_if(u32::from(p) < bound, Refusal::Element)
}

// Refusals 1 to 4 of the calls that deal with a map, with the lengths of the four buffers: the calls differ in the length needed. It is inlined, since a call's
// answer is asked again behind the work, by one more branch that depends on the secret lists.
#[inline(always)]
fn check_mapped(
    s: Params,
    matrix: &[u16],
    secrets: &[u16],
    random: &[u16],
    phi: &[u16],
    random2: &[u16],
    needed: usize,
    g: usize,
    h: usize,
    g2: usize,
    h2: usize,
) -> Result<(), Refusal>
    ensures { refused_by result ≡ refusal (table (setup_of s matrix.now) (mapped_lent (setup_of s matrix.now) secrets.now random.now phi.now random2.now needed g h g2 h2) []) }
{
    let l = s.l as usize;
    dealing::check_input_sizes(s, matrix, secrets, random)?;
    scheme::check_size(phi.len(), l * l)?;
    scheme::check_size(random2.len(), (s.e as usize) * s.dim())?;
    check_buffers(needed, g, h, g2, h2)?;
    check_elements(s.p, matrix, secrets, random, phi, random2)
}

// A holder's part of a dealing, and its part of the second dealing, whose array is the map of the first.
pub fn deal_mapped(
    s: Params,
    matrix: &[u16],
    secrets: &[u16],
    random: &[u16],
    phi: &[u16],
    random2: &[u16],
    holder: u16,
    g: &mut [u16],
    h: &mut [u16],
    g2: &mut [u16],
    h2: &mut [u16],
) -> Result<(), Refusal>
    ensures result_value { paper_written result ≡ deal_mapped_call (setup_of s matrix.now) secrets.now random.now phi.now random2.now holder (buffers g.old h.old g2.old h2.old) }
    ensures h2_after { buffers g.new h.new g2.new h2.new ≡ deal_mapped_left (setup_of s matrix.now) secrets.now random.now phi.now random2.now holder (buffers g.old h.old g2.old h2.old) }
{
    let d = s.dim();
    check_mapped(
        s,
        matrix,
        secrets,
        random,
        phi,
        random2,
        d,
        g.len(),
        h.len(),
        g2.len(),
        h2.len(),
    )?;
    base::refuse_if(s.n <= holder, Refusal::Range)?;
    let mut f = [0u16; 256];
    dealing::fill_dealt(s, secrets, random, &mut f);
    let mut f2 = [0u16; 256];
    fill_mapped(s, phi, random2, &f, &mut f2);
    dealing::write_part(s, matrix, &f, holder, g, h);
    dealing::write_part(s, matrix, &f2, holder, g2, h2);
    Ok(())
}

// Every holder's part of both dealings.
pub fn deal_mapped_all(
    s: Params,
    matrix: &[u16],
    secrets: &[u16],
    random: &[u16],
    phi: &[u16],
    random2: &[u16],
    gs: &mut [u16],
    hs: &mut [u16],
    gs2: &mut [u16],
    hs2: &mut [u16],
) -> Result<(), Refusal>
    ensures result_value { paper_written result ≡ deal_mapped_all_call (setup_of s matrix.now) secrets.now random.now phi.now random2.now (buffers gs.old hs.old gs2.old hs2.old) }
    ensures hs2_after { buffers gs.new hs.new gs2.new hs2.new ≡ deal_mapped_all_left (setup_of s matrix.now) secrets.now random.now phi.now random2.now (buffers gs.old hs.old gs2.old hs2.old) }
{
    let size = s.matrix_len();
    check_mapped(
        s,
        matrix,
        secrets,
        random,
        phi,
        random2,
        size,
        gs.len(),
        hs.len(),
        gs2.len(),
        hs2.len(),
    )?;
    let d = s.dim();
    let n = s.n as usize;
    let mut f = [0u16; 256];
    dealing::fill_dealt(s, secrets, random, &mut f);
    let mut f2 = [0u16; 256];
    fill_mapped(s, phi, random2, &f, &mut f2);
    parts::write_all(s.p, d, n, matrix, &f, gs, hs);
    parts::write_all(s.p, d, n, matrix, &f2, gs2, hs2);
    Ok(())
}
