// Corrections below zero as well as above, held as residues modulo 65521, and openings that read them back: the calls of document 02, A10. Each first
// works out its refusal by the table of specs/Calls.antt; 22, a correction or constant beyond the range, comes before all others.
#![tactic(auto)]

ghost use Rattle.std.specs.Prelude.{◌≡◌, true, [], ◌∷◌, ◌<◌, ltb, length};
ghost use Rattle.base.specs.Choice.{pick};
ghost use Rattle.base.specs.Rules.{refusal};
ghost use Rattle.base.specs.Refusals.{refused_by};
ghost use Rattle.base.specs.Matrix.{all_below};
ghost use Rattle.scheme.specs.Setup.{setup_of};
ghost use Rattle.scheme.specs.Answers.{paper_written, paper_share, paper_opened};
ghost use Rattle.signed.specs.Corrections.{in_range, all_in_range, residue, residues, correction, corrections};
ghost use Rattle.signed.specs.Calls.{beyond_range, other_field, hold_call, hold_left, read_rules, read_call, read_left, combine_signed_call, open_signed_call, open_signed_left};

use base::Refusal;
use scheme::{NotOpened, Params, Share};

// CORRECTIONS
// Whether a correction is from -32760 to 32760.
fn in_range(x: i32) -> bool
    ensures { result ≡ in_range x }
{
    (-32760..=32760).contains(&x)
}

// Whether all are. It reads the whole slice, so that it takes the same time for every content.
fn all_in_range(s: &[i32]) -> bool
    ensures { result ≡ all_in_range s.now }
{
    let mut all = true;
    for x in s {
        all &= in_range(*x);
    }
    all
}

// The remainder of a correction.
fn residue(x: i32) -> u16
    requires { in_range x ≡ true }
    ensures { result ≡ residue x }
{
    let above = (x + 65521) as u32;
    (above % 65521) as u16
}

// The correction that a residue is read back to.
fn correction(r: u16) -> i32
    requires { r < 65521 }
    ensures { result ≡ correction r }
{
    let x = i32::from(r);
    if x <= 32760 { x } else { x - 65521 }
}

// Refusal 1: another p.
fn check_field(p: u16) -> Result<(), Refusal>
    ensures { refused_by result ≡ refusal (other_field p ∷ []) }
{
    base::refuse_if(p != 65521, Refusal::NoField)
}

// Refusals 22 and 1, with which the calls that take corrections or constants begin.
fn check_first(p: u16, signed: &[i32]) -> Result<(), Refusal>
    ensures { refused_by result ≡ refusal (beyond_range signed.now ∷ other_field p ∷ []) }
{
    base::refuse_if(!all_in_range(signed), Refusal::Correction)?;
    check_field(p)
}

// HOLD
fn hold_all(integers: &[i32], held: &mut [u16])
    requires integers_value { all_in_range integers.now ≡ true }
    requires held_len { length held.old ≡ length integers.now }
    ensures { held.new ≡ residues integers.now }
{
    for (i, x) in integers.iter().enumerate() {
        held[i] = residue(*x);
    }
}

// Holds corrections as residues, which can be dealt.
pub fn hold(p: u16, corrections: &[i32], residues: &mut [u16]) -> Result<(), Refusal>
    ensures result_value { paper_written result ≡ hold_call p corrections.now residues.old }
    ensures residues_after { residues.new ≡ hold_left p corrections.now residues.old }
{
    check_first(p, corrections)?;
    scheme::check_size(residues.len(), corrections.len())?;
    hold_all(corrections, residues);
    Ok(())
}

// READ
fn read_all(held: &[u16], integers: &mut [i32])
    requires held_value { all_below 65521 held.now ≡ true }
    requires integers_len { length integers.old ≡ length held.now }
    ensures { integers.new ≡ corrections held.now }
{
    for (i, x) in held.iter().enumerate() {
        integers[i] = correction(*x);
    }
}

fn check_read(p: u16, residues: &[u16], corrections: &[i32]) -> Result<(), Refusal>
    ensures { refused_by result ≡ refusal (read_rules p residues.now corrections.now) }
{
    check_field(p)?;
    scheme::check_size(corrections.len(), residues.len())?;
    scheme::check_elements(p, residues)
}

// Reads residues back into corrections.
pub fn read(p: u16, residues: &[u16], corrections: &mut [i32]) -> Result<(), Refusal>
    ensures result_value { paper_written result ≡ read_call p residues.now corrections.old }
    ensures corrections_after { corrections.new ≡ read_left p residues.now corrections.old }
{
    check_read(p, residues, corrections)?;
    read_all(residues, corrections);
    Ok(())
}

// COMBINE
// The sum of the products of signed constants and one holder's shares, which come with their rounds: a share of that round.
pub fn combine(p: u16, constants: &[i32], shares: &[u16], rounds: &[u16]) -> Result<Share, Refusal>
    ensures { paper_share result ≡ combine_signed_call p constants.now shares.now rounds.now }
{
    check_first(p, constants)?;
    base::refuse_if(64 < constants.len(), Refusal::Length)?;
    let mut held = [0u16; 64];
    let k = constants.len();
    hold_all(constants, &mut held[..k]);
    combining::combine(p, &held[..k], shares, rounds)
}

// OPEN
// As many entries as are lent, and at most nine: more than any ℓ.
fn room_for(len: usize) -> usize
    ensures { result ≡ pick (ltb len 9) len 9 }
{
    len.min(9)
}

// Opens the shares of a set, by rising holder, which come with their rounds, into ℓ corrections.
pub fn open(
    s: Params,
    matrix: &[u16],
    set: u32,
    shares: &[u16],
    rounds: &[u16],
    corrections: &mut [i32],
) -> Result<(), NotOpened>
    ensures result_value { paper_opened result ≡ open_signed_call (setup_of s matrix.now) set shares.now rounds.now corrections.old }
    ensures corrections_after { corrections.new ≡ open_signed_left (setup_of s matrix.now) set shares.now rounds.now corrections.old }
{
    check_field(s.p)?;
    let mut secrets = [0u16; 9];
    let room = room_for(corrections.len());
    opening::open(s, matrix, set, shares, rounds, &mut secrets[..room])?;
    read_all(&secrets[..room], corrections);
    Ok(())
}
