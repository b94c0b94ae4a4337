// What the shares of a board key give (p 257, ℓ 4, e 3, n 16, points matrix), from inputs that are in order. A column's shares of the first seven members are
// the values at their points of one polynomial of degree below 7: its values at 0 to 3 are the positions, and each further share is held to its value. Both come by
// Lagrange's weights in the barycentric form, worked out once for all four columns, with a depot in each lane.
#![tactic(auto)]

ghost use Rattle.std.specs.Prelude.{◌≡◌, [], ◌+◌, ◌*◌, ◌^◌, ◌<◌, ◌≤◌, length, get_or};
ghost use Rattle.base.specs.Fill.{tab};
ghost use Rattle.base.specs.Matrix.{flat, Below};
ghost use Rattle.key_weights.specs.Inner.{Depots};
ghost use Rattle.key_values.specs.Inner.{Columns, Tables, Ready, shown, read_at, expected, agrees, Agreed, AllAgreed, depots, Interpolated};

// POSITIONS
// A column's product with row q of v.
fn dot(scaled: [u16; 16], v: &[u16; 64], q: usize) -> u32
    requires q_bound { q < 4 }
    requires below { Below 257 scaled }
    requires below_2 { Below 257 v.now }
    ensures { result ≡ shown scaled v.now q }
{
    let mut sum: u32 = 0;
    for i in 0..16 {
        sum = lanes::plus(sum, scaled[i], v[16 * q + i]);
    }
    sum
}

// The four columns' products with the four rows.
#[tactic(auto, using(key_weights::proofs::Lanes::lanes_are))]
fn sums(scaled: &[[u16; 16]; 4], v: &[u16; 64]) -> [u32; 16]
    requires columns { Columns scaled.now }
    requires below { Below 257 v.now }
    ensures { result ≡ tab 16 (flat 4 (λ b. shown (get_or scaled.now b []) v.now)) }
{
    let mut r = [0u32; 16];
    for c in 0..16 {
        r[c] = dot(scaled[c / 4], v, c % 4);
    }
    r
}

// The sixteen positions.
fn read(scaled: &[[u16; 16]; 4], v: &[u16; 64], products: [u16; 16]) -> [u16; 16]
    requires columns { Columns scaled.now }
    requires below { Below 257 v.now }
    requires below_2 { Below 257 products }
    ensures { result ≡ tab 16 (read_at scaled.now v.now products) }
{
    lanes::times16(lanes::folded16(sums(scaled, v)), products)
}

// FURTHER SHARES
// What every depot's share times its weight is, where it lies on the polynomial of the first seven members, whose shares times their weights `scaled` has.
fn expected(inverses: &[u16; 31], members: &[u16], scaled: [u16; 16]) -> [u16; 16]
    requires depots { Depots 7 members.now }
    requires below { Below 257 inverses.now }
    requires below_2 { Below 257 scaled }
    ensures { result ≡ tab 16 (expected inverses.now members.now scaled) }
{
    let mut sums = [0u32; 16];
    for &j in &members[..7] {
        let place = usize::from(j);
        let next = lanes::add16(sums, scaled[place], key_weights::away_from(inverses, place));
        sums = next;
    }
    lanes::folded16(sums)
}

// Whether the shares from the eighth on of the column that starts at `start`, times their depots' weights, are those expected.
fn agree(
    expected: [u16; 16],
    weights: [u16; 16],
    shares: &[u16],
    start: usize,
    members: &[u16],
    k: usize,
) -> bool
    requires le_k { (7 ≤ k) × (k ≤ 16) × (start ≤ 48) × (start + k ≤ length shares.now) }
    requires depots { Depots k members.now }
    requires below { Below 257 shares.now }
    requires below_2 { Below 257 weights }
    ensures { Agreed k (agrees expected weights shares.now start members.now) result }
{
    for x in 7..k {
        let i = usize::from(members[x]);
        if lanes::times(shares[start + x], weights[i]) != expected[i] {
            return false;
        }
    }
    true
}

// So for the four columns.
fn all_agree(
    inverses: &[u16; 31],
    weights: [u16; 16],
    scaled: &[[u16; 16]; 4],
    shares: &[u16],
    members: &[u16],
    k: usize,
) -> bool
    requires le_k { (7 ≤ k) × (k ≤ 16) × (length shares.now ≡ 4 * k) }
    requires depots { Depots k members.now }
    requires below { Below 257 inverses.now }
    requires below_2 { Below 257 weights }
    requires columns { Columns scaled.now }
    requires below_3 { Below 257 shares.now }
    ensures { AllAgreed k (λ b. agrees (tab 16 (expected inverses.now members.now (get_or scaled.now b []))) weights shares.now (b * k) members.now) result }
{
    if k == 7 {
        return true;
    }
    for (b, column) in scaled.iter().enumerate() {
        let wanted = expected(inverses, members, *column);
        if !agree(wanted, weights, shares, b * k, members, k) {
            return false;
        }
    }
    true
}

// THE FOUR COLUMNS
// The sixteen positions, `Ok` where every share lies on its column's polynomial and `Err` where one does not: from the tables and the members, of whom there are
// at least seven.
fn interpolate_by(
    inverses: &[u16; 31],
    positions: &[u16; 64],
    members: &[u16],
    shares: &[u16],
) -> Result<[u16; 16], [u16; 16]>
    requires tables { Tables inverses.now positions.now }
    requires ready { Ready members.now shares.now }
    ensures { Interpolated members.now shares.now result }
{
    let k = members.len();
    let w = key_weights::weigh(inverses, members);
    let scaled = key_weights::scale(shares, k, members, w.inverses);
    let values = read(&scaled, positions, w.products);
    if all_agree(inverses, w.inverses, &scaled, shares, members, k) {
        Ok(values)
    } else {
        Err(values)
    }
}

// What the shares of a set give, of at least seven of the sixteen depots.
pub fn interpolate(set: u32, shares: &[u16]) -> Result<[u16; 16], [u16; 16]>
    requires set_bound { set < 2 ^ 16 }
    requires in_bounds { (7 ≤ length (depots set)) × (length shares.now ≡ 4 * length (depots set)) }
    requires below { Below 257 shares.now }
    ensures { Interpolated (depots set) shares.now result }
{
    let mut members = [0u16; 32];
    let k = set_systems::walk(set, &mut members);
    interpolate_by(&INVERSES, &POSITIONS, &members[..k], shares)
}

// TABLES
// 1 / (i - j) at 15 + i - j, for depots i and j; 1 at 15.
const INVERSES: [u16; 31] = [
    137, // 1 / -15
    55, 79, 107, 70, 77, 57, 32, 110, 214, 154, 64, 171, 128, 256, 1, 1, 129, 86, 193, 103, 43,
    147, 225, 200, 180, 187, 150, 178, 202, 120,
];

// 1 / (q - 7 - i) at 16 q + i, for position q and depot i, whose point is 7 + i.
const POSITIONS: [u16; 64] = [
    110, 32, 57, 77, 70, 107, 79, 55, 137, 16, 136, 157, 27, 167, 208, 35, 214, 110, 32, 57, 77,
    70, 107, 79, 55, 137, 16, 136, 157, 27, 167, 208, 154, 214, 110, 32, 57, 77, 70, 107, 79, 55,
    137, 16, 136, 157, 27, 167, 64, 154, 214, 110, 32, 57, 77, 70, 107, 79, 55, 137, 16, 136, 157,
    27,
];
