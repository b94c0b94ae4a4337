// Lagrange's weights for the openings of a board key (p 257, ℓ 4, e 3, n 16, points matrix), from the first seven members of a set, and the four columns'
// shares times these weights. A depot stands in each lane; depot i's point is 7 + i.
#![tactic(auto)]

ghost use Rattle.std.specs.Prelude.{◌≡◌, ◌+◌, ◌*◌, ◌%◌, ◌<◌, ◌≤◌, length};
ghost use Rattle.base.specs.Fill.{tab};
ghost use Rattle.base.specs.Matrix.{Below};
ghost use Rattle.field.specs.Dot.{at};
ghost use Rattle.polynomial.specs.Polynomial.{prod};
ghost use Rattle.key_weights.specs.Inner.{Depots, away, behind, placed_at, scaled_at};

// WEIGHTS
// 1 / (i - j) for every depot i, 1 for j itself.
pub fn away_from(inverses: &[u16; 31], j: usize) -> [u16; 16]
    requires { j < 16 }
    ensures { result ≡ tab 16 (away inverses.now j) }
{
    let from = 15 - j;
    let mut r = [0u16; 16];
    r.copy_from_slice(&inverses[from..from + 16]);
    r
}

// q - 7 - j modulo 257 for the positions q, once for each column.
#[tactic(auto, using(crate::proofs::Lanes::lanes_are))]
fn behind(j: u16) -> [u16; 16]
    requires { j < 16 }
    ensures { result ≡ tab 16 (behind j) }
{
    let mut r = [0u16; 16];
    for c in 0..16 {
        r[c] = 250 + ((c % 4) as u16) - j;
    }
    r
}

// inverses: for every depot i the product of 1 / (i - j) over the first seven members j other than i; products: for every position q, once for each
// column, the product of q - 7 - j.
#[derive(Clone, Copy)]
pub struct Weights {
    pub inverses: [u16; 16],
    pub products: [u16; 16],
}

pub fn weigh(inverses: &[u16; 31], members: &[u16]) -> Weights
    requires depots { Depots 7 members.now }
    requires below { Below 257 inverses.now }
    ensures inverses_value { result.inverses ≡ tab 16 (λ i. prod 7 (λ a. away inverses.now (at members.now a) i) % 257) }
    ensures products_value { result.products ≡ tab 16 (λ c. prod 7 (λ a. behind (at members.now a) c) % 257) }
{
    let mut x = [1u16; 16];
    let mut y = [1u16; 16];
    for &j in &members[..7] {
        let next_x = lanes::times16(x, away_from(inverses, usize::from(j)));
        let next_y = lanes::times16(y, behind(j));
        x = next_x;
        y = next_y;
    }
    Weights {
        inverses: x,
        products: y,
    }
}

// SHARES
// The first seven shares of the column that starts at `start`, each at its depot's place.
fn placed(shares: &[u16], start: usize, members: &[u16]) -> [u16; 16]
    requires start_in_bounds { start + 7 ≤ length shares.now }
    requires depots { Depots 7 members.now }
    ensures { result ≡ placed_at members.now shares.now start }
{
    let mut r = [0u16; 16];
    for (a, &j) in members[..7].iter().enumerate() {
        r[usize::from(j)] = shares[start + a];
    }
    r
}

// So for the four columns of k shares.
#[tactic(auto, using(crate::proofs::Lanes::columns_are))]
fn place(shares: &[u16], k: usize, members: &[u16]) -> [[u16; 16]; 4]
    requires le_k { (7 ≤ k) × (k ≤ 16) × (length shares.now ≡ 4 * k) }
    requires depots { Depots 7 members.now }
    ensures { result ≡ tab 4 (λ b. placed_at members.now shares.now (b * k)) }
{
    let mut r = [[0u16; 16]; 4];
    for b in 0..4 {
        r[b] = placed(shares, b * k, members);
    }
    r
}

// The four columns' shares times the depots' weights. All are placed before any is multiplied: the processor waits for a store that it reads in wider parts.
#[tactic(auto, using(crate::proofs::Lanes::columns_are))]
pub fn scale(shares: &[u16], k: usize, members: &[u16], weights: [u16; 16]) -> [[u16; 16]; 4]
    requires le_k { (7 ≤ k) × (k ≤ 16) × (length shares.now ≡ 4 * k) }
    requires depots { Depots 7 members.now }
    requires below { Below 257 shares.now }
    requires below_2 { Below 257 weights }
    ensures { result ≡ tab 4 (scaled_at members.now shares.now k weights) }
{
    let placed = place(shares, k, members);
    let mut r = [[0u16; 16]; 4];
    for b in 0..4 {
        r[b] = lanes::times16(placed[b], weights);
    }
    r
}
