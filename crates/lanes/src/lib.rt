// Arithmetic in lanes: arrays of 8, 16 or 32 numbers, worked on side by side and without a division. Entries are below 257, and remainders modulo 257.
#![tactic(auto)]

ghost use Rattle.std.specs.Prelude.{◌≡◌, ◌+◌, ◌*◌, ◌/◌, ◌%◌, ◌<◌, ◌≤◌, length, get_or};
ghost use Rattle.base.specs.Fill.{tab};
ghost use Rattle.base.specs.Matrix.{Below};

use std::array;

// PRODUCTS
// a b modulo 257: 65536 is 1 modulo 257, so the halves of the product are added.
pub fn times(a: u16, b: u16) -> u16
    requires { (a ≤ 256) × (b ≤ 256) }
    ensures { result ≡ a * b % 257 }
{
    let (low, high) = a.carrying_mul(b, 0);
    (low + high) % 257
}

// The products of 16 lanes.
pub fn times16(a: [u16; 16], b: [u16; 16]) -> [u16; 16]
    requires below { Below 257 a }
    requires below_2 { Below 257 b }
    ensures { result ≡ tab 16 (λ i. get_or a i 0 * get_or b i 0 % 257) }
{
    array::from_fn(|i| times(a[i], b[i]))
}

// SUMS OF 32 BITS
// A product is added. The remainders by 512 change nothing; they tell the compiler that the factors are small.
pub fn plus(sum: u32, x: u16, y: u16) -> u32
    requires { (sum < 1048577) × (x < 257) × (y < 257) }
    ensures { result ≡ sum + x * y }
{
    sum + u32::from(x % 512) * u32::from(y % 512)
}

// x times a is added in 16 lanes.
pub fn add16(sums: [u32; 16], x: u16, a: [u16; 16]) -> [u32; 16]
    requires x_bound { x ≤ 256 }
    requires below { Below 1048577 sums }
    requires below_2 { Below 257 a }
    ensures { result ≡ tab 16 (λ i. get_or sums i 0 + x * get_or a i 0) }
{
    array::from_fn(|i| plus(sums[i], x, a[i]))
}

// x times eight entries of a, from `at` on, is added in 8 lanes.
pub fn add8(sums: [u32; 8], x: u16, a: &[u16], at: usize) -> [u32; 8]
    requires x_bound { (x ≤ 256) × (at + 8 ≤ length a.now) }
    requires below { Below 1048577 sums }
    requires below_2 { Below 257 a.now }
    ensures { result ≡ tab 8 (λ t. get_or sums t 0 + x * get_or a.now (at + t) 0) }
{
    array::from_fn(|t| sums[t] + u32::from(x) * u32::from(a[at + t]))
}

// A sum of at most 16 products modulo 257: 256 is -1 modulo 257, and 4112 is 16 times 257.
fn folded(s: u32) -> u16
    requires { s < 1048577 }
    ensures { result ≡ s % 257 }
{
    ((s % 256 + 4112 - s / 256) as u16) % 257
}

// Sums modulo 257 in 16 lanes.
pub fn folded16(s: [u32; 16]) -> [u16; 16]
    requires { Below 1048577 s }
    ensures { result ≡ tab 16 (λ i. get_or s i 0 % 257) }
{
    array::from_fn(|i| folded(s[i]))
}

// SUMS OF 16 BITS, of products with numbers of at most 16
// A product of at most 4096 is added.
fn more(y: u16, x: u16, z: u16) -> u16
    requires { (y < 61440) × (x ≤ 256) × (z < 17) }
    ensures { result ≡ y + x * z }
{
    y + x * z
}

// x times a is added in 32 lanes.
pub fn add32(sums: [u16; 32], x: u16, a: [u16; 32]) -> [u16; 32]
    requires x_bound { x ≤ 256 }
    requires below { Below 61440 sums }
    requires below_2 { Below 17 a }
    ensures { result ≡ tab 32 (λ i. get_or sums i 0 + x * get_or a i 0) }
{
    array::from_fn(|i| more(sums[i], x, a[i]))
}

// A sum of products from the sum u of those with remainders by 16 and the sum v of those with quotients by 16.
fn joined(u: u16, v: u16) -> u16
    requires { u < 61440 }
    ensures { result ≡ (u + 16 * v) % 257 }
{
    (v % 257 * 16 + u) % 257
}

// So joined in 16 lanes: the sums u stand in the first 16, the sums v in the last.
pub fn joined16(sums: [u16; 32]) -> [u16; 16]
    requires { Below 61440 sums }
    ensures { result ≡ tab 16 (λ i. (get_or sums i 0 + 16 * get_or sums (16 + i) 0) % 257) }
{
    array::from_fn(|i| joined(sums[i], sums[16 + i]))
}
