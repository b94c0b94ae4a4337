// Prime fields: which there are, and the arithmetic that the layers above need; products of vectors.
#![tactic(auto)]

ghost use Rattle.std.specs.Prelude.{◌≡◌, not, ℕ, ◌+◌, ◌-◌, ◌*◌, ◌%◌, ◌<◌, ◌≤◌, length};
ghost use Rattle.field.specs.Prime.{Prime, Inverse, Inverses};
ghost use Rattle.field.specs.Fields.{is_field, field_answer, order_of, paper};
ghost use Rattle.field.specs.Dot.{dot, along};

use base::Refusal;

// A field, by its number of elements. The number is private: outside this crate the constructor alone gives a field.
#[derive(Clone, Copy)]
pub struct Field {
    p: u16,
}

impl Field {
    pub const P2: u16 = 2;

    pub const P7: u16 = 7;

    pub const P251: u16 = 251;

    pub const P257: u16 = 257;

    pub const P65521: u16 = 65521;

    pub fn new(p: u16) -> Result<Field, Refusal>
        ensures { paper result ≡ field_answer p }
    {
        match p {
            Field::P2 | Field::P7 | Field::P251 | Field::P257 | Field::P65521 => Ok(Field { p }),
            _ => Err(Refusal::NoField),
        }
    }

    // The number of elements.
    pub fn order(self) -> u16
        ensures { result ≡ order_of self }
    {
        self.p
    }
}

// Whether p is refused as a field: the test of refusal 1.
pub fn no_field(p: u16) -> bool
    ensures { result ≡ not (is_field p) }
{
    Field::new(p).is_err()
}

// The remainder of x by a constant, which needs no division.
fn remainder<const P: u16>(x: u64) -> u16
    requires { 0 < P }
    ensures { result ≡ x % P }
{
    (x % u64::from(P)) as u16
}

// The remainder of x.
pub fn residue(p: u16, x: u64) -> u16
    requires { 0 < p }
    ensures { result ≡ x % p }
{
    match p {
        Field::P2 => remainder::<2>(x),
        Field::P7 => remainder::<7>(x),
        Field::P251 => remainder::<251>(x),
        Field::P257 => remainder::<257>(x),
        Field::P65521 => remainder::<65521>(x),
        _ => (x % u64::from(p)) as u16,
    }
}

// The product of two elements.
pub fn product(p: u16, a: u16, b: u16) -> u16
    requires { 0 < p }
    ensures { result ≡ a * b % p }
{
    residue(p, u64::from(a) * u64::from(b))
}

// The negative of an element.
pub fn negative(p: u16, a: u16) -> u16
    requires { (0 < p) × (a ≤ p) }
    ensures { result ≡ (p - a) % p }
{
    (p - a) % p
}

// The product of d entries of u from u_at on and d entries of v from v_at on, v_step apart: summed in u64 and reduced once.
pub fn dot_product(
    p: u16,
    d: usize,
    u: &[u16],
    u_at: usize,
    v: &[u16],
    v_at: usize,
    v_step: usize,
) -> u16
    requires p_nonzero { (0 < p) × (d ≤ 65536) × (u_at + d ≤ length u.now) }
    requires by_index { (k : ℕ) → k < d → v_at + k * v_step < length v.now }
    ensures { result ≡ dot d (along u.now u_at 1) (along v.now v_at v_step) % p }
{
    let mut sum = 0;
    for k in 0..d {
        sum += base::at(u, u_at + k) * base::at(v, v_at + k * v_step);
    }
    residue(p, sum)
}

// The inverses modulo 257, with 0 at entry 0.
const INVERSES: [u16; 257] = [
    0, 1, 129, 86, 193, 103, 43, 147, 225, 200, 180, 187, 150, 178, 202, 120, 241, 121, 100, 230,
    90, 49, 222, 190, 75, 72, 89, 238, 101, 195, 60, 199, 249, 148, 189, 235, 50, 132, 115, 145,
    45, 163, 153, 6, 111, 40, 95, 175, 166, 21, 36, 126, 173, 97, 119, 243, 179, 248, 226, 61, 30,
    59, 228, 102, 253, 87, 74, 234, 223, 149, 246, 181, 25, 169, 66, 24, 186, 247, 201, 244, 151,
    165, 210, 96, 205, 127, 3, 65, 184, 26, 20, 209, 176, 152, 216, 46, 83, 53, 139, 135, 18, 28,
    63, 5, 215, 164, 177, 245, 188, 224, 250, 44, 218, 116, 124, 38, 113, 134, 159, 54, 15, 17,
    158, 140, 114, 220, 51, 85, 255, 2, 172, 206, 37, 143, 117, 99, 240, 242, 203, 98, 123, 144,
    219, 133, 141, 39, 213, 7, 33, 69, 12, 80, 93, 42, 252, 194, 229, 239, 122, 118, 204, 174, 211,
    41, 105, 81, 48, 237, 231, 73, 192, 254, 130, 52, 161, 47, 92, 106, 13, 56, 10, 71, 233, 191,
    88, 232, 76, 11, 108, 34, 23, 183, 170, 4, 155, 29, 198, 227, 196, 31, 9, 78, 14, 138, 160, 84,
    131, 221, 236, 91, 82, 162, 217, 146, 251, 104, 94, 212, 112, 142, 125, 207, 22, 68, 109, 8,
    58, 197, 62, 156, 19, 168, 185, 182, 67, 35, 208, 167, 27, 157, 136, 16, 137, 55, 79, 107, 70,
    77, 57, 32, 110, 214, 154, 64, 171, 128, 256,
];

// The table, for a caller who needs many inverses to lend.
pub fn inverses() -> [u16; 257]
    ensures { Inverses result }
{
    INVERSES
}

// The inverse modulo 257, from the table.
fn inverse_257(table: &[u16; 257], a: u16) -> u16
    requires a_bound { a < 257 }
    requires inverses { Inverses table.now }
    ensures { Inverse 257 a result }
{
    table[usize::from(a)]
}

// The inverse modulo a prime, worked out: a times `acc` is `cur` throughout, and `cur` falls to 1.
fn inverse_worked(p: u16, a: u16) -> u16
    requires a_nonzero { (0 < a) × (a < p) }
    requires prime { Prime p }
    ensures { Inverse p a result }
{
    let mut acc: u16 = 1;
    let mut cur = a;
    while 1 < cur {
        acc = product(p, acc, p - p / cur);
        cur = p % cur;
    }
    acc
}

// The inverse of an element, 0 for 0, with the table lent.
pub fn inverse_by(table: &[u16; 257], p: u16, a: u16) -> u16
    requires a_lt_p { a < p }
    requires prime { Prime p }
    requires inverses { Inverses table.now }
    ensures { Inverse p a result }
{
    if a == 0 {
        return 0;
    }
    match p {
        Field::P257 => inverse_257(table, a),
        _ => inverse_worked(p, a),
    }
}
