// Every holder's part of a dealing, from a matrix and an F that are in order. The order is that of figure 3, step 2 of source document 000: a holder's h is
// worked out and written before its g, and no sum, lane or pass holds entries of both. The work neither branches on nor indexes by an entry.
#![tactic(auto)]

ghost use Rattle.std.specs.Prelude.{◌≡◌, true, ℕ, ◌+◌, ◌*◌, ◌%◌, ◌<◌, ◌≤◌, length, get_or};
ghost use Rattle.base.specs.Fill.{tab, filled, laid, Put};
ghost use Rattle.base.specs.Matrix.{flat, Below};
ghost use Rattle.field.specs.Fields.{is_field};
ghost use Rattle.field.specs.Dot.{dot, along};
ghost use Rattle.parts.specs.Inner.{line_entry, entry_h, entry_g, PartRoom, AllRoom, past, lane, lane_entry, Column, Held, EightRoom};

use field::Field;

// ONE HOLDER
// The products of holder i's row and the lines of F, into `out` from place `at` on. Line j starts at j * apart and goes on by `step`: the rows of F start d
// apart, and along them the products are h = F m_i; its columns start 1 apart and go on by d, and along them the products are g = m_i F.
#[tactic(auto, unfolding(base::specs::Fill::laid, crate::specs::Inner::line_entry))]
pub fn write_one(
    p: u16,
    d: usize,
    matrix: &[u16],
    i: usize,
    f: &[u16],
    apart: usize,
    step: usize,
    out: &mut [u16],
    at: usize,
)
    requires { PartRoom p d matrix.now i f.now apart step out.old at }
    ensures { out.new ≡ laid (line_entry p d matrix.now f.now apart step i) at d out.old }
{
    for j in 0..d {
        out[at + j] = field::dot_product(p, d, matrix, i * d, f, j * apart, step);
    }
}

// LANES
// Where entries are at most 256, a sum of sixteen products fits in 32 bits, and the compiler works on eight of them at once, each in a lane.
// Eight remainders.
#[tactic(auto, unfolding(base::specs::Fill::tab, base::specs::Fill::tab_from, base::specs::Fill::filled))]
fn remainders8(p: u16, sums: [u32; 8]) -> [u16; 8]
    requires { 0 < p }
    ensures { result ≡ tab 8 (λ t. get_or sums t 0 % p) }
{
    let mut r = [0u16; 8];
    for t in 0..8 {
        r[t] = (sums[t] % u32::from(p)) as u16;
    }
    r
}

// Eight remainders, without a division: the modulus is a constant in each arm but the last, which is why it is an argument and no const parameter.
fn residues8(p: u16, sums: [u32; 8]) -> [u16; 8]
    requires { 0 < p }
    ensures { result ≡ tab 8 (λ t. get_or sums t 0 % p) }
{
    match p {
        Field::P2 => remainders8(2, sums),
        Field::P7 => remainders8(7, sums),
        Field::P251 => remainders8(251, sums),
        Field::P257 => remainders8(257, sums),
        _ => remainders8(p, sums),
    }
}

// The products of each lane's column and the line of x that starts at `start` and goes on by `step`. The lanes stand in a table of d rows, `wide` apart
// from place `at` on.
fn products(
    d: usize,
    table: &[u16],
    at: usize,
    wide: usize,
    x: &[u16],
    start: usize,
    step: usize,
) -> [u32; 8]
    requires d_bound { d ≤ 16 }
    requires below { Below 257 table.now }
    requires below_2 { Below 257 x.now }
    requires by_index { (k : ℕ) → k < d → (at + k * wide + 8 ≤ length table.now) × (start + k * step < length x.now) }
    ensures { result ≡ tab 8 (λ t. dot d (lane table.now at wide t) (along x.now start step)) }
{
    let mut sums = [0u32; 8];
    for k in 0..d {
        let next = lanes::add8(sums, x[start + k * step], table, at + k * wide);
        sums = next;
    }
    sums
}

// The first `count` entries, `d` apart from place `at` on.
fn put(d: usize, count: usize, entries: [u16; 8], out: &mut [u16], at: usize)
    requires d_nonzero { (0 < d) × (count ≤ 8) }
    requires by_index { (t : ℕ) → t < count → at + t * d < length out.old }
    ensures { Put d count at entries out.old out.new }
{
    for t in 0..count {
        out[at + t * d] = entries[t];
    }
}

// Holder i's g, eight entries side by side: the rows of F are the table, and its lanes the columns. For entries of at most 256.
fn write_g_in_lanes(
    p: u16,
    d: usize,
    matrix: &[u16],
    i: usize,
    f: &[u16],
    out: &mut [u16],
    at: usize,
)
    requires part_room { PartRoom p d matrix.now i f.now 1 d out.old at × (length f.now ≡ 256) }
    requires below { Below 257 matrix.now }
    requires below_2 { Below 257 f.now }
    ensures { out.new ≡ laid (entry_g p d matrix.now f.now i) at d out.old }
{
    // A `while`: the last step is shorter where d is no multiple of eight.
    let mut b = 0;
    while b < d {
        let count = (d - b).min(8);
        let sums = products(d, f, b, d, matrix, i * d, 1);
        put(1, count, residues8(p, sums), out, at + b);
        b += count;
    }
}

// ONE HOLDER AFTER THE OTHER
// The parts of the holders from `first` on, one holder after the other.
fn write_each(
    p: u16,
    d: usize,
    first: usize,
    n: usize,
    matrix: &[u16],
    f: &[u16],
    gs: &mut [u16],
    hs: &mut [u16],
)
    requires all_room { AllRoom p d n matrix.now f.now gs.old hs.old }
    requires first_le_n { (first ≤ n) × (p ≤ 257 → Below 257 matrix.now) × (p ≤ 257 → Below 257 f.now) }
    ensures gs_after { gs.new ≡ past d (entry_g p d matrix.now f.now) first n gs.old }
    ensures hs_after { hs.new ≡ past d (entry_h p d matrix.now f.now) first n hs.old }
{
    for i in first..n {
        write_one(p, d, matrix, i, f, d, 1, hs, i * d);
        if 257 < p {
            write_one(p, d, matrix, i, f, 1, d, gs, i * d);
        } else {
            write_g_in_lanes(p, d, matrix, i, f, gs, i * d);
        }
    }
}

// EIGHT HOLDERS
// Entries of the matrix, `d` apart from place `from` on, into the first `count` of eight lanes.
fn column(d: usize, matrix: &[u16], from: usize, count: usize, columns: &mut [u16], at: usize)
    requires at_in_bounds { (at + 8 ≤ length columns.old) × Below 257 matrix.now }
    requires by_index { (t : ℕ) → t < count → from + t * d < length matrix.now }
    ensures { Column 8 count (along matrix.now from d) at columns.old columns.new }
{
    for t in 0..8 {
        if t < count {
            columns[at + t] = matrix[from + t * d];
        }
    }
}

// The matrix's columns in the rows of `count` holders from holder i on, each in eight lanes.
fn fill_columns(d: usize, matrix: &[u16], i: usize, count: usize, columns: &mut [u16])
    requires d_bound { (d ≤ 16) × (count ≤ 8) × (length columns.old ≡ 128) × ((i + count) * d ≤ length matrix.now) }
    requires below { Below 257 matrix.now }
    requires below_2 { Below 257 columns.old }
    ensures { Held d d matrix.now i count columns.new }
{
    for k in 0..d {
        column(d, matrix, i * d + k, count, columns, 8 * k);
    }
}

// The products of the first `count` lanes and the lines of F, into `out` from place `at` on: the holders' h along the rows of F, their g along its columns.
fn write_eight(
    p: u16,
    d: usize,
    columns: &[u16],
    count: usize,
    f: &[u16],
    apart: usize,
    step: usize,
    out: &mut [u16],
    at: usize,
)
    requires { EightRoom p d columns.now count f.now apart step out.old at }
    ensures { out.new ≡ laid (flat d (lane_entry p d columns.now f.now apart step)) at (count * d) out.old }
{
    for j in 0..d {
        let sums = products(d, columns, 0, 8, f, j * apart, step);
        put(d, count, residues8(p, sums), out, at + j);
    }
}

// Every holder's part: the h of up to eight holders, then their g, and on to the next; the last four or fewer one by one.
fn write_eights(
    p: u16,
    d: usize,
    n: usize,
    matrix: &[u16],
    f: &[u16],
    gs: &mut [u16],
    hs: &mut [u16],
)
    requires all_room { AllRoom p d n matrix.now f.now gs.old hs.old }
    requires below { Below 257 matrix.now }
    requires below_2 { Below 257 f.now }
    ensures gs_after { gs.new ≡ filled (flat d (entry_g p d matrix.now f.now)) (n * d) gs.old }
    ensures hs_after { hs.new ≡ filled (flat d (entry_h p d matrix.now f.now)) (n * d) hs.old }
{
    // A `while`: it ends where four or fewer are left, and they go on from there.
    let mut i = 0;
    while 4 < n - i {
        let count = (n - i).min(8);
        let mut columns = [0u16; 128];
        fill_columns(d, matrix, i, count, &mut columns);
        write_eight(p, d, &columns, count, f, d, 1, hs, i * d);
        write_eight(p, d, &columns, count, f, 1, d, gs, i * d);
        i += count;
    }
    write_each(p, d, i, n, matrix, f, gs, hs);
}

// ALL HOLDERS
// Every holder's part. The way depends on the field alone: the sums of the largest need more than 32 bits. Its number is a literal, since a division by a
// variable would take a time that depends on the entries.
pub fn write_all(
    p: u16,
    d: usize,
    n: usize,
    matrix: &[u16],
    f: &[u16],
    gs: &mut [u16],
    hs: &mut [u16],
)
    requires all_room { AllRoom p d n matrix.now f.now gs.old hs.old }
    requires below { Below p matrix.now }
    requires below_2 { Below p f.now }
    requires p_value { is_field p ≡ true }
    ensures gs_after { gs.new ≡ filled (flat d (entry_g p d matrix.now f.now)) (n * d) gs.old }
    ensures hs_after { hs.new ≡ filled (flat d (entry_h p d matrix.now f.now)) (n * d) hs.old }
{
    if 257 < p {
        write_each(65521, d, 0, n, matrix, f, gs, hs);
        return;
    }
    write_eights(p, d, n, matrix, f, gs, hs);
}
