// Row steps modulo a prime on a lent flat buffer: a multiple of one row added to another, a row scaled.
#![tactic(auto)]

ghost use Rattle.std.specs.Prelude.{◌≡◌, ◌+◌, ◌*◌, ◌/◌, ◌%◌, ◌<◌, ◌≤◌, length, get_or};
ghost use Rattle.base.specs.Fill.{tab};
ghost use Rattle.base.specs.Matrix.{Below};
ghost use Rattle.row_steps.specs.Rows.{add_entry, add_row, scale_row, Kept, Reciprocal};

use field::Field;

// y + h x modulo p. The sum fits 32 bits, of which a vector has more lanes.
fn add_entry(y: u16, x: u16, h: u16, p: u16) -> u16
    requires { 0 < p }
    ensures { result ≡ add_entry p h y x }
{
    ((u32::from(y) + u32::from(h) * u32::from(x)) % u32::from(p)) as u16
}

// The row that starts at t plus h times the row that starts at q: the loop.
fn add_row_by(a: &mut [u16], width: usize, t: usize, q: usize, h: u16, p: u16)
    requires width_in_bounds { (t + width ≤ length a.old) × (q + width ≤ length a.old) × (0 < p) }
    requires kept { Kept t q width }
    ensures { a.new ≡ add_row p h t q width a.old }
{
    for c in 0..width {
        let x = a[q + c];
        let y = a[t + c];
        a[t + c] = add_entry(y, x, h, p);
    }
}

// The low half of a product.
fn low(x: u16, y: u16) -> u16
    ensures { result ≡ x * y % 65536 }
{
    x.wrapping_mul(y)
}

// The high half of a product.
fn high(x: u16, y: u16) -> u16
    ensures { result ≡ x * y / 65536 }
{
    (u32::from(x) * u32::from(y) / 65536) as u16
}

// y + h x modulo p, for p up to 257, in 16 bits, of which a vector has eight lanes: the high half of x r is the quotient by p or one less. What is left, v, is
// below 2 p, and v - p wraps around where v is below p, so that the smaller of the two is the remainder, without a branch.
fn add_narrow(y: u16, x: u16, h: u16, r: u16, p: u16) -> u16
    requires y_lt_p { (y < p) × (x < p) }
    requires reciprocal { Reciprocal p h r }
    ensures { result ≡ add_entry p h y x }
{
    let back = low(high(x, r), p);
    let v = y.wrapping_add(low(x, h)).wrapping_sub(back);
    v.min(v.wrapping_sub(p))
}

// Eight entries, from `from` on.
fn eight(a: &[u16], from: usize) -> [u16; 8]
    requires { from + 8 ≤ length a.now }
    ensures { result ≡ tab 8 (λ j. get_or a.now (from + j) 0) }
{
    let mut entries = [0u16; 8];
    base::copy(&mut entries, 0, a, from, 8);
    entries
}

// The sums of eight entries each.
fn sums(y: [u16; 8], x: [u16; 8], h: u16, r: u16, p: u16) -> [u16; 8]
    requires below { Below p y }
    requires below_2 { Below p x }
    requires reciprocal { Reciprocal p h r }
    ensures { result ≡ tab 8 (λ j. add_entry p h (get_or y j 0) (get_or x j 0)) }
{
    let mut entries = [0u16; 8];
    for j in 0..8 {
        entries[j] = add_narrow(y[j], x[j], h, r, p);
    }
    entries
}

// Eight entries from t on, plus h times those from q on: all are read before any is written, so that they may stand in one vector.
fn add_eight(a: &mut [u16], t: usize, q: usize, h: u16, r: u16, p: u16)
    requires t_in_bounds { (t + 8 ≤ length a.old) × (q + 8 ≤ length a.old) }
    requires below { Below p a.old }
    requires reciprocal { Reciprocal p h r }
    ensures { a.new ≡ add_row p h t q 8 a.old }
{
    let v = sums(eight(a, t), eight(a, q), h, r, p);
    base::copy(a, t, &v, 0, 8);
}

// The row that starts at t plus h times the row that starts at q, for p up to 257: by eights, then what is left over one by one.
fn add_row_narrow(a: &mut [u16], width: usize, t: usize, q: usize, h: u16, r: u16, p: u16)
    requires width_in_bounds { (t + width ≤ length a.old) × (q + width ≤ length a.old) }
    requires kept { Kept t q width }
    requires below { Below p a.old }
    requires reciprocal { Reciprocal p h r }
    ensures { a.new ≡ add_row p h t q width a.old }
{
    let whole = width - width % 8;
    for c in (0..whole).step_by(8) {
        add_eight(a, t + c, q + c, h, r, p);
    }
    for c in whole..width {
        a[t + c] = add_narrow(a[t + c], a[q + c], h, r, p);
    }
}

// 65536 h / p, rounded down.
fn quotient(h: u16, p: u16) -> u16
    requires { (h < p) × (0 < p) × (p ≤ 257) }
    ensures { result ≡ h * 65536 / p }
{
    (u32::from(h) * 65536 / u32::from(p)) as u16
}

// 65536 h / p, rounded down. A constant divisor needs no division. The last arm takes every p, so that p is an argument there and no const parameter.
fn reciprocal(h: u16, p: u16) -> u16
    requires { (h < p) × (0 < p) × (p ≤ 257) }
    ensures { result ≡ h * 65536 / p }
{
    match p {
        Field::P2 => quotient(h, 2),
        Field::P7 => quotient(h, 7),
        Field::P251 => quotient(h, 251),
        Field::P257 => quotient(h, 257),
        _ => quotient(h, p),
    }
}

// The row that starts at t plus h times the row that starts at q.
pub fn add_row(a: &mut [u16], width: usize, t: usize, q: usize, h: u16, p: u16)
    requires width_in_bounds { (t + width ≤ length a.old) × (q + width ≤ length a.old) × (h < p) }
    requires kept { Kept t q width }
    requires below { Below p a.old }
    ensures { a.new ≡ add_row p h t q width a.old }
{
    match p {
        ..=257 => add_row_narrow(a, width, t, q, h, reciprocal(h, p), p),
        Field::P65521 => add_row_by(a, width, t, q, h, 65521),
        _ => add_row_by(a, width, t, q, h, p),
    }
}

// k times a row: the loop.
fn scale_row_by(row: &mut [u16], k: u16, p: u16)
    requires { 0 < p }
    ensures { row.new ≡ scale_row p k 0 (length row.old) row.old }
{
    for x in row.iter_mut() {
        *x = add_entry(0, *x, k, p);
    }
}

// k times a row: the loop for p up to 257.
fn scale_row_narrow(row: &mut [u16], k: u16, r: u16, p: u16)
    requires below { Below p row.old }
    requires reciprocal { Reciprocal p k r }
    ensures { row.new ≡ scale_row p k 0 (length row.old) row.old }
{
    for x in row.iter_mut() {
        *x = add_narrow(0, *x, k, r, p);
    }
}

// k times the row that starts at t.
pub fn scale_row(a: &mut [u16], width: usize, t: usize, k: u16, p: u16)
    requires width_in_bounds { (t + width ≤ length a.old) × (k < p) }
    requires below { Below p a.old }
    ensures { a.new ≡ scale_row p k t width a.old }
{
    let row = &mut a[t..t + width];
    match p {
        ..=257 => scale_row_narrow(row, k, reciprocal(k, p), p),
        Field::P65521 => scale_row_by(row, k, 65521),
        _ => scale_row_by(row, k, p),
    }
}
