// The points matrix: the open call. It first works out its refusal by the table of scheme's specs/Calls.antt; where there is none it works on inputs that
// are in order.
#![tactic(auto)]

ghost use Rattle.std.specs.Prelude.{◌≡◌, true, [], ◌*◌, ◌%◌, ◌<◌, ◌≤◌, eqb, length};
ghost use Rattle.base.specs.Choice.{pick};
ghost use Rattle.base.specs.Fill.{tab, filled};
ghost use Rattle.base.specs.Matrix.{flat};
ghost use Rattle.field.specs.Prime.{Prime, Inverses};
ghost use Rattle.field.specs.Fields.{is_field};
ghost use Rattle.polynomial.specs.Polynomial.{minus, basis, point};
ghost use Rattle.scheme.specs.Setup.{setup_of};
ghost use Rattle.scheme.specs.Answers.{paper_written};
ghost use Rattle.scheme.specs.Calls.{points_call, points_left};
ghost use Rattle.points.specs.Inner.{weight_of, weights_of, points_row, row_entry, HasRows};

use base::Refusal;
use field::Field;
use scheme::Params;

// One factor of a basis at x: x - t modulo p, and 1 for the node j that is left out.
fn factor(p: u16, j: usize, x: usize, t: usize) -> u16
    requires { (1 < p) × (x ≤ 65535) × (t ≤ 65535) }
    ensures { result ≡ pick (eqb t j) 1 (minus p x t) % p }
{
    if t == j {
        return 1;
    }
    field::residue(p, (x + (usize::from(p) - 1) * t) as u64)
}

// The basis of node j at x over the nodes 0 to d - 1, reduced after each factor.
fn basis_at(p: u16, d: usize, j: usize, x: usize) -> u16
    requires { (1 < p) × (d ≤ 16) × (x ≤ 65535) }
    ensures { result ≡ basis p d j (λ t. t) x % p }
{
    let mut acc: u16 = 1;
    for t in 0..d {
        acc = field::product(p, acc, factor(p, j, x, t));
    }
    acc
}

// The inverse of the basis of node j at its own node: what every row multiplies its entry j by.
fn weight(table: &[u16; 257], p: u16, d: usize, j: usize) -> u16
    requires d_bound { (d ≤ 16) × (j ≤ 16) }
    requires prime { Prime p }
    requires inverses { Inverses table.now }
    ensures { result ≡ weight_of p d j }
{
    field::inverse_by(table, p, basis_at(p, d, j, j))
}

// The weights of the d nodes, then zeros: worked out once for all rows.
fn weights(p: u16, d: usize) -> [u16; 16]
    requires d_bound { d ≤ 16 }
    requires prime { Prime p }
    ensures { result ≡ weights_of p d }
{
    let table = field::inverses();
    let mut entries = [0u16; 16];
    for j in 0..d {
        entries[j] = weight(&table, p, d, j);
    }
    entries
}

// Entry j of row i of the points matrix, by the weight of node j.
fn point(p: u16, d: usize, i: usize, j: usize, w: u16) -> u16
    requires { (1 < p) × (d ≤ 16) × (i ≤ 32) × (j < d) × (w ≡ weight_of p d j) }
    ensures { result ≡ point p d i j }
{
    field::product(p, w, basis_at(p, d, j, d + i))
}

// Row i of the points matrix: d entries, then zeros.
fn row(p: u16, d: usize, i: usize, by: &[u16; 16]) -> [u16; 16]
    requires { (1 < p) × (d ≤ 16) × (i ≤ 32) × (by.now ≡ weights_of p d) }
    ensures { result ≡ points_row p d i }
{
    let mut entries = [0u16; 16];
    for j in 0..d {
        entries[j] = point(p, d, i, j, by[j]);
    }
    entries
}

// The n rows of the points matrix modulo P, into the lent rows: the loop.
fn fill_rows_by<const P: u16>(d: usize, n: usize, by: &[u16; 16], rows: &mut [[u16; 16]])
    requires { (1 < P) × (d ≤ 16) × (n ≤ 32) × (by.now ≡ weights_of P d) × (length rows.old ≡ 32) }
    ensures { rows.new ≡ filled (points_row P d) n rows.old }
{
    for i in 0..n {
        rows[i] = row(P, d, i, by);
    }
}

// The n rows of the points matrix, into the lent rows. The modulus is a constant in each loop.
fn fill_rows(p: u16, d: usize, n: usize, by: &[u16; 16], rows: &mut [[u16; 16]])
    requires d_bound { (d ≤ 16) × (n ≤ 32) × (by.now ≡ weights_of p d) × (length rows.old ≡ 32) }
    requires p_value { is_field p ≡ true }
    ensures { rows.new ≡ filled (points_row p d) n rows.old }
{
    match p {
        Field::P2 => fill_rows_by::<2>(d, n, by, rows),
        Field::P7 => fill_rows_by::<7>(d, n, by, rows),
        Field::P251 => fill_rows_by::<251>(d, n, by, rows),
        Field::P257 => fill_rows_by::<257>(d, n, by, rows),
        _ => fill_rows_by::<65521>(d, n, by, rows),
    }
}

// The first d entries of each of the n rows, flat, into the lent matrix.
fn write_flat(d: usize, n: usize, rows: &[[u16; 16]], matrix: &mut [u16])
    requires matrix_len { length matrix.old ≡ n * d }
    requires has_rows { HasRows d n rows.now }
    ensures { matrix.new ≡ filled (flat d (row_entry rows.now)) (n * d) matrix.old }
{
    for i in 0..n {
        base::copy(matrix, i * d, &rows[i], 0, d);
    }
}

// The points matrix, row by row in a local array, then flat in the lent matrix.
fn write_points(p: u16, d: usize, n: usize, matrix: &mut [u16])
    requires d_bound { (d ≤ 16) × (n ≤ 32) × (length matrix.old ≡ n * d) }
    requires p_value { is_field p ≡ true }
    ensures { matrix.new ≡ tab (n * d) (flat d (point p d)) }
{
    let by = weights(p, d);
    let mut rows = [[0u16; 16]; 32];
    fill_rows(p, d, n, &by, &mut rows);
    write_flat(d, n, &rows, matrix);
}

// The points matrix into the lent matrix. Nothing is written before the last rule, 15, is known not to apply.
#[tactic(auto, unfolding(scheme::specs::Points::points_matrix))]
pub fn points(s: Params, matrix: &mut [u16]) -> Result<(), Refusal>
    ensures result_value { paper_written result ≡ points_call (setup_of s matrix.old) }
    ensures matrix_after { matrix.new ≡ points_left (setup_of s matrix.old) }
{
    let p = Field::new(s.p)?.order();
    scheme::check_matrix_len(s, matrix.len())?;
    let d = s.dim();
    let n = s.n as usize;
    base::refuse_if((p as usize) < d + n, Refusal::TooFewPoints)?;
    write_points(p, d, n, matrix);
    Ok(())
}
