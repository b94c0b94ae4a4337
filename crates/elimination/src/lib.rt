// Gauss-Jordan elimination modulo a prime on lent flat buffers. `a` holds `rows` rows of `width` entries; `used` holds, for each row, 0 or
// one more than the column of its pivot. Each function that subtracts multiples of a pivot row gives the number of its subtractions.
#![tactic(auto)]

ghost use Rattle.std.specs.Prelude.{◌≡◌, ◌+◌, ◌*◌, ◌<◌, ◌≤◌, length};
ghost use Rattle.base.specs.Matrix.{Below};
ghost use Rattle.field.specs.Prime.{Inverses};
ghost use Rattle.elimination.specs.Elimination.{flat_pivot};
ghost use Rattle.elimination.specs.Inner.{buffers, other_entry, Fits, Ready, ColumnCleared, RowUsed, Reduction};

// The entry in a column of the row that starts at t; of the pivot row, which starts at q, 0.
fn other_entry(a: &[u16], t: usize, q: usize, col: usize) -> u16
    requires { t + col < length a.now }
    ensures { result ≡ other_entry a.now t q col }
{
    if t == q {
        return 0;
    }
    a[t + col]
}

// Clears a column in every row but the pivot row k, by that row, and counts the subtractions.
fn clear_column(a: &mut [u16], rows: usize, width: usize, k: usize, col: usize, p: u16) -> usize
    requires a_len { (length a.old ≡ rows * width) × (k < rows) × (col < width) × (0 < p) }
    requires below { Below p a.old }
    ensures { ColumnCleared p rows width k col a.old a.new result }
{
    let q = k * width;
    let end = rows * width;
    let mut steps = 0;
    // A `while`: over `0..rows` the compiler tests at each column whether rows overlap, and an elimination took 1.1 to 3 times as long; by `step_by` it took up to
    // 1.17 times.
    let mut t = 0;
    while t < end {
        let f = other_entry(a, t, q, col);
        if f != 0 {
            steps += 1;
            row_steps::add_row(a, width, t, q, p - f, p);
        }
        t += width;
    }
    steps
}

// The topmost unused row with an entry in the column, or `rows`.
pub fn find_pivot(a: &[u16], used: &[u16], rows: usize, width: usize, col: usize) -> usize
    requires fits { Fits rows width a.now used.now }
    requires col_lt_width { col < width }
    ensures { result ≡ flat_pivot rows width col (buffers a.now used.now) }
{
    for top in 0..rows {
        if used[top] == 0 && a[top * width + col] != 0 {
            return top;
        }
    }
    rows
}

// The mark of a row whose pivot stands in the column.
fn mark(col: usize) -> u16
    requires { col < 64 }
    ensures { result ≡ col + 1 }
{
    (col + 1) as u16
}

// Row k becomes the pivot row of the column: it is scaled, and the column is cleared by it.
fn use_row(
    table: &[u16; 257],
    a: &mut [u16],
    used: &mut [u16],
    rows: usize,
    width: usize,
    k: usize,
    col: usize,
    p: u16,
) -> usize
    requires ready { Ready p rows width a.old used.old }
    requires k_lt_rows { (k < rows) × (col < width) }
    requires inverses { Inverses table.now }
    ensures { RowUsed p rows width k col a.old used.old a.new used.new result }
{
    let t = k * width;
    let x = a[t + col];
    let scale = field::inverse_by(table, p, x);
    used[k] = mark(col);
    row_steps::scale_row(a, width, t, scale, p);
    clear_column(a, rows, width, k, col, p)
}

// Gauss-Jordan elimination by the first `pivots` columns; gives the number of row steps.
pub fn reduce(
    a: &mut [u16],
    used: &mut [u16],
    rows: usize,
    width: usize,
    pivots: usize,
    p: u16,
) -> usize
    requires ready { Ready p rows width a.old used.old }
    requires pivots_le_width { pivots ≤ width }
    ensures { Reduction p rows width pivots a.old used.old a.new used.new result }
{
    let table = field::inverses();
    let mut total = 0;
    for col in 0..pivots {
        let k = find_pivot(a, used, rows, width, col);
        if k < rows {
            total += use_row(&table, a, used, rows, width, k, col, p);
        }
    }
    total
}
