// What is read off a matrix that `elimination` has reduced: whether systems have solutions, a solution, and whether a position is determined.
#![tactic(auto)]

ghost use Rattle.std.specs.Prelude.{◌≡◌, ◌+◌, ◌<◌, ◌≤◌, length, get_or};
ghost use Rattle.base.specs.Fill.{tab};
ghost use Rattle.field.specs.Dot.{at};
ghost use Rattle.read_off.specs.ReadOff.{pivot_row, alone, flat_shown, flat_unsolved, flat_all_solved, flat_fixes};
ghost use Rattle.elimination.specs.Inner.{buffers, Fits};

// The first unused row with an entry in column b, or `rows`, where the system with its right side there has a solution.
pub fn unsolved(a: &[u16], used: &[u16], rows: usize, width: usize, b: usize) -> usize
    requires fits { Fits rows width a.now used.now }
    requires b_lt_width { b < width }
    ensures { result ≡ flat_unsolved rows width b (buffers a.now used.now) }
{
    elimination::find_pivot(a, used, rows, width, b)
}

// Whether the systems with their right sides in the `sides` columns behind the pivot columns all have solutions: whether no unused row has an entry there.
pub fn all_solved(
    a: &[u16],
    used: &[u16],
    rows: usize,
    width: usize,
    pivots: usize,
    sides: usize,
) -> bool
    requires fits { Fits rows width a.now used.now }
    requires sides_bound { pivots + sides ≤ width }
    ensures { result ≡ flat_all_solved rows width pivots sides (buffers a.now used.now) }
{
    for q in 0..sides {
        if unsolved(a, used, rows, width, pivots + q) < rows {
            return false;
        }
    }
    true
}

// The row whose pivot stands in column q, or `rows`.
fn pivot_row(used: &[u16], rows: usize, q: usize) -> usize
    requires { (length used.now ≡ rows) × (q < 64) }
    ensures { result ≡ pivot_row rows (at used.now) q }
{
    let mark = (q + 1) as u16;
    for i in 0..rows {
        if used[i] == mark {
            return i;
        }
    }
    rows
}

// Entry j of the vector that column b shows.
pub fn shown(a: &[u16], used: &[u16], rows: usize, width: usize, b: usize, j: usize) -> u16
    requires fits { Fits rows width a.now used.now }
    requires b_lt_width { (b < width) × (j < 64) }
    ensures { result ≡ flat_shown rows width b (buffers a.now used.now) j }
{
    let r = pivot_row(used, rows, j);
    if r < rows { a[r * width + b] } else { 0 }
}

// Writes the vector that column b shows: the solution, where no equation of that column is unsolved.
pub fn solution(a: &[u16], used: &[u16], rows: usize, width: usize, b: usize, x: &mut [u16])
    requires fits { Fits rows width a.now used.now }
    requires b_lt_width { (b < width) × (length x.old ≤ 64) }
    ensures { x.new ≡ tab (length x.old) (flat_shown rows width b (buffers a.now used.now)) }
{
    for (place, entry) in x.iter_mut().enumerate() {
        *entry = shown(a, used, rows, width, b, place);
    }
}

// Whether the row that starts at t has no entry in the first `pivots` columns but at q.
fn alone(a: &[u16], t: usize, pivots: usize, q: usize) -> bool
    requires { t + pivots ≤ length a.now }
    ensures { result ≡ alone pivots (λ j. get_or a.now (t + j) 0) q }
{
    for j in 0..pivots {
        if q != j && a[t + j] != 0 {
            return false;
        }
    }
    true
}

// Whether position q is determined by the rows.
pub fn fixes(a: &[u16], used: &[u16], rows: usize, width: usize, pivots: usize, q: usize) -> bool
    requires fits { Fits rows width a.now used.now }
    requires pivots_le_width { (pivots ≤ width) × (q < pivots) }
    ensures { result ≡ flat_fixes rows width pivots (buffers a.now used.now) q }
{
    let r = pivot_row(used, rows, q);
    if r < rows {
        alone(a, r * width, pivots, q)
    } else {
        false
    }
}
