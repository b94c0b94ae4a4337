// Sets of holders: their members, how the members' rows come into a buffer, the three systems that are made of them, and what refuses a set. Each
// system is loaded and eliminated in lent buffers; `opening` and `set_questions` read their answers off it.
#![tactic(auto)]

ghost use Rattle.std.specs.Prelude.{◌≡◌, ◌+◌, ◌*◌, ◌<◌, ◌≤◌, length, get_or};
ghost use Rattle.base.specs.Rules.{refusal};
ghost use Rattle.base.specs.Refusals.{refused_by};
ghost use Rattle.base.specs.Search.{Vec};
ghost use Rattle.base.specs.Sum.{unit};
ghost use Rattle.base.specs.Fill.{tab, laid};
ghost use Rattle.base.specs.Matrix.{entry, flat};
ghost use Rattle.elimination.specs.Inner.{buffers, Fits};
ghost use Rattle.scheme.specs.Setup.{setup_of};
ghost use Rattle.scheme.specs.Sets.{holds, members, across};
ghost use Rattle.scheme.specs.Calls.{beyond, set_rules};
ghost use Rattle.set_systems.specs.Inner.{SetTaken, Walked, Lie, Fresh, beside, aside, lacking, AcrossReduced, AsideReduced, Eliminated};

use base::Refusal;
use scheme::Params;

// MEMBERS
// How many members a set has: the number of shares needed.
pub fn size(set: u32) -> usize
    ensures { (result ≡ length (members 32 (holds set))) × (result ≤ 32) }
{
    u32::count_ones(set) as usize
}

// Whether a bit at or above n is set.
pub fn beyond(n: u16, set: u32) -> bool
    ensures { result ≡ beyond n set }
{
    if 32 <= n {
        return false;
    }
    let limit = 1u64 << n;
    limit <= (set as u64)
}

// The members by rising holder, into the start of 32 lent entries; gives how many. What stands behind them is left as it was.
pub fn walk(set: u32, out: &mut [u16]) -> usize
    requires { length out.old ≡ 32 }
    ensures { Walked set result out.old out.new }
{
    let mut rest = set;
    let mut k = 0;
    while rest != 0 {
        let i = u32::trailing_zeros(rest);
        out[k] = i as u16;
        rest = rest & (rest - 1);
        k += 1;
    }
    k
}

// Where the row of a member starts in the matrix.
fn row_start(member: u16, d: usize) -> usize
    requires { d ≤ 16 }
    ensures { result ≡ member * d }
{
    usize::from(member) * d
}

// WHAT REFUSES A SET
pub fn check_set(s: Params, matrix: &[u16], set: u32) -> Result<(), Refusal>
    ensures { refused_by result ≡ refusal (set_rules (setup_of s matrix.now) set) }
{
    scheme::check_matrix_len(s, matrix.len())?;
    scheme::check_elements(s.p, matrix)?;
    base::refuse_if(beyond(s.n, set), Refusal::Range)
}

// THE ROWS BESIDE THE SHARES, for an opening and for what a set determines
// The members' rows with the shares beside them.
fn load_beside(matrix: &[u16], d: usize, members: &[u16], shares: &[u16], a: &mut [u16])
    requires d_bound { (d ≤ 16) × (length members.now ≡ length shares.now) × (length a.old ≡ length members.now * (d + 1)) }
    requires lie { Lie d matrix.now members.now }
    ensures { a.new ≡ tab (length a.old) (flat (d + 1) (beside d matrix.now members.now shares.now)) }
{
    for (i, member) in members.iter().enumerate() {
        let from = row_start(*member, d);
        let t = i * (d + 1);
        base::copy(a, t, matrix, from, d);
        a[t + d] = shares[i];
    }
}

// The lowest position below ℓ that the reduced rows do not determine, or ℓ.
fn lacking(a: &[u16], used: &[u16], rows: usize, width: usize, d: usize, l: usize) -> usize
    requires fits { Fits rows width a.now used.now }
    requires d_le_width { (d ≤ width) × (l ≤ d) }
    ensures { result ≡ lacking rows width d l (buffers a.now used.now) }
{
    for q in 0..l {
        if !read_off::fixes(a, used, rows, width, d, q) {
            return q;
        }
    }
    l
}

// Eliminates the members' rows beside the shares, and gives the lowest position below ℓ that has no row, or ℓ.
pub fn reduce_beside(
    s: Params,
    matrix: &[u16],
    set: u32,
    shares: &[u16],
    a: &mut [u16],
    used: &mut [u16],
) -> usize
    requires set_taken { SetTaken (setup_of s matrix.now) set }
    requires vec { Vec s.p (length (members 32 (holds set))) shares.now }
    requires fresh { Fresh (length (members 32 (holds set))) (s.l + s.e + 1) a.old used.old }
    ensures { Eliminated (setup_of s matrix.now) set shares.now a.new used.new result }
{
    let mut members = [0u16; 32];
    let k = walk(set, &mut members);
    let d = s.dim();
    load_beside(matrix, d, &members[..k], shares, a);
    elimination::reduce(a, used, k, d + 1, d, s.p);
    lacking(a, used, k, d + 1, d, s.l as usize)
}

// THE ROWS AS COLUMNS, for a reconstruction row
// Copies column c of the members' rows into a, from t on.
fn gather(a: &mut [u16], t: usize, m: &[u16], d: usize, c: usize, members: &[u16])
    requires members_in_bounds { (t + length members.now ≤ length a.old) × (c < d) × (d ≤ 16) }
    requires lie { Lie d m.now members.now }
    ensures { a.new ≡ laid (λ i. entry d m.now (get_or members.now i 0) c) t (length members.now) a.old }
{
    for (i, member) in members.iter().enumerate() {
        let from = row_start(*member, d);
        a[t + i] = m[from + c];
    }
}

// Entry j of e_q.
pub fn unit(q: usize, j: usize) -> u16
    ensures { result ≡ unit q j }
{
    if q == j { 1 } else { 0 }
}

// The members' rows written as columns, with e_q beside them.
fn load_across(matrix: &[u16], d: usize, members: &[u16], q: usize, a: &mut [u16])
    requires d_bound { (d ≤ 16) × (length members.now ≤ 32) × (length a.old ≡ d * (length members.now + 1)) }
    requires lie { Lie d matrix.now members.now }
    ensures { a.new ≡ tab (length a.old) (flat (length members.now + 1) (across d matrix.now members.now q)) }
{
    let k = members.len();
    for c in 0..d {
        let t = c * (k + 1);
        gather(a, t, matrix, d, c, members);
        a[t + k] = unit(q, c);
    }
}

// Eliminates the d equations for a reconstruction row at position q, and gives the number of row steps.
pub fn reduce_across(
    s: Params,
    matrix: &[u16],
    set: u32,
    q: usize,
    a: &mut [u16],
    used: &mut [u16],
) -> u16
    requires set_taken { SetTaken (setup_of s matrix.now) set }
    requires fresh { Fresh (s.l + s.e) (length (members 32 (holds set)) + 1) a.old used.old }
    ensures { AcrossReduced (setup_of s matrix.now) set q a.new used.new result }
{
    let mut members = [0u16; 32];
    let k = walk(set, &mut members);
    let d = s.dim();
    load_across(matrix, d, &members[..k], q, a);
    elimination::reduce(a, used, d, k + 1, k, s.p) as u16
}

// THE LAST COLUMNS FIRST, for a sweeping vector
// The members' rows with the last e columns first and the ℓ secret columns beside them.
fn load_aside(matrix: &[u16], l: usize, e: usize, members: &[u16], a: &mut [u16])
    requires e_bound { (l + e ≤ 16) × (length members.now ≤ 32) × (length a.old ≡ length members.now * (l + e)) }
    requires lie { Lie (l + e) matrix.now members.now }
    ensures { a.new ≡ tab (length a.old) (flat (l + e) (aside l e matrix.now members.now)) }
{
    let d = l + e;
    for (i, member) in members.iter().enumerate() {
        let from = row_start(*member, d);
        let t = i * d;
        base::copy(a, t, matrix, from + l, e);
        base::copy(a, t + e, matrix, from, l);
    }
}

// Eliminates the last e columns of the members' rows, with the secret columns beside them.
pub fn reduce_aside(s: Params, matrix: &[u16], set: u32, a: &mut [u16], used: &mut [u16])
    requires set_taken { SetTaken (setup_of s matrix.now) set }
    requires fresh { Fresh (length (members 32 (holds set))) (s.l + s.e) a.old used.old }
    ensures { AsideReduced (setup_of s matrix.now) set a.new used.new }
{
    let mut members = [0u16; 32];
    let k = walk(set, &mut members);
    let l = s.l as usize;
    let e = s.e as usize;
    load_aside(matrix, l, e, &members[..k], a);
    elimination::reduce(a, used, k, l + e, e, s.p);
}
