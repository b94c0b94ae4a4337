// Every depot's part of a board key (p 257, ℓ 4, e 3, n 16, points matrix), from inputs that are in order: each entry of a part is worked out for all
// sixteen depots side by side. The work neither branches on nor indexes by a byte or an entry.
#![tactic(auto)]

ghost use Rattle.std.specs.Prelude.{◌≡◌, [], ℕ, ◌+◌, ◌%◌, ◌<◌, length, get_or};
ghost use Rattle.base.specs.Fill.{tab, Put};
ghost use Rattle.base.specs.Matrix.{entry, flat, Below};
ghost use Rattle.field.specs.Dot.{at, dot};
ghost use Rattle.scheme.specs.Points.{points_matrix};
ghost use Rattle.key_entries.specs.Inner.{Lent, key_entry};
ghost use Rattle.key_parts.specs.Inner.{Halves, matrix_entry, parts_h, parts_g};

// The product of a row or a column x of F with every depot's row of the matrix. It is not inlined, so that the compiler joins the sums in lanes before it puts
// the sixteen entries apart; inlined, it joins them one by one.
#[inline(never)]
fn products(columns: &[[u16; 32]; 7], x: &[u16; 7]) -> [u16; 16]
    requires halves { Halves columns.now }
    requires below { Below 257 x.now }
    ensures { result ≡ tab 16 (λ i. dot 7 (matrix_entry columns.now i) (at x.now) % 257) }
{
    let mut sums = [0u16; 32];
    for k in 0..7 {
        let next = lanes::add32(sums, x[k], columns[k]);
        sums = next;
    }
    lanes::joined16(sums)
}

// Entry c of all sixteen parts.
fn put(out: &mut [u16], c: usize, entries: [u16; 16])
    requires { (length out.old ≡ 112) × (c < 7) }
    ensures { Put 7 16 c entries out.old out.new }
{
    for i in 0..16 {
        out[c + i * 7] = entries[i];
    }
}

// Every depot's products with seven rows or columns of F: with the rows its h = F m_i, with the columns its g = m_i F.
fn write_products(columns: &[[u16; 32]; 7], lines: &[[u16; 7]; 7], out: &mut [u16])
    requires halves { Halves columns.now }
    requires below { (c : ℕ) → c < 7 → Below 257 (get_or lines.now c []) }
    requires out_len { length out.old ≡ 112 }
    ensures { out.new ≡ tab 112 (flat 7 (λ i c. dot 7 (matrix_entry columns.now i) (at (get_or lines.now c [])) % 257)) }
{
    for (c, line) in lines.iter().enumerate() {
        put(out, c, products(columns, line));
    }
}

// The rows of F.
fn all_rows(key: &[u8], random: &[u16]) -> [[u16; 7]; 7]
    requires { Lent key.now random.now }
    ensures { result ≡ tab 7 (λ k. tab 7 (key_entry key.now random.now k)) }
{
    [
        key_entries::key_row(key, random, 0),
        key_entries::key_row(key, random, 1),
        key_entries::key_row(key, random, 2),
        key_entries::key_row(key, random, 3),
        key_entries::random_row(random, 0),
        key_entries::random_row(random, 1),
        key_entries::random_row(random, 2),
    ]
}

// The columns of F.
fn all_columns(key: &[u8], random: &[u16]) -> [[u16; 7]; 7]
    requires { Lent key.now random.now }
    ensures { result ≡ tab 7 (λ b. tab 7 (λ k. key_entry key.now random.now k b)) }
{
    [
        key_entries::key_column(key, random, 0),
        key_entries::key_column(key, random, 1),
        key_entries::key_column(key, random, 2),
        key_entries::key_column(key, random, 3),
        key_entries::random_column(random, 0),
        key_entries::random_column(random, 1),
        key_entries::random_column(random, 2),
    ]
}

// Every depot's part. Each h is written before any g.
pub fn write_parts(key: &[u8], random: &[u16], gs: &mut [u16], hs: &mut [u16])
    requires lent { Lent key.now random.now }
    requires gs_len { (length gs.old ≡ 112) × (length hs.old ≡ 112) }
    ensures gs_after { gs.new ≡ parts_g (entry 7 (points_matrix 257 7 16)) key.now random.now }
    ensures hs_after { hs.new ≡ parts_h (entry 7 (points_matrix 257 7 16)) key.now random.now }
{
    // A copy: of constants that it sees the compiler makes sums of shifts, entry by entry, in place of products in lanes.
    let columns = COLUMNS;
    write_products(&columns, &all_rows(key, random), hs);
    write_products(&columns, &all_columns(key, random), gs);
}

// THE MATRIX
// The points matrix by columns, an entry for each depot: the remainders by 16 in the first 16 lanes, the quotients by 16 in the last.
const COLUMNS: [[u16; 32]; 7] = [
    [
        1, // column 0, remainders
        7, 12, 4, 2, 13, 9, 14, 0, 10, 9, 8, 12, 3, 2, 5, 0, // column 0, quotients
        0, 1, 5, 13, 12, 9, 10, 11, 7, 2, 2, 3, 9, 13, 2,
    ],
    [
        10, // column 1, remainders
        1, 4, 3, 12, 12, 2, 12, 3, 13, 12, 2, 6, 11, 11, 0, 15, // column 1, quotients
        13, 4, 13, 9, 3, 10, 13, 14, 5, 5, 1, 8, 3, 13, 13,
    ],
    [
        5, // column 2, remainders
        12, 10, 1, 12, 12, 13, 10, 13, 11, 7, 1, 10, 9, 4, 1, 1, // column 2, quotients
        8, 1, 2, 15, 5, 11, 13, 3, 13, 11, 10, 15, 8, 6, 14,
    ],
    [
        14, // column 3, remainders
        1, 12, 10, 8, 0, 6, 10, 2, 0, 5, 4, 5, 5, 0, 10, 13, // column 3, quotients
        2, 11, 10, 8, 1, 8, 0, 14, 10, 4, 4, 7, 15, 15, 5,
    ],
    [
        3, // column 4, remainders
        2, 2, 12, 3, 3, 7, 8, 2, 15, 5, 8, 0, 10, 14, 10, 2, // column 4, quotients
        13, 15, 2, 4, 7, 14, 3, 0, 7, 3, 11, 7, 7, 8, 15,
    ],
    [
        12, // column 5, remainders
        1, 8, 4, 3, 3, 3, 15, 7, 10, 5, 1, 1, 13, 1, 8, 14, // column 5, quotients
        9, 8, 1, 0, 8, 15, 10, 13, 0, 2, 15, 13, 6, 5, 8,
    ],
    [
        7, // column 6, remainders
        12, 4, 2, 13, 9, 14, 0, 10, 9, 8, 12, 3, 2, 5, 3, 0, // column 6, quotients
        1, 5, 13, 12, 9, 10, 11, 7, 2, 2, 3, 9, 13, 2, 5,
    ],
];
