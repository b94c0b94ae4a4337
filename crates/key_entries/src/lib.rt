// F of a board key (ℓ 4, e 3), row by row and column by column, from the key's bytes and the random entries as they stand.
#![tactic(auto)]

ghost use Rattle.std.specs.Prelude.{◌≡◌, List, ℕ, ◌+◌, ◌<◌, length};
ghost use Rattle.base.specs.Fill.{tab};
ghost use Rattle.key_entries.specs.Inner.{Lent, key_entry};

// Row k of F, k below 4: position k of every secret vector, then three random entries.
pub fn key_row(key: &[u8], random: &[u16], k: usize) -> [u16; 7]
    requires k_bound { k < 4 }
    requires lent { Lent key.now random.now }
    ensures { result ≡ tab 7 (key_entry key.now random.now k) }
{
    [
        u16::from(key[k]),
        u16::from(key[4 + k]),
        u16::from(key[8 + k]),
        u16::from(key[12 + k]),
        random[3 * k],
        random[3 * k + 1],
        random[3 * k + 2],
    ]
}

// Row 4 + k of F, k below 3: seven random entries.
pub fn random_row(random: &[u16], k: usize) -> [u16; 7]
    requires { (k < 3) × (length random.now ≡ 33) }
    ensures { (key : List ℕ) → result ≡ tab 7 (key_entry key random.now (4 + k)) }
{
    let at = 12 + 7 * k;
    let mut row = [0u16; 7];
    row.copy_from_slice(&random[at..at + 7]);
    row
}

// Column b of F, b below 4: secret vector b, then three random entries.
pub fn key_column(key: &[u8], random: &[u16], b: usize) -> [u16; 7]
    requires b_bound { b < 4 }
    requires lent { Lent key.now random.now }
    ensures { result ≡ tab 7 (λ k. key_entry key.now random.now k b) }
{
    [
        u16::from(key[4 * b]),
        u16::from(key[4 * b + 1]),
        u16::from(key[4 * b + 2]),
        u16::from(key[4 * b + 3]),
        random[12 + b],
        random[19 + b],
        random[26 + b],
    ]
}

// Column 4 + b of F, b below 3: seven random entries.
pub fn random_column(random: &[u16], b: usize) -> [u16; 7]
    requires { (b < 3) × (length random.now ≡ 33) }
    ensures { (key : List ℕ) → result ≡ tab 7 (λ k. key_entry key random.now k (4 + b)) }
{
    [
        random[b],
        random[3 + b],
        random[6 + b],
        random[9 + b],
        random[16 + b],
        random[23 + b],
        random[30 + b],
    ]
}
