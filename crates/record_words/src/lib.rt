// Words of 16 bits in lent bytes, low byte first, at a place that is counted in words: what records are made of.
#![tactic(auto)]

ghost use Rattle.std.specs.Prelude.{◌≡◌, not, ◌+◌, ◌*◌, ◌≤◌, length};
ghost use Rattle.std.proofs.lemmas.List.Edits.{sets};
ghost use Rattle.base.specs.Rules.{or_when};
ghost use Rattle.base.specs.Refusals.{refused_by};
ghost use Rattle.base.specs.Matrix.{all_below};
ghost use Rattle.record_words.specs.Words.{bytes, word_at, words_at};

use base::Refusal;

// Word i of bytes that reach past it: two plain reads, which the compiler makes one.
fn whole(s: &[u8], i: usize) -> u16
    requires { 2 * i + 2 ≤ length s.now }
    ensures { result ≡ word_at s.now i }
{
    u16::from_le_bytes([s[2 * i], s[2 * i + 1]])
}

// Word i; a byte past the end counts as 0.
pub fn word(s: &[u8], i: usize) -> u16
    requires { i ≤ 65535 }
    ensures { result ≡ word_at s.now i }
{
    if 2 * i + 2 <= s.len() {
        whole(s, i)
    } else if 2 * i < s.len() {
        u16::from(s[2 * i])
    } else {
        0
    }
}

// The rule of `count` words from word i on that are field elements of p. It reads them all.
pub fn check_words(s: &[u8], i: usize, count: usize, p: u16) -> Result<(), Refusal>
    requires { 2 * (i + count) ≤ length s.now }
    ensures { refused_by result ≡ or_when 0 4 (not (all_below p (words_at s.now i count))) }
{
    let over = (i..i + count).fold(false, |over, k| over | (p <= whole(s, k)));
    base::refuse_if(over, Refusal::Element)
}

// The words from word i on, as many as the lent buffer holds.
pub fn get_words(s: &[u8], i: usize, out: &mut [u16])
    requires { 2 * (i + length out.old) ≤ length s.now }
    ensures { out.new ≡ words_at s.now i (length out.old) }
{
    for (k, x) in out.iter_mut().enumerate() {
        *x = whole(s, i + k);
    }
}

// The words ws, from word i on.
pub fn put_words(out: &mut [u8], i: usize, ws: &[u16])
    requires { 2 * (i + length ws.now) ≤ length out.old }
    ensures { out.new ≡ sets out.old (2 * i) (bytes ws.now) }
{
    for (k, x) in ws.iter().enumerate() {
        let [low, high] = x.to_le_bytes();
        out[2 * (i + k)] = low;
        out[2 * (i + k) + 1] = high;
    }
}
