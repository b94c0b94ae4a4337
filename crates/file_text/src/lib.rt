// The text that the holder program prints, written into a lent buffer: words and numbers, then lines, then the two texts that callers ask for.
#![tactic(auto)]

ghost use Rattle.std.specs.Prelude.{[], ◌+◌, ◌*◌, ◌≤◌, length};
ghost use Rattle.scheme.specs.Setup.{setup_of};
ghost use Rattle.file_text.specs.Text.{Wrote, Printed};
ghost use Rattle.file_text.specs.Lines.{dec, item, last_item, line, setup_line, verdict_line, outcome_line, column_lines, kept_lines, printed, refused_text};

use scheme::{Fate, Judgement, Outcome, Params};

// WORDS AND NUMBERS: each is put at a place, and the answer is the place after it.
fn put_text(out: &mut [u8], at: usize, t: &[u8]) -> usize
    requires { at + length t.now ≤ length out.old }
    ensures { Wrote out.old at t.now (length t.now) out.new result }
{
    let end = at + t.len();
    out[at..end].copy_from_slice(t);
    end
}

fn put_number(out: &mut [u8], at: usize, x: u16) -> usize
    requires { at + 5 ≤ length out.old }
    ensures { Wrote out.old at (dec x) 5 out.new result }
{
    let mut d = [0u8; 20];
    let k = io::decimal(u64::from(x), &mut d);
    put_text(out, at, &d[..k])
}

// Words and a number.
fn put_item(out: &mut [u8], at: usize, words: &[u8], x: u16) -> usize
    requires { at + length words.now + 5 ≤ length out.old }
    ensures { Wrote out.old at (item words.now x) (length words.now + 5) out.new result }
{
    let k = put_text(out, at, words);
    put_number(out, k, x)
}

// Words and a number that end a line.
fn put_last(out: &mut [u8], at: usize, words: &[u8], x: u16) -> usize
    requires { at + length words.now + 6 ≤ length out.old }
    ensures { Wrote out.old at (last_item words.now x) (length words.now + 6) out.new result }
{
    let k = put_item(out, at, words, x);
    put_text(out, k, b"\n")
}

// Words and a number, and after them words and a number that end the line.
fn put_line(out: &mut [u8], at: usize, first: &[u8], x: u16, second: &[u8], y: u16) -> usize
    requires { at + length first.now + length second.now + 11 ≤ length out.old }
    ensures { Wrote out.old at (line first.now x second.now y) (length first.now + length second.now + 11) out.new result }
{
    let k = put_item(out, at, first, x);
    put_last(out, k, second, y)
}

// THE LINES
fn setup_line(out: &mut [u8], at: usize, s: Params) -> usize
    requires { at + 30 ≤ length out.old }
    ensures { Wrote out.old at (setup_line s.p s.l s.e s.n) 30 out.new result }
{
    let a = put_item(out, at, b"setup ", s.p);
    let b = put_item(out, a, b" ", s.l);
    put_line(out, b, b" ", s.e, b" ", s.n)
}

fn verdict_line(out: &mut [u8], at: usize, judgement: Judgement) -> usize
    requires { at + 21 ≤ length out.old }
    ensures { Wrote out.old at (verdict_line judgement) 21 out.new result }
{
    match judgement {
        Judgement::Accept => put_text(out, at, b"verdict accept\n"),
        Judgement::Reject(j) => put_last(out, at, b"verdict reject ", j),
        Judgement::RejectMap => put_text(out, at, b"verdict reject map\n"),
    }
}

fn outcome_line(out: &mut [u8], at: usize, fate: Fate) -> usize
    requires { at + 22 ≤ length out.old }
    ensures { Wrote out.old at (outcome_line fate) 22 out.new result }
{
    match fate {
        Fate::Kept => put_text(out, at, b"outcome kept\n"),
        Fate::Aborted(i) => put_last(out, at, b"outcome aborted ", i),
    }
}

// One line per column, each with the word.
fn column_lines(out: &mut [u8], at: usize, word: &[u8], values: &[u16]) -> usize
    requires { (length values.now ≤ 8) × (at + 8 * (length word.now + 12) ≤ length out.old) }
    ensures { Wrote out.old at (column_lines word.now 0 values.now) (8 * (length word.now + 12)) out.new result }
{
    let mut k = at;
    for (column, value) in values.iter().enumerate() {
        k = put_line(out, k, word, column as u16, b" ", *value);
    }
    k
}

// The lines of the shares and of the mapped shares, or none if aborted.
fn kept_lines(out: &mut [u8], at: usize, fate: Fate, shares: &[u16], mapped: &[u16]) -> usize
    requires { (length shares.now ≤ 8) × (length mapped.now ≤ 8) × (at + 296 ≤ length out.old) }
    ensures { Wrote out.old at (kept_lines fate shares.now mapped.now) 296 out.new result }
{
    match fate {
        Fate::Kept => {
            let k = column_lines(out, at, b"share ", shares);
            column_lines(out, k, b"mapped ", mapped)
        }
        Fate::Aborted(_) => at,
    }
}

// THE TWO TEXTS
// What is printed of a file that was read to its end, at most 396 bytes; a file without a second dealing has no mapped shares.
pub fn print_told(
    s: Params,
    dealing: u16,
    holder: u16,
    outcome: Outcome,
    shares: &[u16],
    mapped: &[u16],
    out: &mut [u8],
) -> usize
    requires { (length shares.now ≤ 8) × (length mapped.now ≤ 8) × (512 ≤ length out.old) }
    ensures { Printed out.old (printed (setup_of s []) dealing holder outcome.judgement outcome.fate shares.now mapped.now) out.new result }
{
    let a = setup_line(out, 0, s);
    let b = put_line(out, a, b"dealing ", dealing, b" holder ", holder);
    let c = verdict_line(out, b, outcome.judgement);
    let d = outcome_line(out, c, outcome.fate);
    kept_lines(out, d, outcome.fate, shares, mapped)
}

// What is printed of a refused file.
pub fn print_refusal(number: u16, at: u16, out: &mut [u8]) -> usize
    requires { 512 ≤ length out.old }
    ensures { Printed out.old (refused_text number at) out.new result }
{
    put_line(out, 0, b"refused ", number, b" at ", at)
}
