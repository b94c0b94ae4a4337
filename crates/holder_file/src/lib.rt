// A holder's file from a lent slice: its text into a lent buffer, or its contents as numbers.
#![tactic(auto)]

ghost use Rattle.std.specs.Prelude.{◌≡◌, List, [], ◌∷◌, ℕ, ◌≤◌, length};
ghost use Rattle.base.specs.Rules.{refusal};
ghost use Rattle.base.specs.Refusals.{refused_by};
ghost use Rattle.file_text.specs.Text.{Printed};
ghost use Rattle.holder_file.specs.Text.{file_text};
ghost use Rattle.base.specs.Choice.{pick};
ghost use Rattle.holder_file.specs.Calls.{lent_file, holder_file_call, holder_file_left, paper_printing, judged, settled, kind_number, numbers, file_contents_call, file_contents_left, paper_given};

use base::Refusal;
use file_reading::Told;
use file_records::Fault;
use scheme::{Fate, Judgement};

// Why a file gives nothing: a fault at a byte of it, or what was lent.
#[derive(Clone, Copy)]
pub enum FileRefusal {
    At(Refusal, usize),
    Lent(Refusal),
}

impl From<Fault> for FileRefusal {
    ghost use Rattle.holder_file.specs.declared.FileRefusal.TheVariants.{At};

    ghost from_gives = { λ fault e. e ≡ At fault.refusal fault.byte };

    fn from(fault: Fault) -> FileRefusal {
        FileRefusal::At(fault.refusal, fault.byte)
    }
}

impl From<Refusal> for FileRefusal {
    ghost use Rattle.holder_file.specs.declared.FileRefusal.TheVariants.{Lent};

    ghost from_gives = { λ refusal e. e ≡ Lent refusal };

    fn from(refusal: Refusal) -> FileRefusal {
        FileRefusal::Lent(refusal)
    }
}

// What refuses a lent file, or a lent buffer of `room` entries.
fn check_lent(file: &[u8], room: usize, needed: usize) -> Result<(), Refusal>
    ensures { (out : List ℕ) → room ≡ length out → refused_by result ≡ refusal (lent_file file.now out needed) }
{
    base::refuse_if(4096 < file.len(), Refusal::Length)?;
    base::refuse_if(room != needed, Refusal::Length)
}

// How many lines the second dealing has.
fn mapped_lines(t: Told) -> usize
    ensures { result ≡ pick t.mapped t.setup.l 0 }
{
    let mapped = t.mapped;
    let s = t.setup;
    if mapped { s.l as usize } else { 0 }
}

// Prints a holder's file of at most 4,096 bytes into a lent buffer of 512.
pub fn holder_file(file: &[u8], out: &mut [u8]) -> Result<usize, FileRefusal>
    ensures answer { paper_printing result ≡ holder_file_call file.now out.old }
    ensures buffer { out.new ≡ holder_file_left file.now out.old }
{
    check_lent(file, out.len(), 512)?;
    let t = file_reading::read_file(file)?;
    let s = t.setup;
    let outcome = t.outcome;
    let shares = t.shares;
    let shares2 = t.shares2;
    let l = s.l as usize;
    let m = mapped_lines(t);
    let count = file_text::print_told(
        s,
        t.dealing,
        t.holder,
        outcome,
        &shares[..l],
        &shares2[..m],
        out,
    );
    Ok(count)
}

// What the holder program prints of a file: its text, or the line of its refusal.
pub fn print_file(file: &[u8], out: &mut [u8]) -> usize
    requires { (length file.now ≤ 4096) × (length out.old ≡ 512) }
    ensures { Printed out.old (file_text file.now) out.new result }
{
    match holder_file(file, out) {
        Ok(n) => n,
        Err(FileRefusal::At(refusal, byte)) => {
            file_text::print_refusal(refusal.number(), byte as u16, out)
        }
        Err(FileRefusal::Lent(refusal)) => file_text::print_refusal(refusal.number(), 0, out),
    }
}

// A verdict or an outcome as two numbers: 1 and 0, or 0 and the holder named, or 0 and 65535 where only the check of the map fails.
#[derive(Clone, Copy)]
pub struct Said {
    pub yes: u16,
    pub named: u16,
}

fn verdict_said(judgement: Judgement) -> Said
    ensures { judged judgement ≡ result.yes ∷ result.named ∷ [] }
{
    match judgement {
        Judgement::Accept => Said { yes: 1, named: 0 },
        Judgement::Reject(j) => Said { yes: 0, named: j },
        Judgement::RejectMap => Said {
            yes: 0,
            named: 65535,
        },
    }
}

fn outcome_said(fate: Fate) -> Said
    ensures { settled fate ≡ result.yes ∷ result.named ∷ [] }
{
    match fate {
        Fate::Kept => Said { yes: 1, named: 0 },
        Fate::Aborted(i) => Said { yes: 0, named: i },
    }
}

// 2 for a zero dealing's file, 1 for one with a DF, 0 for one without.
fn kind_said(mapped: bool, zero: bool) -> u16
    ensures { result ≡ kind_number mapped zero }
{
    if zero {
        return 2;
    }
    if mapped { 1 } else { 0 }
}

// What a file tells, as numbers.
fn tell_numbers(t: Told) -> [u16; 27]
    requires { (length t.shares ≡ 8) × (length t.shares2 ≡ 8) }
    ensures { (result ≡ numbers t) × (length result ≡ 27) }
{
    let s = t.setup;
    let outcome = t.outcome;
    let judgement = outcome.judgement;
    let fate = outcome.fate;
    let x = t.shares;
    let a = verdict_said(judgement);
    let b = outcome_said(fate);
    let m = kind_said(t.mapped, t.zero);
    let y = t.shares2;
    [
        s.p, s.l, s.e, s.n, t.dealing, t.holder, a.yes, a.named, b.yes, b.named, x[0], x[1], x[2],
        x[3], x[4], x[5], x[6], x[7], m, y[0], y[1], y[2], y[3], y[4], y[5], y[6], y[7],
    ]
}

// The contents of a holder's file of at most 4,096 bytes, as 27 numbers into a lent buffer.
pub fn file_contents(file: &[u8], contents: &mut [u16]) -> Result<(), FileRefusal>
    ensures answer { paper_given result ≡ file_contents_call file.now contents.old }
    ensures buffer { contents.new ≡ file_contents_left file.now contents.old }
{
    check_lent(file, contents.len(), 27)?;
    let told = file_reading::read_file(file)?;
    let all = tell_numbers(told);
    base::copy(contents, 0, &all, 0, 27);
    Ok(())
}
