// A holder's file read from a lent slice: a refusal with the byte where the faulty record starts, or what the file tells.
#![tactic(auto)]

ghost use Rattle.std.specs.Prelude.{◌≡◌, true, false, not, ◌&&◌, [], ◌≤◌, eqb, ltb, length};
ghost use Rattle.base.specs.Rules.{refusal};
ghost use Rattle.base.specs.Refusals.{refused_by};
ghost use Rattle.scheme.specs.Setup.{setup_of};
ghost use Rattle.record_words.specs.Words.{word_at};
ghost use Rattle.record_layouts.specs.Records.{standing_rules};
ghost use Rattle.file_reading.specs.Contents.{columns, part_layout};
ghost use Rattle.file_reading.specs.File.{setup_fault, dealing_fault, mapped_rules, read_file};
ghost use Rattle.file_reading.specs.Inner.{FrontIn, ReadsFront, ReadsMap, contents_read, PartsIn, ReadsParts, JudgedIn, Tells};

use base::Refusal;
use file_records::{Fault, Head};
use record_layouts::{DEALING_HEAD, DealingRecord, SETUP_HEAD};
use scheme::{Fate, Judgement, Outcome, Params};

// What a file tells that was read to its end: the shares stand at the start, and zeros behind them; none where the dealing was aborted. With a DF, the shares of the
// second dealing beside them; and whether it is a zero dealing's.
#[derive(Clone, Copy)]
pub struct Told {
    pub setup: Params,
    pub dealing: u16,
    pub holder: u16,
    pub outcome: Outcome,
    pub shares: [u16; 8],
    pub mapped: bool,
    pub shares2: [u16; 8],
    pub zero: bool,
}

// The numbers of SU and DL or DZ, and the byte where DL or DZ ends.
#[derive(Clone, Copy)]
pub struct Front {
    pub byte: usize,
    pub setup: Params,
    pub record: DealingRecord,
    pub zero: bool,
}

// Whether a DF comes behind them, and the byte where the PV start.
#[derive(Clone, Copy)]
pub struct SecondFront {
    pub byte: usize,
    pub mapped: bool,
}

// The numbers of all records, with what the n holders sent.
#[derive(Clone, Copy)]
pub struct Parts {
    pub setup: Params,
    pub record: DealingRecord,
    pub mapped: bool,
    pub zero: bool,
    pub values: [u16; 32],
    pub values2: [u16; 32],
    pub verdicts: [u16; 32],
}

// The holder's own judgement, and the shares that stand in DL or DZ, and DF.
#[derive(Clone, Copy)]
pub struct Own {
    pub judgement: Judgement,
    pub shares: [u16; 8],
    pub shares2: [u16; 8],
}

// How many entries h has.
fn column_len(s: Params, zero: bool) -> usize
    ensures { (result ≡ columns zero (setup_of s [])) × (result ≤ 131070) }
{
    let e = s.e as usize;
    if zero { e } else { (s.l as usize) + e }
}

// Whether t starts with a mark.
fn has_mark(t: &[u8], mark: u16) -> bool
    ensures { result ≡ (not (ltb (length t.now) 2) && eqb (word_at t.now 0) mark) }
{
    2 <= t.len() && record_words::word(t, 0) == mark
}

// SU, which may be missing.
#[tactic(auto, unfolding(crate::specs::File::setup_fault))]
fn check_setup(file: &[u8]) -> Result<(), Refusal>
    ensures { refused_by result ≡ setup_fault file.now }
{
    base::refuse_if(file.len() == 0, Refusal::Missing)?;
    list_records::check_setup(file)
}

// A DL, or a DZ.
fn check_part(s: Params, t: &[u8], zero: bool) -> Result<(), Refusal>
    ensures { refused_by result ≡ refusal (standing_rules (part_layout zero) (setup_of s []) t.now) }
{
    if zero {
        return list_records::check_zero(s, t);
    }
    list_records::check_dealing(s, t)
}

// What stands behind SU: DL or DZ, which may be missing.
#[tactic(auto, unfolding(crate::specs::File::dealing_fault, crate::specs::File::has_zero))]
fn check_first(s: Params, t: &[u8]) -> Result<(), Refusal>
    ensures { refused_by result ≡ dealing_fault (setup_of s []) t.now }
{
    base::refuse_if(t.len() == 0, Refusal::Missing)?;
    base::refuse_if(has_mark(t, record_layouts::MARK_SU), Refusal::Repeated)?;
    check_part(s, t, has_mark(t, record_layouts::MARK_DZ))
}

// SU and DL or DZ, from the file's start.
fn read_front(file: &[u8]) -> Result<Front, Fault>
    ensures { ReadsFront file.now result }
{
    if let Err(refusal) = check_setup(file) {
        return Err(Fault { refusal, byte: 0 });
    }
    let setup = record_layouts::params_at(file);
    let at = SETUP_HEAD + 2 * setup.matrix_len();
    let t = &file[at..];
    if let Err(refusal) = check_first(setup, t) {
        return Err(Fault { refusal, byte: at });
    }
    let record = record_layouts::dealing_at(t);
    let zero = has_mark(t, record_layouts::MARK_DZ);
    let byte = at + DEALING_HEAD + 2 * (setup.dim() + column_len(setup, zero));
    Ok(Front {
        byte,
        setup,
        record,
        zero,
    })
}

// What is faulty in a DF behind a DL with the numbers x.
fn check_second(s: Params, x: DealingRecord, t: &[u8]) -> Result<(), Refusal>
    ensures { refused_by result ≡ refusal (mapped_rules (setup_of s []) x t.now) }
{
    list_records::check_mapped_lists(s, t)?;
    let y = record_layouts::dealing_at(t);
    base::refuse_if(y.holder != x.holder, Refusal::Range)?;
    base::refuse_if(y.dealing != x.dealing, Refusal::DealingNumber)
}

// A DF behind SU and DL, if there is one; behind a DZ it has no place.
fn read_second(file: &[u8], front: Front) -> Result<SecondFront, Fault>
    requires { FrontIn file.now front }
    ensures { ReadsMap file.now result }
{
    let at = front.byte;
    let s = front.setup;
    let t = &file[at..];
    if front.zero || !has_mark(t, record_layouts::MARK_DF) {
        return Ok(SecondFront {
            byte: at,
            mapped: false,
        });
    }
    if let Err(refusal) = check_second(s, front.record, t) {
        return Err(Fault { refusal, byte: at });
    }
    Ok(SecondFront {
        byte: at + DEALING_HEAD + 4 * s.dim() + 2 * record_layouts::map_len(s),
        mapped: true,
    })
}

// All records, to the file's end.
fn read_parts(file: &[u8]) -> Result<Parts, Fault>
    requires { length file.now ≤ 4096 }
    ensures { ReadsParts file.now result }
{
    let front = read_front(file)?;
    let second = read_second(file, front)?;
    let s = front.setup;
    let x = front.record;
    let from = second.byte;
    let head = Head {
        p: s.p,
        n: s.n,
        dealing: x.dealing,
        holder: x.holder,
        mapped: second.mapped,
        zero: front.zero,
    };
    let sent = file_records::read_received(&file[from..], head);
    if let Err(refusal) = sent.refused {
        return Err(Fault {
            refusal,
            byte: from + sent.byte,
        });
    }
    let values = sent.values;
    let values2 = sent.values2;
    let verdicts = sent.verdicts;
    Ok(Parts {
        setup: s,
        record: x,
        mapped: second.mapped,
        zero: front.zero,
        values,
        values2,
        verdicts,
    })
}

// The own judgement where there is no DF.
fn judge_plain(file: &[u8], parts: Parts) -> Own
    requires { PartsIn file.now parts × (parts.mapped ≡ false) × (parts.zero ≡ false) }
    ensures { JudgedIn (contents_read file.now parts) result }
{
    let s = parts.setup;
    let n = s.n as usize;
    let d = (s.l as usize) + (s.e as usize);
    let len = n * d;
    let at = SETUP_HEAD + 2 * len;
    let matrix = file_records::read_matrix(s, file);
    let lists = file_records::read_part(s, &file[at..], d);
    let h = lists.h;
    let values = parts.values;
    let judgement = judging::judgement(s, &matrix[..len], &h[..d], &values[..n]);
    let shares = lists.shares;
    Own {
        judgement,
        shares,
        shares2: [0; 8],
    }
}

// The own judgement where there is one.
fn judge_mapped(file: &[u8], parts: Parts) -> Own
    requires { PartsIn file.now parts × (parts.mapped ≡ true) }
    ensures { JudgedIn (contents_read file.now parts) result }
{
    let s = parts.setup;
    let n = s.n as usize;
    let d = (s.l as usize) + (s.e as usize);
    let len = n * d;
    let at = SETUP_HEAD + 2 * len;
    let behind = at + DEALING_HEAD + 4 * d;
    let square = (s.l as usize) * (s.l as usize);
    let matrix = file_records::read_matrix(s, file);
    let lists = file_records::read_part(s, &file[at..], d);
    let second = file_records::read_part(s, &file[behind..], d);
    let phi = file_records::read_map(s, &file[behind..]);
    let h = lists.h;
    let h2 = second.h;
    let values = parts.values;
    let values2 = parts.values2;
    let judgement = mapped_judging::judgement_mapped(
        s,
        &matrix[..len],
        &h[..d],
        &values[..n],
        &phi[..square],
        &h2[..d],
        &values2[..n],
    );
    let shares = lists.shares;
    let shares2 = second.shares;
    Own {
        judgement,
        shares,
        shares2,
    }
}

// The own judgement of a zero dealing.
fn judge_zero(file: &[u8], parts: Parts) -> Own
    requires { PartsIn file.now parts × (parts.zero ≡ true) }
    ensures { JudgedIn (contents_read file.now parts) result }
{
    let s = parts.setup;
    let n = s.n as usize;
    let e = s.e as usize;
    let d = (s.l as usize) + e;
    let len = n * d;
    let at = SETUP_HEAD + 2 * len;
    let matrix = file_records::read_matrix(s, file);
    let lists = file_records::read_part(s, &file[at..], e);
    let h = lists.h;
    let values = parts.values;
    let judgement = zero_dealing::judgement_zero(s, &matrix[..len], &h[..e], &values[..n]);
    let shares = lists.shares;
    Own {
        judgement,
        shares,
        shares2: [0; 8],
    }
}

fn judge_parts(file: &[u8], parts: Parts) -> Own
    requires { PartsIn file.now parts }
    ensures { JudgedIn (contents_read file.now parts) result }
{
    let zero = parts.zero;
    let mapped = parts.mapped;
    if zero {
        return judge_zero(file, parts);
    }
    if mapped {
        return judge_mapped(file, parts);
    }
    judge_plain(file, parts)
}

// A file of at most 4,096 bytes, read to its end or to the first record that is refused; at its end the own verdict is held against the own judgement.
pub fn read_file(file: &[u8]) -> Result<Told, Fault>
    requires { length file.now ≤ 4096 }
    ensures { Tells (read_file file.now) result }
{
    let parts = read_parts(file)?;
    let s = parts.setup;
    let n = s.n as usize;
    let verdicts = parts.verdicts;
    let fate = outcomes::fate(s, &verdicts[..n]);
    let judged = judge_parts(file, parts);
    let judgement = judged.judgement;
    let own = match judgement {
        Judgement::Accept => 1,
        Judgement::Reject(_) => 0,
        Judgement::RejectMap => 0,
    };
    let x = parts.record;
    let i = x.holder as usize;
    if verdicts[i] != own {
        return Err(Fault {
            refusal: Refusal::OwnVerdict,
            byte: file.len(),
        });
    }
    let mut shares = [0u16; 8];
    let mut shares2 = [0u16; 8];
    match fate {
        Fate::Kept => {
            shares = judged.shares;
            shares2 = judged.shares2;
        }
        Fate::Aborted(_) => {}
    }
    Ok(Told {
        setup: s,
        dealing: x.dealing,
        holder: x.holder,
        outcome: Outcome { judgement, fate },
        shares,
        mapped: parts.mapped,
        shares2,
        zero: parts.zero,
    })
}
