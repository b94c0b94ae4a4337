// Stored cases from standard input, each a call with all that it is lent, and for each what it gave, then a line feed: the number returned, the values given, and every lent buffer
// as it is left. A case is a head of 20 words (the call, nine numbers, the lengths of nine slices of words and of one of bytes), then the slices. A place
// for a value holds 7777 before the call. A signed number is two words, in two's complement, the low half first, and is printed with its sign.
#![tactic(auto)]

ghost use Rattle.std.specs.Prelude.{◌≡◌, ◌*◌, ◌≤◌, length};

use scheme::Params;
use std::fmt::{self, Display, Formatter};
use std::io::Read;

// What a place for a value holds before a call.
const PLACE: u16 = 7777;

// PRINTING
// Numbers, each with a space behind it.
#[derive(Clone, Copy)]
struct Numbers<'a, T>(&'a [T]);

impl<T: Display> Display for Numbers<'_, T> {
    fn fmt<W: fmt::Write>(&self, f: &mut Formatter<W>) -> fmt::Result {
        for x in self.0 {
            write!(f, "{x} ")?;
        }
        Ok(())
    }
}

// What cannot be written is passed over.
fn print<T: Display>(out: &impl Print, xs: &[T]) {
    let _ = out.print(Numbers(xs));
}

// DEALING AND JUDGING
fn points(out: &impl Print, Params { p, l, e, n }: Params, matrix: &mut [u16]) {
    let number = c_api::mavdrusek_points(p, l, e, n, matrix);
    print(out, &[number]);
    print(out, matrix)
}

fn deal(
    out: &impl Print,
    Params { p, l, e, n }: Params,
    holder: u16,
    matrix: &[u16],
    secrets: &[u16],
    random: &[u16],
    g: &mut [u16],
    h: &mut [u16],
) {
    let number = c_api::mavdrusek_deal(p, l, e, n, matrix, secrets, random, holder, g, h);
    print(out, &[number]);
    print(out, g);
    print(out, h)
}

fn deal_all(
    out: &impl Print,
    Params { p, l, e, n }: Params,
    matrix: &[u16],
    secrets: &[u16],
    random: &[u16],
    gs: &mut [u16],
    hs: &mut [u16],
) {
    let number = c_api::mavdrusek_deal_all(p, l, e, n, matrix, secrets, random, gs, hs);
    print(out, &[number]);
    print(out, gs);
    print(out, hs)
}

fn pair_value(out: &impl Print, Params { p, l, e, n }: Params, to: u16, matrix: &[u16], g: &[u16]) {
    let mut value = PLACE;
    let number = c_api::mavdrusek_pair_value(p, l, e, n, matrix, g, to, &mut value);
    print(out, &[number, value])
}

fn judge(
    out: &impl Print,
    Params { p, l, e, n }: Params,
    matrix: &[u16],
    h: &[u16],
    values: &[u16],
) {
    let [mut verdict, mut named] = [PLACE; 2];
    let number = c_api::mavdrusek_judge(p, l, e, n, matrix, h, values, &mut verdict, &mut named);
    print(out, &[number, verdict, named])
}

fn outcome(
    out: &impl Print,
    Params { p, l, e, n }: Params,
    g: &[u16],
    verdicts: &[u16],
    shares: &mut [u16],
) {
    let [mut kept, mut named] = [PLACE; 2];
    let number = c_api::mavdrusek_outcome(p, l, e, n, g, verdicts, shares, &mut kept, &mut named);
    print(out, &[number, kept, named]);
    print(out, shares)
}

fn rehearse(
    out: &impl Print,
    Params { p, l, e, n }: Params,
    matrix: &[u16],
    gs: &[u16],
    hs: &[u16],
) {
    let [mut fair, mut checker, mut sender] = [PLACE; 3];
    let number = c_api::mavdrusek_rehearse(
        p,
        l,
        e,
        n,
        matrix,
        gs,
        hs,
        &mut fair,
        &mut checker,
        &mut sender,
    );
    print(out, &[number, fair, checker, sender])
}

fn combine(out: &impl Print, p: u16, constants: &[u16], shares: &[u16], rounds: &[u16]) {
    let [mut value, mut round] = [PLACE; 2];
    let number = c_api::mavdrusek_combine(p, constants, shares, rounds, &mut value, &mut round);
    print(out, &[number, value, round])
}

// TWO DEALINGS TIED BY A MAP
fn deal_mapped(
    out: &impl Print,
    Params { p, l, e, n }: Params,
    holder: u16,
    matrix: &[u16],
    secrets: &[u16],
    random: &[u16],
    phi: &[u16],
    random2: &[u16],
    g: &mut [u16],
    h: &mut [u16],
    g2: &mut [u16],
    h2: &mut [u16],
) {
    let number = c_api::mavdrusek_deal_mapped(
        p, l, e, n, matrix, secrets, random, phi, random2, holder, g, h, g2, h2,
    );
    print(out, &[number]);
    print(out, g);
    print(out, h);
    print(out, g2);
    print(out, h2)
}

fn deal_mapped_all(
    out: &impl Print,
    Params { p, l, e, n }: Params,
    matrix: &[u16],
    secrets: &[u16],
    random: &[u16],
    phi: &[u16],
    random2: &[u16],
    gs: &mut [u16],
    hs: &mut [u16],
    gs2: &mut [u16],
    hs2: &mut [u16],
) {
    let number = c_api::mavdrusek_deal_mapped_all(
        p, l, e, n, matrix, secrets, random, phi, random2, gs, hs, gs2, hs2,
    );
    print(out, &[number]);
    print(out, gs);
    print(out, hs);
    print(out, gs2);
    print(out, hs2)
}

fn judge_mapped(
    out: &impl Print,
    Params { p, l, e, n }: Params,
    matrix: &[u16],
    h: &[u16],
    values: &[u16],
    phi: &[u16],
    h2: &[u16],
    values2: &[u16],
) {
    let [mut verdict, mut named] = [PLACE; 2];
    let number = c_api::mavdrusek_judge_mapped(
        p,
        l,
        e,
        n,
        matrix,
        h,
        values,
        phi,
        h2,
        values2,
        &mut verdict,
        &mut named,
    );
    print(out, &[number, verdict, named])
}

// A ZERO DEALING
fn deal_zero(
    out: &impl Print,
    Params { p, l, e, n }: Params,
    holder: u16,
    matrix: &[u16],
    random: &[u16],
    g: &mut [u16],
    h: &mut [u16],
) {
    let number = c_api::mavdrusek_deal_zero(p, l, e, n, matrix, random, holder, g, h);
    print(out, &[number]);
    print(out, g);
    print(out, h)
}

fn deal_zero_all(
    out: &impl Print,
    Params { p, l, e, n }: Params,
    matrix: &[u16],
    random: &[u16],
    gs: &mut [u16],
    hs: &mut [u16],
) {
    let number = c_api::mavdrusek_deal_zero_all(p, l, e, n, matrix, random, gs, hs);
    print(out, &[number]);
    print(out, gs);
    print(out, hs)
}

fn judge_zero(
    out: &impl Print,
    Params { p, l, e, n }: Params,
    matrix: &[u16],
    h: &[u16],
    values: &[u16],
) {
    let [mut verdict, mut named] = [PLACE; 2];
    let number = c_api::mavdrusek_judge_zero(
        p,
        l,
        e,
        n,
        matrix,
        h,
        values,
        &mut verdict,
        &mut named,
    );
    print(out, &[number, verdict, named])
}

fn refresh(out: &impl Print, p: u16, share: u16, round: u16, zero: u16) {
    let [mut value, mut next] = [PLACE; 2];
    let number = c_api::mavdrusek_refresh(p, share, round, zero, &mut value, &mut next);
    print(out, &[number, value, next])
}

// SETS AND OPENINGS
fn field(out: &impl Print, p: u16) {
    print(out, &[c_api::mavdrusek_field(p)])
}

// The number of 32 bits with these halves.
fn joined(low: u16, high: u16) -> u32 {
    (u32::from(high) << 16) | u32::from(low)
}

fn judge_set(
    out: &impl Print,
    Params { p, l, e, n }: Params,
    set: u32,
    position: u16,
    matrix: &[u16],
    found: &mut [u16],
) {
    let [mut kind, mut steps] = [PLACE; 2];
    let number = c_api::mavdrusek_judge_set(
        p, l, e, n, matrix, set, position, found, &mut kind, &mut steps,
    );
    print(out, &[number, kind, steps]);
    print(out, found)
}

fn determines(out: &impl Print, Params { p, l, e, n }: Params, set: u32, matrix: &[u16]) {
    let mut yes = PLACE;
    let number = c_api::mavdrusek_determines(p, l, e, n, matrix, set, &mut yes);
    print(out, &[number, yes])
}

fn private(out: &impl Print, Params { p, l, e, n }: Params, set: u32, matrix: &[u16]) {
    let mut yes = PLACE;
    let number = c_api::mavdrusek_private(p, l, e, n, matrix, set, &mut yes);
    print(out, &[number, yes])
}

fn open(
    out: &impl Print,
    Params { p, l, e, n }: Params,
    set: u32,
    matrix: &[u16],
    shares: &[u16],
    rounds: &[u16],
    secrets: &mut [u16],
) {
    let mut position = PLACE;
    let number = c_api::mavdrusek_open(
        p,
        l,
        e,
        n,
        matrix,
        set,
        shares,
        rounds,
        secrets,
        &mut position,
    );
    print(out, &[number, position]);
    print(out, secrets)
}

// CORRECTIONS
// How many numbers some words are, at most 264.
fn signed_len(words: &[u16]) -> usize
    ensures upper_bound { result ≤ 264 }
    ensures result_in_bounds { 2 * result ≤ length words.now }
{
    (words.len() / 2).min(264)
}

// These numbers, and zeros behind them.
fn signed_numbers(words: &[u16]) -> [i32; 264]
    ensures { length result ≡ 264 }
{
    let mut numbers = [0i32; 264];
    let (pairs, _) = words.as_chunks::<2>();
    for (x, &[low, high]) in numbers.iter_mut().zip(pairs) {
        *x = joined(low, high).cast_signed();
    }
    numbers
}

fn hold_corrections(out: &impl Print, p: u16, corrections: &[u16], residues: &mut [u16]) {
    let numbers = signed_numbers(corrections);
    let corrections = &numbers[..signed_len(corrections)];
    let number = c_api::mavdrusek_hold_corrections(p, corrections, residues);
    print(out, &[number]);
    print(out, residues)
}

fn read_corrections(out: &impl Print, p: u16, residues: &[u16], corrections: &[u16]) {
    let mut numbers = signed_numbers(corrections);
    let corrections = &mut numbers[..signed_len(corrections)];
    let number = c_api::mavdrusek_read_corrections(p, residues, corrections);
    print(out, &[number]);
    print(out, corrections)
}

fn combine_signed(out: &impl Print, p: u16, constants: &[u16], shares: &[u16], rounds: &[u16]) {
    let numbers = signed_numbers(constants);
    let constants = &numbers[..signed_len(constants)];
    let [mut value, mut round] = [PLACE; 2];
    let number = c_api::mavdrusek_combine_signed(
        p, constants, shares, rounds, &mut value, &mut round,
    );
    print(out, &[number, value, round])
}

fn open_signed(
    out: &impl Print,
    Params { p, l, e, n }: Params,
    set: u32,
    matrix: &[u16],
    shares: &[u16],
    rounds: &[u16],
    corrections: &[u16],
) {
    let mut numbers = signed_numbers(corrections);
    let corrections = &mut numbers[..signed_len(corrections)];
    let mut position = PLACE;
    let number = c_api::mavdrusek_open_signed(
        p,
        l,
        e,
        n,
        matrix,
        set,
        shares,
        rounds,
        corrections,
        &mut position,
    );
    print(out, &[number, position]);
    print(out, corrections)
}

// BOARD KEYS
fn deal_key(out: &impl Print, key: &[u8], random: &[u16], gs: &mut [u16], hs: &mut [u16]) {
    let number = c_api::mavdrusek_deal_key(key, random, gs, hs);
    print(out, &[number]);
    print(out, gs);
    print(out, hs)
}

fn open_key(out: &impl Print, set: u32, shares: &[u16], rounds: &[u16], key: &mut [u8]) {
    let mut position = PLACE;
    let number = c_api::mavdrusek_open_key(set, shares, rounds, key, &mut position);
    print(out, &[number, position]);
    print(out, key)
}

// RECORDS
// What a call that writes a record gave.
fn written(out: &impl Print, number: u16, record: &[u8]) {
    print(out, &[number]);
    print(out, record)
}

fn write_setup(out: &impl Print, Params { p, l, e, n }: Params, matrix: &[u16], record: &mut [u8]) {
    let number = c_api::mavdrusek_write_setup(p, l, e, n, matrix, record);
    written(out, number, record)
}

fn write_dealing(
    out: &impl Print,
    Params { p, l, e, n }: Params,
    dealing: u16,
    holder: u16,
    g: &[u16],
    h: &[u16],
    record: &mut [u8],
) {
    let number = c_api::mavdrusek_write_dealing(p, l, e, n, dealing, holder, g, h, record);
    written(out, number, record)
}

fn write_pair_value(
    out: &impl Print,
    Params { p, l, e, n }: Params,
    dealing: u16,
    sender: u16,
    receiver: u16,
    value: u16,
    record: &mut [u8],
) {
    let number = c_api::mavdrusek_write_pair_value(
        p, l, e, n, dealing, sender, receiver, value, record,
    );
    written(out, number, record)
}

fn write_verdict(
    out: &impl Print,
    Params { p, l, e, n }: Params,
    dealing: u16,
    holder: u16,
    verdict: u16,
    record: &mut [u8],
) {
    let number = c_api::mavdrusek_write_verdict(p, l, e, n, dealing, holder, verdict, record);
    written(out, number, record)
}

fn write_share(
    out: &impl Print,
    Params { p, l, e, n }: Params,
    dealing: u16,
    holder: u16,
    column: u16,
    value: u16,
    round: u16,
    record: &mut [u8],
) {
    let number = c_api::mavdrusek_write_share(
        p, l, e, n, dealing, holder, column, value, round, record,
    );
    written(out, number, record)
}

fn write_mapped_dealing(
    out: &impl Print,
    Params { p, l, e, n }: Params,
    dealing: u16,
    holder: u16,
    g: &[u16],
    h: &[u16],
    phi: &[u16],
    record: &mut [u8],
) {
    let number = c_api::mavdrusek_write_mapped_dealing(
        p, l, e, n, dealing, holder, g, h, phi, record,
    );
    written(out, number, record)
}

fn write_mapped_pair_value(
    out: &impl Print,
    Params { p, l, e, n }: Params,
    dealing: u16,
    sender: u16,
    receiver: u16,
    value: u16,
    record: &mut [u8],
) {
    let number = c_api::mavdrusek_write_mapped_pair_value(
        p, l, e, n, dealing, sender, receiver, value, record,
    );
    written(out, number, record)
}

fn write_zero_dealing(
    out: &impl Print,
    Params { p, l, e, n }: Params,
    dealing: u16,
    holder: u16,
    g: &[u16],
    h: &[u16],
    record: &mut [u8],
) {
    let number = c_api::mavdrusek_write_zero_dealing(p, l, e, n, dealing, holder, g, h, record);
    written(out, number, record)
}

fn read_setup_head(out: &impl Print, part: &[u8]) {
    let [mut p, mut l, mut e, mut n] = [PLACE; 4];
    let number = c_api::mavdrusek_read_setup_head(part, &mut p, &mut l, &mut e, &mut n);
    print(out, &[number, p, l, e, n])
}

fn read_setup_matrix(out: &impl Print, part: &[u8], matrix: &mut [u16]) {
    let number = c_api::mavdrusek_read_setup_matrix(part, matrix);
    print(out, &[number]);
    print(out, matrix)
}

fn read_dealing(
    out: &impl Print,
    Params { p, l, e, n }: Params,
    part: &[u8],
    g: &mut [u16],
    h: &mut [u16],
) {
    let [mut dealing, mut holder] = [PLACE; 2];
    let number = c_api::mavdrusek_read_dealing(p, l, e, n, part, g, h, &mut dealing, &mut holder);
    print(out, &[number, dealing, holder]);
    print(out, g);
    print(out, h)
}

fn read_pair_value(out: &impl Print, Params { p, l, e, n }: Params, part: &[u8]) {
    let [mut dealing, mut sender, mut receiver, mut value] = [PLACE; 4];
    let number = c_api::mavdrusek_read_pair_value(
        p,
        l,
        e,
        n,
        part,
        &mut dealing,
        &mut sender,
        &mut receiver,
        &mut value,
    );
    print(out, &[number, dealing, sender, receiver, value])
}

fn read_verdict(out: &impl Print, Params { p, l, e, n }: Params, part: &[u8]) {
    let [mut dealing, mut holder, mut verdict] = [PLACE; 3];
    let number = c_api::mavdrusek_read_verdict(
        p,
        l,
        e,
        n,
        part,
        &mut dealing,
        &mut holder,
        &mut verdict,
    );
    print(out, &[number, dealing, holder, verdict])
}

fn read_share(out: &impl Print, Params { p, l, e, n }: Params, part: &[u8]) {
    let [mut dealing, mut holder, mut column, mut value, mut round] = [PLACE; 5];
    let number = c_api::mavdrusek_read_share(
        p,
        l,
        e,
        n,
        part,
        &mut dealing,
        &mut holder,
        &mut column,
        &mut value,
        &mut round,
    );
    print(out, &[number, dealing, holder, column, value, round])
}

fn read_mapped_dealing(
    out: &impl Print,
    Params { p, l, e, n }: Params,
    part: &[u8],
    g: &mut [u16],
    h: &mut [u16],
    phi: &mut [u16],
) {
    let [mut dealing, mut holder] = [PLACE; 2];
    let number = c_api::mavdrusek_read_mapped_dealing(
        p,
        l,
        e,
        n,
        part,
        g,
        h,
        phi,
        &mut dealing,
        &mut holder,
    );
    print(out, &[number, dealing, holder]);
    print(out, g);
    print(out, h);
    print(out, phi)
}

fn read_mapped_pair_value(out: &impl Print, Params { p, l, e, n }: Params, part: &[u8]) {
    let [mut dealing, mut sender, mut receiver, mut value] = [PLACE; 4];
    let number = c_api::mavdrusek_read_mapped_pair_value(
        p,
        l,
        e,
        n,
        part,
        &mut dealing,
        &mut sender,
        &mut receiver,
        &mut value,
    );
    print(out, &[number, dealing, sender, receiver, value])
}

fn read_zero_dealing(
    out: &impl Print,
    Params { p, l, e, n }: Params,
    part: &[u8],
    g: &mut [u16],
    h: &mut [u16],
) {
    let [mut dealing, mut holder] = [PLACE; 2];
    let number = c_api::mavdrusek_read_zero_dealing(
        p,
        l,
        e,
        n,
        part,
        g,
        h,
        &mut dealing,
        &mut holder,
    );
    print(out, &[number, dealing, holder]);
    print(out, g);
    print(out, h)
}

// Which of two SH supersedes. They stand one behind the other, the first in k bytes, or in all where there are fewer. Behind the exported call's
// answer come the number and the part that the two calls beside it give.
fn superseding(out: &impl Print, s: Params, k: u16, both: &[u8]) {
    let Params { p, l, e, n } = s;
    let (first, second) = both.split_at(both.len().min(usize::from(k)));
    let mut which = PLACE;
    let number = c_api::mavdrusek_superseding(p, l, e, n, first, second, &mut which);
    let refusal = superseding::superseding_refusal(s, first, second);
    print(out, &[number, which, refusal]);
    print(out, superseding::superseding_part(s, first, second))
}

// What a holder's file prints.
fn holder_file(out: &impl Print, file: &[u8]) {
    let mut text = [0u8; 512];
    let [mut count, mut byte] = [usize::from(PLACE); 2];
    let number = c_api::mavdrusek_holder_file(file, &mut text, &mut count, &mut byte);
    print(out, &[usize::from(number), count, byte]);
    if let Some(text) = text.get(..count) {
        let _ = out.write_all(text);
    }
}

// What a holder's file holds.
fn read_file(out: &impl Print, file: &[u8], contents: &mut [u16]) {
    let mut byte = usize::from(PLACE);
    let number = c_api::mavdrusek_read_file(file, contents, &mut byte);
    print(out, &[usize::from(number), byte]);
    print(out, contents)
}

// CASES
// A slice of words of a case, in an array with room for the longest: an array and no `Vec`, so that no case can fail for memory.
#[derive(Clone, Copy)]
struct Words {
    len: usize,
    room: [u16; 528],
}

impl Words {
    fn part(&mut self) -> &mut [u16] {
        let len = self.len.min(528);
        &mut self.room[..len]
    }
}

// The slice of bytes of a case, likewise.
#[derive(Clone, Copy)]
struct Bytes {
    len: usize,
    room: [u8; 4096],
}

impl Bytes {
    fn part(&mut self) -> &mut [u8] {
        let len = self.len.min(4096);
        &mut self.room[..len]
    }
}

// A case: its call, the four numbers of a setup and five more, and what it is lent.
#[derive(Clone, Copy)]
struct Case {
    call: u16,
    setup: Params,
    numbers: [u16; 5],
    lent: Lent,
}

// The slices of a case.
#[derive(Clone, Copy)]
struct Lent {
    a: Words,
    b: Words,
    c: Words,
    d: Words,
    f: Words,
    g: Words,
    h: Words,
    i: Words,
    j: Words,
    bytes: Bytes,
}

// The length of a slice of words, which is at most 528.
fn words_len(k: u16) -> usize
    ensures { result ≤ 528 }
{
    usize::from(k).min(528)
}

// The length of a slice of bytes, which is at most 4,096.
fn bytes_len(k: u16) -> usize
    ensures { result ≤ 4096 }
{
    usize::from(k).min(4096)
}

// The next len words; zeros where there are fewer.
fn read_words(input: &mut impl Read, len: usize) -> [u16; 528]
    requires { len ≤ 528 }
    ensures { length result ≡ 528 }
{
    let mut bytes = [0u8; 1056];
    let mut words = [0u16; 528];
    if input.read_exact(&mut bytes[..2 * len]).is_ok() {
        record_words::get_words(&bytes, 0, &mut words);
    }
    words
}

// The next len bytes, at most 4,096; zeros behind them where there are fewer.
fn read_bytes(input: &mut impl Read, len: usize) -> [u8; 4096]
    ensures { length result ≡ 4096 }
{
    let mut bytes = [0u8; 4096];
    if let Some(part) = bytes.get_mut(..len) {
        let _ = input.read_exact(part);
    }
    bytes
}

// The next slice of words.
fn next_words(input: &mut impl Read, k: u16) -> Words {
    let len = words_len(k);
    Words {
        len,
        room: read_words(input, len),
    }
}

// The next slice of bytes.
fn next_bytes(input: &mut impl Read, k: u16) -> Bytes {
    let len = bytes_len(k);
    Bytes {
        len,
        room: read_bytes(input, len),
    }
}

// The next case; none where there is no whole head.
fn next(input: &mut impl Read) -> Option<Case> {
    let mut head = [0u8; 40];
    input.read_exact(&mut head).ok()?;
    let mut numbers = [0u16; 20];
    record_words::get_words(&head, 0, &mut numbers);
    let [
        call,
        p,
        l,
        e,
        n,
        x,
        y,
        z,
        w,
        v,
        a,
        b,
        c,
        d,
        f,
        g,
        h,
        i,
        j,
        k,
    ] = numbers;
    let lent = Lent {
        a: next_words(input, a),
        b: next_words(input, b),
        c: next_words(input, c),
        d: next_words(input, d),
        f: next_words(input, f),
        g: next_words(input, g),
        h: next_words(input, h),
        i: next_words(input, i),
        j: next_words(input, j),
        bytes: next_bytes(input, k),
    };
    Some(Case {
        call,
        setup: Params { p, l, e, n },
        numbers: [x, y, z, w, v],
        lent,
    })
}

// Makes the call of a case and prints what it gave; a number that none of the others has asks for the field.
fn call(out: &impl Print, case: &mut Case) {
    let s = case.setup;
    let [x, y, z, w, v] = case.numbers;
    let Lent {
        a,
        b,
        c,
        d,
        f,
        g,
        h,
        i,
        j,
        bytes,
    } = &mut case.lent;
    let a = a.part();
    let b = b.part();
    let c = c.part();
    let d = d.part();
    let f = f.part();
    let g = g.part();
    let h = h.part();
    let i = i.part();
    let j = j.part();
    let bytes = bytes.part();
    match case.call {
        0 => points(out, s, a),
        1 => deal(out, s, x, a, b, c, d, f),
        2 => deal_all(out, s, a, b, c, d, f),
        3 => pair_value(out, s, x, a, b),
        4 => judge(out, s, a, b, c),
        5 => outcome(out, s, a, b, c),
        6 => rehearse(out, s, a, b, c),
        7 => combine(out, s.p, a, b, c),
        8 => judge_set(out, s, joined(x, y), z, a, b),
        9 => determines(out, s, joined(x, y), a),
        10 => private(out, s, joined(x, y), a),
        11 => open(out, s, joined(x, y), a, b, c, d),
        12 => holder_file(out, bytes),
        13 => write_setup(out, s, a, bytes),
        14 => write_dealing(out, s, x, y, a, b, bytes),
        15 => write_pair_value(out, s, x, y, z, w, bytes),
        16 => write_verdict(out, s, x, y, z, bytes),
        17 => write_share(out, s, x, y, z, w, v, bytes),
        18 => read_setup_head(out, bytes),
        19 => read_setup_matrix(out, bytes, a),
        20 => read_dealing(out, s, bytes, a, b),
        21 => read_pair_value(out, s, bytes),
        22 => read_verdict(out, s, bytes),
        23 => read_share(out, s, bytes),
        24 => read_file(out, bytes, a),
        26 => deal_key(out, bytes, a, b, c),
        27 => open_key(out, joined(x, y), a, b, bytes),
        28 => deal_mapped(out, s, x, a, b, c, d, f, g, h, i, j),
        29 => deal_mapped_all(out, s, a, b, c, d, f, g, h, i, j),
        30 => judge_mapped(out, s, a, b, c, d, f, g),
        31 => write_mapped_dealing(out, s, x, y, a, b, c, bytes),
        32 => write_mapped_pair_value(out, s, x, y, z, w, bytes),
        33 => read_mapped_dealing(out, s, bytes, a, b, c),
        34 => read_mapped_pair_value(out, s, bytes),
        35 => deal_zero(out, s, x, a, b, c, d),
        36 => deal_zero_all(out, s, a, b, c, d),
        37 => judge_zero(out, s, a, b, c),
        38 => refresh(out, s.p, x, y, z),
        39 => write_zero_dealing(out, s, x, y, a, b, bytes),
        40 => read_zero_dealing(out, s, bytes, a, b),
        41 => superseding(out, s, x, bytes),
        42 => hold_corrections(out, s.p, a, b),
        43 => read_corrections(out, s.p, a, b),
        44 => combine_signed(out, s.p, a, b, c),
        45 => open_signed(out, s, joined(x, y), a, b, c, d),
        _ => field(out, s.p),
    }
}

// A case's line is out before the next case is read.
fn main(rt: HostRuntime) {
    let mut input = rt.stdin();
    for _ in 0..100_000 {
        let Some(mut case) = next(&mut input) else {
            break;
        };
        call(&rt, &mut case);
        let _ = rt.print("\n");
    }
}
