// Every call, as `c_api_c` exports it for C and Rust. A setup is passed as its four numbers with its matrix beside them, a slice as a pointer and a length. Each
// function returns 0 or document 01's number of the refusal; values of the answer go into lent places, which a refusal leaves as they were.
#![tactic(auto)]

ghost use Rattle.std.specs.Prelude.{◌≡◌, []};
ghost use Rattle.field.specs.Fields.{field_answer};
ghost use Rattle.scheme.specs.Calls.{points_call, points_left, deal_call, deal_left_g, deal_left_h, deal_all_call, deal_all_left_g, deal_all_left_h};
ghost use Rattle.scheme.specs.Calls.{buffers, deal_mapped_call, deal_mapped_left, deal_mapped_all_call, deal_mapped_all_left};
ghost use Rattle.scheme.specs.Calls.{deal_zero_call, deal_zero_left_g, deal_zero_left_h, deal_zero_all_call, deal_zero_all_left_g, deal_zero_all_left_h};
ghost use Rattle.scheme.specs.Calls.{pair_value_call, judge_call, judge_mapped_call, judge_zero_call, outcome_call, outcome_left, rehearse_call};
ghost use Rattle.scheme.specs.Calls.{combine_call, refresh_call};
ghost use Rattle.scheme.specs.Calls.{determines_call, private_call, judge_set_call, open_call, open_left};
ghost use Rattle.signed.specs.Calls.{hold_call, hold_left, read_call, read_left, combine_signed_call, open_signed_call, open_signed_left};
ghost use Rattle.board_keys.specs.Keys.{deal_key_call, deal_key_left_g, deal_key_left_h, open_key_call, open_key_left};
ghost use Rattle.record_layouts.specs.Records.{write_setup_call, write_setup_left, write_dealing_call, write_dealing_left, write_pair_call, write_pair_left};
ghost use Rattle.record_layouts.specs.Records.{write_mapped_call, write_mapped_left, write_mapped_pair_call, write_mapped_pair_left};
ghost use Rattle.record_layouts.specs.Records.{write_zero_call, write_zero_left, read_zero_call, read_zero_left_g, read_zero_left_h};
ghost use Rattle.record_layouts.specs.Records.{write_verdict_call, write_verdict_left, write_share_call, write_share_left};
ghost use Rattle.record_layouts.specs.Records.{read_setup_call, read_matrix_call, read_matrix_left, read_dealing_call, read_dealing_left_g, read_dealing_left_h};
ghost use Rattle.record_layouts.specs.Records.{read_mapped_call, read_mapped_left_g, read_mapped_left_h, read_mapped_left_phi, read_mapped_pair_call};
ghost use Rattle.record_layouts.specs.Records.{read_pair_call, read_verdict_call, read_share_call};
ghost use Rattle.superseding.specs.Superseding.{superseding_call};
ghost use Rattle.holder_file.specs.Calls.{file_contents_call, file_contents_left, holder_file_call, holder_file_left};
ghost use Rattle.set_questions.specs.Buffer.{SetBuffer};
ghost use Rattle.places.specs.Places.{setup, place, named_place, answered_place, refused_place};

use field::Field;
use holder_file::FileRefusal;
use record_layouts::{DealingRecord, PairRecord, ShareRecord, VerdictRecord};
use scheme::{Fate, Params};
use superseding::Superseding;

// Whether p is one of the five fields' numbers.
pub fn mavdrusek_field(p: u16) -> u16
    ensures { result ≡ (field_answer p).number }
{
    base::declined(Field::new(p))
}

// DEALING
// The points matrix into the lent matrix.
pub fn mavdrusek_points(p: u16, l: u16, e: u16, n: u16, matrix: &mut [u16]) -> u16
    ensures answer { result ≡ (points_call (setup p l e n matrix.old)).number }
    ensures buffer { matrix.new ≡ points_left (setup p l e n matrix.old) }
{
    base::declined(points::points(Params { p, l, e, n }, matrix))
}

// One holder's part of a dealing.
pub fn mavdrusek_deal(
    p: u16,
    l: u16,
    e: u16,
    n: u16,
    matrix: &[u16],
    secrets: &[u16],
    random: &[u16],
    holder: u16,
    g: &mut [u16],
    h: &mut [u16],
) -> u16
    ensures answer { result ≡ (deal_call (setup p l e n matrix.now) secrets.now random.now holder g.old h.old).number }
    ensures row { g.new ≡ deal_left_g (setup p l e n matrix.now) secrets.now random.now holder g.old h.old }
    ensures column { h.new ≡ deal_left_h (setup p l e n matrix.now) secrets.now random.now holder g.old h.old }
{
    let s = Params { p, l, e, n };
    base::declined(dealing::deal(s, matrix, secrets, random, holder, g, h))
}

// Every holder's part of a dealing.
pub fn mavdrusek_deal_all(
    p: u16,
    l: u16,
    e: u16,
    n: u16,
    matrix: &[u16],
    secrets: &[u16],
    random: &[u16],
    gs: &mut [u16],
    hs: &mut [u16],
) -> u16
    ensures answer { result ≡ (deal_all_call (setup p l e n matrix.now) secrets.now random.now gs.old hs.old).number }
    ensures rows { gs.new ≡ deal_all_left_g (setup p l e n matrix.now) secrets.now random.now gs.old hs.old }
    ensures columns { hs.new ≡ deal_all_left_h (setup p l e n matrix.now) secrets.now random.now gs.old hs.old }
{
    let s = Params { p, l, e, n };
    base::declined(dealing::deal_all(s, matrix, secrets, random, gs, hs))
}

// One holder's part of a dealing and of a second one, tied to it by the map phi.
pub fn mavdrusek_deal_mapped(
    p: u16,
    l: u16,
    e: u16,
    n: u16,
    matrix: &[u16],
    secrets: &[u16],
    random: &[u16],
    phi: &[u16],
    random2: &[u16],
    holder: u16,
    g: &mut [u16],
    h: &mut [u16],
    g2: &mut [u16],
    h2: &mut [u16],
) -> u16
    ensures answer { result ≡ (deal_mapped_call (setup p l e n matrix.now) secrets.now random.now phi.now random2.now holder (buffers g.old h.old g2.old h2.old)).number }
    ensures parts { buffers g.new h.new g2.new h2.new ≡ deal_mapped_left (setup p l e n matrix.now) secrets.now random.now phi.now random2.now holder (buffers g.old h.old g2.old h2.old) }
{
    let s = Params { p, l, e, n };
    base::declined(mapped_dealing::deal_mapped(
        s, matrix, secrets, random, phi, random2, holder, g, h, g2, h2,
    ))
}

// Every holder's part of both.
pub fn mavdrusek_deal_mapped_all(
    p: u16,
    l: u16,
    e: u16,
    n: u16,
    matrix: &[u16],
    secrets: &[u16],
    random: &[u16],
    phi: &[u16],
    random2: &[u16],
    gs: &mut [u16],
    hs: &mut [u16],
    gs2: &mut [u16],
    hs2: &mut [u16],
) -> u16
    ensures answer { result ≡ (deal_mapped_all_call (setup p l e n matrix.now) secrets.now random.now phi.now random2.now (buffers gs.old hs.old gs2.old hs2.old)).number }
    ensures parts { buffers gs.new hs.new gs2.new hs2.new ≡ deal_mapped_all_left (setup p l e n matrix.now) secrets.now random.now phi.now random2.now (buffers gs.old hs.old gs2.old hs2.old) }
{
    let s = Params { p, l, e, n };
    base::declined(mapped_dealing::deal_mapped_all(
        s, matrix, secrets, random, phi, random2, gs, hs, gs2, hs2,
    ))
}

// One holder's part of a zero dealing.
pub fn mavdrusek_deal_zero(
    p: u16,
    l: u16,
    e: u16,
    n: u16,
    matrix: &[u16],
    random: &[u16],
    holder: u16,
    g: &mut [u16],
    h: &mut [u16],
) -> u16
    ensures answer { result ≡ (deal_zero_call (setup p l e n matrix.now) random.now holder g.old h.old).number }
    ensures row { g.new ≡ deal_zero_left_g (setup p l e n matrix.now) random.now holder g.old h.old }
    ensures column { h.new ≡ deal_zero_left_h (setup p l e n matrix.now) random.now holder g.old h.old }
{
    let s = Params { p, l, e, n };
    base::declined(zero_dealing::deal_zero(s, matrix, random, holder, g, h))
}

// Every holder's part of a zero dealing.
pub fn mavdrusek_deal_zero_all(
    p: u16,
    l: u16,
    e: u16,
    n: u16,
    matrix: &[u16],
    random: &[u16],
    gs: &mut [u16],
    hs: &mut [u16],
) -> u16
    ensures answer { result ≡ (deal_zero_all_call (setup p l e n matrix.now) random.now gs.old hs.old).number }
    ensures rows { gs.new ≡ deal_zero_all_left_g (setup p l e n matrix.now) random.now gs.old hs.old }
    ensures columns { hs.new ≡ deal_zero_all_left_h (setup p l e n matrix.now) random.now gs.old hs.old }
{
    let s = Params { p, l, e, n };
    base::declined(zero_dealing::deal_zero_all(s, matrix, random, gs, hs))
}

// JUDGING
// The pair value, for holder `to`, of the holder whose row part is g.
pub fn mavdrusek_pair_value(
    p: u16,
    l: u16,
    e: u16,
    n: u16,
    matrix: &[u16],
    g: &[u16],
    to: u16,
    value: &mut u16,
) -> u16
    ensures answer { result ≡ (pair_value_call (setup p l e n matrix.now) g.now to).number }
    ensures value { value.new ≡ place 0 (pair_value_call (setup p l e n matrix.now) g.now to) value.old }
{
    match judging::pair_value(Params { p, l, e, n }, matrix, g, to) {
        Ok(x) => {
            *value = x;
            0
        }
        Err(refusal) => refusal.number(),
    }
}

// A holder's judgement: verdict 1 accepts; 0 rejects, and names the lowest holder whose value differs.
pub fn mavdrusek_judge(
    p: u16,
    l: u16,
    e: u16,
    n: u16,
    matrix: &[u16],
    h: &[u16],
    values: &[u16],
    verdict: &mut u16,
    named: &mut u16,
) -> u16
    ensures answer { result ≡ (judge_call (setup p l e n matrix.now) h.now values.now).number }
    ensures verdict { verdict.new ≡ place 0 (judge_call (setup p l e n matrix.now) h.now values.now) verdict.old }
    ensures named { named.new ≡ place 1 (judge_call (setup p l e n matrix.now) h.now values.now) named.old }
{
    let answer = judging::judge(Params { p, l, e, n }, matrix, h, values);
    places::judged(answer, verdict, named)
}

// A holder's judgement of two dealings tied by the map phi: verdict 1 accepts; 0 rejects, and names the lowest holder whose value differs in either, or
// 65535 where only the check of the map fails.
pub fn mavdrusek_judge_mapped(
    p: u16,
    l: u16,
    e: u16,
    n: u16,
    matrix: &[u16],
    h: &[u16],
    values: &[u16],
    phi: &[u16],
    h2: &[u16],
    values2: &[u16],
    verdict: &mut u16,
    named: &mut u16,
) -> u16
    ensures answer { result ≡ (judge_mapped_call (setup p l e n matrix.now) h.now values.now phi.now h2.now values2.now).number }
    ensures verdict { verdict.new ≡ place 0 (judge_mapped_call (setup p l e n matrix.now) h.now values.now phi.now h2.now values2.now) verdict.old }
    ensures named { named.new ≡ named_place (judge_mapped_call (setup p l e n matrix.now) h.now values.now phi.now h2.now values2.now) named.old }
{
    let s = Params { p, l, e, n };
    let answer = mapped_judging::judge_mapped(s, matrix, h, values, phi, h2, values2);
    places::judged(answer, verdict, named)
}

// A holder's judgement of a zero dealing: verdict 1 accepts; 0 rejects, and names the lowest holder whose value differs.
pub fn mavdrusek_judge_zero(
    p: u16,
    l: u16,
    e: u16,
    n: u16,
    matrix: &[u16],
    h: &[u16],
    values: &[u16],
    verdict: &mut u16,
    named: &mut u16,
) -> u16
    ensures answer { result ≡ (judge_zero_call (setup p l e n matrix.now) h.now values.now).number }
    ensures verdict { verdict.new ≡ place 0 (judge_zero_call (setup p l e n matrix.now) h.now values.now) verdict.old }
    ensures named { named.new ≡ place 1 (judge_zero_call (setup p l e n matrix.now) h.now values.now) named.old }
{
    let answer = zero_dealing::judge_zero(Params { p, l, e, n }, matrix, h, values);
    places::judged(answer, verdict, named)
}

// The outcome: kept 1, with the shares written; 0 where it is aborted, and the lowest holder that said reject is named.
pub fn mavdrusek_outcome(
    p: u16,
    l: u16,
    e: u16,
    n: u16,
    g: &[u16],
    verdicts: &[u16],
    shares: &mut [u16],
    kept: &mut u16,
    named: &mut u16,
) -> u16
    ensures answer { result ≡ (outcome_call (setup p l e n []) g.now verdicts.now shares.old).number }
    ensures kept { kept.new ≡ place 0 (outcome_call (setup p l e n []) g.now verdicts.now shares.old) kept.old }
    ensures named { named.new ≡ place 1 (outcome_call (setup p l e n []) g.now verdicts.now shares.old) named.old }
    ensures left { shares.new ≡ outcome_left (setup p l e n []) g.now verdicts.now shares.old }
{
    match outcomes::outcome(Params { p, l, e, n }, g, verdicts, shares) {
        Ok(Fate::Kept) => {
            *kept = 1;
            0
        }
        Ok(Fate::Aborted(i)) => {
            *kept = 0;
            *named = i;
            0
        }
        Err(refusal) => refusal.number(),
    }
}

// The dealer's rehearsal: fair 1; 0 and the first pair that disagrees, where `checker` checks the value of `sender`.
pub fn mavdrusek_rehearse(
    p: u16,
    l: u16,
    e: u16,
    n: u16,
    matrix: &[u16],
    gs: &[u16],
    hs: &[u16],
    fair: &mut u16,
    checker: &mut u16,
    sender: &mut u16,
) -> u16
    ensures answer { result ≡ (rehearse_call (setup p l e n matrix.now) gs.now hs.now).number }
    ensures fair { fair.new ≡ place 0 (rehearse_call (setup p l e n matrix.now) gs.now hs.now) fair.old }
    ensures checker { checker.new ≡ place 1 (rehearse_call (setup p l e n matrix.now) gs.now hs.now) checker.old }
    ensures sender { sender.new ≡ place 2 (rehearse_call (setup p l e n matrix.now) gs.now hs.now) sender.old }
{
    let answer = judging::rehearse(Params { p, l, e, n }, matrix, gs, hs);
    places::rehearsed(answer, fair, checker, sender)
}

// SHARES AND THEIR ROUNDS
// The sum of the products of constants and one holder's shares, and the shares' round.
pub fn mavdrusek_combine(
    p: u16,
    constants: &[u16],
    shares: &[u16],
    rounds: &[u16],
    value: &mut u16,
    round: &mut u16,
) -> u16
    ensures answer { result ≡ (combine_call p constants.now shares.now rounds.now).number }
    ensures value { value.new ≡ place 0 (combine_call p constants.now shares.now rounds.now) value.old }
    ensures round { round.new ≡ place 1 (combine_call p constants.now shares.now rounds.now) round.old }
{
    let answer = combining::combine(p, constants, shares, rounds);
    places::shared(answer, value, round)
}

// A share and a zero share of its column, added, and the next round.
pub fn mavdrusek_refresh(
    p: u16,
    share: u16,
    round: u16,
    zero: u16,
    value: &mut u16,
    next: &mut u16,
) -> u16
    ensures answer { result ≡ (refresh_call p share round zero).number }
    ensures value { value.new ≡ place 0 (refresh_call p share round zero) value.old }
    ensures next { next.new ≡ place 1 (refresh_call p share round zero) next.old }
{
    let answer = combining::refresh(p, share, round, zero);
    places::shared(answer, value, next)
}

// SETS AND OPENINGS
// Whether a set determines the secrets: 1 or 0.
pub fn mavdrusek_determines(
    p: u16,
    l: u16,
    e: u16,
    n: u16,
    matrix: &[u16],
    set: u32,
    yes: &mut u16,
) -> u16
    ensures answer { result ≡ (determines_call (setup p l e n matrix.now) set).number }
    ensures yes { yes.new ≡ place 0 (determines_call (setup p l e n matrix.now) set) yes.old }
{
    let answer = set_questions::determines(Params { p, l, e, n }, matrix, set);
    places::decided(answer, yes)
}

// Whether a set is called private: 1 or 0.
pub fn mavdrusek_private(
    p: u16,
    l: u16,
    e: u16,
    n: u16,
    matrix: &[u16],
    set: u32,
    yes: &mut u16,
) -> u16
    ensures answer { result ≡ (private_call (setup p l e n matrix.now) set).number }
    ensures yes { yes.new ≡ place 0 (private_call (setup p l e n matrix.now) set) yes.old }
{
    let answer = set_questions::private(Params { p, l, e, n }, matrix, set);
    places::decided(answer, yes)
}

// The judgement of a set at a position: kind 1 for a row, 2 for a vector, 0 for neither, and the row steps; the row or a vector into 32 lent entries.
pub fn mavdrusek_judge_set(
    p: u16,
    l: u16,
    e: u16,
    n: u16,
    matrix: &[u16],
    set: u32,
    position: u16,
    out: &mut [u16],
    kind: &mut u16,
    steps: &mut u16,
) -> u16
    ensures answer { result ≡ (judge_set_call (setup p l e n matrix.now) set position out.old).number }
    ensures kind { kind.new ≡ place 0 (judge_set_call (setup p l e n matrix.now) set position out.old) kind.old }
    ensures steps { steps.new ≡ place 1 (judge_set_call (setup p l e n matrix.now) set position out.old) steps.old }
    ensures buffer { SetBuffer (setup p l e n matrix.now) set position out.old (judge_set_call (setup p l e n matrix.now) set position out.old) out.new }
{
    let answer = set_questions::judge_set(Params { p, l, e, n }, matrix, set, position, out);
    places::set_judged(answer, kind, steps)
}

// Opens the shares of a set, by rising holder, which come with their rounds; refusal 6 gives the lowest position with no row.
pub fn mavdrusek_open(
    p: u16,
    l: u16,
    e: u16,
    n: u16,
    matrix: &[u16],
    set: u32,
    shares: &[u16],
    rounds: &[u16],
    secrets: &mut [u16],
    position: &mut u16,
) -> u16
    ensures answer { result ≡ (open_call (setup p l e n matrix.now) set shares.now rounds.now secrets.old).number }
    ensures position { position.new ≡ place 0 (open_call (setup p l e n matrix.now) set shares.now rounds.now secrets.old) position.old }
    ensures left { secrets.new ≡ open_left (setup p l e n matrix.now) set shares.now rounds.now secrets.old }
{
    let answer = opening::open(Params { p, l, e, n }, matrix, set, shares, rounds, secrets);
    places::opened(answer, position)
}

// CORRECTIONS
// Corrections as residues, for dealing.
pub fn mavdrusek_hold_corrections(p: u16, corrections: &[i32], residues: &mut [u16]) -> u16
    ensures answer { result ≡ (hold_call p corrections.now residues.old).number }
    ensures left { residues.new ≡ hold_left p corrections.now residues.old }
{
    base::declined(signed::hold(p, corrections, residues))
}

// Residues read back into corrections.
pub fn mavdrusek_read_corrections(p: u16, residues: &[u16], corrections: &mut [i32]) -> u16
    ensures answer { result ≡ (read_call p residues.now corrections.old).number }
    ensures left { corrections.new ≡ read_left p residues.now corrections.old }
{
    base::declined(signed::read(p, residues, corrections))
}

// The sum of the products of signed constants and one holder's shares, and the shares' round.
pub fn mavdrusek_combine_signed(
    p: u16,
    constants: &[i32],
    shares: &[u16],
    rounds: &[u16],
    value: &mut u16,
    round: &mut u16,
) -> u16
    ensures answer { result ≡ (combine_signed_call p constants.now shares.now rounds.now).number }
    ensures value { value.new ≡ place 0 (combine_signed_call p constants.now shares.now rounds.now) value.old }
    ensures round { round.new ≡ place 1 (combine_signed_call p constants.now shares.now rounds.now) round.old }
{
    let answer = signed::combine(p, constants, shares, rounds);
    places::shared(answer, value, round)
}

// Opens the shares of a set, by rising holder, which come with their rounds, into corrections; refusal 6 gives the lowest position with no row.
pub fn mavdrusek_open_signed(
    p: u16,
    l: u16,
    e: u16,
    n: u16,
    matrix: &[u16],
    set: u32,
    shares: &[u16],
    rounds: &[u16],
    corrections: &mut [i32],
    position: &mut u16,
) -> u16
    ensures answer { result ≡ (open_signed_call (setup p l e n matrix.now) set shares.now rounds.now corrections.old).number }
    ensures position { position.new ≡ place 0 (open_signed_call (setup p l e n matrix.now) set shares.now rounds.now corrections.old) position.old }
    ensures left { corrections.new ≡ open_signed_left (setup p l e n matrix.now) set shares.now rounds.now corrections.old }
{
    let answer = signed::open(
        Params { p, l, e, n },
        matrix,
        set,
        shares,
        rounds,
        corrections,
    );
    places::opened(answer, position)
}

// BOARD KEYS
// Every holder's part of a key of sixteen bytes.
pub fn mavdrusek_deal_key(key: &[u8], random: &[u16], gs: &mut [u16], hs: &mut [u16]) -> u16
    ensures answer { result ≡ (deal_key_call key.now random.now gs.old hs.old).number }
    ensures rows { gs.new ≡ deal_key_left_g key.now random.now gs.old hs.old }
    ensures columns { hs.new ≡ deal_key_left_h key.now random.now gs.old hs.old }
{
    base::declined(board_keys::deal_key(key, random, gs, hs))
}

// Opens the shares of a set, by column and then by rising holder, which come with their rounds, into the sixteen bytes of a key; refusal 6 gives the lowest
// position with no row.
pub fn mavdrusek_open_key(
    set: u32,
    shares: &[u16],
    rounds: &[u16],
    key: &mut [u8],
    position: &mut u16,
) -> u16
    ensures answer { result ≡ (open_key_call set shares.now rounds.now key.old).number }
    ensures position { position.new ≡ place 0 (open_key_call set shares.now rounds.now key.old) position.old }
    ensures left { key.new ≡ open_key_left set shares.now rounds.now key.old }
{
    let answer = board_keys::open_key(set, shares, rounds, key);
    places::opened(answer, position)
}

// WRITING RECORDS
// Writes an SU.
pub fn mavdrusek_write_setup(p: u16, l: u16, e: u16, n: u16, matrix: &[u16], out: &mut [u8]) -> u16
    ensures answer { result ≡ (write_setup_call (setup p l e n matrix.now) out.old).number }
    ensures buffer { out.new ≡ write_setup_left (setup p l e n matrix.now) out.old }
{
    base::declined(list_writing::write_setup(Params { p, l, e, n }, matrix, out))
}

// Writes a DL.
pub fn mavdrusek_write_dealing(
    p: u16,
    l: u16,
    e: u16,
    n: u16,
    dealing: u16,
    holder: u16,
    g: &[u16],
    h: &[u16],
    out: &mut [u8],
) -> u16
    ensures answer { result ≡ (write_dealing_call (setup p l e n []) (record { dealing = dealing; holder = holder }) g.now h.now out.old).number }
    ensures buffer { out.new ≡ write_dealing_left (setup p l e n []) (record { dealing = dealing; holder = holder }) g.now h.now out.old }
{
    let s = Params { p, l, e, n };
    base::declined(list_writing::write_dealing(s, DealingRecord { dealing, holder }, g, h, out))
}

// Writes a PV.
pub fn mavdrusek_write_pair_value(
    p: u16,
    l: u16,
    e: u16,
    n: u16,
    dealing: u16,
    sender: u16,
    receiver: u16,
    value: u16,
    out: &mut [u8],
) -> u16
    ensures answer { result ≡ (write_pair_call (setup p l e n []) (record { dealing = dealing; sender = sender; receiver = receiver; value = value }) out.old).number }
    ensures buffer { out.new ≡ write_pair_left (setup p l e n []) (record { dealing = dealing; sender = sender; receiver = receiver; value = value }) out.old }
{
    let x = PairRecord {
        dealing,
        sender,
        receiver,
        value,
    };
    base::declined(record_writing::write_pair_value(Params { p, l, e, n }, x, out))
}

// Writes a VD.
pub fn mavdrusek_write_verdict(
    p: u16,
    l: u16,
    e: u16,
    n: u16,
    dealing: u16,
    holder: u16,
    verdict: u16,
    out: &mut [u8],
) -> u16
    ensures answer { result ≡ (write_verdict_call (setup p l e n []) (record { dealing = dealing; holder = holder; verdict = verdict }) out.old).number }
    ensures buffer { out.new ≡ write_verdict_left (setup p l e n []) (record { dealing = dealing; holder = holder; verdict = verdict }) out.old }
{
    let x = VerdictRecord {
        dealing,
        holder,
        verdict,
    };
    base::declined(record_writing::write_verdict(Params { p, l, e, n }, x, out))
}

// Writes an SH.
pub fn mavdrusek_write_share(
    p: u16,
    l: u16,
    e: u16,
    n: u16,
    dealing: u16,
    holder: u16,
    column: u16,
    value: u16,
    round: u16,
    out: &mut [u8],
) -> u16
    ensures answer { result ≡ (write_share_call (setup p l e n []) (record { dealing = dealing; holder = holder; column = column; value = value; round = round }) out.old).number }
    ensures buffer { out.new ≡ write_share_left (setup p l e n []) (record { dealing = dealing; holder = holder; column = column; value = value; round = round }) out.old }
{
    let x = ShareRecord {
        dealing,
        holder,
        column,
        value,
        round,
    };
    base::declined(record_writing::write_share(Params { p, l, e, n }, x, out))
}

// Writes a DF.
pub fn mavdrusek_write_mapped_dealing(
    p: u16,
    l: u16,
    e: u16,
    n: u16,
    dealing: u16,
    holder: u16,
    g: &[u16],
    h: &[u16],
    phi: &[u16],
    out: &mut [u8],
) -> u16
    ensures answer { result ≡ (write_mapped_call (setup p l e n []) (record { dealing = dealing; holder = holder }) g.now h.now phi.now out.old).number }
    ensures buffer { out.new ≡ write_mapped_left (setup p l e n []) (record { dealing = dealing; holder = holder }) g.now h.now phi.now out.old }
{
    let s = Params { p, l, e, n };
    base::declined(list_writing::write_mapped_dealing(
        s,
        DealingRecord { dealing, holder },
        g,
        h,
        phi,
        out,
    ))
}

// Writes a PF.
pub fn mavdrusek_write_mapped_pair_value(
    p: u16,
    l: u16,
    e: u16,
    n: u16,
    dealing: u16,
    sender: u16,
    receiver: u16,
    value: u16,
    out: &mut [u8],
) -> u16
    ensures answer { result ≡ (write_mapped_pair_call (setup p l e n []) (record { dealing = dealing; sender = sender; receiver = receiver; value = value }) out.old).number }
    ensures buffer { out.new ≡ write_mapped_pair_left (setup p l e n []) (record { dealing = dealing; sender = sender; receiver = receiver; value = value }) out.old }
{
    let x = PairRecord {
        dealing,
        sender,
        receiver,
        value,
    };
    base::declined(record_writing::write_mapped_pair_value(Params { p, l, e, n }, x, out))
}

// Writes a DZ.
pub fn mavdrusek_write_zero_dealing(
    p: u16,
    l: u16,
    e: u16,
    n: u16,
    dealing: u16,
    holder: u16,
    g: &[u16],
    h: &[u16],
    out: &mut [u8],
) -> u16
    ensures answer { result ≡ (write_zero_call (setup p l e n []) (record { dealing = dealing; holder = holder }) g.now h.now out.old).number }
    ensures buffer { out.new ≡ write_zero_left (setup p l e n []) (record { dealing = dealing; holder = holder }) g.now h.now out.old }
{
    let s = Params { p, l, e, n };
    base::declined(list_writing::write_zero_dealing(
        s,
        DealingRecord { dealing, holder },
        g,
        h,
        out,
    ))
}

// READING RECORDS
// Reads the four numbers of an SU.
pub fn mavdrusek_read_setup_head(
    part: &[u8],
    p: &mut u16,
    l: &mut u16,
    e: &mut u16,
    n: &mut u16,
) -> u16
    ensures answer { result ≡ (read_setup_call part.now).number }
    ensures p { p.new ≡ place 0 (read_setup_call part.now) p.old }
    ensures l { l.new ≡ place 1 (read_setup_call part.now) l.old }
    ensures e { e.new ≡ place 2 (read_setup_call part.now) e.old }
    ensures n { n.new ≡ place 3 (read_setup_call part.now) n.old }
{
    match record_reading::read_setup_head(part) {
        Ok(s) => {
            *p = s.p;
            *l = s.l;
            *e = s.e;
            *n = s.n;
            0
        }
        Err(refusal) => refusal.number(),
    }
}

// Reads the matrix of an SU.
pub fn mavdrusek_read_setup_matrix(part: &[u8], matrix: &mut [u16]) -> u16
    ensures answer { result ≡ (read_matrix_call part.now matrix.old).number }
    ensures buffer { matrix.new ≡ read_matrix_left part.now matrix.old }
{
    base::declined(record_reading::read_setup_matrix(part, matrix))
}

// Reads a DL.
pub fn mavdrusek_read_dealing(
    p: u16,
    l: u16,
    e: u16,
    n: u16,
    part: &[u8],
    g: &mut [u16],
    h: &mut [u16],
    dealing: &mut u16,
    holder: &mut u16,
) -> u16
    ensures answer { result ≡ (read_dealing_call (setup p l e n []) part.now g.old h.old).number }
    ensures dealing { dealing.new ≡ place 0 (read_dealing_call (setup p l e n []) part.now g.old h.old) dealing.old }
    ensures holder { holder.new ≡ place 1 (read_dealing_call (setup p l e n []) part.now g.old h.old) holder.old }
    ensures row { g.new ≡ read_dealing_left_g (setup p l e n []) part.now g.old h.old }
    ensures column { h.new ≡ read_dealing_left_h (setup p l e n []) part.now g.old h.old }
{
    let answer = record_reading::read_dealing(Params { p, l, e, n }, part, g, h);
    places::dealing_read(answer, dealing, holder)
}

// Reads a PV.
pub fn mavdrusek_read_pair_value(
    p: u16,
    l: u16,
    e: u16,
    n: u16,
    part: &[u8],
    dealing: &mut u16,
    sender: &mut u16,
    receiver: &mut u16,
    value: &mut u16,
) -> u16
    ensures answer { result ≡ (read_pair_call (setup p l e n []) part.now).number }
    ensures dealing { dealing.new ≡ place 0 (read_pair_call (setup p l e n []) part.now) dealing.old }
    ensures sender { sender.new ≡ place 1 (read_pair_call (setup p l e n []) part.now) sender.old }
    ensures receiver { receiver.new ≡ place 2 (read_pair_call (setup p l e n []) part.now) receiver.old }
    ensures value { value.new ≡ place 3 (read_pair_call (setup p l e n []) part.now) value.old }
{
    let answer = record_reading::read_pair_value(Params { p, l, e, n }, part);
    places::pair_read(answer, dealing, sender, receiver, value)
}

// Reads a VD.
pub fn mavdrusek_read_verdict(
    p: u16,
    l: u16,
    e: u16,
    n: u16,
    part: &[u8],
    dealing: &mut u16,
    holder: &mut u16,
    verdict: &mut u16,
) -> u16
    ensures answer { result ≡ (read_verdict_call (setup p l e n []) part.now).number }
    ensures dealing { dealing.new ≡ place 0 (read_verdict_call (setup p l e n []) part.now) dealing.old }
    ensures holder { holder.new ≡ place 1 (read_verdict_call (setup p l e n []) part.now) holder.old }
    ensures verdict { verdict.new ≡ place 2 (read_verdict_call (setup p l e n []) part.now) verdict.old }
{
    match record_reading::read_verdict(Params { p, l, e, n }, part) {
        Ok(x) => {
            *dealing = x.dealing;
            *holder = x.holder;
            *verdict = x.verdict;
            0
        }
        Err(refusal) => refusal.number(),
    }
}

// Reads an SH.
pub fn mavdrusek_read_share(
    p: u16,
    l: u16,
    e: u16,
    n: u16,
    part: &[u8],
    dealing: &mut u16,
    holder: &mut u16,
    column: &mut u16,
    value: &mut u16,
    round: &mut u16,
) -> u16
    ensures answer { result ≡ (read_share_call (setup p l e n []) part.now).number }
    ensures dealing { dealing.new ≡ place 0 (read_share_call (setup p l e n []) part.now) dealing.old }
    ensures holder { holder.new ≡ place 1 (read_share_call (setup p l e n []) part.now) holder.old }
    ensures column { column.new ≡ place 2 (read_share_call (setup p l e n []) part.now) column.old }
    ensures value { value.new ≡ place 3 (read_share_call (setup p l e n []) part.now) value.old }
    ensures round { round.new ≡ place 4 (read_share_call (setup p l e n []) part.now) round.old }
{
    let answer = record_reading::read_share(Params { p, l, e, n }, part);
    places::share_read(answer, dealing, holder, column, value, round)
}

// Which of two SH of one share supersedes, 1 or 2.
pub fn mavdrusek_superseding(
    p: u16,
    l: u16,
    e: u16,
    n: u16,
    first: &[u8],
    second: &[u8],
    which: &mut u16,
) -> u16
    ensures answer { result ≡ (superseding_call (setup p l e n []) first.now second.now).number }
    ensures which { which.new ≡ place 0 (superseding_call (setup p l e n []) first.now second.now) which.old }
{
    match superseding::superseding_record(Params { p, l, e, n }, first, second) {
        Ok(Superseding::First) => {
            *which = 1;
            0
        }
        Ok(Superseding::Second) => {
            *which = 2;
            0
        }
        Err(refusal) => refusal.number(),
    }
}

// Reads a DF.
pub fn mavdrusek_read_mapped_dealing(
    p: u16,
    l: u16,
    e: u16,
    n: u16,
    part: &[u8],
    g: &mut [u16],
    h: &mut [u16],
    phi: &mut [u16],
    dealing: &mut u16,
    holder: &mut u16,
) -> u16
    ensures answer { result ≡ (read_mapped_call (setup p l e n []) part.now g.old h.old phi.old).number }
    ensures dealing { dealing.new ≡ place 0 (read_mapped_call (setup p l e n []) part.now g.old h.old phi.old) dealing.old }
    ensures holder { holder.new ≡ place 1 (read_mapped_call (setup p l e n []) part.now g.old h.old phi.old) holder.old }
    ensures row { g.new ≡ read_mapped_left_g (setup p l e n []) part.now g.old h.old phi.old }
    ensures column { h.new ≡ read_mapped_left_h (setup p l e n []) part.now g.old h.old phi.old }
    ensures map { phi.new ≡ read_mapped_left_phi (setup p l e n []) part.now g.old h.old phi.old }
{
    let answer = record_reading::read_mapped_dealing(Params { p, l, e, n }, part, g, h, phi);
    places::dealing_read(answer, dealing, holder)
}

// Reads a PF.
pub fn mavdrusek_read_mapped_pair_value(
    p: u16,
    l: u16,
    e: u16,
    n: u16,
    part: &[u8],
    dealing: &mut u16,
    sender: &mut u16,
    receiver: &mut u16,
    value: &mut u16,
) -> u16
    ensures answer { result ≡ (read_mapped_pair_call (setup p l e n []) part.now).number }
    ensures dealing { dealing.new ≡ place 0 (read_mapped_pair_call (setup p l e n []) part.now) dealing.old }
    ensures sender { sender.new ≡ place 1 (read_mapped_pair_call (setup p l e n []) part.now) sender.old }
    ensures receiver { receiver.new ≡ place 2 (read_mapped_pair_call (setup p l e n []) part.now) receiver.old }
    ensures value { value.new ≡ place 3 (read_mapped_pair_call (setup p l e n []) part.now) value.old }
{
    let answer = record_reading::read_mapped_pair_value(Params { p, l, e, n }, part);
    places::pair_read(answer, dealing, sender, receiver, value)
}

// Reads a DZ.
pub fn mavdrusek_read_zero_dealing(
    p: u16,
    l: u16,
    e: u16,
    n: u16,
    part: &[u8],
    g: &mut [u16],
    h: &mut [u16],
    dealing: &mut u16,
    holder: &mut u16,
) -> u16
    ensures answer { result ≡ (read_zero_call (setup p l e n []) part.now g.old h.old).number }
    ensures dealing { dealing.new ≡ place 0 (read_zero_call (setup p l e n []) part.now g.old h.old) dealing.old }
    ensures holder { holder.new ≡ place 1 (read_zero_call (setup p l e n []) part.now g.old h.old) holder.old }
    ensures row { g.new ≡ read_zero_left_g (setup p l e n []) part.now g.old h.old }
    ensures column { h.new ≡ read_zero_left_h (setup p l e n []) part.now g.old h.old }
{
    let answer = record_reading::read_zero_dealing(Params { p, l, e, n }, part, g, h);
    places::dealing_read(answer, dealing, holder)
}

// THE HOLDER'S FILE
// Reads a holder's file and gives its contents as 27 numbers; a refused file gives the byte where the faulty record starts.
pub fn mavdrusek_read_file(file: &[u8], contents: &mut [u16], byte: &mut usize) -> u16
    ensures answer { result ≡ (file_contents_call file.now contents.old).number }
    ensures byte { byte.new ≡ place 0 (file_contents_call file.now contents.old) byte.old }
    ensures buffer { contents.new ≡ file_contents_left file.now contents.old }
{
    match holder_file::file_contents(file, contents) {
        Ok(()) => 0,
        Err(FileRefusal::At(refusal, start)) => {
            *byte = start;
            refusal.number()
        }
        Err(FileRefusal::Lent(refusal)) => refusal.number(),
    }
}

// Prints a holder's file into a lent buffer of 512 bytes and gives how many there are; a refused file gives the byte as above.
pub fn mavdrusek_holder_file(
    file: &[u8],
    out: &mut [u8],
    count: &mut usize,
    byte: &mut usize,
) -> u16
    ensures answer { result ≡ (holder_file_call file.now out.old).number }
    ensures count { count.new ≡ answered_place 0 (holder_file_call file.now out.old) count.old }
    ensures byte { byte.new ≡ refused_place 0 (holder_file_call file.now out.old) byte.old }
    ensures buffer { out.new ≡ holder_file_left file.now out.old }
{
    match holder_file::holder_file(file, out) {
        Ok(bytes) => {
            *count = bytes;
            0
        }
        Err(FileRefusal::At(refusal, from)) => {
            *byte = from;
            refusal.number()
        }
        Err(FileRefusal::Lent(refusal)) => refusal.number(),
    }
}
