// The exports of `c_api` as symbols of a static library: each hands its arguments on and promises the same.
#![tactic(auto)]

ghost use Rattle.std.specs.Prelude.{◌≡◌, []};
ghost use Rattle.field.specs.Fields.{field_answer};
ghost use Rattle.scheme.specs.Calls.{points_call, points_left, deal_call, deal_left_g, deal_left_h, deal_all_call, deal_all_left_g, deal_all_left_h};
ghost use Rattle.scheme.specs.Calls.{buffers, deal_mapped_call, deal_mapped_left, deal_mapped_all_call, deal_mapped_all_left};
ghost use Rattle.scheme.specs.Calls.{deal_zero_call, deal_zero_left_g, deal_zero_left_h, deal_zero_all_call, deal_zero_all_left_g, deal_zero_all_left_h};
ghost use Rattle.scheme.specs.Calls.{pair_value_call, judge_call, judge_mapped_call, judge_zero_call, outcome_call, outcome_left, rehearse_call};
ghost use Rattle.scheme.specs.Calls.{combine_call, refresh_call};
ghost use Rattle.scheme.specs.Calls.{determines_call, private_call, judge_set_call, open_call, open_left};
ghost use Rattle.signed.specs.Calls.{hold_call, hold_left, read_call, read_left, combine_signed_call, open_signed_call, open_signed_left};
ghost use Rattle.board_keys.specs.Keys.{deal_key_call, deal_key_left_g, deal_key_left_h, open_key_call, open_key_left};
ghost use Rattle.record_layouts.specs.Records.{write_setup_call, write_setup_left, write_dealing_call, write_dealing_left, write_pair_call, write_pair_left};
ghost use Rattle.record_layouts.specs.Records.{write_mapped_call, write_mapped_left, write_mapped_pair_call, write_mapped_pair_left};
ghost use Rattle.record_layouts.specs.Records.{write_zero_call, write_zero_left, read_zero_call, read_zero_left_g, read_zero_left_h};
ghost use Rattle.record_layouts.specs.Records.{write_verdict_call, write_verdict_left, write_share_call, write_share_left};
ghost use Rattle.record_layouts.specs.Records.{read_setup_call, read_matrix_call, read_matrix_left, read_dealing_call, read_dealing_left_g, read_dealing_left_h};
ghost use Rattle.record_layouts.specs.Records.{read_mapped_call, read_mapped_left_g, read_mapped_left_h, read_mapped_left_phi, read_mapped_pair_call};
ghost use Rattle.record_layouts.specs.Records.{read_pair_call, read_verdict_call, read_share_call};
ghost use Rattle.superseding.specs.Superseding.{superseding_call};
ghost use Rattle.holder_file.specs.Calls.{file_contents_call, file_contents_left, holder_file_call, holder_file_left};
ghost use Rattle.set_questions.specs.Buffer.{SetBuffer};
ghost use Rattle.places.specs.Places.{setup, place, named_place, answered_place, refused_place};

// Whether p is one of the five fields' numbers.
#[unsafe(no_mangle)]
pub extern "C" fn mavdrusek_field(p: u16) -> u16
    ensures { result ≡ (field_answer p).number }
{
    c_api::mavdrusek_field(p)
}

// The points matrix into the lent matrix.
#[unsafe(no_mangle)]
pub extern "C" fn mavdrusek_points(p: u16, l: u16, e: u16, n: u16, matrix: &mut [u16]) -> u16
    ensures answer { result ≡ (points_call (setup p l e n matrix.old)).number }
    ensures buffer { matrix.new ≡ points_left (setup p l e n matrix.old) }
{
    c_api::mavdrusek_points(p, l, e, n, matrix)
}

// One holder's part of a dealing.
#[unsafe(no_mangle)]
pub extern "C" fn mavdrusek_deal(
    p: u16,
    l: u16,
    e: u16,
    n: u16,
    matrix: &[u16],
    secrets: &[u16],
    random: &[u16],
    holder: u16,
    g: &mut [u16],
    h: &mut [u16],
) -> u16
    ensures answer { result ≡ (deal_call (setup p l e n matrix.now) secrets.now random.now holder g.old h.old).number }
    ensures row { g.new ≡ deal_left_g (setup p l e n matrix.now) secrets.now random.now holder g.old h.old }
    ensures column { h.new ≡ deal_left_h (setup p l e n matrix.now) secrets.now random.now holder g.old h.old }
{
    c_api::mavdrusek_deal(p, l, e, n, matrix, secrets, random, holder, g, h)
}

// Every holder's part of a dealing.
#[unsafe(no_mangle)]
pub extern "C" fn mavdrusek_deal_all(
    p: u16,
    l: u16,
    e: u16,
    n: u16,
    matrix: &[u16],
    secrets: &[u16],
    random: &[u16],
    gs: &mut [u16],
    hs: &mut [u16],
) -> u16
    ensures answer { result ≡ (deal_all_call (setup p l e n matrix.now) secrets.now random.now gs.old hs.old).number }
    ensures rows { gs.new ≡ deal_all_left_g (setup p l e n matrix.now) secrets.now random.now gs.old hs.old }
    ensures columns { hs.new ≡ deal_all_left_h (setup p l e n matrix.now) secrets.now random.now gs.old hs.old }
{
    c_api::mavdrusek_deal_all(p, l, e, n, matrix, secrets, random, gs, hs)
}

// One holder's part of a dealing and of a second one, tied to it by the map phi.
#[unsafe(no_mangle)]
pub extern "C" fn mavdrusek_deal_mapped(
    p: u16,
    l: u16,
    e: u16,
    n: u16,
    matrix: &[u16],
    secrets: &[u16],
    random: &[u16],
    phi: &[u16],
    random2: &[u16],
    holder: u16,
    g: &mut [u16],
    h: &mut [u16],
    g2: &mut [u16],
    h2: &mut [u16],
) -> u16
    ensures answer { result ≡ (deal_mapped_call (setup p l e n matrix.now) secrets.now random.now phi.now random2.now holder (buffers g.old h.old g2.old h2.old)).number }
    ensures parts { buffers g.new h.new g2.new h2.new ≡ deal_mapped_left (setup p l e n matrix.now) secrets.now random.now phi.now random2.now holder (buffers g.old h.old g2.old h2.old) }
{
    c_api::mavdrusek_deal_mapped(
        p, l, e, n, matrix, secrets, random, phi, random2, holder, g, h, g2, h2,
    )
}

// Every holder's part of both.
#[unsafe(no_mangle)]
pub extern "C" fn mavdrusek_deal_mapped_all(
    p: u16,
    l: u16,
    e: u16,
    n: u16,
    matrix: &[u16],
    secrets: &[u16],
    random: &[u16],
    phi: &[u16],
    random2: &[u16],
    gs: &mut [u16],
    hs: &mut [u16],
    gs2: &mut [u16],
    hs2: &mut [u16],
) -> u16
    ensures answer { result ≡ (deal_mapped_all_call (setup p l e n matrix.now) secrets.now random.now phi.now random2.now (buffers gs.old hs.old gs2.old hs2.old)).number }
    ensures parts { buffers gs.new hs.new gs2.new hs2.new ≡ deal_mapped_all_left (setup p l e n matrix.now) secrets.now random.now phi.now random2.now (buffers gs.old hs.old gs2.old hs2.old) }
{
    c_api::mavdrusek_deal_mapped_all(
        p, l, e, n, matrix, secrets, random, phi, random2, gs, hs, gs2, hs2,
    )
}

// One holder's part of a zero dealing.
#[unsafe(no_mangle)]
pub extern "C" fn mavdrusek_deal_zero(
    p: u16,
    l: u16,
    e: u16,
    n: u16,
    matrix: &[u16],
    random: &[u16],
    holder: u16,
    g: &mut [u16],
    h: &mut [u16],
) -> u16
    ensures answer { result ≡ (deal_zero_call (setup p l e n matrix.now) random.now holder g.old h.old).number }
    ensures row { g.new ≡ deal_zero_left_g (setup p l e n matrix.now) random.now holder g.old h.old }
    ensures column { h.new ≡ deal_zero_left_h (setup p l e n matrix.now) random.now holder g.old h.old }
{
    c_api::mavdrusek_deal_zero(p, l, e, n, matrix, random, holder, g, h)
}

// Every holder's part of a zero dealing.
#[unsafe(no_mangle)]
pub extern "C" fn mavdrusek_deal_zero_all(
    p: u16,
    l: u16,
    e: u16,
    n: u16,
    matrix: &[u16],
    random: &[u16],
    gs: &mut [u16],
    hs: &mut [u16],
) -> u16
    ensures answer { result ≡ (deal_zero_all_call (setup p l e n matrix.now) random.now gs.old hs.old).number }
    ensures rows { gs.new ≡ deal_zero_all_left_g (setup p l e n matrix.now) random.now gs.old hs.old }
    ensures columns { hs.new ≡ deal_zero_all_left_h (setup p l e n matrix.now) random.now gs.old hs.old }
{
    c_api::mavdrusek_deal_zero_all(p, l, e, n, matrix, random, gs, hs)
}

// The pair value, for holder `to`, of the holder whose row part is g.
#[unsafe(no_mangle)]
pub extern "C" fn mavdrusek_pair_value(
    p: u16,
    l: u16,
    e: u16,
    n: u16,
    matrix: &[u16],
    g: &[u16],
    to: u16,
    value: &mut u16,
) -> u16
    ensures answer { result ≡ (pair_value_call (setup p l e n matrix.now) g.now to).number }
    ensures value { value.new ≡ place 0 (pair_value_call (setup p l e n matrix.now) g.now to) value.old }
{
    c_api::mavdrusek_pair_value(p, l, e, n, matrix, g, to, value)
}

// A holder's judgement: verdict 1 accepts; 0 rejects, and names the lowest holder whose value differs.
#[unsafe(no_mangle)]
pub extern "C" fn mavdrusek_judge(
    p: u16,
    l: u16,
    e: u16,
    n: u16,
    matrix: &[u16],
    h: &[u16],
    values: &[u16],
    verdict: &mut u16,
    named: &mut u16,
) -> u16
    ensures answer { result ≡ (judge_call (setup p l e n matrix.now) h.now values.now).number }
    ensures verdict { verdict.new ≡ place 0 (judge_call (setup p l e n matrix.now) h.now values.now) verdict.old }
    ensures named { named.new ≡ place 1 (judge_call (setup p l e n matrix.now) h.now values.now) named.old }
{
    c_api::mavdrusek_judge(p, l, e, n, matrix, h, values, verdict, named)
}

// A holder's judgement of two dealings tied by the map phi: verdict 1 accepts; 0 rejects, and names the lowest holder whose value differs in either, or
// 65535 where only the check of the map fails.
#[unsafe(no_mangle)]
pub extern "C" fn mavdrusek_judge_mapped(
    p: u16,
    l: u16,
    e: u16,
    n: u16,
    matrix: &[u16],
    h: &[u16],
    values: &[u16],
    phi: &[u16],
    h2: &[u16],
    values2: &[u16],
    verdict: &mut u16,
    named: &mut u16,
) -> u16
    ensures answer { result ≡ (judge_mapped_call (setup p l e n matrix.now) h.now values.now phi.now h2.now values2.now).number }
    ensures verdict { verdict.new ≡ place 0 (judge_mapped_call (setup p l e n matrix.now) h.now values.now phi.now h2.now values2.now) verdict.old }
    ensures named { named.new ≡ named_place (judge_mapped_call (setup p l e n matrix.now) h.now values.now phi.now h2.now values2.now) named.old }
{
    c_api::mavdrusek_judge_mapped(
        p, l, e, n, matrix, h, values, phi, h2, values2, verdict, named,
    )
}

// A holder's judgement of a zero dealing: verdict 1 accepts; 0 rejects, and names the lowest holder whose value differs.
#[unsafe(no_mangle)]
pub extern "C" fn mavdrusek_judge_zero(
    p: u16,
    l: u16,
    e: u16,
    n: u16,
    matrix: &[u16],
    h: &[u16],
    values: &[u16],
    verdict: &mut u16,
    named: &mut u16,
) -> u16
    ensures answer { result ≡ (judge_zero_call (setup p l e n matrix.now) h.now values.now).number }
    ensures verdict { verdict.new ≡ place 0 (judge_zero_call (setup p l e n matrix.now) h.now values.now) verdict.old }
    ensures named { named.new ≡ place 1 (judge_zero_call (setup p l e n matrix.now) h.now values.now) named.old }
{
    c_api::mavdrusek_judge_zero(p, l, e, n, matrix, h, values, verdict, named)
}

// The outcome: kept 1, with the shares written; 0 where it is aborted, and the lowest holder that said reject is named.
#[unsafe(no_mangle)]
pub extern "C" fn mavdrusek_outcome(
    p: u16,
    l: u16,
    e: u16,
    n: u16,
    g: &[u16],
    verdicts: &[u16],
    shares: &mut [u16],
    kept: &mut u16,
    named: &mut u16,
) -> u16
    ensures answer { result ≡ (outcome_call (setup p l e n []) g.now verdicts.now shares.old).number }
    ensures kept { kept.new ≡ place 0 (outcome_call (setup p l e n []) g.now verdicts.now shares.old) kept.old }
    ensures named { named.new ≡ place 1 (outcome_call (setup p l e n []) g.now verdicts.now shares.old) named.old }
    ensures left { shares.new ≡ outcome_left (setup p l e n []) g.now verdicts.now shares.old }
{
    c_api::mavdrusek_outcome(p, l, e, n, g, verdicts, shares, kept, named)
}

// The dealer's rehearsal: fair 1; 0 and the first pair that disagrees, where `checker` checks the value of `sender`.
#[unsafe(no_mangle)]
pub extern "C" fn mavdrusek_rehearse(
    p: u16,
    l: u16,
    e: u16,
    n: u16,
    matrix: &[u16],
    gs: &[u16],
    hs: &[u16],
    fair: &mut u16,
    checker: &mut u16,
    sender: &mut u16,
) -> u16
    ensures answer { result ≡ (rehearse_call (setup p l e n matrix.now) gs.now hs.now).number }
    ensures fair { fair.new ≡ place 0 (rehearse_call (setup p l e n matrix.now) gs.now hs.now) fair.old }
    ensures checker { checker.new ≡ place 1 (rehearse_call (setup p l e n matrix.now) gs.now hs.now) checker.old }
    ensures sender { sender.new ≡ place 2 (rehearse_call (setup p l e n matrix.now) gs.now hs.now) sender.old }
{
    c_api::mavdrusek_rehearse(p, l, e, n, matrix, gs, hs, fair, checker, sender)
}

// The sum of the products of constants and one holder's shares, and the shares' round.
#[unsafe(no_mangle)]
pub extern "C" fn mavdrusek_combine(
    p: u16,
    constants: &[u16],
    shares: &[u16],
    rounds: &[u16],
    value: &mut u16,
    round: &mut u16,
) -> u16
    ensures answer { result ≡ (combine_call p constants.now shares.now rounds.now).number }
    ensures value { value.new ≡ place 0 (combine_call p constants.now shares.now rounds.now) value.old }
    ensures round { round.new ≡ place 1 (combine_call p constants.now shares.now rounds.now) round.old }
{
    c_api::mavdrusek_combine(p, constants, shares, rounds, value, round)
}

// A share and a zero share of its column, added, and the next round.
#[unsafe(no_mangle)]
pub extern "C" fn mavdrusek_refresh(
    p: u16,
    share: u16,
    round: u16,
    zero: u16,
    value: &mut u16,
    next: &mut u16,
) -> u16
    ensures answer { result ≡ (refresh_call p share round zero).number }
    ensures value { value.new ≡ place 0 (refresh_call p share round zero) value.old }
    ensures next { next.new ≡ place 1 (refresh_call p share round zero) next.old }
{
    c_api::mavdrusek_refresh(p, share, round, zero, value, next)
}

// Whether a set determines the secrets: 1 or 0.
#[unsafe(no_mangle)]
pub extern "C" fn mavdrusek_determines(
    p: u16,
    l: u16,
    e: u16,
    n: u16,
    matrix: &[u16],
    set: u32,
    yes: &mut u16,
) -> u16
    ensures answer { result ≡ (determines_call (setup p l e n matrix.now) set).number }
    ensures yes { yes.new ≡ place 0 (determines_call (setup p l e n matrix.now) set) yes.old }
{
    c_api::mavdrusek_determines(p, l, e, n, matrix, set, yes)
}

// Whether a set is called private: 1 or 0.
#[unsafe(no_mangle)]
pub extern "C" fn mavdrusek_private(
    p: u16,
    l: u16,
    e: u16,
    n: u16,
    matrix: &[u16],
    set: u32,
    yes: &mut u16,
) -> u16
    ensures answer { result ≡ (private_call (setup p l e n matrix.now) set).number }
    ensures yes { yes.new ≡ place 0 (private_call (setup p l e n matrix.now) set) yes.old }
{
    c_api::mavdrusek_private(p, l, e, n, matrix, set, yes)
}

// The judgement of a set at a position: kind 1 for a row, 2 for a vector, 0 for neither, and the row steps; the row or a vector into 32 lent entries.
#[unsafe(no_mangle)]
pub extern "C" fn mavdrusek_judge_set(
    p: u16,
    l: u16,
    e: u16,
    n: u16,
    matrix: &[u16],
    set: u32,
    position: u16,
    out: &mut [u16],
    kind: &mut u16,
    steps: &mut u16,
) -> u16
    ensures answer { result ≡ (judge_set_call (setup p l e n matrix.now) set position out.old).number }
    ensures kind { kind.new ≡ place 0 (judge_set_call (setup p l e n matrix.now) set position out.old) kind.old }
    ensures steps { steps.new ≡ place 1 (judge_set_call (setup p l e n matrix.now) set position out.old) steps.old }
    ensures buffer { SetBuffer (setup p l e n matrix.now) set position out.old (judge_set_call (setup p l e n matrix.now) set position out.old) out.new }
{
    c_api::mavdrusek_judge_set(p, l, e, n, matrix, set, position, out, kind, steps)
}

// Opens the shares of a set, by rising holder, which come with their rounds; refusal 6 gives the lowest position with no row.
#[unsafe(no_mangle)]
pub extern "C" fn mavdrusek_open(
    p: u16,
    l: u16,
    e: u16,
    n: u16,
    matrix: &[u16],
    set: u32,
    shares: &[u16],
    rounds: &[u16],
    secrets: &mut [u16],
    position: &mut u16,
) -> u16
    ensures answer { result ≡ (open_call (setup p l e n matrix.now) set shares.now rounds.now secrets.old).number }
    ensures position { position.new ≡ place 0 (open_call (setup p l e n matrix.now) set shares.now rounds.now secrets.old) position.old }
    ensures left { secrets.new ≡ open_left (setup p l e n matrix.now) set shares.now rounds.now secrets.old }
{
    c_api::mavdrusek_open(p, l, e, n, matrix, set, shares, rounds, secrets, position)
}

// Corrections as residues, for dealing.
#[unsafe(no_mangle)]
pub extern "C" fn mavdrusek_hold_corrections(
    p: u16,
    corrections: &[i32],
    residues: &mut [u16],
) -> u16
    ensures answer { result ≡ (hold_call p corrections.now residues.old).number }
    ensures left { residues.new ≡ hold_left p corrections.now residues.old }
{
    c_api::mavdrusek_hold_corrections(p, corrections, residues)
}

// Residues read back into corrections.
#[unsafe(no_mangle)]
pub extern "C" fn mavdrusek_read_corrections(
    p: u16,
    residues: &[u16],
    corrections: &mut [i32],
) -> u16
    ensures answer { result ≡ (read_call p residues.now corrections.old).number }
    ensures left { corrections.new ≡ read_left p residues.now corrections.old }
{
    c_api::mavdrusek_read_corrections(p, residues, corrections)
}

// The sum of the products of signed constants and one holder's shares, and the shares' round.
#[unsafe(no_mangle)]
pub extern "C" fn mavdrusek_combine_signed(
    p: u16,
    constants: &[i32],
    shares: &[u16],
    rounds: &[u16],
    value: &mut u16,
    round: &mut u16,
) -> u16
    ensures answer { result ≡ (combine_signed_call p constants.now shares.now rounds.now).number }
    ensures value { value.new ≡ place 0 (combine_signed_call p constants.now shares.now rounds.now) value.old }
    ensures round { round.new ≡ place 1 (combine_signed_call p constants.now shares.now rounds.now) round.old }
{
    c_api::mavdrusek_combine_signed(p, constants, shares, rounds, value, round)
}

// Opens the shares of a set, by rising holder, which come with their rounds, into corrections; refusal 6 gives the lowest position with no row.
#[unsafe(no_mangle)]
pub extern "C" fn mavdrusek_open_signed(
    p: u16,
    l: u16,
    e: u16,
    n: u16,
    matrix: &[u16],
    set: u32,
    shares: &[u16],
    rounds: &[u16],
    corrections: &mut [i32],
    position: &mut u16,
) -> u16
    ensures answer { result ≡ (open_signed_call (setup p l e n matrix.now) set shares.now rounds.now corrections.old).number }
    ensures position { position.new ≡ place 0 (open_signed_call (setup p l e n matrix.now) set shares.now rounds.now corrections.old) position.old }
    ensures left { corrections.new ≡ open_signed_left (setup p l e n matrix.now) set shares.now rounds.now corrections.old }
{
    c_api::mavdrusek_open_signed(
        p,
        l,
        e,
        n,
        matrix,
        set,
        shares,
        rounds,
        corrections,
        position,
    )
}

// Every holder's part of a key of sixteen bytes.
#[unsafe(no_mangle)]
pub extern "C" fn mavdrusek_deal_key(
    key: &[u8],
    random: &[u16],
    gs: &mut [u16],
    hs: &mut [u16],
) -> u16
    ensures answer { result ≡ (deal_key_call key.now random.now gs.old hs.old).number }
    ensures rows { gs.new ≡ deal_key_left_g key.now random.now gs.old hs.old }
    ensures columns { hs.new ≡ deal_key_left_h key.now random.now gs.old hs.old }
{
    c_api::mavdrusek_deal_key(key, random, gs, hs)
}

// Opens the shares of a set, by column and then by rising holder, which come with their rounds, into the sixteen bytes of a key; refusal 6 gives the lowest
// position with no row.
#[unsafe(no_mangle)]
pub extern "C" fn mavdrusek_open_key(
    set: u32,
    shares: &[u16],
    rounds: &[u16],
    key: &mut [u8],
    position: &mut u16,
) -> u16
    ensures answer { result ≡ (open_key_call set shares.now rounds.now key.old).number }
    ensures position { position.new ≡ place 0 (open_key_call set shares.now rounds.now key.old) position.old }
    ensures left { key.new ≡ open_key_left set shares.now rounds.now key.old }
{
    c_api::mavdrusek_open_key(set, shares, rounds, key, position)
}

// Writes an SU.
#[unsafe(no_mangle)]
pub extern "C" fn mavdrusek_write_setup(
    p: u16,
    l: u16,
    e: u16,
    n: u16,
    matrix: &[u16],
    out: &mut [u8],
) -> u16
    ensures answer { result ≡ (write_setup_call (setup p l e n matrix.now) out.old).number }
    ensures buffer { out.new ≡ write_setup_left (setup p l e n matrix.now) out.old }
{
    c_api::mavdrusek_write_setup(p, l, e, n, matrix, out)
}

// Writes a DL.
#[unsafe(no_mangle)]
pub extern "C" fn mavdrusek_write_dealing(
    p: u16,
    l: u16,
    e: u16,
    n: u16,
    dealing: u16,
    holder: u16,
    g: &[u16],
    h: &[u16],
    out: &mut [u8],
) -> u16
    ensures answer { result ≡ (write_dealing_call (setup p l e n []) (record { dealing = dealing; holder = holder }) g.now h.now out.old).number }
    ensures buffer { out.new ≡ write_dealing_left (setup p l e n []) (record { dealing = dealing; holder = holder }) g.now h.now out.old }
{
    c_api::mavdrusek_write_dealing(p, l, e, n, dealing, holder, g, h, out)
}

// Writes a PV.
#[unsafe(no_mangle)]
pub extern "C" fn mavdrusek_write_pair_value(
    p: u16,
    l: u16,
    e: u16,
    n: u16,
    dealing: u16,
    sender: u16,
    receiver: u16,
    value: u16,
    out: &mut [u8],
) -> u16
    ensures answer { result ≡ (write_pair_call (setup p l e n []) (record { dealing = dealing; sender = sender; receiver = receiver; value = value }) out.old).number }
    ensures buffer { out.new ≡ write_pair_left (setup p l e n []) (record { dealing = dealing; sender = sender; receiver = receiver; value = value }) out.old }
{
    c_api::mavdrusek_write_pair_value(p, l, e, n, dealing, sender, receiver, value, out)
}

// Writes a VD.
#[unsafe(no_mangle)]
pub extern "C" fn mavdrusek_write_verdict(
    p: u16,
    l: u16,
    e: u16,
    n: u16,
    dealing: u16,
    holder: u16,
    verdict: u16,
    out: &mut [u8],
) -> u16
    ensures answer { result ≡ (write_verdict_call (setup p l e n []) (record { dealing = dealing; holder = holder; verdict = verdict }) out.old).number }
    ensures buffer { out.new ≡ write_verdict_left (setup p l e n []) (record { dealing = dealing; holder = holder; verdict = verdict }) out.old }
{
    c_api::mavdrusek_write_verdict(p, l, e, n, dealing, holder, verdict, out)
}

// Writes an SH.
#[unsafe(no_mangle)]
pub extern "C" fn mavdrusek_write_share(
    p: u16,
    l: u16,
    e: u16,
    n: u16,
    dealing: u16,
    holder: u16,
    column: u16,
    value: u16,
    round: u16,
    out: &mut [u8],
) -> u16
    ensures answer { result ≡ (write_share_call (setup p l e n []) (record { dealing = dealing; holder = holder; column = column; value = value; round = round }) out.old).number }
    ensures buffer { out.new ≡ write_share_left (setup p l e n []) (record { dealing = dealing; holder = holder; column = column; value = value; round = round }) out.old }
{
    c_api::mavdrusek_write_share(p, l, e, n, dealing, holder, column, value, round, out)
}

// Writes a DF.
#[unsafe(no_mangle)]
pub extern "C" fn mavdrusek_write_mapped_dealing(
    p: u16,
    l: u16,
    e: u16,
    n: u16,
    dealing: u16,
    holder: u16,
    g: &[u16],
    h: &[u16],
    phi: &[u16],
    out: &mut [u8],
) -> u16
    ensures answer { result ≡ (write_mapped_call (setup p l e n []) (record { dealing = dealing; holder = holder }) g.now h.now phi.now out.old).number }
    ensures buffer { out.new ≡ write_mapped_left (setup p l e n []) (record { dealing = dealing; holder = holder }) g.now h.now phi.now out.old }
{
    c_api::mavdrusek_write_mapped_dealing(p, l, e, n, dealing, holder, g, h, phi, out)
}

// Writes a PF.
#[unsafe(no_mangle)]
pub extern "C" fn mavdrusek_write_mapped_pair_value(
    p: u16,
    l: u16,
    e: u16,
    n: u16,
    dealing: u16,
    sender: u16,
    receiver: u16,
    value: u16,
    out: &mut [u8],
) -> u16
    ensures answer { result ≡ (write_mapped_pair_call (setup p l e n []) (record { dealing = dealing; sender = sender; receiver = receiver; value = value }) out.old).number }
    ensures buffer { out.new ≡ write_mapped_pair_left (setup p l e n []) (record { dealing = dealing; sender = sender; receiver = receiver; value = value }) out.old }
{
    c_api::mavdrusek_write_mapped_pair_value(p, l, e, n, dealing, sender, receiver, value, out)
}

// Writes a DZ.
#[unsafe(no_mangle)]
pub extern "C" fn mavdrusek_write_zero_dealing(
    p: u16,
    l: u16,
    e: u16,
    n: u16,
    dealing: u16,
    holder: u16,
    g: &[u16],
    h: &[u16],
    out: &mut [u8],
) -> u16
    ensures answer { result ≡ (write_zero_call (setup p l e n []) (record { dealing = dealing; holder = holder }) g.now h.now out.old).number }
    ensures buffer { out.new ≡ write_zero_left (setup p l e n []) (record { dealing = dealing; holder = holder }) g.now h.now out.old }
{
    c_api::mavdrusek_write_zero_dealing(p, l, e, n, dealing, holder, g, h, out)
}

// Reads the four numbers of an SU.
#[unsafe(no_mangle)]
pub extern "C" fn mavdrusek_read_setup_head(
    part: &[u8],
    p: &mut u16,
    l: &mut u16,
    e: &mut u16,
    n: &mut u16,
) -> u16
    ensures answer { result ≡ (read_setup_call part.now).number }
    ensures p { p.new ≡ place 0 (read_setup_call part.now) p.old }
    ensures l { l.new ≡ place 1 (read_setup_call part.now) l.old }
    ensures e { e.new ≡ place 2 (read_setup_call part.now) e.old }
    ensures n { n.new ≡ place 3 (read_setup_call part.now) n.old }
{
    c_api::mavdrusek_read_setup_head(part, p, l, e, n)
}

// Reads the matrix of an SU.
#[unsafe(no_mangle)]
pub extern "C" fn mavdrusek_read_setup_matrix(part: &[u8], matrix: &mut [u16]) -> u16
    ensures answer { result ≡ (read_matrix_call part.now matrix.old).number }
    ensures buffer { matrix.new ≡ read_matrix_left part.now matrix.old }
{
    c_api::mavdrusek_read_setup_matrix(part, matrix)
}

// Reads a DL.
#[unsafe(no_mangle)]
pub extern "C" fn mavdrusek_read_dealing(
    p: u16,
    l: u16,
    e: u16,
    n: u16,
    part: &[u8],
    g: &mut [u16],
    h: &mut [u16],
    dealing: &mut u16,
    holder: &mut u16,
) -> u16
    ensures answer { result ≡ (read_dealing_call (setup p l e n []) part.now g.old h.old).number }
    ensures dealing { dealing.new ≡ place 0 (read_dealing_call (setup p l e n []) part.now g.old h.old) dealing.old }
    ensures holder { holder.new ≡ place 1 (read_dealing_call (setup p l e n []) part.now g.old h.old) holder.old }
    ensures row { g.new ≡ read_dealing_left_g (setup p l e n []) part.now g.old h.old }
    ensures column { h.new ≡ read_dealing_left_h (setup p l e n []) part.now g.old h.old }
{
    c_api::mavdrusek_read_dealing(p, l, e, n, part, g, h, dealing, holder)
}

// Reads a PV.
#[unsafe(no_mangle)]
pub extern "C" fn mavdrusek_read_pair_value(
    p: u16,
    l: u16,
    e: u16,
    n: u16,
    part: &[u8],
    dealing: &mut u16,
    sender: &mut u16,
    receiver: &mut u16,
    value: &mut u16,
) -> u16
    ensures answer { result ≡ (read_pair_call (setup p l e n []) part.now).number }
    ensures dealing { dealing.new ≡ place 0 (read_pair_call (setup p l e n []) part.now) dealing.old }
    ensures sender { sender.new ≡ place 1 (read_pair_call (setup p l e n []) part.now) sender.old }
    ensures receiver { receiver.new ≡ place 2 (read_pair_call (setup p l e n []) part.now) receiver.old }
    ensures value { value.new ≡ place 3 (read_pair_call (setup p l e n []) part.now) value.old }
{
    c_api::mavdrusek_read_pair_value(p, l, e, n, part, dealing, sender, receiver, value)
}

// Reads a VD.
#[unsafe(no_mangle)]
pub extern "C" fn mavdrusek_read_verdict(
    p: u16,
    l: u16,
    e: u16,
    n: u16,
    part: &[u8],
    dealing: &mut u16,
    holder: &mut u16,
    verdict: &mut u16,
) -> u16
    ensures answer { result ≡ (read_verdict_call (setup p l e n []) part.now).number }
    ensures dealing { dealing.new ≡ place 0 (read_verdict_call (setup p l e n []) part.now) dealing.old }
    ensures holder { holder.new ≡ place 1 (read_verdict_call (setup p l e n []) part.now) holder.old }
    ensures verdict { verdict.new ≡ place 2 (read_verdict_call (setup p l e n []) part.now) verdict.old }
{
    c_api::mavdrusek_read_verdict(p, l, e, n, part, dealing, holder, verdict)
}

// Reads an SH.
#[unsafe(no_mangle)]
pub extern "C" fn mavdrusek_read_share(
    p: u16,
    l: u16,
    e: u16,
    n: u16,
    part: &[u8],
    dealing: &mut u16,
    holder: &mut u16,
    column: &mut u16,
    value: &mut u16,
    round: &mut u16,
) -> u16
    ensures answer { result ≡ (read_share_call (setup p l e n []) part.now).number }
    ensures dealing { dealing.new ≡ place 0 (read_share_call (setup p l e n []) part.now) dealing.old }
    ensures holder { holder.new ≡ place 1 (read_share_call (setup p l e n []) part.now) holder.old }
    ensures column { column.new ≡ place 2 (read_share_call (setup p l e n []) part.now) column.old }
    ensures value { value.new ≡ place 3 (read_share_call (setup p l e n []) part.now) value.old }
    ensures round { round.new ≡ place 4 (read_share_call (setup p l e n []) part.now) round.old }
{
    c_api::mavdrusek_read_share(p, l, e, n, part, dealing, holder, column, value, round)
}

// Which of two SH of one share supersedes, 1 or 2.
#[unsafe(no_mangle)]
pub extern "C" fn mavdrusek_superseding(
    p: u16,
    l: u16,
    e: u16,
    n: u16,
    first: &[u8],
    second: &[u8],
    which: &mut u16,
) -> u16
    ensures answer { result ≡ (superseding_call (setup p l e n []) first.now second.now).number }
    ensures which { which.new ≡ place 0 (superseding_call (setup p l e n []) first.now second.now) which.old }
{
    c_api::mavdrusek_superseding(p, l, e, n, first, second, which)
}

// Reads a DF.
#[unsafe(no_mangle)]
pub extern "C" fn mavdrusek_read_mapped_dealing(
    p: u16,
    l: u16,
    e: u16,
    n: u16,
    part: &[u8],
    g: &mut [u16],
    h: &mut [u16],
    phi: &mut [u16],
    dealing: &mut u16,
    holder: &mut u16,
) -> u16
    ensures answer { result ≡ (read_mapped_call (setup p l e n []) part.now g.old h.old phi.old).number }
    ensures dealing { dealing.new ≡ place 0 (read_mapped_call (setup p l e n []) part.now g.old h.old phi.old) dealing.old }
    ensures holder { holder.new ≡ place 1 (read_mapped_call (setup p l e n []) part.now g.old h.old phi.old) holder.old }
    ensures row { g.new ≡ read_mapped_left_g (setup p l e n []) part.now g.old h.old phi.old }
    ensures column { h.new ≡ read_mapped_left_h (setup p l e n []) part.now g.old h.old phi.old }
    ensures map { phi.new ≡ read_mapped_left_phi (setup p l e n []) part.now g.old h.old phi.old }
{
    c_api::mavdrusek_read_mapped_dealing(p, l, e, n, part, g, h, phi, dealing, holder)
}

// Reads a PF.
#[unsafe(no_mangle)]
pub extern "C" fn mavdrusek_read_mapped_pair_value(
    p: u16,
    l: u16,
    e: u16,
    n: u16,
    part: &[u8],
    dealing: &mut u16,
    sender: &mut u16,
    receiver: &mut u16,
    value: &mut u16,
) -> u16
    ensures answer { result ≡ (read_mapped_pair_call (setup p l e n []) part.now).number }
    ensures dealing { dealing.new ≡ place 0 (read_mapped_pair_call (setup p l e n []) part.now) dealing.old }
    ensures sender { sender.new ≡ place 1 (read_mapped_pair_call (setup p l e n []) part.now) sender.old }
    ensures receiver { receiver.new ≡ place 2 (read_mapped_pair_call (setup p l e n []) part.now) receiver.old }
    ensures value { value.new ≡ place 3 (read_mapped_pair_call (setup p l e n []) part.now) value.old }
{
    c_api::mavdrusek_read_mapped_pair_value(p, l, e, n, part, dealing, sender, receiver, value)
}

// Reads a DZ.
#[unsafe(no_mangle)]
pub extern "C" fn mavdrusek_read_zero_dealing(
    p: u16,
    l: u16,
    e: u16,
    n: u16,
    part: &[u8],
    g: &mut [u16],
    h: &mut [u16],
    dealing: &mut u16,
    holder: &mut u16,
) -> u16
    ensures answer { result ≡ (read_zero_call (setup p l e n []) part.now g.old h.old).number }
    ensures dealing { dealing.new ≡ place 0 (read_zero_call (setup p l e n []) part.now g.old h.old) dealing.old }
    ensures holder { holder.new ≡ place 1 (read_zero_call (setup p l e n []) part.now g.old h.old) holder.old }
    ensures row { g.new ≡ read_zero_left_g (setup p l e n []) part.now g.old h.old }
    ensures column { h.new ≡ read_zero_left_h (setup p l e n []) part.now g.old h.old }
{
    c_api::mavdrusek_read_zero_dealing(p, l, e, n, part, g, h, dealing, holder)
}

// THE HOLDER'S FILE
// Reads a holder's file and gives its contents as 27 numbers; a refused file gives the byte where the faulty record starts.
#[unsafe(no_mangle)]
pub extern "C" fn mavdrusek_read_file(file: &[u8], contents: &mut [u16], byte: &mut usize) -> u16
    ensures answer { result ≡ (file_contents_call file.now contents.old).number }
    ensures byte { byte.new ≡ place 0 (file_contents_call file.now contents.old) byte.old }
    ensures buffer { contents.new ≡ file_contents_left file.now contents.old }
{
    c_api::mavdrusek_read_file(file, contents, byte)
}

// Prints a holder's file into a lent buffer of 512 bytes and gives how many there are; a refused file gives the byte as above.
#[unsafe(no_mangle)]
pub extern "C" fn mavdrusek_holder_file(
    file: &[u8],
    out: &mut [u8],
    count: &mut usize,
    byte: &mut usize,
) -> u16
    ensures answer { result ≡ (holder_file_call file.now out.old).number }
    ensures count { count.new ≡ answered_place 0 (holder_file_call file.now out.old) count.old }
    ensures byte { byte.new ≡ refused_place 0 (holder_file_call file.now out.old) byte.old }
    ensures buffer { out.new ≡ holder_file_left file.now out.old }
{
    c_api::mavdrusek_holder_file(file, out, count, byte)
}
