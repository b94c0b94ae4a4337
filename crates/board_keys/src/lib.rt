// Board keys, the product: sixteen bytes in, sixteen bytes out, on one setup that no caller lends (p 257, ℓ 4, e 3, n 16, points matrix). Each call first works
// out its refusal by the table of specs/Keys.antt; where there is none, `key_parts` writes the parts and `key_values` reads the positions off the shares.
#![tactic(auto)]

ghost use Rattle.std.specs.Prelude.{◌≡◌, not, ◌+◌, ◌*◌, ◌≤◌, length};
ghost use Rattle.base.specs.Rules.{refusal, left_by};
ghost use Rattle.base.specs.Refusals.{refused_by};
ghost use Rattle.base.specs.Fill.{tab};
ghost use Rattle.base.specs.Search.{every};
ghost use Rattle.base.specs.Matrix.{entry, Below};
ghost use Rattle.field.specs.Dot.{at};
ghost use Rattle.scheme.specs.Answers.{paper_written, paper_opened};
ghost use Rattle.scheme.specs.Opening.{agree};
ghost use Rattle.scheme.specs.Calls.{deal_all_rules, open_answer};
ghost use Rattle.board_keys.specs.Keys.{key_setup, deal_key_call, deal_key_left_g, deal_key_left_h, key_opening, open_key_rules, open_key_call, open_key_left};
ghost use Rattle.board_keys.specs.Inner.{KeyTaken};

use base::Refusal;
use scheme::NotOpened;

// DEAL A KEY
// The lengths and the random entries: nothing else of deal-to-all can be refused, since the setup is one and every byte is below 257.
fn check_deal_key(key: &[u8], random: &[u16], gs: &[u16], hs: &[u16]) -> Result<(), Refusal>
    ensures { refused_by result ≡ refusal (deal_all_rules key_setup key.now random.now gs.now hs.now) }
{
    scheme::check_size(key.len(), 16)?;
    scheme::check_size(random.len(), 33)?;
    scheme::check_size(gs.len(), 112)?;
    scheme::check_size(hs.len(), 112)?;
    scheme::check_elements(257, random)
}

// Every depot's part of a key.
pub fn deal_key(key: &[u8], random: &[u16], gs: &mut [u16], hs: &mut [u16]) -> Result<(), Refusal>
    ensures result_value { paper_written result ≡ deal_key_call key.now random.now gs.old hs.old }
    ensures gs_after { gs.new ≡ deal_key_left_g key.now random.now gs.old hs.old }
    ensures hs_after { hs.new ≡ deal_key_left_h key.now random.now gs.old hs.old }
{
    check_deal_key(key, random, gs, hs)?;
    key_parts::write_parts(key, random, gs, hs);
    Ok(())
}

// OPEN A KEY
// Whether the rounds of some column differ, of k members each: one pass where all four columns stand at one round.
fn columns_apart(rounds: &[u16], k: usize) -> bool
    requires { (length rounds.now ≡ 4 * k) × (k ≤ 32) }
    ensures { result ≡ not (every 4 (λ b. agree (tab k (entry k rounds.now b)))) }
{
    if base::all_are(rounds, scheme::round_of(rounds)) {
        return false;
    }
    for b in 0..4 {
        let from = b * k;
        let column = &rounds[from..from + k];
        if !base::all_are(column, scheme::round_of(column)) {
            return true;
        }
    }
    false
}

fn check_open_key(set: u32, shares: &[u16], rounds: &[u16], key: &[u8]) -> Result<(), Refusal>
    ensures { refused_by result ≡ refusal (open_key_rules set shares.now rounds.now key.now) }
{
    let k = set_systems::size(set);
    scheme::check_size(shares.len(), 4 * k)?;
    scheme::check_size(rounds.len(), 4 * k)?;
    scheme::check_size(key.len(), 16)?;
    scheme::check_elements(257, shares)?;
    base::refuse_if(set_systems::beyond(16, set), Refusal::Range)?;
    base::refuse_if(columns_apart(rounds, k), Refusal::Rounds)
}

// The sixteen bytes.
#[tactic(auto, using(key_weights::proofs::Lanes::lanes_are))]
fn write_bytes(values: [u16; 16], key: &mut [u8])
    requires key_len { length key.old ≡ 16 }
    requires below { Below 256 values }
    ensures { key.new ≡ tab 16 (at values) }
{
    for (i, byte) in key.iter_mut().enumerate() {
        *byte = values[i] as u8;
    }
}

// Opens from inputs that are in order: 6, then 7 in any column, and last of all a position that is no byte.
fn open_in_order(set: u32, shares: &[u16], key: &mut [u8]) -> Result<(), NotOpened>
    requires { KeyTaken set shares.now key.old }
    ensures result_value { paper_opened result ≡ open_answer (key_opening set shares.now) }
    ensures key_after { key.new ≡ left_by (key_opening set shares.now).number (key_opening set shares.now).values key.old }
{
    if set_systems::size(set) < 7 {
        return Err(NotOpened::Undetermined(0));
    }
    let Ok(values) = key_values::interpolate(set, shares) else {
        return Err(NotOpened::Inconsistent);
    };
    if !base::all_below(&values, 256) {
        return Err(NotOpened::Refused(Refusal::NoByte));
    }
    write_bytes(values, key);
    Ok(())
}

// Opens a key by the shares of a set: those of column 0 by rising depot, then those of columns 1, 2 and 3; their rounds come in the same order.
pub fn open_key(set: u32, shares: &[u16], rounds: &[u16], key: &mut [u8]) -> Result<(), NotOpened>
    ensures result_value { paper_opened result ≡ open_key_call set shares.now rounds.now key.old }
    ensures key_after { key.new ≡ open_key_left set shares.now rounds.now key.old }
{
    check_open_key(set, shares, rounds, key)?;
    open_in_order(set, shares, key)
}
