// Answers handed out: each function returns an answer's number and writes its values into the places that the caller lends; a place for which the answer
// has no value keeps what it holds.
#![tactic(auto)]

ghost use Rattle.std.specs.Prelude.{◌≡◌};
ghost use Rattle.scheme.specs.Answers.{paper_judged, paper_rehearsal, paper_share, paper_decided, paper_set_judged, paper_opened};
ghost use Rattle.record_layouts.specs.Records.{paper_dealing_read, paper_pair_read, paper_share_read};
ghost use Rattle.places.specs.Places.{place, named_place};

use base::Refusal;
use record_layouts::{DealingRecord, PairRecord, ShareRecord};
use scheme::{Judgement, NotOpened, Rehearsal, SetJudgement, Share};

// A rejection and what it names.
pub fn rejection(who: u16, verdict: &mut u16, named: &mut u16) -> u16
    ensures value { result ≡ 0 }
    ensures verdict_after { verdict.new ≡ 0 }
    ensures named_after { named.new ≡ who }
{
    *verdict = 0;
    *named = who;
    0
}

// A judgement's number; where only the check of the map fails it names 65535, which is no holder.
pub fn judged(answer: Result<Judgement, Refusal>, verdict: &mut u16, named: &mut u16) -> u16
    ensures value { result ≡ (paper_judged answer).number }
    ensures verdict_after { verdict.new ≡ place 0 (paper_judged answer) verdict.old }
    ensures named_after { named.new ≡ named_place (paper_judged answer) named.old }
{
    match answer {
        Ok(Judgement::Accept) => {
            *verdict = 1;
            0
        }
        Ok(Judgement::Reject(i)) => rejection(i, verdict, named),
        Ok(Judgement::RejectMap) => rejection(65535, verdict, named),
        Err(refusal) => refusal.number(),
    }
}

// A rehearsal's number: fair 1; 0 and the pair that disagrees.
pub fn rehearsed(
    answer: Result<Rehearsal, Refusal>,
    fair: &mut u16,
    checker: &mut u16,
    sender: &mut u16,
) -> u16
    ensures value { result ≡ (paper_rehearsal answer).number }
    ensures fair_after { fair.new ≡ place 0 (paper_rehearsal answer) fair.old }
    ensures checker_after { checker.new ≡ place 1 (paper_rehearsal answer) checker.old }
    ensures sender_after { sender.new ≡ place 2 (paper_rehearsal answer) sender.old }
{
    match answer {
        Ok(Rehearsal::Fair) => {
            *fair = 1;
            0
        }
        Ok(Rehearsal::Disagree(i, j)) => {
            *fair = 0;
            *checker = i;
            *sender = j;
            0
        }
        Err(refusal) => refusal.number(),
    }
}

// A share's number, its value and its round.
pub fn shared(answer: Result<Share, Refusal>, value: &mut u16, round: &mut u16) -> u16
    ensures value { result ≡ (paper_share answer).number }
    ensures value_after { value.new ≡ place 0 (paper_share answer) value.old }
    ensures round_after { round.new ≡ place 1 (paper_share answer) round.old }
{
    match answer {
        Ok(share) => {
            *value = share.value;
            *round = share.round;
            0
        }
        Err(refusal) => refusal.number(),
    }
}

// The number of an answer to a question, and 1 for yes, 0 for no.
pub fn decided(answer: Result<bool, Refusal>, yes: &mut u16) -> u16
    ensures value { result ≡ (paper_decided answer).number }
    ensures yes_after { yes.new ≡ place 0 (paper_decided answer) yes.old }
{
    match answer {
        Ok(true) => {
            *yes = 1;
            0
        }
        Ok(false) => {
            *yes = 0;
            0
        }
        Err(refusal) => refusal.number(),
    }
}

// The number of a set's judgement, its kind, 1 for a row, 2 for a vector and 0 for neither, and its row steps.
pub fn set_judged(answer: Result<SetJudgement, Refusal>, kind: &mut u16, steps: &mut u16) -> u16
    ensures value { result ≡ (paper_set_judged answer).number }
    ensures kind_after { kind.new ≡ place 0 (paper_set_judged answer) kind.old }
    ensures steps_after { steps.new ≡ place 1 (paper_set_judged answer) steps.old }
{
    match answer {
        Ok(SetJudgement::Row(k)) => {
            *kind = 1;
            *steps = k;
            0
        }
        Ok(SetJudgement::Vector(k)) => {
            *kind = 2;
            *steps = k;
            0
        }
        Ok(SetJudgement::Neither(k)) => {
            *kind = 0;
            *steps = k;
            0
        }
        Err(refusal) => refusal.number(),
    }
}

// An opening's number; refusal 6 gives the lowest position with no row.
pub fn opened(answer: Result<(), NotOpened>, position: &mut u16) -> u16
    ensures value { result ≡ (paper_opened answer).number }
    ensures position_after { position.new ≡ place 0 (paper_opened answer) position.old }
{
    match answer {
        Ok(()) => 0,
        Err(NotOpened::Undetermined(q)) => {
            *position = q;
            6
        }
        Err(NotOpened::Inconsistent) => 7,
        Err(NotOpened::Refused(refusal)) => refusal.number(),
    }
}

// The number of a read DL, DZ or DF, its dealing number and its holder.
pub fn dealing_read(
    answer: Result<DealingRecord, Refusal>,
    dealing: &mut u16,
    holder: &mut u16,
) -> u16
    ensures value { result ≡ (paper_dealing_read answer).number }
    ensures dealing_after { dealing.new ≡ place 0 (paper_dealing_read answer) dealing.old }
    ensures holder_after { holder.new ≡ place 1 (paper_dealing_read answer) holder.old }
{
    match answer {
        Ok(head) => {
            *dealing = head.dealing;
            *holder = head.holder;
            0
        }
        Err(refusal) => refusal.number(),
    }
}

// The number of a read PV or PF and its four fields.
pub fn pair_read(
    answer: Result<PairRecord, Refusal>,
    dealing: &mut u16,
    sender: &mut u16,
    receiver: &mut u16,
    value: &mut u16,
) -> u16
    ensures value { result ≡ (paper_pair_read answer).number }
    ensures dealing_after { dealing.new ≡ place 0 (paper_pair_read answer) dealing.old }
    ensures sender_after { sender.new ≡ place 1 (paper_pair_read answer) sender.old }
    ensures receiver_after { receiver.new ≡ place 2 (paper_pair_read answer) receiver.old }
    ensures value_after { value.new ≡ place 3 (paper_pair_read answer) value.old }
{
    match answer {
        Ok(pair) => {
            *dealing = pair.dealing;
            *sender = pair.sender;
            *receiver = pair.receiver;
            *value = pair.value;
            0
        }
        Err(refusal) => refusal.number(),
    }
}

// The number of a read SH and its five fields.
pub fn share_read(
    answer: Result<ShareRecord, Refusal>,
    dealing: &mut u16,
    holder: &mut u16,
    column: &mut u16,
    value: &mut u16,
    round: &mut u16,
) -> u16
    ensures value { result ≡ (paper_share_read answer).number }
    ensures dealing_after { dealing.new ≡ place 0 (paper_share_read answer) dealing.old }
    ensures holder_after { holder.new ≡ place 1 (paper_share_read answer) holder.old }
    ensures column_after { column.new ≡ place 2 (paper_share_read answer) column.old }
    ensures value_after { value.new ≡ place 3 (paper_share_read answer) value.old }
    ensures round_after { round.new ≡ place 4 (paper_share_read answer) round.old }
{
    match answer {
        Ok(x) => {
            *dealing = x.dealing;
            *holder = x.holder;
            *column = x.column;
            *value = x.value;
            *round = x.round;
            0
        }
        Err(refusal) => refusal.number(),
    }
}
