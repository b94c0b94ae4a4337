// Document 01's cases, and a zero dealing with its refresh on the same example, worked by the compiled calls: a line for each, its words and then what the
// call gave.
#![tactic(auto)]

use base::Refusal;
use scheme::{Fate, Judgement, NotOpened, Params, Rehearsal, SetJudgement, Share};
use std::fmt::{self, Display, Formatter};
use std::io;

// The example: the setup of 3 holders over the field of 7, with l 1 and e 1, and its matrix of points.
const EXAMPLE: Params = Params {
    p: 7,
    l: 1,
    e: 1,
    n: 3,
};

const MATRIX: [u16; 6] = [6, 2, 5, 3, 4, 4];

// What each place that a call may write holds before it.
const PLACE: u16 = 9;

// Numbers, each behind a space.
#[derive(Clone, Copy)]
struct Numbers<'a>(&'a [u16]);

impl Display for Numbers<'_> {
    fn fmt<W: fmt::Write>(&self, f: &mut Formatter<W>) -> fmt::Result {
        for x in self.0 {
            write!(f, " {x}")?;
        }
        Ok(())
    }
}

// A call's answer in words.
#[derive(Clone, Copy)]
struct Words<T>(T);

impl<T: Copy> Display for Words<Result<T, Refusal>>
where
    Words<T>: Display,
{
    fn fmt<W: fmt::Write>(&self, f: &mut Formatter<W>) -> fmt::Result {
        match self.0 {
            Ok(answer) => write!(f, "{}", Words(answer)),
            Err(refusal) => write!(f, "refused {}", refusal.number()),
        }
    }
}

impl Display for Words<()> {
    fn fmt<W: fmt::Write>(&self, f: &mut Formatter<W>) -> fmt::Result {
        f.write_str("done")
    }
}

impl Display for Words<u16> {
    fn fmt<W: fmt::Write>(&self, f: &mut Formatter<W>) -> fmt::Result {
        write!(f, "{}", self.0)
    }
}

impl Display for Words<bool> {
    fn fmt<W: fmt::Write>(&self, f: &mut Formatter<W>) -> fmt::Result {
        f.write_str(if self.0 { "yes" } else { "no" })
    }
}

impl Display for Words<Share> {
    fn fmt<W: fmt::Write>(&self, f: &mut Formatter<W>) -> fmt::Result {
        let share = self.0;
        write!(f, "{}, round {}", share.value, share.round)
    }
}

impl Display for Words<Judgement> {
    fn fmt<W: fmt::Write>(&self, f: &mut Formatter<W>) -> fmt::Result {
        match self.0 {
            Judgement::Accept => f.write_str("accept"),
            Judgement::Reject(j) => write!(f, "reject {j}"),
            Judgement::RejectMap => f.write_str("reject map"),
        }
    }
}

impl Display for Words<Fate> {
    fn fmt<W: fmt::Write>(&self, f: &mut Formatter<W>) -> fmt::Result {
        match self.0 {
            Fate::Kept => f.write_str("kept"),
            Fate::Aborted(i) => write!(f, "aborted {i}"),
        }
    }
}

impl Display for Words<Rehearsal> {
    fn fmt<W: fmt::Write>(&self, f: &mut Formatter<W>) -> fmt::Result {
        match self.0 {
            Rehearsal::Fair => f.write_str("fair"),
            Rehearsal::Disagree(i, j) => write!(f, "disagree {i} {j}"),
        }
    }
}

impl Display for Words<Result<(), NotOpened>> {
    fn fmt<W: fmt::Write>(&self, f: &mut Formatter<W>) -> fmt::Result {
        match self.0 {
            Ok(()) => f.write_str("secrets"),
            Err(NotOpened::Undetermined(q)) => write!(f, "6 at position {q}"),
            Err(NotOpened::Inconsistent) => f.write_str("7"),
            Err(NotOpened::Refused(refusal)) => write!(f, "refused {}", refusal.number()),
        }
    }
}

impl Display for Words<SetJudgement> {
    fn fmt<W: fmt::Write>(&self, f: &mut Formatter<W>) -> fmt::Result {
        match self.0 {
            SetJudgement::Row(steps) => write!(f, "row, row steps {steps}"),
            SetJudgement::Vector(steps) => write!(f, "vector, row steps {steps}"),
            SetJudgement::Neither(steps) => write!(f, "neither, row steps {steps}"),
        }
    }
}

// A matrix from points, with the numbers of the example but for n, into the lent one.
fn points(rt: &impl Print, n: u16, matrix: &mut [u16]) -> io::Result<()> {
    let answer = points::points(Params { n, ..EXAMPLE }, matrix);
    println!(rt;
        "points of {n} holders {}:{}",
        Words(answer),
        Numbers(matrix)
    )
}

// The parts of F rows (3, 1), (5, 2), with one of its entries given.
fn parts(rt: &impl Print, secret: u16, holder: u16) -> io::Result<()> {
    let mut g = [PLACE; 2];
    let mut h = [PLACE; 2];
    let answer = dealing::deal(
        EXAMPLE,
        &MATRIX,
        &[secret],
        &[1, 5, 2],
        holder,
        &mut g,
        &mut h,
    );
    println!(rt;
        "secret {secret}, g and h of holder {holder} {}:{}{}",
        Words(answer),
        Numbers(&g),
        Numbers(&h)
    )
}

// All the parts of one dealing in one call, and the dealer's rehearsal of them and of one that lies.
fn all_parts(rt: &impl Print) -> io::Result<()> {
    let mut gs = [PLACE; 6];
    let mut hs = [PLACE; 6];
    let answer = dealing::deal_all(EXAMPLE, &MATRIX, &[3], &[1, 5, 2], &mut gs, &mut hs);
    println!(rt; "g of all {}:{}", Words(answer), Numbers(&gs))?;
    println!(rt; "h of all {}:{}", Words(answer), Numbers(&hs))?;
    let fair = judging::rehearse(EXAMPLE, &MATRIX, &gs, &hs);
    println!(rt; "rehearsal {}", Words(fair))?;
    gs[5] = 6;
    let lying = judging::rehearse(EXAMPLE, &MATRIX, &gs, &hs);
    println!(rt; "rehearsal with another g of holder 2 {}", Words(lying))
}

// The value to holder 1 from the holder with this g.
fn pair_value(rt: &impl Print, g: &[u16]) -> io::Result<()> {
    let answer = judging::pair_value(EXAMPLE, &MATRIX, g, 1);
    println!(rt;
        "pair value to holder 1 from g{}: {}",
        Numbers(g),
        Words(answer)
    )
}

// The judgement of holder 1 on these values.
fn judge(rt: &impl Print, values: &[u16]) -> io::Result<()> {
    let answer = judging::judge(EXAMPLE, &MATRIX, &[4, 3], values);
    println!(rt; "holder 1 judges{}: {}", Numbers(values), Words(answer))
}

// The outcome at holder 1 under these verdicts.
fn outcome(rt: &impl Print, verdicts: &[u16]) -> io::Result<()> {
    let mut share = [PLACE];
    let answer = outcomes::outcome(EXAMPLE, &[2, 4], verdicts, &mut share);
    print!(rt; "outcome of verdicts{}: ", Numbers(verdicts))?;
    match answer {
        Ok(fate) => println!(rt; "{}:{}", Words(fate), Numbers(&share)),
        Err(refusal) => println!(rt; "refused {}", refusal.number()),
    }
}

// A combination of one holder's shares, which come with their rounds.
fn combine(rt: &impl Print, constants: &[u16], shares: &[u16], rounds: &[u16]) -> io::Result<()> {
    let answer = combining::combine(7, constants, shares, rounds);
    println!(rt;
        "constants{} and shares{}, rounds{}: {}",
        Numbers(constants),
        Numbers(shares),
        Numbers(rounds),
        Words(answer)
    )
}

// An opening by a set of the example's holders that hands in these shares of these rounds.
fn open(rt: &impl Print, set: u32, shares: &[u16], rounds: &[u16]) -> io::Result<()> {
    let mut secret = [PLACE];
    let answer = opening::open(EXAMPLE, &MATRIX, set, shares, rounds, &mut secret);
    println!(rt;
        "set {set} opens{}, rounds{}: {}:{}",
        Numbers(shares),
        Numbers(rounds),
        Words(answer),
        Numbers(&secret)
    )
}

// The parts of a zero dealing, F rows (0, 0), (2, 5).
fn zero_parts(rt: &impl Print, holder: u16) -> io::Result<()> {
    let mut g = [PLACE; 2];
    let mut h = [PLACE];
    let answer = zero_dealing::deal_zero(EXAMPLE, &MATRIX, &[2, 5], holder, &mut g, &mut h);
    println!(rt;
        "zeros, g and h of holder {holder} {}:{}{}",
        Words(answer),
        Numbers(&g),
        Numbers(&h)
    )
}

// All its parts in one call.
fn all_zero_parts(rt: &impl Print) -> io::Result<()> {
    let mut gs = [PLACE; 6];
    let mut hs = [PLACE; 3];
    let answer = zero_dealing::deal_zero_all(EXAMPLE, &MATRIX, &[2, 5], &mut gs, &mut hs);
    println!(rt; "zeros, g of all {}:{}", Words(answer), Numbers(&gs))?;
    println!(rt; "zeros, h of all {}:{}", Words(answer), Numbers(&hs))
}

// The judgement of holder 1 on these values of the zero dealing.
fn judge_zero(rt: &impl Print, values: &[u16]) -> io::Result<()> {
    let answer = zero_dealing::judge_zero(EXAMPLE, &MATRIX, &[4], values);
    println!(rt;
        "zeros, holder 1 judges{}: {}",
        Numbers(values),
        Words(answer)
    )
}

// A share of a round refreshed by a zero share.
fn refresh(rt: &impl Print, share: u16, round: u16, zero: u16) -> io::Result<()> {
    let answer = combining::refresh(7, share, round, zero);
    println!(rt;
        "share {share}, round {round}, and zero share {zero}: {}",
        Words(answer)
    )
}

// What a set is on the example's matrix.
fn set_of_example(rt: &impl Print, set: u32) -> io::Result<()> {
    let determines = set_questions::determines(EXAMPLE, &MATRIX, set);
    println!(rt; "set {set} determines: {}", Words(determines))?;
    let private = set_questions::private(EXAMPLE, &MATRIX, set);
    println!(rt; "set {set} is private: {}", Words(private))?;
    let mut found = [PLACE; 32];
    let judged = set_questions::judge_set(EXAMPLE, &MATRIX, set, 0, &mut found);
    println!(rt;
        "set {set} at position 0: {}:{}",
        Words(judged),
        Numbers(&found)
    )
}

// One holder with the row (1, 1, 0), l 2 and e 1.
fn neither(rt: &impl Print, position: u16) -> io::Result<()> {
    let setup = Params {
        p: 7,
        l: 2,
        e: 1,
        n: 1,
    };
    let mut found = [PLACE; 32];
    let judged = set_questions::judge_set(setup, &[1, 1, 0], 1, position, &mut found);
    println!(rt;
        "row (1, 1, 0) at position {position}: {}:{}",
        Words(judged),
        Numbers(&found)
    )
}

// Matrices from points are of the example, at the last n that p 7 has points for, and one holder above it.
fn dealings(rt: &impl Print) -> io::Result<()> {
    points(rt, 3, &mut [PLACE; 6])?;
    points(rt, 5, &mut [PLACE; 10])?;
    points(rt, 6, &mut [PLACE; 12])?;
    for (secret, holder) in [(3, 0), (3, 1), (3, 2), (3, 3), (6, 0), (7, 0)] {
        parts(rt, secret, holder)?;
    }
    all_parts(rt)
}

fn judgements(rt: &impl Print) -> io::Result<()> {
    for g in [[0, 3], [2, 4], [4, 5], [4, 7]] {
        pair_value(rt, &g)?;
    }
    for values in [[2, 1, 0], [3, 1, 0], [2, 1, 7]] {
        judge(rt, &values)?;
    }
    for verdicts in [[1, 1, 1], [1, 0, 0], [1, 1, 2]] {
        outcome(rt, &verdicts)?;
    }
    Ok(())
}

fn openings(rt: &impl Print) -> io::Result<()> {
    combine(rt, &[2], &[0], &[0])?;
    combine(rt, &[2], &[2], &[0])?;
    combine(rt, &[2], &[4], &[0])?;
    combine(rt, &[], &[], &[])?;
    open(rt, 5, &[0, 4], &[0, 0])?;
    open(rt, 7, &[0, 2, 4], &[0, 0, 0])?;
    open(rt, 7, &[0, 2, 5], &[0, 0, 0])?;
    open(rt, 7, &[0, 4, 1], &[0, 0, 0])?;
    open(rt, 1, &[0], &[0])?;
    open(rt, 0, &[], &[])?;
    open(rt, 8, &[0], &[0])?;
    open(rt, 7, &[0, 2], &[0, 0])
}

fn sets(rt: &impl Print) -> io::Result<()> {
    for set in [5, 7, 1, 0, 8] {
        set_of_example(rt, set)?;
    }
    for position in 0..3 {
        neither(rt, position)?;
    }
    Ok(())
}

fn zeros(rt: &impl Print) -> io::Result<()> {
    for holder in 0..4 {
        zero_parts(rt, holder)?;
    }
    all_zero_parts(rt)?;
    for g in [[4, 3], [6, 1], [1, 6]] {
        pair_value(rt, &g)?;
    }
    for values in [[1, 5, 2], [1, 5, 3], [1, 5, 7]] {
        judge_zero(rt, &values)?;
    }
    Ok(())
}

fn refreshes(rt: &impl Print) -> io::Result<()> {
    for (share, round, zero) in [
        (0, 0, 4),
        (2, 0, 6),
        (4, 0, 1),
        (4, 65534, 6),
        (4, 65535, 6),
        (7, 65535, 6),
    ] {
        refresh(rt, share, round, zero)?;
    }
    Ok(())
}

// The refreshed shares, alone and beside old ones.
fn next_round(rt: &impl Print) -> io::Result<()> {
    open(rt, 5, &[4, 5], &[1, 1])?;
    open(rt, 7, &[4, 1, 5], &[1, 1, 1])?;
    open(rt, 5, &[4, 4], &[1, 0])?;
    open(rt, 7, &[4, 2, 5], &[1, 0, 1])?;
    open(rt, 7, &[4, 1, 5], &[1, 1])?;
    combine(rt, &[2, 1], &[4, 0], &[1, 1])?;
    combine(rt, &[2, 1], &[4, 0], &[1, 0])
}

// What cannot be written is passed over.
fn main(rt: HostRuntime) {
    let _ = dealings(&rt);
    let _ = judgements(&rt);
    let _ = openings(&rt);
    let _ = sets(&rt);
    let _ = zeros(&rt);
    let _ = refreshes(&rt);
    let _ = next_round(&rt);
}
