//! The run of parties, each on a thread.

ghost use Rattle.std.specs.Prelude.{◌+◌, ◌<◌, ◌^◌, length, IfOk, OnOk};
ghost use Rattle.std.specs.Thread.{IsSync};
ghost use Rattle.std.specs.List.{AllByRecursion};
ghost use Rattle.settled_rounds.specs.Linked.{AreWays, OnLinks, Pointwise};
ghost use Rattle.settled_rounds.specs.inner.Passing.{Moves, Passes, Settles, Works};

use crate::choosing::{Busy, Turns, progress, who_is_busy};
use crate::party::{Party, Way};
use crate::settling::settle_all;
use ac_base::NoMemory;
use ac_outside::Gate;
use std::thread::{Threads, join_mut};

// Lets each party go on once, and says whether any made an entry.
fn pass<P: Party>(parties: &mut [P]) -> Result<bool, NoMemory>
    requires { AllByRecursion P.ready parties.old }
    ensures later { Pointwise P.later parties.old parties.new }
    ensures moved { IfOk result (λ it. Passes P.clock P.still P.stopped parties.old parties.new it) }
{
    if parties.is_empty() {
        return Ok(false);
    }
    let (front, rest) = parties.split_at_mut(1);
    let first = front[0].advance()?;
    let others = pass(rest)?;
    Ok(first || others)
}

// Lets each party do its part of a round, each on a thread, and says whether any made an entry. `first` is
// the place of the first.
fn round<P: Party + Send, G: Gate + Sync, R: Threads + Sync>(
    rt: &R,
    gate: &G,
    first: u32,
    parties: &mut [P],
) -> Result<bool, NoMemory>
    requires few { first + length parties.old < 2 ^ 32 }
    requires ready { AllByRecursion P.ready parties.old }
    ensures later { Pointwise P.later parties.old parties.new }
    ensures moved { IfOk result (λ it. Works P.clock P.worked parties.old parties.new it) }
{
    if parties.is_empty() {
        return Ok(false);
    }
    if parties.len() == 1 {
        let one = &mut parties[0];
        return one.work(first, gate);
    }
    let half = parties.len() / 2;
    let second = first + half as u32;
    let (front, back) = parties.split_at_mut(half);
    let (a, b) = join_mut(
        rt,
        &mut || -> Result<bool, NoMemory>
            requires { IsSync R.row × (first + length front.now < 2 ^ 32) × AllByRecursion P.ready front.now }
            ensures later { Pointwise P.later front.entry.now front.exit.now }
            ensures moved { IfOk result (λ it. Works P.clock P.worked front.entry.now front.exit.now it) }
        { round(rt, gate, first, front) },
        &mut || -> Result<bool, NoMemory>
            requires { IsSync R.row × (second + length back.now < 2 ^ 32) × AllByRecursion P.ready back.now }
            ensures later { Pointwise P.later back.entry.now back.exit.now }
            ensures moved { IfOk result (λ it. Works P.clock P.worked back.entry.now back.exit.now it) }
        { round(rt, gate, second, back) },
    );
    let one = a?;
    let more = b?;
    Ok(one || more)
}

// Settles every link and lets each party go on once, and says whether any made an entry; where none did
// every link is settled again, for what was heard meanwhile.
fn settle<P: Party>(ways: &[Way], parties: &mut [P]) -> Result<bool, NoMemory>
    requires few { length ways.now < 2 ^ 32 }
    requires ways { AreWays (length parties.old) ways.now }
    requires paired { OnLinks P.pair ways.now parties.old }
    requires ready { AllByRecursion P.ready parties.old }
    ensures later { Pointwise P.later parties.old parties.new }
    ensures moved { IfOk result (λ it. Settles P.clock P.settled P.stopped ways.now parties.old parties.new it) }
{
    settle_all(ways, parties)?;
    let moved = pass(parties)?;
    if !moved {
        settle_all(ways, parties)?;
    }
    Ok(moved)
}

// Lets the party at this place go on, and says whether it made an entry.
fn advance_at<P: Party>(parties: &mut [P], place: usize) -> Result<bool, NoMemory>
    requires place { place < length parties.old }
    requires ready { AllByRecursion P.ready parties.old }
    ensures later { Pointwise P.later parties.old parties.new }
    ensures moved { IfOk result (λ it. Moves P.clock parties.old parties.new it) }
{
    parties[place].advance()
}

// Lets those go on who have something to do, and says whether any made an entry: where there are several,
// all in a round; where there is one, this one alone.
fn go_on<P: Party + Send, G: Gate + Sync, R: Threads + Sync>(
    rt: &R,
    gate: &G,
    ways: &[Way],
    parties: &mut [P],
    turns: &mut Turns,
) -> Result<bool, NoMemory>
    requires few { length ways.now < 2 ^ 32 }
    requires parties { length parties.old < 2 ^ 32 }
    requires ways { AreWays (length parties.old) ways.now }
    requires ready { AllByRecursion P.ready parties.old }
    ensures later { Pointwise P.later parties.old parties.new }
    ensures moved { IfOk result (λ it. Moves P.clock parties.old parties.new it) }
{
    match who_is_busy(ways, parties) {
        Busy::Nobody => Ok(false),
        Busy::One(place) => advance_at(parties, place),
        Busy::Several => {
            let before = progress(parties);
            if turns.are_due(before) {
                return pass(parties);
            }
            let any = round(rt, gate, 0, parties)?;
            turns.note(before, progress(parties), parties.len());
            Ok(any)
        }
    }
}

// Settles every link and lets those go on who have something to do, and says whether any made an entry; where
// none did, so does a settling in which each goes on.
fn step<P: Party + Send, G: Gate + Sync, R: Threads + Sync>(
    rt: &R,
    gate: &G,
    ways: &[Way],
    parties: &mut [P],
    turns: &mut Turns,
) -> Result<bool, NoMemory>
    requires few { length ways.now < 2 ^ 32 }
    requires parties { length parties.old < 2 ^ 32 }
    requires ways { AreWays (length parties.old) ways.now }
    requires paired { OnLinks P.pair ways.now parties.old }
    requires ready { AllByRecursion P.ready parties.old }
    ensures later { Pointwise P.later parties.old parties.new }
    ensures moved { IfOk result (λ it. Settles P.clock P.settled P.stopped ways.now parties.old parties.new it) }
{
    settle_all(ways, parties)?;
    if go_on(rt, gate, ways, parties, turns)? {
        return Ok(true);
    }
    settle(ways, parties)
}

/// Settles the parties and lets them go on, each on a thread where several have something to do, again and
/// again, until a settling shows that none can go on.
///
/// Conditions: there are fewer than 2^32 parties and links, each link goes from one of the parties to
/// another, and their ends of it are of one pair; and each party may go on.
pub fn run<P: Party + Send, G: Gate + Sync, R: Threads + Sync>(
    rt: &R,
    gate: &G,
    ways: &[Way],
    parties: &mut [P],
) -> Result<(), NoMemory>
    requires few { length ways.now < 2 ^ 32 }
    requires parties { length parties.old < 2 ^ 32 }
    requires ways { AreWays (length parties.old) ways.now }
    requires paired { OnLinks P.pair ways.now parties.old }
    requires ready { AllByRecursion P.ready parties.old }
    ensures later { Pointwise P.later parties.old parties.new }
    ensures settled { OnOk result (OnLinks P.settled ways.now parties.new) }
    ensures stopped { OnOk result (AllByRecursion P.stopped parties.new) }
{
    let mut turns = Turns::new();
    loop {
        let moved = step(rt, gate, ways, parties, &mut turns)?;
        if !moved {
            return Ok(());
        }
    }
}
