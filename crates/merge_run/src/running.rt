//! A merge, from its numbers to what was received.

ghost use Rattle.std.specs.Prelude.{◌≡◌, ◌≤◌, ◌<◌, length, true, IfOk};
ghost use Rattle.ac_choice.specs.Relaying.{of_end};
ghost use Rattle.merge_run.specs.Series.{IsMerged};
ghost use Rattle.merge_run.specs.inner.Making.{IsUnused, AreUnused};
ghost use Rattle.merge_run.specs.inner.Parts.{ArePartOf};
ghost use Rattle.merge_run.specs.inner.Counting.{AreWhole};

use crate::making::{Seats, all_words, new_parties, new_words, ways_of};
use crate::party::MergeParty;
use ac_base::NoMemory;
use ac_choice::Tagged;
use ac_outside::Gate;
use completion_word::Words;
use settled_rounds::run;
use std::alloc::Global;
use std::thread::Threads;

// Holds back nobody.
struct OpenGate;

impl Gate for OpenGate {
    fn pass(&self, _party: u32, _entries: u64) {}
}

// How many messages have this tag.
fn count_of(messages: &[Tagged], tag: u32) -> usize
    ensures { result ≡ length (of_end tag messages.now) }
{
    let mut count = 0;
    for message in messages {
        if message.end == tag {
            count += 1;
        }
    }
    count
}

// Whether there are so many messages of each producer.
fn are_whole(messages: &[Tagged], width: u32, count: u32) -> bool
    ensures { result ≡ true → AreWhole width count messages.now }
{
    for tag in 0..width {
        if count_of(messages, tag) != count as usize {
            return false;
        }
    }
    true
}

// Merges over these words, and gives what was received by then.
fn merge_over<'a, R: Threads + Sync>(
    rt: &R,
    alloc: Global,
    words: &'a [Words],
    seats: Vec<Seats>,
    out: &'a Words,
    own: Seats,
    count: u32,
) -> Result<Vec<Tagged>, NoMemory>
    requires unused { AreUnused (length words.now) words.now seats.items }
    requires out { IsUnused out.now own }
    requires width { (0 < length words.now) × (length words.now ≤ 8) }
    requires count { count ≤ 10000 }
    ensures { IfOk result (λ r. ArePartOf count (length words.now) r.items) }
{
    let width = words.len() as u32;
    let ways = ways_of(alloc, width)?;
    let mut parties = new_parties(alloc, words, seats, out, own, count)?;
    run(rt, &OpenGate, ways.as_slice(), parties.as_mut_slice())?;
    let MergeParty::Consumes(consumer) = parties.take_last() else {
        unreachable!()
    };
    Ok(consumer.received)
}

/// Lets so many producers send so many numbers each, to a relay, and that to a consumer, each on a thread,
/// and gives what was received. `Err` is want of memory, or that a clock has no stamp left.
///
/// Conditions: there are 1 to 8 producers, and each sends at most 10,000 numbers.
pub fn merge<R: Threads + Sync>(
    rt: &R,
    alloc: Global,
    count: u32,
    width: u32,
) -> Result<Vec<Tagged>, NoMemory>
    requires width { (0 < width) × (width ≤ 8) }
    requires count { count ≤ 10000 }

    // Of each producer it is what that has sent, whole and in order.
    ensures { IfOk result (λ r. IsMerged count width r.items) }
{
    let (words, seats) = all_words(alloc, width)?;
    let (out, own) = new_words(alloc)?;
    let received = merge_over(rt, alloc, words.as_slice(), seats, &out, own, count)?;
    if !are_whole(received.as_slice(), width, count) {
        return Err(NoMemory);
    }
    Ok(received)
}
