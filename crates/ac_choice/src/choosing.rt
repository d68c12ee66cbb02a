//! Taking from the first of several ends that has something to give.

ghost use Rattle.std.specs.Prelude.{◌≡◌, ◌<◌, ◌^◌, length};
ghost use Rattle.channel_ends.specs.Receiving.{Receives, IsAllowed, receiving_clock};
ghost use Rattle.channel_ends.specs.Pairs.{IsSameRecv};
ghost use Rattle.ac_choice.specs.Turns.{turn, first_after};
ghost use Rattle.ac_choice.specs.AnyOf.{TakesAny, AreSameEnds, DecidesAtMostOne, IsAllowedAt, any_clock, decided_end};
ghost use Rattle.ac_choice.specs.inner.Asking.{ChangesAt};

use crate::answers::Any;
use ac_base::Clock;
use channel_ends::RecvEnd;
use core_channels::Receiving;
use rtrb::Protocol;

// The end that is asked after so many others.
fn end_in_turn(count: u32, first: u32, asked: u32) -> u32
    requires { (first < count) × (asked < count) }
    ensures below { result < count }
    ensures turn { turn count first result ≡ asked }
{
    let left = count - first;
    if asked < left {
        first + asked
    } else {
        asked - left
    }
}

/// The end after this one, round the end of the list.
pub(crate) fn end_after(count: u32, end: u32) -> u32
    requires { end < count }
    ensures below { result < count }
    ensures after { result ≡ first_after count end }
{
    if end + 1 < count { end + 1 } else { 0 }
}

// Asks the end at this place to take.
fn ask_at<M: Drop, P: Protocol<M>>(
    ends: &mut [RecvEnd<'_, M, P>],
    at: usize,
    clock: &mut Clock,
) -> Receiving<M>
    requires at { at < length ends.old }
    ensures ends { ChangesAt (λ a b. Receives a clock.old result b × IsAllowed P.allows a.popped result × IsSameRecv a b)
        ends.old at ends.new }
    ensures clock { clock.new ≡ receiving_clock clock.old result }
{
    ends[at].take(clock)
}

/// Takes from one of several ends, or passes over a withdrawn offer at one. It asks them to take, one
/// after another, from end `first` on and round the end of the list, until one takes, passes or has no
/// stamp left, and leaves those after that one as they are.
///
/// `Nothing` comes only where the look of each end in this call saw nothing; `NotYet` only where no end
/// took, and names the first in turn whose look saw an offer that could not be had; `ClockFull` only where
/// an end saw an offer or a withdrawal after which no stamp is left. It takes no memory.
///
/// Conditions: there is such an end, and there are fewer than 2^32.
pub fn take_any<M: Drop, P: Protocol<M>>(
    ends: &mut [RecvEnd<'_, M, P>],
    first: u32,
    clock: &mut Clock,
) -> Any<M>
    requires few { length ends.old < 2 ^ 32 }
    requires first { first < length ends.old }
    ensures answer { TakesAny ends.old first clock.old result ends.new }

    // At most one end makes a decision, and the lists of the others are as they were.
    ensures one { DecidesAtMostOne ends.old (decided_end result) ends.new }
    ensures allowed { IsAllowedAt P.allows ends.old result }
    ensures same { AreSameEnds ends.old ends.new }
    ensures clock { clock.new ≡ any_clock clock.old result }
{
    let count = ends.len() as u32;
    let mut waits = None;
    for asked in 0..count {
        let end = end_in_turn(count, first, asked);
        match ask_at(ends, end as usize, clock) {
            Receiving::Took {
                number,
                value,
                stamp,
            } => {
                return Any::Took {
                    end,
                    number,
                    value,
                    stamp,
                };
            }
            Receiving::Passed { number, stamp } => return Any::Passed { end, number, stamp },
            Receiving::ClockFull => return Any::ClockFull,
            Receiving::NotYet => waits = waits.or(Some(end)),
            Receiving::Nothing => {}
        }
    }
    match waits {
        Some(end) => Any::NotYet { end },
        None => Any::Nothing,
    }
}
