//! Taking from either of two ends.

ghost use Rattle.std.specs.Prelude.{◌≡◌, ◌<◌, [], length};

use ac_base::{Clock, NoMemory};
use ac_choice::{Any, take_any};
use channel_ends::{RecvEnd, SendEnd, pair};
use completion_word::Words;
use core_channels::{Offering, Withdrawing};
use rtrb::AnyItems;
use std::alloc::Global;
use std::test::Fail;

// Offers 8 and withdraws it, and gives the numbers that this answers.
fn offer_in_vain(send: &mut SendEnd<'_, i64, AnyItems>) -> Option<(u64, u64, u64)>
    requires { send.old.notes.offers ≡ [] }
{
    let mut clock = Clock::new(0);
    let Offering::Offered { number, stamp } = send.offer(8, &mut clock) else {
        return None;
    };
    match send.withdraw(number, &mut clock) {
        Withdrawing::Withdrawn { stamp: withdrawn } => Some((number, stamp, withdrawn)),
        _ => None,
    }
}

fn is_offered(send: &mut SendEnd<'_, i64, AnyItems>, value: i64) -> bool
    requires { send.old.notes.offers ≡ [] }
{
    let mut clock = Clock::new(0);
    matches!(
        send.offer(value, &mut clock),
        Offering::Offered {
            number: 0,
            stamp: 1
        }
    )
}

// Asks two ends.
fn ask(ends: &mut Vec<RecvEnd<'_, i64, AnyItems>>, first: u32, clock: &mut Clock) -> Any<i64>
    requires { (length ends.old.items ≡ 2) × (first < 2) }
    ensures { length ends.new.items ≡ 2 }
{
    take_any(ends.as_mut_slice(), first, clock)
}

fn took(answer: &Any<i64>, wanted: (u32, u64, i64, u64)) -> bool {
    match answer {
        Any::Took {
            end,
            number,
            value,
            stamp,
        } => (*end, *number, *value, *stamp) == wanted,
        _ => false,
    }
}

fn passed(answer: &Any<i64>, wanted: (u32, u64, u64)) -> bool {
    match answer {
        Any::Passed { end, number, stamp } => (*end, *number, *stamp) == wanted,
        _ => false,
    }
}

// 7 is offered on the second of two new channels; it is taken, and then there is nothing; 8 is offered on
// the first one, and withdrawn, and then passed.
fn is_row(
    first: &mut SendEnd<'_, i64, AnyItems>,
    second: &mut SendEnd<'_, i64, AnyItems>,
    ends: &mut Vec<RecvEnd<'_, i64, AnyItems>>,
) -> bool
    requires ends { length ends.old.items ≡ 2 }
    requires unused { (first.old.notes.offers ≡ []) × (second.old.notes.offers ≡ []) }
{
    let mut clock = Clock::new(0);
    let offered = is_offered(second, 7);
    let one = ask(ends, 0, &mut clock);
    let none = ask(ends, 0, &mut clock);
    let vain = offer_in_vain(first);
    let last = ask(ends, 0, &mut clock);
    offered
        && took(&one, (1, 0, 7, 2))
        && matches!(none, Any::Nothing)
        && vain == Some((0, 1, 2))
        && passed(&last, (0, 0, 3))
}

fn of_two_ends(alloc: Global) -> Result<bool, NoMemory> {
    let (words, owner, peer) = Words::make(alloc, 1)?;
    let (more, other_owner, other_peer) = Words::make(alloc, 1)?;
    let (mut first, recv) = pair::<i64, AnyItems>(alloc, &words, owner, peer, 1)?;
    let (mut second, other) = pair::<i64, AnyItems>(alloc, &more, other_owner, other_peer, 1)?;
    let mut ends = Vec::new(alloc);
    ends.push(recv)?;
    ends.push(other)?;
    Ok(is_row(&mut first, &mut second, &mut ends))
}

#[test]
fn the_end_that_has_something_gives_it(rt: HostRuntime) -> Result<(), Fail> {
    assert!(rt; of_two_ends(rt.alloc())?);
    Ok(())
}
