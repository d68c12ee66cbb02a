//! A relay of two channels into one of one place, some of whose messages are withdrawn.

ghost use Rattle.std.specs.Prelude.{◌≡◌, ◌<◌, []};
ghost use Rattle.channel_ends.specs.Sending.{AreWithin};

use ac_base::{Clock, NoMemory};
use ac_choice::{Relay, Relayed, Tagged};
use channel_ends::{RecvEnd, SendEnd, pair};
use completion_word::Words;
use core_channels::{Offering, Receiving, Withdrawing};
use rtrb::AnyItems;
use std::alloc::{AllocError, Global};
use std::test::Fail;

// Offers two values, and withdraws the second one where that is wanted.
fn offer_two(
    send: &mut SendEnd<'_, i64, AnyItems>,
    one: i64,
    two: i64,
    withdraws: bool,
    clock: &mut Clock,
) -> bool
    requires { AreWithin clock.old send.old.notes.offers }
    ensures { AreWithin clock.new send.new.notes.offers }
{
    if !matches!(send.offer(one, clock), Offering::Offered { .. }) {
        return false;
    }
    let Offering::Offered { number, .. } = send.offer(two, clock) else {
        return false;
    };
    if !withdraws {
        return true;
    }
    matches!(send.withdraw(number, clock), Withdrawing::Withdrawn { .. })
}

// Offers and withdraws what the producers do.
fn produce(first: &mut SendEnd<'_, i64, AnyItems>, second: &mut SendEnd<'_, i64, AnyItems>) -> bool
    requires { (first.old.notes.offers ≡ []) × (second.old.notes.offers ≡ []) }
{
    let mut first_clock = Clock::new(0);
    let mut second_clock = Clock::new(0);
    let one = offer_two(first, 10, 20, false, &mut first_clock);
    let two = offer_two(second, 30, 40, true, &mut second_clock);
    let three = offer_two(first, 50, 60, true, &mut first_clock);
    one && two && three
}

// Six times the relay does two steps, and then one message is taken, if there is one; what the relay answers
// is noted, and what is taken.
fn go_on(
    relay: &mut Relay<'_>,
    end: &mut RecvEnd<'_, Tagged, AnyItems>,
    answers: &mut Vec<Relayed>,
    received: &mut Vec<Tagged>,
) -> Result<(), AllocError> {
    let mut clock = Clock::new(0);
    for _ in 0..6u32 {
        answers.push(relay.step())?;
        answers.push(relay.step())?;
        if let Receiving::Took { value, .. } = end.take(&mut clock) {
            received.push(value)?;
        }
    }
    Ok(())
}

// The channel in the middle has one place. The first producer sends 10 and 20, and then 50 and 60, of which
// it withdraws 60; the second one sends 30 and 40, and withdraws 40.
fn merged(
    alloc: Global,
    answers: &mut Vec<Relayed>,
    received: &mut Vec<Tagged>,
) -> Result<bool, NoMemory> {
    let (words, owner, peer) = Words::make(alloc, 4)?;
    let (more, other_owner, other_peer) = Words::make(alloc, 4)?;
    let (last, last_owner, last_peer) = Words::make(alloc, 1)?;
    let (mut first, recv) = pair::<i64, AnyItems>(alloc, &words, owner, peer, 4)?;
    let (mut second, other) = pair::<i64, AnyItems>(alloc, &more, other_owner, other_peer, 4)?;
    let (out, mut end) = pair::<Tagged, AnyItems>(alloc, &last, last_owner, last_peer, 1)?;
    let mut ins = Vec::new(alloc);
    ins.push(recv)?;
    ins.push(other)?;
    let mut relay = Relay::new(ins, out);
    let offered = produce(&mut first, &mut second);
    go_on(&mut relay, &mut end, answers, received)?;
    Ok(offered)
}

const fn tagged(end: u32, value: i64) -> Tagged {
    Tagged { end, value }
}

#[test]
fn a_relay_takes_in_turn_and_holds_what_has_no_room(rt: HostRuntime) -> Result<(), Fail> {
    let mut answers = Vec::new(rt.alloc());
    let mut received = Vec::new(rt.alloc());
    assert!(rt; merged(rt.alloc(), &mut answers, &mut received)?);
    // 10 goes on, and 30 is held until 10 is taken; then 40 is passed, after 20 was held; then 50 goes on,
    // and 60 is passed.
    let wanted = [
        Relayed::Moved { end: 0 },
        Relayed::NoRoom,
        Relayed::Moved { end: 1 },
        Relayed::NoRoom,
        Relayed::Moved { end: 0 },
        Relayed::Passed,
        Relayed::Moved { end: 0 },
        Relayed::Passed,
        Relayed::Nothing,
        Relayed::Nothing,
        Relayed::Nothing,
        Relayed::Nothing,
    ];
    assert!(rt; answers.as_slice() == wanted.as_slice());
    let all = [tagged(0, 10), tagged(1, 30), tagged(0, 20), tagged(0, 50)];
    assert!(rt; received.as_slice() == all.as_slice());
    Ok(())
}
