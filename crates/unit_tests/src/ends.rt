//! The rows of one channel, on the two ends of a pair.

ghost use Rattle.std.specs.Prelude.{◌≡◌, ◌<◌, ◌≤◌, ◌^◌, []};
ghost use Rattle.channel_ends.specs.Sending.{AreWithin};
ghost use Rattle.channel_ends.specs.Pairs.{IsSameSend, IsSameRecv};
ghost use Rattle.channel_ends.specs.Settled.{AreEnds};

use crate::rows::{
    HOLDS, LATE, PASSED, Row, Said, Step, of_learning, of_offering, of_receiving, of_withdrawing,
};
use ac_base::{Clock, Message, NoMemory};
use channel_ends::{RecvEnd, SendEnd, pair, settle};
use completion_word::Words;
use core_channels::Offering;
use rtrb::AnyItems;
use std::alloc::Global;
use std::test::Fail;

type Sender<'a> = SendEnd<'a, Message, AnyItems>;

type Receiver<'a> = RecvEnd<'a, Message, AnyItems>;

// The greatest stamp.
const LAST_STAMP: u64 = (1 << 60) - 1;

// Offers the message and withdraws it.
fn call_off(send: &mut Sender<'_>, value: i64, clock: &mut Clock) -> Said
    requires { AreWithin clock.old send.old.notes.offers }
    ensures within { AreWithin clock.new send.new.notes.offers }
    ensures same { IsSameSend send.old send.new }
{
    match send.offer(Message::of(value), clock) {
        Offering::Offered { number, .. } => of_withdrawing(send.withdraw(number, clock)),
        _ => Said::Other,
    }
}

// The same, after the receiver has taken.
fn call_off_late(
    send: &mut Sender<'_>,
    recv: &mut Receiver<'_>,
    value: i64,
    sender: &mut Clock,
    receiver: &mut Clock,
) -> Said
    requires { AreWithin sender.old send.old.notes.offers }
    ensures within { AreWithin sender.new send.new.notes.offers }
    ensures send { IsSameSend send.old send.new }
    ensures recv { IsSameRecv recv.old recv.new }
{
    match send.offer(Message::of(value), sender) {
        Offering::Offered { number, .. } => {
            let _taken = recv.take(receiver);
            of_withdrawing(send.withdraw(number, sender))
        }
        _ => Said::Other,
    }
}

fn act(
    send: &mut Sender<'_>,
    recv: &mut Receiver<'_>,
    step: Step,
    sender: &mut Clock,
    receiver: &mut Clock,
) -> Said
    requires within { AreWithin sender.old send.old.notes.offers }
    requires ends { AreEnds send.old recv.old }
    ensures within { AreWithin sender.new send.new.notes.offers }
    ensures ends { AreEnds send.new recv.new }
{
    match step {
        Step::Offer(value) => of_offering(send.offer(Message::of(value), sender)),
        Step::CallOff(value) => call_off(send, value, sender),
        Step::CallOffLate(value) => call_off_late(send, recv, value, sender, receiver),
        Step::Learn => of_learning(send.learn(sender)),
        Step::Take => of_receiving(recv.take(receiver)),
        Step::Settle => {
            settle(send, recv);
            Said::Settled
        }
    }
}

// With room for one and no stamp left to the sender after the taking: what it saw is kept, and its room
// stays used.
const NO_STAMP_LEFT: [Row; 6] = [
    (Step::CallOffLate(5), Said::ClockFull),
    (Step::Learn, Said::ClockFull),
    (Step::Offer(6), Said::NoRoom),
    (Step::Settle, Said::Settled),
    (Step::Learn, Said::ClockFull),
    (Step::Take, Said::Nothing),
];

// With the last stamp at the taking the withdrawal has no later one, and neither has the next offer.
const LAST_STAMPS: [Row; 4] = [
    (Step::CallOffLate(5), Said::Taken { stamp: LAST_STAMP }),
    (Step::Learn, Said::AllKnown),
    (Step::Offer(6), Said::ClockFull),
    (Step::CallOff(7), Said::Other),
];

// A receiver with no stamp left decides nothing, before a settling and after it.
const NO_STAMP_TO_TAKE: [Row; 5] = [
    (
        Step::Offer(5),
        Said::Offered {
            number: 0,
            stamp: 1,
        },
    ),
    (Step::Take, Said::ClockFull),
    (Step::Settle, Said::Settled),
    (Step::Take, Said::ClockFull),
    (Step::Learn, Said::Undecided),
];

// How many of the steps are answered so, from the first on.
fn answered(
    send: &mut Sender<'_>,
    recv: &mut Receiver<'_>,
    sender: u64,
    receiver: u64,
    rows: &[Row],
) -> usize
    requires stamps { (sender < 2 ^ 60) × (receiver < 2 ^ 60) }
    requires unused { send.old.notes.offers ≡ [] }
    requires ends { AreEnds send.old recv.old }
{
    let mut mine = Clock::new(sender);
    let mut yours = Clock::new(receiver);
    for (at, row) in rows.iter().enumerate() {
        if act(send, recv, row.0, &mut mine, &mut yours) != row.1 {
            return at;
        }
    }
    rows.len()
}

// The same by a pair with room for so many messages and parties with these last stamps.
fn right(
    alloc: Global,
    places: u32,
    sender: u64,
    receiver: u64,
    rows: &[Row],
) -> Result<usize, NoMemory>
    requires places { (0 < places) × (places ≤ 64) }
    requires stamps { (sender < 2 ^ 60) × (receiver < 2 ^ 60) }
{
    let (words, owner, peer) = Words::make(alloc, places)?;
    let (mut send, mut recv) = pair::<Message, AnyItems>(alloc, &words, owner, peer, places)?;
    Ok(answered(&mut send, &mut recv, sender, receiver, rows))
}

#[test]
fn offers_withdrawals_and_takings_of_a_pair(rt: HostRuntime) -> Result<(), Fail> {
    for (places, receiver, rows) in [
        (1, 0, LATE.as_slice()),
        (2, 0, PASSED.as_slice()),
        (1, 0, HOLDS.as_slice()),
        (1, LAST_STAMP - 1, NO_STAMP_LEFT.as_slice()),
        (1, LAST_STAMP - 2, LAST_STAMPS.as_slice()),
        (1, LAST_STAMP, NO_STAMP_TO_TAKE.as_slice()),
    ] {
        assert_eq!(rt; right(rt.alloc(), places, 0, receiver, rows)?, rows.len());
    }
    Ok(())
}
