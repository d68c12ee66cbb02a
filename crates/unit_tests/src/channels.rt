//! The rows of one channel, on links whose both sides are in one list.

ghost use Rattle.std.specs.Prelude.{◌≡◌, ◌<◌, false, length, IfOk};
ghost use Rattle.core_channels.specs.LinkViews.{link_at};

use crate::rows::{
    HOLDS, LATE, PASSED, Row, Said, Step, of_learning, of_offering, of_receiving, of_withdrawing,
};
use ac_base::{Clock, List, Message, NoMemory, Payload};
use core_channels::{Links, Offering, Receiving};
use std::alloc::Global;
use std::test::Fail;

// A channel for so many messages, with places for four offers.
fn channel(alloc: Global, messages: u32) -> Result<Links, NoMemory>
    ensures { IfOk result (λ it. (0 < length it) × ((link_at it 0).terms.requests ≡ false)) }
{
    let capacities = List::from_vec(Vec::from_slice(alloc, &[messages])?);
    let mut links = Links::new(alloc, &capacities, 1)?;
    links.reserve(4)?;
    Ok(links)
}

#[tactic(auto, using(crate::proofs::Taking::offers_stay))]
fn take(links: &mut Links, clock: &mut Clock) -> Receiving<Message>
    requires one { 0 < length links.old }
    requires channel { (link_at links.old 0).terms.requests ≡ false }
    ensures one { 0 < length links.new }
    ensures channel { (link_at links.new 0).terms.requests ≡ false }
    ensures offers { (link_at links.new 0).offers ≡ (link_at links.old 0).offers }
{
    links.take(0, clock)
}

// Offers the message and withdraws it.
fn call_off(links: &mut Links, value: i64, clock: &mut Clock) -> Said
    requires one { 0 < length links.old }
    requires channel { (link_at links.old 0).terms.requests ≡ false }
    ensures one { 0 < length links.new }
    ensures channel { (link_at links.new 0).terms.requests ≡ false }
{
    match links.offer(0, Payload::Int(Message::of(value)), clock) {
        Offering::Offered { number, .. } => of_withdrawing(links.withdraw(0, number, clock)),
        _ => Said::Other,
    }
}

// The same, after the receiver has taken.
fn call_off_late(links: &mut Links, value: i64, sender: &mut Clock, receiver: &mut Clock) -> Said
    requires one { 0 < length links.old }
    requires channel { (link_at links.old 0).terms.requests ≡ false }
    ensures one { 0 < length links.new }
    ensures channel { (link_at links.new 0).terms.requests ≡ false }
{
    match links.offer(0, Payload::Int(Message::of(value)), sender) {
        Offering::Offered { number, .. } => {
            take(links, receiver);
            of_withdrawing(links.withdraw(0, number, sender))
        }
        _ => Said::Other,
    }
}

fn act(links: &mut Links, step: Step, sender: &mut Clock, receiver: &mut Clock) -> Said
    requires one { 0 < length links.old }
    requires channel { (link_at links.old 0).terms.requests ≡ false }
    ensures one { 0 < length links.new }
    ensures channel { (link_at links.new 0).terms.requests ≡ false }
{
    match step {
        Step::Offer(value) => {
            of_offering(links.offer(0, Payload::Int(Message::of(value)), sender))
        }
        Step::CallOff(value) => call_off(links, value, sender),
        Step::CallOffLate(value) => call_off_late(links, value, sender, receiver),
        Step::Learn => of_learning(links.learn(0, sender)),
        Step::Take => of_receiving(take(links, receiver)),
        // Both sides of these links are in one list, and know of each other at once.
        Step::Settle => Said::Settled,
    }
}

// How many of the steps are answered so, from the first on.
fn right(links: &mut Links, rows: &[Row]) -> usize
    requires one { 0 < length links.old }
    requires channel { (link_at links.old 0).terms.requests ≡ false }
{
    let mut sender = Clock::new(0);
    let mut receiver = Clock::new(0);
    for (at, row) in rows.iter().enumerate() {
        if act(links, row.0, &mut sender, &mut receiver) != row.1 {
            return at;
        }
    }
    rows.len()
}

// The same by a channel for so many messages.
fn on_links(alloc: Global, messages: u32, rows: &[Row]) -> Result<usize, NoMemory> {
    let mut links = channel(alloc, messages)?;
    Ok(right(&mut links, rows))
}

#[test]
fn offers_withdrawals_and_takings(rt: HostRuntime) -> Result<(), Fail> {
    for (messages, rows) in [
        (1, LATE.as_slice()),
        (2, PASSED.as_slice()),
        (1, HOLDS.as_slice()),
    ] {
        assert_eq!(rt; on_links(rt.alloc(), messages, rows)?, rows.len());
    }
    Ok(())
}
