//! Entries that come in at dispatch points.

ghost use Rattle.std.specs.Prelude.{◌≡◌, ◌<◌, ◌-◌, ◌^◌, true, nat_eq, IfOk, OnErr};
ghost use Rattle.ac_base.specs.declared.entry.Event.{Event};
ghost use Rattle.core_state.specs.Arrivals.{offers_on};
ghost use Rattle.core_machine.specs.Machine.{IsOnItsWay};
ghost use Rattle.core_machine.specs.Points.{IsOfTurn, is_at_point};
ghost use Rattle.core_replay.specs.Offering.{AreOffersOf};
ghost use Rattle.core_replay.specs.Standing.{IsPlayed};
ghost use Rattle.core_replay.specs.inner.Replaying.{Awaits, ComesIn, IsSameOne, Takes};

use crate::own_offers::OwnOffers;
use ac_base::{Answer, Entry, Event, Message, NoMemory, Payload};
use core_machine::CoreMachine;

// Whether this is the number of the next offer on a link.
fn is_next(machine: &CoreMachine<'_>, offers: &OwnOffers, link: u32, number: u64) -> bool
    requires { AreOffersOf machine.now.journal offers.now }
    ensures next { result ≡ nat_eq number (offers_on link machine.now.journal) }
    ensures low { result ≡ true → number < 2 ^ 64 - 1 }
{
    // Each offer is an entry, so that no number is the last.
    let most = machine.journal().len() + 1;
    number == offers.count(link) && number < most
}

// An offer of the oldest operation that is to be offered on a link, if it carries this.
fn offer(
    machine: &mut CoreMachine<'_>,
    offers: &mut OwnOffers,
    link: u32,
    number: u64,
    payload: &Payload,
    stamp: u64,
) -> Result<bool, NoMemory>
    requires room { machine.old.room ≡ true }
    requires point { is_at_point machine.old.state ≡ true }
    requires played { IsPlayed machine.old offers.old }
    ensures comes { IfOk result (λ came. ComesIn machine.old (Event.Offer link number payload.now) stamp came machine.new) }
    ensures played { IsPlayed machine.new offers.new }
    ensures err { OnErr result (machine.new ≡ machine.old) }
{
    if !is_next(machine, offers, link, number) {
        return Ok(false);
    }
    if !machine.would_offer(link, payload) {
        return Ok(false);
    }
    let payload = payload.copy(machine.alloc())?;
    offers.offered(link)?;
    machine.offered(link, number, payload, stamp);
    Ok(true)
}

// An offer was taken, if an operation stands under it.
fn know(machine: &mut CoreMachine<'_>, link: u32, number: u64, stamp: u64) -> bool
    requires room { machine.old.room ≡ true }
    requires point { is_at_point machine.old.state ≡ true }
    requires run { IsOnItsWay machine.old }
    ensures comes { ComesIn machine.old (Event.Know link number) stamp result machine.new }
    ensures run { IsOnItsWay machine.new }
{
    if !machine.has_offered(link, number) {
        return false;
    }
    machine.know(link, number, stamp);
    true
}

// The room of an offer was given back, if it was withdrawn and keeps it.
fn room(
    machine: &mut CoreMachine<'_>,
    offers: &mut OwnOffers,
    link: u32,
    number: u64,
    stamp: u64,
) -> bool
    requires room { machine.old.room ≡ true }
    requires point { is_at_point machine.old.state ≡ true }
    requires played { IsPlayed machine.old offers.old }
    ensures comes { ComesIn machine.old (Event.Room link number) stamp result machine.new }
    ensures played { IsPlayed machine.new offers.new }
{
    if !offers.keeps_room(link, number) {
        return false;
    }
    offers.roomed(link, number);
    machine.roomed(link, number, stamp);
    true
}

// A message has come, if an operation waits for one.
fn got(machine: &mut CoreMachine<'_>, link: u32, number: u64, value: Message, stamp: u64) -> bool
    requires room { machine.old.room ≡ true }
    requires point { is_at_point machine.old.state ≡ true }
    requires run { IsOnItsWay machine.old }
    ensures comes { ComesIn machine.old (Event.Got link number value) stamp result machine.new }
    ensures run { IsOnItsWay machine.new }
{
    if !machine.receives_from(link) {
        return false;
    }
    machine.got(link, number, value, stamp);
    true
}

// A withdrawn offer was passed over, if an operation waits for a message.
fn pass(machine: &mut CoreMachine<'_>, link: u32, number: u64, stamp: u64) -> bool
    requires room { machine.old.room ≡ true }
    requires point { is_at_point machine.old.state ≡ true }
    requires run { IsOnItsWay machine.old }
    ensures comes { ComesIn machine.old (Event.Pass link number) stamp result machine.new }
    ensures run { IsOnItsWay machine.new }
{
    if !machine.receives_from(link) {
        return false;
    }
    machine.passed(link, number, stamp);
    true
}

// A request has its answer, if it has begun.
fn reply(
    machine: &mut CoreMachine<'_>,
    link: u32,
    number: u64,
    answer: &Answer,
    stamp: u64,
) -> Result<bool, NoMemory>
    requires room { machine.old.room ≡ true }
    requires point { is_at_point machine.old.state ≡ true }
    requires run { IsOnItsWay machine.old }
    ensures comes { IfOk result (λ came. ComesIn machine.old (Event.Reply link number answer.now) stamp came machine.new) }
    ensures run { IsOnItsWay machine.new }
    ensures err { OnErr result (machine.new ≡ machine.old) }
{
    if !machine.has_begun(link, number) {
        return Ok(false);
    }
    let answer = answer.copy(machine.alloc())?;
    machine.replied(link, number, answer, stamp);
    Ok(true)
}

/// An entry of the turn of a core that is at a dispatch point. It says whether it has come in: it has
/// where a run goes on with it.
pub fn arrive(
    machine: &mut CoreMachine<'_>,
    offers: &mut OwnOffers,
    entry: &Entry,
) -> Result<bool, NoMemory>
    requires played { IsPlayed machine.old offers.old }
    requires awaits { Awaits machine.old entry.now.turn }
    requires point { is_at_point machine.old.state ≡ true }
    requires now { IsOfTurn machine.old entry.now.turn }
    ensures same { IsSameOne machine.old machine.new }
    ensures played { IsPlayed machine.new offers.new }
    ensures takes { IfOk result (λ took. Takes machine.old entry.now took machine.new) }
    ensures err { OnErr result (machine.new.journal ≡ machine.old.journal) }
{
    machine.make_room()?;
    let stamp = entry.stamp;
    match &entry.event {
        Event::Offer {
            link,
            number,
            payload,
        } => offer(machine, offers, *link, *number, payload, stamp),
        Event::Know { link, number } => Ok(know(machine, *link, *number, stamp)),
        Event::Room { link, number } => Ok(room(machine, offers, *link, *number, stamp)),
        Event::Got {
            link,
            number,
            value,
        } => Ok(got(machine, *link, *number, *value, stamp)),
        Event::Pass { link, number } => Ok(pass(machine, *link, *number, stamp)),
        Event::Reply {
            link,
            number,
            answer,
        } => reply(machine, *link, *number, answer, stamp),
        Event::Withdraw { .. } | Event::Did { .. } => Ok(false),
    }
}
