//! Entries that are outcomes of offers that cancels try.

ghost use Rattle.std.specs.Prelude.{◌≡◌, Some, IfOk, OnErr};
ghost use Rattle.core_state.specs.Arrivals.{is_withdrawal};
ghost use Rattle.core_machine.specs.Points.{HasTracks};
ghost use Rattle.core_machine.specs.Tracks.{is_know_of};
ghost use Rattle.core_machine.specs.Tried.{tried_of};
ghost use Rattle.core_replay.specs.Standing.{IsPlayed};
ghost use Rattle.core_replay.specs.inner.Replaying.{Awaits, IsSameOne, Takes};

use crate::own_offers::OwnOffers;
use ac_base::{Entry, Event, NoMemory};
use core_machine::{CoreMachine, Tried};

// Whether it withdraws that offer.
fn withdraws(event: &Event, tried: Tried) -> bool
    ensures { result ≡ is_withdrawal tried.link tried.number event.now }
{
    match *event {
        Event::Withdraw { link, number } => link == tried.link && number == tried.number,
        _ => false,
    }
}

// Whether it tells that the offer was taken.
fn knows(event: &Event, tried: Tried) -> bool
    ensures { result ≡ is_know_of tried.link tried.number event.now }
{
    match *event {
        Event::Know { link, number } => link == tried.link && number == tried.number,
        _ => false,
    }
}

/// An entry for a core that asks for the outcome of an offer. It says whether it has come in: it has
/// where a run goes on with it.
pub fn decide(
    machine: &mut CoreMachine<'_>,
    offers: &mut OwnOffers,
    tried: Tried,
    entry: &Entry,
) -> Result<bool, NoMemory>
    requires played { IsPlayed machine.old offers.old }
    requires awaits { Awaits machine.old entry.now.turn }
    requires asks { tried_of machine.old.code machine.old.state ≡ Some tried }
    ensures same { IsSameOne machine.old machine.new }
    ensures played { IsPlayed machine.new offers.new }
    ensures takes { IfOk result (λ took. Takes machine.old entry.now took machine.new) }
    ensures err { OnErr result (machine.new.journal ≡ machine.old.journal) }
{
    if entry.turn != machine.turns() {
        return Ok(false);
    }
    if withdraws(&entry.event, tried) {
        machine.make_room()?;
        offers.withdrawn(tried.link, tried.number)?;
        machine.withdrawn(tried, entry.stamp);
        return Ok(true);
    }
    if knows(&entry.event, tried) {
        machine.make_room()?;
        machine.taken(tried, entry.stamp);
        return Ok(true);
    }
    Ok(false)
}
