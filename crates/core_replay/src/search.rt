//! A core goes on to where an entry comes in.

ghost use Rattle.std.specs.Prelude.{◌≡◌, true, IfOk, OnErr, OnOk};
ghost use Rattle.core_machine.specs.Machine.{IsOnItsWay, IsSameCore};
ghost use Rattle.core_replay.specs.Standing.{IsPlayed, StandsAt};
ghost use Rattle.core_replay.specs.inner.Replaying.{IsSameOne, Takes, has_rested};

use crate::arrivals::arrive;
use crate::outcomes::decide;
use crate::own_offers::OwnOffers;
use crate::prospects::{Prospect, prospect_of};
use ac_base::{Entry, NoMemory};
use core_machine::CoreMachine;

/// A core goes on to where the entry comes in, and no further. It says whether it has come in: it has
/// where a run goes on with it.
///
/// Condition: the core has gone no further than to where its last entry came in.
pub fn take_next(
    machine: &mut CoreMachine<'_>,
    offers: &mut OwnOffers,
    entry: &Entry,
) -> Result<bool, NoMemory>
    requires played { IsPlayed machine.old offers.old }
    requires stands { StandsAt machine.old machine.old.state }
    ensures same { IsSameOne machine.old machine.new }
    ensures played { IsPlayed machine.new offers.new }
    ensures takes { IfOk result (λ took. Takes machine.old entry.now took machine.new) }
    ensures err { OnErr result (machine.new.journal ≡ machine.old.journal) }
{
    if machine.ended() {
        return Ok(false);
    }
    if entry.turn < machine.turns() {
        return Ok(false);
    }
    let ranks = machine.code().ranks();
    'moves: loop {
        match prospect_of(machine, entry.turn) {
            Prospect::Asks(tried) => return decide(machine, offers, tried, entry),
            Prospect::Here => return arrive(machine, offers, entry),
            Prospect::Never => return Ok(false),
            Prospect::Later => {
                machine.turn(ranks)?;
                if machine.ended() {
                    return Ok(false);
                }
            }
        }
    }
}

// Whether a core goes no further where no entry is to come.
fn has_rested(machine: &CoreMachine<'_>) -> bool
    ensures { result ≡ has_rested machine.now.code machine.now.state }
{
    machine.ended() || machine.idle() || machine.tried().is_some()
}

/// A core goes on as long as it can where no entry is to come.
pub fn run_on(machine: &mut CoreMachine<'_>) -> Result<(), NoMemory>
    requires { IsOnItsWay machine.old }
    ensures same { IsSameCore machine.old machine.new }
    ensures run { IsOnItsWay machine.new }
    ensures rests { OnOk result (has_rested machine.new.code machine.new.state ≡ true) }
{
    let ranks = machine.code().ranks();
    'running: while !has_rested(machine) {
        machine.turn(ranks)?;
    }
    Ok(())
}
