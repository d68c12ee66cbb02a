//! The driver that callers see.

use crate::pause::Pause;
use crate::rounds::advance_by;
use ac_base::{Clock, NoMemory};
use core_machine::CoreMachine;
use core_ports::Ports;
use std::marker::Model;

/// A core with its clock, which runs over its ports.
///
/// Contracts see the core's machine, and whether a port has answered that all stamps are used.
#[derive(Drop)]
pub struct Driver<'a> {
    machine: CoreMachine<'a>,
    clock: Clock,
    full: bool,
}

impl<'a> Model for Driver<'a> {
    ghost use Rattle.core_driver.specs.Driven.{Driven, IsDriven};

    ghost Value = { Driven };

    ghost view = { λ d. record { machine = d.machine; full = d.full } };

    ghost invariant = { λ d. IsDriven d.machine d.clock d.full };
}

impl<'a> Driver<'a> {
    ghost use Rattle.std.specs.Prelude.{◌≡◌, ℕ, [], ◌<◌, ◌≤◌, ◌^◌, ◌||◌, true, false, None, Ok, IfOk, MatchResult};
    ghost use Rattle.ac_base.specs.Stamps.{stamp_after};
    ghost use Rattle.ac_links.specs.Journals.{last_of};
    ghost use Rattle.ac_links.specs.Party.{PartyAgrees};
    ghost use Rattle.core_machine.specs.Machine.{IsOnItsWay};
    ghost use Rattle.core_driver.specs.declared.pause.Pause.{Pause};
    ghost use Rattle.core_driver.specs.Sides.{ArePortsOf};
    ghost use Rattle.core_driver.specs.Pauses.{IsPaused, is_clock_full};
    ghost use Rattle.core_driver.specs.Idle.{IsLater, LeavesNothing, HasLooked};
    ghost use Rattle.core_driver.specs.Polled.{ArePolled};

    /// The driver of a core that has made no entry yet.
    pub fn new(machine: CoreMachine<'a>) -> Driver<'a>
        requires { machine.journal ≡ [] }
        ensures machine { result.machine ≡ machine.entry }
        ensures full { result.full ≡ false }
    {
        let _ending = machine.ending();
        Driver {
            machine,
            clock: Clock::new(0),
            full: false,
        }
    }

    /// The core.
    pub fn machine(&self) -> &CoreMachine<'a>
        ensures { result.now ≡ self.now.machine }
    {
        &self.machine
    }

    /// The stamp of the core's last entry, or 0 where it has made none.
    pub fn last(&self) -> u64
        ensures same { result ≡ last_of 0 self.now.machine.journal }
        ensures bound { result < 2 ^ 60 }
    {
        self.clock.last()
    }

    /// The core, out of the driver.
    pub fn into_machine(self) -> CoreMachine<'a>
        ensures { result ≡ self.entry.machine }
    {
        let Driver { machine, .. } = self;
        machine
    }

    /// Runs the core until it has ended, or so many dispatch points in a row have brought nothing while
    /// no thread is ready, or a port has answered that all stamps are used; after that last answer it
    /// gives it again at once. Meanwhile it polls each link of the core at least as often as the core's
    /// turn rises, also where it has ended or memory gave out. Where it comes back idle it has polled each
    /// at least `polls` times, and tried as many offers on each with an operation that is to be offered,
    /// that of its requests among them; and nothing of use to the core is at hand as the call ends. After
    /// want of memory it can be called again, and goes on where it stopped.
    ///
    /// Conditions: the ports are those of the core, and they agree with its journal; and it is to look
    /// once at least.
    pub fn advance<P: Ports>(&mut self, ports: &mut P, polls: u32) -> Result<Pause, NoMemory>
        requires some { 1 ≤ polls }
        requires ports { ArePortsOf self.old.machine.code self.old.machine.core (P.told ports.old).terms (P.told ports.old).ends }
        requires agrees { PartyAgrees (P.told ports.old).terms self.old.machine.core (P.told ports.old).ends self.old.machine.journal }
        ensures later { IsLater self.old.machine self.new.machine }
        ensures run { IsOnItsWay self.new.machine }
        ensures terms { (P.told ports.new).terms ≡ (P.told ports.old).terms }
        ensures ports { ArePortsOf self.new.machine.code self.new.machine.core (P.told ports.new).terms (P.told ports.new).ends }
        ensures agrees { PartyAgrees (P.told ports.new).terms self.new.machine.core (P.told ports.new).ends self.new.machine.journal }
        ensures polled { ArePolled self.old.machine self.new.machine (P.told ports.old).polls (P.told ports.new).polls }
        ensures stays { P.stays ports.old ports.new }
        ensures quiet { self.new.machine.journal ≡ self.old.machine.journal
            → ((P.told ports.new).ends ≡ (P.told ports.old).ends) × ((P.told ports.new).at_hand ≡ (P.told ports.old).at_hand) }
        ensures pause { IfOk result (λ pause. IsPaused self.new.machine.state pause) }
        ensures full { MatchResult result (λ pause. self.new.full ≡ (self.old.full || is_clock_full pause))
            (λ _. self.new.full ≡ self.old.full) }
        ensures calls { self.old.full ≡ false → MatchResult result
            (λ pause. (P.told ports.new).full ≡ ((P.told ports.old).full || is_clock_full pause))
            (λ _. (P.told ports.new).full ≡ (P.told ports.old).full) }
        ensures heard { self.old.full ≡ false → IfOk result (λ pause. pause ≡ Pause.ClockFull
            → (link : ℕ) × (stamp_after (last_of 0 self.new.machine.journal) ((P.told ports.new).heard link) ≡ None)) }
        ensures idle { IfOk result (λ pause. pause ≡ Pause.Idle
            → LeavesNothing self.new.machine (P.told ports.new).terms (P.told ports.new).ends (P.told ports.new).at_hand) }
        ensures looked { IfOk result (λ pause. pause ≡ Pause.Idle
            → HasLooked polls self.new.machine (P.told ports.old).polls (P.told ports.new).polls
            (P.told ports.old).tries (P.told ports.new).tries) }
        ensures for_good { self.old.full ≡ true → (result ≡ Ok Pause.ClockFull) × (self.new ≡ self.old) × (ports.new ≡ ports.old) }
    {
        if self.full {
            return Ok(Pause::ClockFull);
        }
        let ranks = self.machine.code().ranks();
        let pause = advance_by(&mut self.machine, ports, &mut self.clock, polls, ranks)?;
        self.full = pause.is_clock_full();
        Ok(pause)
    }
}
