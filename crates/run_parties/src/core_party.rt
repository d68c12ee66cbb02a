//! A core with its ports.

ghost use Rattle.std.specs.Prelude.{◌≡◌, ◌<◌, ◌≤◌, ◌^◌, [], true, false, nat_lt, not, IfOk, OnErr, OnOk};
ghost use mathlib.Core.List.{IsPrefix};
ghost use Rattle.ac_links.specs.Journals.{last_of};
ghost use Rattle.ac_links.specs.Party.{PartyAgrees};
ghost use Rattle.code_safety.specs.KeptEnds.{KeepsEnds};
ghost use Rattle.core_driver.specs.Sides.{ArePortsOf};
ghost use Rattle.core_machine.specs.Machine.{has_stopped};
ghost use Rattle.end_ports.specs.PortsTold.{told_of};
ghost use Rattle.end_ports.specs.SettledLinks.{HavePair, IsSettled, Settles, SettlesRequests};
ghost use Rattle.end_ports.specs.OnLinks.{on_link};
ghost use Rattle.file_worker.specs.Settling.{SettlesCore};
ghost use Rattle.file_worker.specs.Workers.{desk_of, loan_of, told_of as disk_told};
ghost use Rattle.settled_run.specs.Disk.{payloads_at};
ghost use Rattle.settled_run.specs.Parties.{CanGoNoFurther};
ghost use Rattle.run_parties.specs.Seats.{core_of, on_desk, popped_at, ports_of};
ghost use Rattle.run_parties.specs.Settling.{IsSettledOn};
ghost use Rattle.run_parties.specs.Parties.{HasRequests};
ghost use Rattle.run_parties.specs.Moving.{DeskStays, IsLaterSeat, SeatStays};
ghost use Rattle.run_parties.specs.Seated.{HasItsPorts};
ghost use Rattle.run_parties.specs.Working.{HavePolled, IsOver, SeatWorked};

use crate::working::TRIES;
use ac_base::NoMemory;
use ac_outside::{Disk, Gate};
use core_driver::{Driver, Pause};
use core_machine::CoreMachine;
use end_ports::CorePorts;
use file_worker::Worker;
use std::marker::Model;

/// A core that owns its ports. Contracts see both.
#[derive(Drop)]
pub struct CoreParty<'a> {
    pub(crate) driver: Driver<'a>,
    pub(crate) ports: CorePorts<'a>,
}

impl<'a> Model for CoreParty<'a> {
    ghost use Rattle.run_parties.specs.Seats.{CoreSeat};

    ghost Value = { CoreSeat };

    ghost use Rattle.run_parties.specs.Seated.{seat_of, IsSeated};

    ghost view = { seat_of };

    ghost invariant = { IsSeated };
}

impl<'a> CoreParty<'a> {
    /// A core that has made no entry, with ports on the links of its own.
    ///
    /// Conditions: the ports are those of the core, nothing was done at their ends, and each core of the
    /// code uses a channel only at its own end.
    pub fn new(machine: CoreMachine<'a>, ports: CorePorts<'a>) -> CoreParty<'a>
        requires new { machine.journal ≡ [] }
        requires ports { ArePortsOf machine.code machine.core (told_of ports).terms (told_of ports).ends }
        requires agrees { PartyAgrees (told_of ports).terms machine.core (told_of ports).ends [] }
        requires keeps { KeepsEnds machine.code }
        ensures machine { result.driven.machine ≡ machine.entry }
        ensures ports { result.ports ≡ ports.entry }
    {
        CoreParty {
            driver: Driver::new(machine),
            ports,
        }
    }

    /// The core. Its ports are those of its code, and agree with its journal at any time.
    pub fn machine(&self) -> &CoreMachine<'a>
        ensures machine { result.now ≡ self.now.driven.machine }
        ensures ports { HasItsPorts self.now }
    {
        self.driver.machine()
    }

    /// Goes on until it has ended, or waits and nothing that is at hand on its links is for it, or no
    /// stamp is left to it, and says whether it made an entry.
    pub fn advance(&mut self) -> Result<bool, NoMemory>
        ensures later { IsLaterSeat self.old self.new }
        ensures rises { last_of 0 self.old.driven.machine.journal ≤ last_of 0 self.new.driven.machine.journal }
        ensures bound { last_of 0 self.new.driven.machine.journal < 2 ^ 60 }
        ensures moved { IfOk result (λ it. it ≡ nat_lt (last_of 0 self.old.driven.machine.journal)
            (last_of 0 self.new.driven.machine.journal)) }
        ensures stops { OnOk result (CanGoNoFurther (core_of self.new) (ports_of self.new)) }
        ensures rests { IfOk result (λ it. it ≡ false → SeatStays self.old self.new) }
    {
        let before = self.driver.last();
        let went = self.driver.advance(&mut self.ports, 1);
        let after = self.driver.last();
        // What holds of a core at any time is asked for, for the proof.
        let _ending = self.driver.machine().ending();
        let _instrs = self.driver.machine().code().instrs();
        went?;
        Ok(before < after)
    }

    // Goes on as far as its ends tell, and says whether its part of a round is over by that.
    fn stretch(&mut self) -> Result<bool, NoMemory>
        ensures later { IsLaterSeat self.old self.new }
        ensures rises { last_of 0 self.old.driven.machine.journal ≤ last_of 0 self.new.driven.machine.journal }
        ensures over { IfOk result (λ over. over ≡ true → IsOver self.new) }
        ensures tried { IfOk result (λ over. over ≡ false → HavePolled 1 self.old self.new) }
    {
        let went = self.driver.advance(&mut self.ports, 1);
        // What holds of a core at any time is asked for, for the proof.
        let _ending = self.driver.machine().ending();
        Ok(!matches!(went?, Pause::Idle))
    }

    // Goes on again and again, as `work` does.
    fn keep_on<G: Gate>(&mut self, place: u32, gate: &G) -> Result<(), NoMemory>
        ensures later { IsLaterSeat self.old self.new }
        ensures rises { last_of 0 self.old.driven.machine.journal ≤ last_of 0 self.new.driven.machine.journal }
        ensures worked { OnOk result (SeatWorked 10000 self.old self.new) }
    {
        gate.pass(place, self.driver.machine().journal().len());
        let mut in_vain = 0;
        let mut over = false;
        while !over && in_vain < TRIES {
            let before = self.driver.last();
            over = self.stretch()?;
            if before < self.driver.last() {
                in_vain = 0;
                gate.pass(place, self.driver.machine().journal().len());
            } else {
                in_vain += 1;
            }
        }
        Ok(())
    }

    /// Its part of a round: goes on until it has ended, or all stamps are used, or so many calls in a row
    /// have made no entry, in each of which it has looked at each of its links; and says whether it made an
    /// entry.
    pub fn work<G: Gate>(&mut self, place: u32, gate: &G) -> Result<bool, NoMemory>
        ensures later { IsLaterSeat self.old self.new }
        ensures rises { last_of 0 self.old.driven.machine.journal ≤ last_of 0 self.new.driven.machine.journal }
        ensures bound { last_of 0 self.new.driven.machine.journal < 2 ^ 60 }
        ensures moved { IfOk result (λ it. it ≡ nat_lt (last_of 0 self.old.driven.machine.journal)
            (last_of 0 self.new.driven.machine.journal)) }
        ensures worked { OnOk result (SeatWorked 10000 self.old self.new) }
    {
        let first = self.driver.last();
        let went = self.keep_on(place, gate);
        let last = self.driver.last();
        went?;
        Ok(first < last)
    }

    /// Whether it has a thread that can go on.
    pub fn is_ready(&self) -> bool
        ensures { result ≡ not (has_stopped self.now.driven.machine.state) }
    {
        !self.driver.machine().ended() && !self.driver.machine().idle()
    }

    /// Settles a channel on which this core sends and the other receives.
    ///
    /// Condition: the two ends of the link are of one pair.
    pub fn settle_with(&mut self, link: u32, other: &mut CoreParty<'_>)
        requires { HavePair self.old.ports other.old.ports link }
        ensures cores { (self.new.driven ≡ self.old.driven) × (other.new.driven ≡ other.old.driven) }
        ensures mine { Settles self.old.ports link self.new.ports }
        ensures its { Settles other.old.ports link other.new.ports }
        ensures link { IsSettled (on_link self.new.ports link) (on_link other.new.ports link) }
    {
        self.ports.settle_with(link, &mut other.ports);
    }

    /// Settles the requests of this core and their replies with the worker. After want of memory what is
    /// at hand for either is as it was.
    ///
    /// Condition: the worker's ends for this core are those of its requests.
    pub fn settle_requests<D: Disk>(
        &mut self,
        worker: &mut Worker<'_, '_, D>,
    ) -> Result<(), NoMemory>
        requires pair { HasRequests self.old.ports.ask.link self.old (desk_of worker.old) }
        ensures core { self.new.driven ≡ self.old.driven }
        ensures ports { SettlesRequests self.old.ports self.new.ports }
        ensures worker { SettlesCore self.old.driven.machine.core (desk_of worker.old) self.old.ports.ask.end
            (desk_of worker.new) self.new.ports.ask.end }
        ensures settled { OnOk result (IsSettledOn true (on_link self.new.ports self.new.ports.ask.link)
            (on_desk (desk_of worker.new) self.new.ports.ask.link)) }
        ensures taken { OnOk result (IsPrefix (popped_at (desk_of worker.new) self.new.ports.ask.link)
            (payloads_at (on_link self.new.ports self.new.ports.ask.link).end)) }
        ensures rests { OnErr result (SeatStays self.old self.new × DeskStays (desk_of worker.old) (desk_of worker.new)) }
        ensures told { disk_told D.told worker.new ≡ disk_told D.told worker.old }
        ensures loan { loan_of worker.new ≡ loan_of worker.old }
    {
        let core = self.driver.machine().core();
        let settled = worker.settle(core, &mut self.ports);
        // What holds of its ends at any time is asked for, for the proof.
        let _cores = worker.cores();
        settled
    }

    /// The core, out of its ports.
    pub fn into_machine(self) -> CoreMachine<'a>
        ensures { result ≡ self.entry.driven.machine }
    {
        let CoreParty { driver, .. } = self;
        driver.into_machine()
    }
}
