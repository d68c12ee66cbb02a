//! A core runs, and looks at its links at each dispatch point.

ghost use Rattle.std.specs.Prelude.{◌≡◌, ◌≤◌, ◌||◌, Some, true, false, IfOk, MatchResult};
ghost use Rattle.stack_code.specs.Kept.{IsRanked};
ghost use Rattle.core_machine.specs.Machine.{has_ended};
ghost use Rattle.core_machine.specs.Points.{is_at_point};
ghost use Rattle.core_machine.specs.Tried.{tried_of};
ghost use Rattle.core_driver.specs.declared.pause.Pause.{Pause};
ghost use Rattle.core_driver.specs.Pauses.{IsPaused, is_clock_full};
ghost use Rattle.core_driver.specs.Idle.{LeavesNothing, HasLooked};
ghost use Rattle.core_driver.specs.Polled.{ArePolled};
ghost use Rattle.core_driver.specs.inner.Outside.{outside, IsFull};
ghost use Rattle.core_driver.specs.inner.InStep.{InStep, Holds};
ghost use Rattle.core_driver.specs.inner.Rounds.{Came, is_seen_full};

use crate::looks::look_round;
use crate::pause::{Pause, pause_of};
use crate::seen::Seen;
use ac_base::{Clock, NoMemory};
use core_channels::Withdrawing;
use core_machine::{CoreMachine, Tried};
use core_ports::Ports;

// A dispatch point: a look at each link, and then the front of the ready list runs.
fn pass_point<P: Ports>(
    machine: &mut CoreMachine<'_>,
    ports: &mut P,
    clock: &mut Clock,
    _ranks: &[u64],
) -> Result<Seen, NoMemory>
    requires in_step { InStep machine.old (outside (P.told ports.old) clock.old) }
    requires point { is_at_point machine.old.state ≡ true }
    requires ranked { IsRanked machine.old.code _ranks.now }
    ensures holds { Holds machine.old (outside (P.told ports.old) clock.old) machine.new (outside (P.told ports.new) clock.new) }
    ensures polled { ArePolled machine.old machine.new (P.told ports.old).polls (P.told ports.new).polls }
    ensures came { IfOk result (λ seen. Came _ranks.now seen machine.old (outside (P.told ports.old) clock.old)
        machine.new (outside (P.told ports.new) clock.new)) }
    ensures full { MatchResult result (λ seen. (P.told ports.new).full ≡ ((P.told ports.old).full || is_seen_full seen))
        (λ _. (P.told ports.new).full ≡ (P.told ports.old).full) }
    ensures stays { P.stays ports.old ports.new }
{
    let before = clock.last();
    let full = look_round(machine, ports, clock)?;
    if full {
        return Ok(Seen::Full);
    }
    if machine.idle() {
        let after = clock.last();
        if after == before {
            return Ok(Seen::Nothing);
        }
        return Ok(Seen::WentOn);
    }
    machine.turn(_ranks)?;
    Ok(Seen::WentOn)
}

// The outcome of the offer that a cancel tries: the answer of its link, which is recorded before
// anything else is tried.
fn decide<P: Ports>(
    machine: &mut CoreMachine<'_>,
    ports: &mut P,
    clock: &mut Clock,
    tried: Tried,
    _ranks: &[u64],
) -> Result<Seen, NoMemory>
    requires in_step { InStep machine.old (outside (P.told ports.old) clock.old) }
    requires asks { tried_of machine.old.code machine.old.state ≡ Some tried }
    ensures holds { Holds machine.old (outside (P.told ports.old) clock.old) machine.new (outside (P.told ports.new) clock.new) }
    ensures polled { ArePolled machine.old machine.new (P.told ports.old).polls (P.told ports.new).polls }
    ensures came { IfOk result (λ seen. Came _ranks.now seen machine.old (outside (P.told ports.old) clock.old)
        machine.new (outside (P.told ports.new) clock.new)) }
    ensures full { MatchResult result (λ seen. (P.told ports.new).full ≡ ((P.told ports.old).full || is_seen_full seen))
        (λ _. (P.told ports.new).full ≡ (P.told ports.old).full) }
    ensures stays { P.stays ports.old ports.new }
{
    machine.make_room()?;
    match ports.withdraw(tried.link, tried.number, clock) {
        Withdrawing::Withdrawn { stamp } => {
            machine.withdrawn(tried, stamp);
            Ok(Seen::WentOn)
        }
        Withdrawing::Taken { stamp } => {
            machine.taken(tried, stamp);
            Ok(Seen::WentOn)
        }
        Withdrawing::ClockFull => Ok(Seen::Full),
    }
}

// A dispatch point, the outcome of an offer that a cancel tries, or a stretch of the running thread.
fn next_stretch<P: Ports>(
    machine: &mut CoreMachine<'_>,
    ports: &mut P,
    clock: &mut Clock,
    _ranks: &[u64],
) -> Result<Seen, NoMemory>
    requires in_step { InStep machine.old (outside (P.told ports.old) clock.old) }
    requires going { has_ended machine.old.state ≡ false }
    requires ranked { IsRanked machine.old.code _ranks.now }
    ensures holds { Holds machine.old (outside (P.told ports.old) clock.old) machine.new (outside (P.told ports.new) clock.new) }
    ensures polled { ArePolled machine.old machine.new (P.told ports.old).polls (P.told ports.new).polls }
    ensures came { IfOk result (λ seen. Came _ranks.now seen machine.old (outside (P.told ports.old) clock.old)
        machine.new (outside (P.told ports.new) clock.new)) }
    ensures full { MatchResult result (λ seen. (P.told ports.new).full ≡ ((P.told ports.old).full || is_seen_full seen))
        (λ _. (P.told ports.new).full ≡ (P.told ports.old).full) }
    ensures stays { P.stays ports.old ports.new }
{
    if machine.is_at_point() {
        return pass_point(machine, ports, clock, _ranks);
    }
    if let Some(tried) = machine.tried() {
        return decide(machine, ports, clock, tried, _ranks);
    }
    machine.turn(_ranks)?;
    Ok(Seen::WentOn)
}

/// Runs the core until it has ended, or so many dispatch points in a row have brought nothing, or all
/// stamps are used. The ranks are there for the proof alone that it comes back.
pub fn advance_by<P: Ports>(
    machine: &mut CoreMachine<'_>,
    ports: &mut P,
    clock: &mut Clock,
    polls: u32,
    _ranks: &[u64],
) -> Result<Pause, NoMemory>
    requires in_step { InStep machine.old (outside (P.told ports.old) clock.old) }
    requires some { 1 ≤ polls }
    requires ranked { IsRanked machine.old.code _ranks.now }
    ensures holds { Holds machine.old (outside (P.told ports.old) clock.old) machine.new (outside (P.told ports.new) clock.new) }
    ensures polled { ArePolled machine.old machine.new (P.told ports.old).polls (P.told ports.new).polls }
    ensures pause { IfOk result (λ pause. IsPaused machine.new.state pause) }
    ensures full { MatchResult result (λ pause. (P.told ports.new).full ≡ ((P.told ports.old).full || is_clock_full pause))
        (λ _. (P.told ports.new).full ≡ (P.told ports.old).full) }
    ensures heard { IfOk result (λ pause. pause ≡ Pause.ClockFull → IsFull (outside (P.told ports.new) clock.new)) }
    ensures idle { IfOk result (λ pause. pause ≡ Pause.Idle
        → LeavesNothing machine.new (P.told ports.new).terms (P.told ports.new).ends (P.told ports.new).at_hand) }
    ensures looked { IfOk result (λ pause. pause ≡ Pause.Idle
        → HasLooked polls machine.new (P.told ports.old).polls (P.told ports.new).polls (P.told ports.old).tries (P.told ports.new).tries) }
    ensures stays { P.stays ports.old ports.new }
{
    let mut quiet = 0;
    'turns: loop {
        if let Some(ending) = machine.ending() {
            return Ok(pause_of(ending));
        }
        let seen = next_stretch(machine, ports, clock, _ranks)?;
        match seen {
            Seen::Full => return Ok(Pause::ClockFull),
            Seen::WentOn => {
                quiet = 0;
                continue;
            }
            Seen::Nothing => quiet += 1,
        }
        if quiet == polls {
            return Ok(Pause::Idle);
        }
    }
}
