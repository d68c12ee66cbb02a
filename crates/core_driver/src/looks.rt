//! Looks at the links of a core, at a dispatch point. Each tells whether all stamps are used.

ghost use Rattle.std.specs.Prelude.{◌≡◌, ℕ, ◌<◌, ◌≤◌, ◌||◌, true, false, IfOk, MatchResult};
ghost use Rattle.core_channels.specs.Counts.{counted};
ghost use Rattle.core_ports.specs.Ends.{awaits_reply, has_room};
ghost use Rattle.core_machine.specs.Points.{is_at_point, operations_of, has_to_offer};
ghost use Rattle.core_ports.specs.declared.side.Side.{Side};
ghost use Rattle.core_ports.specs.Sides.{side_of};
ghost use Rattle.core_driver.specs.Sides.{links_of};
ghost use Rattle.core_driver.specs.inner.Outside.{outside, IsFull};
ghost use Rattle.core_driver.specs.inner.InStep.{InStep, Looks, IsLookedAt};

use crate::links::links_of;
use ac_base::{Clock, NoMemory};
use core_channels::{Arrived, Offering};
use core_machine::CoreMachine;
use core_ports::{Ports, Side, side_of};

// A poll of a link on which the core sends; where it carries requests, a reply is wanted.
fn poll_own<P: Ports>(
    machine: &mut CoreMachine<'_>,
    ports: &mut P,
    clock: &mut Clock,
    link: u32,
) -> Result<bool, NoMemory>
    requires in_step { InStep machine.old (outside (P.told ports.old) clock.old) }
    requires point { is_at_point machine.old.state ≡ true }
    requires side { side_of machine.old.code.ends machine.old.core link ≡ Side.Owner }
    ensures looks { Looks machine.old (outside (P.told ports.old) clock.old) machine.new (outside (P.told ports.new) clock.new) }
    ensures full { MatchResult result (λ full. (P.told ports.new).full ≡ ((P.told ports.old).full || full))
        (λ _. (P.told ports.new).full ≡ (P.told ports.old).full) }
    ensures heard { IfOk result (λ full. full ≡ true → IsFull (outside (P.told ports.new) clock.new)) }
    ensures polled { IfOk result (λ full. counted ((P.told ports.old).polls link) ≤ (P.told ports.new).polls link) }
    ensures decision { IfOk result (λ full. full ≡ false → clock.new ≡ clock.old
        → ((P.told ports.new).at_hand link).decision ≡ false) }
    ensures reply { IfOk result (λ full. full ≡ false → clock.new ≡ clock.old → ((P.told ports.new).terms link).requests ≡ true
        → awaits_reply ((P.told ports.new).ends link) ≡ true → ((P.told ports.new).at_hand link).reply ≡ false) }
    ensures stays { P.stays ports.old ports.new }
{
    machine.make_room()?;
    match ports.poll(link, true, clock) {
        Arrived::Know { number, stamp } => {
            machine.know(link, number, stamp);
            Ok(false)
        }
        Arrived::Room { number, stamp } => {
            machine.roomed(link, number, stamp);
            Ok(false)
        }
        Arrived::Reply {
            number,
            answer,
            stamp,
        } => {
            machine.replied(link, number, answer, stamp);
            Ok(false)
        }
        Arrived::Nothing => Ok(false),
        Arrived::ClockFull => Ok(true),
        Arrived::Got { .. } => unreachable!(),
        Arrived::Pass { .. } => unreachable!(),
        Arrived::NotYet => unreachable!(),
    }
}

// An offer of the oldest operation that is to be offered on a link. A copy of what it carries goes into
// the journal. It is not inlined, so that a look that offers nothing makes no place for a payload.
#[inline(never)]
fn make_offer<P: Ports>(
    machine: &mut CoreMachine<'_>,
    ports: &mut P,
    clock: &mut Clock,
    link: u32,
) -> Result<bool, NoMemory>
    requires in_step { InStep machine.old (outside (P.told ports.old) clock.old) }
    requires point { is_at_point machine.old.state ≡ true }
    requires side { side_of machine.old.code.ends machine.old.core link ≡ Side.Owner }
    requires some { has_to_offer (operations_of machine.old.state) link ≡ true }
    ensures looks { Looks machine.old (outside (P.told ports.old) clock.old) machine.new (outside (P.told ports.new) clock.new) }
    ensures full { MatchResult result (λ full. (P.told ports.new).full ≡ ((P.told ports.old).full || full))
        (λ _. (P.told ports.new).full ≡ (P.told ports.old).full) }
    ensures heard { IfOk result (λ full. full ≡ true → IsFull (outside (P.told ports.new) clock.new)) }
    ensures polls { (P.told ports.new).polls ≡ (P.told ports.old).polls }
    ensures tried { IfOk result (λ full. counted ((P.told ports.old).tries link) ≤ (P.told ports.new).tries link) }
    ensures slot { IfOk result (λ full. full ≡ false → clock.new ≡ clock.old
        → has_room ((P.told ports.new).terms link) ((P.told ports.new).ends link) ≡ true
        → ((P.told ports.new).at_hand link).slot ≡ false) }
    ensures stays { P.stays ports.old ports.new }
{
    let payload = machine.to_offer(link)?;
    let copy = payload.copy(machine.alloc())?;
    machine.make_room()?;
    match ports.offer(link, payload, clock) {
        Offering::Offered { number, stamp } => {
            machine.offered(link, number, copy, stamp);
            Ok(false)
        }
        Offering::NoRoom(_) => Ok(false),
        Offering::NotYet(_) => Ok(false),
        Offering::ClockFull(_) => Ok(true),
    }
}

// Such an offer, if there is an operation that is to be offered on the link.
fn try_offer<P: Ports>(
    machine: &mut CoreMachine<'_>,
    ports: &mut P,
    clock: &mut Clock,
    link: u32,
) -> Result<bool, NoMemory>
    requires in_step { InStep machine.old (outside (P.told ports.old) clock.old) }
    requires point { is_at_point machine.old.state ≡ true }
    requires side { side_of machine.old.code.ends machine.old.core link ≡ Side.Owner }
    ensures looks { Looks machine.old (outside (P.told ports.old) clock.old) machine.new (outside (P.told ports.new) clock.new) }
    ensures full { MatchResult result (λ full. (P.told ports.new).full ≡ ((P.told ports.old).full || full))
        (λ _. (P.told ports.new).full ≡ (P.told ports.old).full) }
    ensures heard { IfOk result (λ full. full ≡ true → IsFull (outside (P.told ports.new) clock.new)) }
    ensures polls { (P.told ports.new).polls ≡ (P.told ports.old).polls }
    ensures tried { IfOk result (λ full. has_to_offer (operations_of machine.old.state) link ≡ true
        → counted ((P.told ports.old).tries link) ≤ (P.told ports.new).tries link) }
    ensures slot { IfOk result (λ full. full ≡ false → clock.new ≡ clock.old
        → has_to_offer (operations_of machine.old.state) link ≡ true
        → has_room ((P.told ports.new).terms link) ((P.told ports.new).ends link) ≡ true
        → ((P.told ports.new).at_hand link).slot ≡ false) }
    ensures stays { P.stays ports.old ports.new }
{
    if !machine.has_to_offer(link) {
        return Ok(false);
    }
    make_offer(machine, ports, clock, link)
}

// A look at a link on which the core sends: a poll, and an offer.
fn look_own<P: Ports>(
    machine: &mut CoreMachine<'_>,
    ports: &mut P,
    clock: &mut Clock,
    link: u32,
) -> Result<bool, NoMemory>
    requires in_step { InStep machine.old (outside (P.told ports.old) clock.old) }
    requires point { is_at_point machine.old.state ≡ true }
    requires side { side_of machine.old.code.ends machine.old.core link ≡ Side.Owner }
    ensures looks { Looks machine.old (outside (P.told ports.old) clock.old) machine.new (outside (P.told ports.new) clock.new) }
    ensures full { MatchResult result (λ full. (P.told ports.new).full ≡ ((P.told ports.old).full || full))
        (λ _. (P.told ports.new).full ≡ (P.told ports.old).full) }
    ensures heard { IfOk result (λ full. full ≡ true → IsFull (outside (P.told ports.new) clock.new)) }
    ensures looked { IfOk result (λ full. full ≡ false
        → IsLookedAt (outside (P.told ports.old) clock.old) machine.new (outside (P.told ports.new) clock.new) link) }
    ensures stays { P.stays ports.old ports.new }
{
    let full = poll_own(machine, ports, clock, link)?;
    if full {
        return Ok(true);
    }
    let offered = try_offer(machine, ports, clock, link)?;
    Ok(offered)
}

// A look at a channel on which the core receives: a poll.
fn look_peer<P: Ports>(
    machine: &mut CoreMachine<'_>,
    ports: &mut P,
    clock: &mut Clock,
    link: u32,
) -> Result<bool, NoMemory>
    requires in_step { InStep machine.old (outside (P.told ports.old) clock.old) }
    requires point { is_at_point machine.old.state ≡ true }
    requires side { side_of machine.old.code.ends machine.old.core link ≡ Side.Peer }
    ensures looks { Looks machine.old (outside (P.told ports.old) clock.old) machine.new (outside (P.told ports.new) clock.new) }
    ensures full { MatchResult result (λ full. (P.told ports.new).full ≡ ((P.told ports.old).full || full))
        (λ _. (P.told ports.new).full ≡ (P.told ports.old).full) }
    ensures heard { IfOk result (λ full. full ≡ true → IsFull (outside (P.told ports.new) clock.new)) }
    ensures looked { IfOk result (λ full. full ≡ false
        → IsLookedAt (outside (P.told ports.old) clock.old) machine.new (outside (P.told ports.new) clock.new) link) }
    ensures stays { P.stays ports.old ports.new }
{
    machine.make_room()?;
    let wants = machine.receives_from(link);
    match ports.poll(link, wants, clock) {
        Arrived::Got {
            number,
            value,
            stamp,
        } => {
            machine.got(link, number, value, stamp);
            Ok(false)
        }
        Arrived::Pass { number, stamp } => {
            machine.passed(link, number, stamp);
            Ok(false)
        }
        Arrived::Nothing => Ok(false),
        Arrived::NotYet => Ok(false),
        Arrived::ClockFull => Ok(true),
        Arrived::Know { .. } => unreachable!(),
        Arrived::Room { .. } => unreachable!(),
        Arrived::Reply { .. } => unreachable!(),
    }
}

// A look at a link, where it is one of the core's.
fn look<P: Ports>(
    machine: &mut CoreMachine<'_>,
    ports: &mut P,
    clock: &mut Clock,
    link: u32,
) -> Result<bool, NoMemory>
    requires in_step { InStep machine.old (outside (P.told ports.old) clock.old) }
    requires point { is_at_point machine.old.state ≡ true }
    ensures looks { Looks machine.old (outside (P.told ports.old) clock.old) machine.new (outside (P.told ports.new) clock.new) }
    ensures full { MatchResult result (λ full. (P.told ports.new).full ≡ ((P.told ports.old).full || full))
        (λ _. (P.told ports.new).full ≡ (P.told ports.old).full) }
    ensures heard { IfOk result (λ full. full ≡ true → IsFull (outside (P.told ports.new) clock.new)) }
    ensures looked { IfOk result (λ full. full ≡ false
        → IsLookedAt (outside (P.told ports.old) clock.old) machine.new (outside (P.told ports.new) clock.new) link) }
    ensures stays { P.stays ports.old ports.new }
{
    match side_of(machine.code().ends(), machine.core(), link) {
        Side::Owner => look_own(machine, ports, clock, link),
        Side::Peer => look_peer(machine, ports, clock, link),
        Side::Neither => Ok(false),
    }
}

/// A look at each link of the core.
pub fn look_round<P: Ports>(
    machine: &mut CoreMachine<'_>,
    ports: &mut P,
    clock: &mut Clock,
) -> Result<bool, NoMemory>
    requires in_step { InStep machine.old (outside (P.told ports.old) clock.old) }
    requires point { is_at_point machine.old.state ≡ true }
    ensures looks { Looks machine.old (outside (P.told ports.old) clock.old) machine.new (outside (P.told ports.new) clock.new) }
    ensures full { MatchResult result (λ full. (P.told ports.new).full ≡ ((P.told ports.old).full || full))
        (λ _. (P.told ports.new).full ≡ (P.told ports.old).full) }
    ensures heard { IfOk result (λ full. full ≡ true → IsFull (outside (P.told ports.new) clock.new)) }
    ensures looked { IfOk result (λ full. full ≡ false → (link : ℕ) → link < links_of machine.new.code
        → IsLookedAt (outside (P.told ports.old) clock.old) machine.new (outside (P.told ports.new) clock.new) link) }
    ensures stays { P.stays ports.old ports.new }
{
    for link in 0..links_of(machine.code()) {
        let full = look(machine, ports, clock, link)?;
        if full {
            return Ok(true);
        }
    }
    Ok(false)
}
