//! The parties of a run: its cores, and the worker of their files.

use crate::core_party::CoreParty;
use crate::working::{work, work_on};
use ac_base::NoMemory;
use ac_outside::{Disk, Gate};
use file_worker::Worker;
use settled_rounds::Party;

// What a turn of a core takes, and an entry of the worker, beside an instruction of the machine.
const TURN: u64 = 64;

const ENTRY: u64 = 256;

/// A party of a run: a core that owns its ports, or the worker with its ends of the cores' requests and
/// the disk that is lent to it.
#[derive(Drop)]
pub enum RunParty<'a, 'd, D> {
    Core(CoreParty<'a>),
    Disk(Worker<'a, 'd, D>),
}

impl<'a, 'd, D: Disk> Party for RunParty<'a, 'd, D> {
    ghost use Rattle.run_parties.specs.Parties.{clock_of, IsLaterParty, MayGoOn, HaveEnds, AreKnownAt, AreSettledAt};
    ghost use Rattle.run_parties.specs.Parties.{PartyStays, PartyButAt, PartyStops};
    ghost use Rattle.run_parties.specs.Working.{PartyWorked};
    ghost use Rattle.run_parties.specs.inner.Keeping.{is_later_self, is_later_then, may_stay, stays_self, but_at_self};
    ghost use Rattle.run_parties.specs.inner.Keeping.{ends_stay, settled_but, settled_known, known_stays, stops_still};

    ghost clock = { λ p. clock_of p };

    ghost later = { λ p q. IsLaterParty D.told p q };

    ghost ready = { λ p. MayGoOn D.told p };

    ghost pair = { λ link p q. HaveEnds link p q };

    ghost settled = { λ link p q. AreSettledAt link p q };

    ghost known = { λ link p q. AreKnownAt link p q };

    ghost still = { λ p q. PartyStays p q };

    ghost apart = { λ link p q. PartyButAt link p q };

    ghost worked = { λ p q. PartyWorked p q };

    ghost stopped = { λ p. PartyStops p };

    fn advance(&mut self) -> Result<bool, NoMemory> {
        match self {
            RunParty::Core(core) => core.advance(),
            RunParty::Disk(worker) => work(worker),
        }
    }

    fn work<G: Gate>(&mut self, place: u32, gate: &G) -> Result<bool, NoMemory> {
        match self {
            RunParty::Core(core) => core.work(place, gate),
            RunParty::Disk(worker) => work_on(worker, place, gate),
        }
    }

    fn is_ready(&self) -> bool {
        match self {
            RunParty::Core(core) => core.is_ready(),
            RunParty::Disk(_) => false,
        }
    }

    fn has_news(&self, other: &Self, link: u32) -> (bool, bool) {
        match (self, other) {
            (RunParty::Core(from), RunParty::Core(to)) => from.news_with(link, to),
            (RunParty::Core(core), RunParty::Disk(worker)) => core.news_of_requests(link, worker),
            _ => (false, false),
        }
    }

    fn progress(&self) -> u64 {
        match self {
            RunParty::Core(core) => core.machine().turns().saturating_mul(TURN),
            RunParty::Disk(worker) => worker.journal().len().saturating_mul(ENTRY),
        }
    }

    fn settle_with(&mut self, other: &mut Self, link: u32) -> Result<(), NoMemory> {
        match (self, other) {
            (RunParty::Core(from), RunParty::Core(to)) => {
                from.settle_with(link, to);
                Ok(())
            }
            (RunParty::Core(core), RunParty::Disk(worker)) => core.settle_requests(worker),
            _ => unreachable!(),
        }
    }

    ghost later_self = { λ p. is_later_self D.told p };

    ghost later_then = { λ p q r a b. is_later_then D.told p q r a b };

    ghost ready_stays = { λ p q a b. may_stay D.told p q a b };

    ghost still_self = { λ p. stays_self p };

    ghost apart_self = { λ link p. but_at_self link p };

    ghost pair_stays = { λ link p q r s pair a b. ends_stay D.told link p q r s pair a b };

    ghost settled_apart = { λ link other p q r s settled differ a b. settled_but link other p q r s settled differ a b };

    ghost settled_knows = { λ link p q settled. settled_known link p q settled };

    ghost known_still = { λ link p q r s known a b. known_stays link p q r s known a b };

    ghost stopped_still = { λ link p q stopped apart still. stops_still link p q stopped apart still };
}
