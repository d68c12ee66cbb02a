//! Who goes on next in a run. No contract stands on this choice: whoever goes on, the run is one.

ghost use Rattle.std.specs.Prelude.{◌<◌, ◌^◌, length};
ghost use Rattle.settled_rounds.specs.Linked.{AreWays};
ghost use Rattle.settled_rounds.specs.inner.Choosing.{IsPlaceIn};

use crate::party::{Party, Way};

// How often in a row a party tries in vain in its part of a round.
const TRIES: u64 = 10_000;

// What a call in vain costs, as `progress` counts.
const CALL: u64 = 20;

/// Who has something to do.
#[derive(Clone, Copy, Debug, PartialEq, Eq)]
pub(crate) enum Busy {
    Nobody,
    /// The party at this place alone.
    One(usize),
    Several,
}

impl Busy {
    // With the party at this place, where that has something to do.
    fn with(self, place: usize, has: bool) -> Busy
        ensures { (n : _) → place < n → IsPlaceIn n self → IsPlaceIn n result }
    {
        match self {
            _ if !has => self,
            Busy::Nobody => Busy::One(place),
            Busy::One(other) if other == place => self,
            Busy::One(_) | Busy::Several => Busy::Several,
        }
    }
}

/// Who has something to do, by what each can do by itself and by what is new on the links.
pub(crate) fn who_is_busy<P: Party>(ways: &[Way], parties: &[P]) -> Busy
    requires few { length ways.now < 2 ^ 32 }
    requires ways { AreWays (length parties.now) ways.now }
    ensures { IsPlaceIn (length parties.now) result }
{
    let mut found = Busy::Nobody;
    for (place, party) in parties.iter().enumerate() {
        found = found.with(place, party.is_ready());
    }
    for (link, way) in ways.iter().enumerate() {
        let (from, to) = (way.from as usize, way.to as usize);
        let (owner, peer) = parties[from].has_news(&parties[to], link as u32);
        found = found.with(from, owner).with(to, peer);
    }
    found
}

/// What all parties have done, as one number.
pub(crate) fn progress<P: Party>(parties: &[P]) -> u64 {
    let mut sum: u64 = 0;
    for party in parties {
        sum = sum.saturating_add(party.progress());
    }
    sum
}

/// Until when the parties go on in turn, by what all have done. After a round that was not worth its threads
/// they do at least as much in turn as its calls in vain have cost, and more after each further one.
#[derive(Clone, Copy, Debug)]
pub(crate) struct Turns {
    until: u64,
    times: u64,
}

impl Turns {
    pub(crate) fn new() -> Turns {
        Turns { until: 0, times: 0 }
    }

    /// Whether the next step is to be done in turn, where so much was done.
    pub(crate) fn are_due(self, done: u64) -> bool {
        done < self.until
    }

    /// Notes a round of so many parties, before and after which so much was done.
    pub(crate) fn note(&mut self, before: u64, after: u64, parties: usize) {
        let cost = (parties as u64).saturating_mul(TRIES * CALL);
        let is_worth = after.saturating_sub(before) >= cost;
        self.times = if is_worth {
            0
        } else {
            self.times.saturating_mul(2).saturating_add(1).min(15)
        };
        self.until = after.saturating_add(cost.saturating_mul(self.times));
    }
}
