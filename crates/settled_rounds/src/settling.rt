//! The settling of all links, in one thread.

ghost use Rattle.std.specs.Prelude.{◌≡◌, ◌≢◌, ◌<◌, ◌^◌, length, slice_get, Some, OnOk};
ghost use Rattle.settled_rounds.specs.Linked.{AreWays, OnLinks};
ghost use Rattle.settled_rounds.specs.inner.Settling.{SettlesOne, SettlesAll};

use crate::party::{Party, Way};
use ac_base::NoMemory;

// Settles the link of this number, between the parties at these places.
fn settle_at<P: Party>(parties: &mut [P], from: usize, to: usize, link: u32) -> Result<(), NoMemory>
    requires places { (from < length parties.old) × (to < length parties.old) × (from ≢ to) }
    requires pair { (a b : P) → slice_get parties.old from ≡ Some a → slice_get parties.old to ≡ Some b → P.pair link a b }
    ensures one { SettlesOne P.clock P.later P.known P.still P.apart link from to parties.old parties.new }
    ensures settled { OnOk result ((a b : P) → slice_get parties.new from ≡ Some a → slice_get parties.new to ≡ Some b
        → P.settled link a b) }
{
    if from < to {
        let (front, back) = parties.split_at_mut(to);
        front[from].settle_with(&mut back[0], link)
    } else {
        let (front, back) = parties.split_at_mut(from);
        back[0].settle_with(&mut front[to], link)
    }
}

/// Settles every link.
pub(crate) fn settle_all<P: Party>(ways: &[Way], parties: &mut [P]) -> Result<(), NoMemory>
    requires few { length ways.now < 2 ^ 32 }
    requires ways { AreWays (length parties.old) ways.now }
    requires paired { OnLinks P.pair ways.now parties.old }
    ensures all { SettlesAll P.clock P.later P.known P.still P.apart P.stopped ways.now parties.old parties.new }
    ensures settled { OnOk result (OnLinks P.settled ways.now parties.new) }
{
    for (link, way) in ways.iter().enumerate() {
        settle_at(parties, way.from as usize, way.to as usize, link as u32)?;
    }
    Ok(())
}
