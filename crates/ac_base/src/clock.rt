//! The logical clock of a party (Lamport 1978).

ghost use Rattle.std.specs.Prelude.{◌≡◌, ◌<◌, ◌^◌};
ghost use Rattle.ac_base.specs.Stamps.{stamp_after};

use std::marker::Model;

/// The greatest stamp.
const LAST_STAMP: u64 = 1_152_921_504_606_846_975;

/// A party's clock.
///
/// Contracts see the stamp of the party's last entry, which is 0 where it has made none.
#[derive(Debug, Drop)]
pub struct Clock {
    last: u64,
}

impl Model for Clock {
    ghost use Rattle.std.specs.Prelude.{ℕ, ◌<◌, ◌^◌};

    ghost Value = { ℕ };

    ghost view = { λ c. c.last };

    ghost invariant = { λ c. c.last < 2 ^ 60 };
}

impl Clock {
    /// The clock of a party whose last entry has this stamp.
    pub fn new(last: u64) -> Clock
        requires { last < 2 ^ 60 }
        ensures { result ≡ last }
    {
        Clock { last }
    }

    /// The stamp of the party's last entry.
    pub fn last(&self) -> u64
        ensures bound { result < 2 ^ 60 }
        ensures same { result ≡ self.now }
    {
        self.last
    }

    /// The stamp that an entry has which answers one of stamp `seen`, or 0 where it answers none;
    /// and nothing where all stamps are used.
    pub fn after(&self, seen: u64) -> Option<u64>
        ensures { result ≡ stamp_after self.now seen }
    {
        let greater = self.last.max(seen);
        if greater < LAST_STAMP {
            Some(greater + 1)
        } else {
            None
        }
    }

    /// The party has made an entry of this stamp.
    pub fn set(&mut self, stamp: u64)
        requires rises { self.old < stamp }
        requires bound { stamp < 2 ^ 60 }
        ensures { self.new ≡ stamp }
    {
        self.last = stamp;
    }
}
