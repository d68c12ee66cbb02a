//! A count that stays at its last value.

ghost use Rattle.std.specs.Prelude.{◌≡◌, ◌+◌, ◌-◌, ◌^◌, min};

use std::marker::Model;

/// A count of 64 bits that stays at its last value.
///
/// Contracts see the number. That it stays is a flag of its own, which is set once at most, so that
/// one more takes an addition and no choice.
#[derive(Drop)]
pub struct Counter {
    low: u64,
    full: bool,
}

impl Model for Counter {
    ghost use Rattle.std.specs.Prelude.{ℕ, ◌-◌, ◌^◌, if◌then◌else◌};

    ghost Value = { ℕ };

    ghost view = { λ c. if c.full then 2 ^ 64 - 1 else c.low };
}

impl Counter {
    /// None so far.
    pub fn new() -> Counter
        ensures { result ≡ 0 }
    {
        Counter {
            low: 0,
            full: false,
        }
    }

    /// One more.
    #[inline(always)]
    pub fn add_one(&mut self)
        ensures { self.new ≡ min (self.old + 1) (2 ^ 64 - 1) }
    {
        let (next, over) = self.low.overflowing_add(1);
        self.low = next;
        if over {
            self.full = true;
        }
    }

    /// Two more.
    #[inline(always)]
    pub fn add_two(&mut self)
        ensures { self.new ≡ min (self.old + 2) (2 ^ 64 - 1) }
    {
        let (next, over) = self.low.overflowing_add(2);
        self.low = next;
        if over {
            self.full = true;
        }
    }

    /// Three more.
    #[inline(always)]
    pub fn add_three(&mut self)
        ensures { self.new ≡ min (self.old + 3) (2 ^ 64 - 1) }
    {
        let (next, over) = self.low.overflowing_add(3);
        self.low = next;
        if over {
            self.full = true;
        }
    }

    /// The count.
    pub fn value(&self) -> u64
        ensures { result ≡ self.now }
    {
        if self.full { u64::MAX } else { self.low }
    }
}
