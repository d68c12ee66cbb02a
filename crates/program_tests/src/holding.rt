//! A gate that holds parties of a run back.

use ac_outside::Gate;
use std::hint::spin_loop;
use std::sync::atomic::{AtomicBool, AtomicU64, Ordering};

// For how many turns a party is held at most.
const TURNS: u64 = 100_000_000;

/// Which of its calls of the gate hold a party.
#[derive(Clone, Copy, Debug, PartialEq, Eq)]
pub(crate) enum Calls {
    /// Those before its first entry.
    First,
    /// Those after an entry.
    Later,
}

/// A party, which of its calls hold it, and the other one, which lets it go with so many entries.
pub(crate) type Hold = (u32, Calls, usize, u64);

/// A gate for three parties. It notes how many entries each has reached, and whether one was held for as
/// long as it may be, and in vain.
#[derive(Drop)]
pub(crate) struct HoldingGate<'a> {
    holds: &'a [Hold],
    reached: [AtomicU64; 3],
    limit_met: AtomicBool,
}

impl<'a> HoldingGate<'a> {
    pub(crate) fn new(holds: &'a [Hold]) -> HoldingGate<'a> {
        HoldingGate {
            holds,
            reached: [AtomicU64::new(0), AtomicU64::new(0), AtomicU64::new(0)],
            limit_met: AtomicBool::new(false),
        }
    }

    pub(crate) fn limit_met(&self) -> bool {
        self.limit_met.load(Ordering::SeqCst)
    }

    // Comes back once this party has reached so many entries, or at the limit, or where one was met before.
    fn wait(&self, other: usize, reaches: u64) {
        if self.limit_met() {
            return;
        }
        for _turn in 0..TURNS {
            match self.reached.get(other) {
                Some(reached) if reached.load(Ordering::SeqCst) < reaches => spin_loop(),
                _ => return,
            }
        }
        self.limit_met.store(true, Ordering::SeqCst);
    }
}

impl<'a> Gate for HoldingGate<'a> {
    fn pass(&self, party: u32, entries: u64) {
        if let Some(reached) = self.reached.get(party as usize) {
            reached.store(entries, Ordering::SeqCst);
        }
        let calls = if entries == 0 {
            Calls::First
        } else {
            Calls::Later
        };
        for (held, at, other, reaches) in self.holds {
            if *held == party && *at == calls {
                self.wait(*other, *reaches);
            }
        }
    }
}
