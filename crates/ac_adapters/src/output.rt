//! Standard output as a sink.

ghost use Rattle.std.specs.Prelude.{◌≡◌, None};

use crate::again;
use ac_outside::{Failed, Sink};
use std::marker::Model;

/// Standard output. It does not tell what it has taken.
#[derive(Drop)]
pub struct StandardSink<'a, R: Print> {
    to: &'a R,
    faults: u64,
}

impl<'a, R: Print> Model for StandardSink<'a, R> {
    ghost use Rattle.std.specs.Prelude.{ℕ};

    ghost Value = { ℕ };

    ghost view = { λ s. s.faults };
}

impl<'a, R: Print> StandardSink<'a, R> {
    /// The standard output of this runtime. Contracts see the sink as its count of faults.
    pub fn new(to: &'a R) -> StandardSink<'a, R>
        ensures { result ≡ 0 }
    {
        StandardSink { to, faults: 0 }
    }

    /// The number of calls so far that have failed.
    pub fn faults(&self) -> u64
        ensures { result ≡ self.now }
    {
        self.faults
    }
}

impl<R: Print> Sink for StandardSink<'_, R> {
    ghost told = { λ s. record { held = None; faults = s } };

    fn write(&mut self, piece: &[u8]) -> Result<usize, Failed> {
        match again::print(self.to, piece) {
            Ok(count) if count > 0 || piece.is_empty() => Ok(count),
            _ => {
                self.faults = self.faults.saturating_add(1);
                Err(Failed)
            }
        }
    }
}
