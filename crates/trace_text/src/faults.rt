//! Why a trace has no text, and why a text tells no trace.

ghost use Rattle.std.specs.Prelude.{◌≡◌};
ghost use Rattle.trace_text.specs.declared.faults.WriteFault.TheVariants as w;

use ac_base::NoMemory;
use std::alloc::{AllocError, AllocFailed};
use thiserror::Error;

/// Why a trace is not written.
#[derive(Clone, Copy, Debug, PartialEq, Eq, Error)]
pub enum WriteFault {
    /// Its text has more than 268,435,456 bytes.
    #[error("limit: trace")]
    TooLong,
    /// Memory was refused.
    #[error("no memory")]
    NoMemory,
}

impl From<NoMemory> for WriteFault {
    ghost from_gives = { λ _ e. e ≡ w.NoMemory };

    fn from(_: NoMemory) -> WriteFault {
        WriteFault::NoMemory
    }
}

/// Why a text is not read.
#[derive(Clone, Copy, Debug, PartialEq, Eq, Error)]
pub enum TraceFault {
    /// The first line that is not as said at its place, counted from 1.
    #[error("trace fault at line {line}")]
    Line { line: u64 },
    /// Memory was refused.
    #[error("no memory")]
    NoMemory,
}
