//! What refuses the file of a program and that of a trace.

use crate::refusal::Refusal;

/// The line of a failed library.
pub const LIBRARY_FAULT: &str = "library fault\n";

/// What refuses the file of a program and that of a trace.
#[derive(Clone, Copy, Debug, PartialEq, Eq)]
pub enum Halt {
    /// A call of the library failed.
    LibraryFault,
    /// The text of the program has more than 1,048,576 bytes.
    LongSource,
    /// The program is refused.
    Source(Refusal),
    /// The text of the trace has more than 268,435,456 bytes.
    LongTrace,
    /// The first line of it, counted from 1, that is not as it should be.
    WrongLine { line: u64 },
    /// All cores together may go more than 4,000,000 steps in the trace.
    TooManySteps,
}

/// Why there is no program or no trace.
#[derive(Clone, Copy, Debug, PartialEq, Eq)]
pub enum BothFault {
    Halted(Halt),
    /// Memory was refused.
    NoMemory,
}
