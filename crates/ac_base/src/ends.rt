//! How cores end, and what is seen of an end.

use crate::list::{Bytes, List};

/// Why a step stopped its core for good.
#[derive(Clone, Copy, Debug, PartialEq, Eq)]
pub enum Trap {
    ZeroDivisor,
    Index,
    StackFull,
    OutputFull,
    FileRange,
}

/// How a core has ended, or that it waits and nothing can arrive.
#[derive(Clone, Copy, Debug, PartialEq, Eq)]
pub enum EndWord {
    Finished,
    Trapped(Trap),
    OutOfSteps,
    Stalled,
}

/// How far an operation has come that has not ended.
#[derive(Clone, Copy, Debug, PartialEq, Eq)]
pub enum Phase {
    /// Only its own core knows of it.
    Waiting,
    /// It stands on its link, and its peer may take it.
    Offered,
    /// The worker has begun it, and its core knows that.
    Started,
}

/// An operation that has not ended, by the number of its link.
#[derive(Clone, Copy, Debug, PartialEq, Eq)]
pub struct Waiting {
    pub link: u32,
    pub phase: Phase,
}

/// What is seen of a core: its end word, the steps it has used, the bytes it has printed, its
/// globals by slot, its operations that have not ended in order of birth, and whether it has not
/// ended and has nothing to run.
#[derive(Debug, Drop)]
pub struct CoreEnd {
    pub word: EndWord,
    pub steps: u64,
    pub output: Bytes,
    pub globals: List<i64>,
    pub waiting: List<Waiting>,
    pub idle: bool,
}

/// What is seen of a core that a machine ran, and how many instructions the machine began.
#[derive(Debug, Drop)]
pub struct MachineEnd {
    pub core: CoreEnd,
    pub instructions: u64,
}

/// The exit status of the program.
#[derive(Clone, Copy, Debug, PartialEq, Eq)]
pub struct Status {
    pub number: u8,
}
