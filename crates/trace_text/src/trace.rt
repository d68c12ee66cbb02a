//! What a trace tells of a run.

use ac_base::{Bytes, EndWord, List, Stamped};

/// How a core ended, the steps that it used, and what it printed.
#[derive(Debug, Drop)]
pub struct TraceEnd {
    pub word: EndWord,
    pub steps: u64,
    pub output: Bytes,
}

/// A run as it is told: the bound on each core's steps, the bytes of each file at the start, the
/// entries of all parties, and the end of each core.
#[derive(Debug, Drop)]
pub struct Trace {
    pub steps: u64,
    pub start: List<Bytes>,
    pub entries: List<Stamped>,
    pub ends: List<TraceEnd>,
}
