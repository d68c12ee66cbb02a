//! A run that has ended.

use ac_base::{Bytes, Journal, List, MachineEnd};

/// A run that has ended: its bound on steps, the bytes of its files at the start, the journals of
/// its cores in order and then that of the worker, and how its cores have ended.
#[derive(Drop)]
pub struct Ended {
    pub steps: u64,
    pub start: List<Bytes>,
    pub journals: List<Journal>,
    pub cores: List<MachineEnd>,
}
