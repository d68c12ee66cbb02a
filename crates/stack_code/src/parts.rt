//! The parts of a code.

use ac_base::{List, Name};

/// A function of the code: its name, the address of its first instruction, whether each of its
/// parameters is an array, and how many slots its frame has.
#[derive(Debug, Drop)]
pub struct Entered {
    pub name: Name,
    pub at: u32,
    pub params: List<bool>,
    pub words: u32,
}

/// The sending and the receiving core of a channel.
#[derive(Clone, Copy, Debug, PartialEq, Eq)]
pub struct ChannelEnds {
    pub from: u32,
    pub to: u32,
}

/// What the global in that slot holds at the start, where that is not 0.
#[derive(Clone, Copy, Debug, PartialEq, Eq)]
pub struct Start {
    pub slot: u32,
    pub value: i64,
}
