//! What a slot holds.

use crate::ids::{BlockId, FrameId};

/// Where an array lies: in that frame, or in the globals, from that slot on. Lengths count elements.
#[derive(Clone, Copy, Debug, PartialEq, Eq)]
pub struct Place {
    pub home: Option<FrameId>,
    pub start: u32,
    pub len: u32,
}

/// What a slot of a frame holds. An operand is an int or an array as well.
#[derive(Clone, Copy, Debug, PartialEq, Eq)]
pub enum Cell {
    Int(i64),
    /// A reference to an array.
    Array(Place),
    /// The block of a `do`.
    Block(BlockId),
}
