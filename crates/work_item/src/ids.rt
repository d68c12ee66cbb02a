//! Typed numbers. Each is given once, in the order of birth from 0.

/// The number of a frame.
#[derive(Clone, Copy, Debug, PartialEq, Eq)]
pub struct FrameId {
    pub number: u64,
}

/// The number of a thread.
#[derive(Clone, Copy, Debug, PartialEq, Eq)]
pub struct Item {
    pub number: u64,
}

/// The number of a block.
#[derive(Clone, Copy, Debug, PartialEq, Eq)]
pub struct BlockId {
    pub number: u64,
}
