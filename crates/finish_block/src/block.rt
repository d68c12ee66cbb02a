//! A block that lives.

use work_item::{BlockId, Item};

/// What is kept of a block from its `do` until it is given back. Contracts of `Blocks` speak of it.
#[derive(Clone, Copy, Debug, PartialEq, Eq)]
pub struct Block {
    /// The block in which it lies.
    pub parent: Option<BlockId>,
    /// The thread that has entered it.
    pub owner: Item,
    /// How many threads live that were started directly in it.
    pub count: u64,
    /// Whether the owner waits at its `finish`.
    pub waits: bool,
    /// Whether it was marked as cancelled. What lies in it then is so too, without a mark.
    pub cancelled: bool,
}
