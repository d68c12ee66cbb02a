//! The blocks of a core: the parent and the owner of each, the count of its threads, and its mark.
#![tactic(auto)]

mod block;
mod blocks;

pub use block::Block;
pub use blocks::{Arrival, Blocks};
