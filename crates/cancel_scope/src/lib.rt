//! The operations of a core that have not ended, in the order in which they started.
#![tactic(auto)]

mod operation;
mod outstanding;

pub use operation::{Asked, Operation, Progress};
pub use outstanding::Outstanding;
