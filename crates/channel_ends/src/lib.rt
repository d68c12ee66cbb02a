//! The two ends of a link between threads: completion words decide, and a ring carries the messages.
#![tactic(auto)]

mod catching;
mod marks;
mod pairs;
mod receiving;
mod sending;
mod side;

pub use pairs::{pair, settle};
pub use receiving::RecvEnd;
pub use sending::SendEnd;
