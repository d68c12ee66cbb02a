//! Which functions are reached from an entry by the functions that each calls, and which of several entries reach each function.
#![tactic(auto)]

mod reached;
mod search;

pub use reached::{Reach, Reached, find_reach};
