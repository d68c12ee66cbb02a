//! The words of a command line, and what they ask for.
#![tactic(auto)]

mod bound;
mod call;
mod scan;
mod task;

pub use call::{Call, read_words};
pub use task::{Task, Telling};
