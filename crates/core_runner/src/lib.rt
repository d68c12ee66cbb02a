//! The cores of a code and the worker of their files, each a party with ends of its own, and their run.
#![tactic(auto)]

mod ended;
mod parties;
mod running;

pub use running::run;
