//! A slow interpreter of programs without names: its threads, a core and the run of one, which is what the program does.
#![tactic(auto)]

mod cancelling;
mod ending;
mod replay;
mod running;
mod threads;
mod turns;

pub use ending::Ending;
pub use replay::{Run, run_core};
