//! The running core: a machine for stack code, whose state is the code's run.
#![tactic(auto)]

mod answering;
mod arrivals;
mod beginning;
mod calls;
mod cancelling;
mod counter;
mod elements;
mod ending;
mod machine;
mod numbered;
mod operate;
mod operations;
mod payload;
mod requests;
mod running;
mod slots;
mod threads;
mod tried;
mod values;
mod went;
mod within;

pub use ending::Ending;
pub use machine::CoreMachine;
pub use tried::Tried;
