//! Which thread of a core runs, and which are ready to.
#![tactic(auto)]

mod scheduler;

pub use scheduler::Scheduler;
