//! The parties of a run, each with ends of its own: a core with its ports, and the worker.
#![tactic(auto)]

mod core_party;
mod news;
mod run_party;
mod working;

pub use core_party::CoreParty;
pub use run_party::RunParty;
