//! Which entries of a run came before which, whatever the schedule was.
#![tactic(auto)]

mod causal;
mod cut;
mod law;
mod marks;
mod order;
mod states;
mod table;
mod vectors;

pub use causal::Causal;
pub use cut::CutAnswer;
pub use law::{closed_cuts_are_legal, runs_are_legal, stamps_rise};
pub use order::Order;
