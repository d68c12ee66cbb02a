//! The threads of a core that do not run, each with its operands and the activations that wait.
#![tactic(auto)]

mod callers;
mod given;
mod operands;
mod parked;
mod table;

pub use callers::{Callers, WaitingCall};
pub use operands::Operands;
pub use parked::Parked;
pub use table::ThreadTable;
