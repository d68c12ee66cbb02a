//! What the next step of a thread does in the slow interpreter, by the statements and expressions that it has still to do.
#![tactic(auto)]

mod evaluation;
mod operators;
mod pending;
mod requests;
mod resuming;
mod statements;
mod work;

pub use statements::{Next, next_step};
pub use work::Agenda;
