//! How many entries the journal of a core has, and how great the stamps of a run are: definitions and laws.
#![tactic(auto)]

mod law;

pub use law::{actions_are_few, entries_are_few, histories_are_short, stamps_are_small};
