//! What a core of a program comes to under a journal, by a slow interpreter.
#![tactic(auto)]

mod fault;
mod reference;

pub use fault::ReplayFault;
pub use reference::Reference;
