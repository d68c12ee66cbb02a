//! The files of a program before it runs: each is bound on a disk and read whole, one after the
//! other.
#![tactic(auto)]

mod fault;
mod pieces;
mod starting;

pub use fault::StartFault;
pub use starting::start_files;
