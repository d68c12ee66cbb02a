//! The writes of a history: which there are, and how they are done again on a disk.
#![tactic(auto)]

mod doing;
mod write;
mod writes;

pub use doing::do_writes;
pub use write::FileWrite;
pub use writes::writes_of;
