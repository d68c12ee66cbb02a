//! The bytes of a file, and bytes that are written into them in place.
#![tactic(auto)]

mod writing;

pub use writing::overwrite;
