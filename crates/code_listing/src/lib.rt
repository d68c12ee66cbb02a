//! The listing of a code: its cores, its functions with their instructions, and its texts.
#![tactic(auto)]

mod lines;

pub use lines::listing;
