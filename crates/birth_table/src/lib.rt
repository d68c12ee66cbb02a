//! Values at the numbers of their births, each given once, in memory for those that live.
#![tactic(auto)]

mod index;
mod leaving;
mod table;

pub use table::BirthTable;
