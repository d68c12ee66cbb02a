//! The words of a command line that asks how the entries of a run stand to one another.
#![tactic(auto)]

mod numbers;
mod words;

pub use numbers::read_numbers;
pub use words::{Call, Question, read_words};
