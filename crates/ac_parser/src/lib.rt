//! From the tokens of a program to its tree.
#![tactic(auto)]

mod faults;
mod forms;
mod items;
mod parser;
mod statements;

pub use faults::SyntaxFault;
pub use parser::parse;
