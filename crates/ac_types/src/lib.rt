//! The rules of the language: which of them a tree breaks first, and trees that break none.
#![tactic(auto)]

mod accepted;
mod around;
mod carried;
mod expressions;
mod fault;
mod gathered;
mod items;
mod judged;
mod numbered;
mod rule;
mod seen;
mod statements;
mod verdict;

pub use accepted::{Checked, check};
pub use fault::CheckFault;
pub use rule::Rule;
