//! The tokens of a source text.
#![tactic(auto)]

mod bytes;
mod fault;
mod lexer;
mod marks;
mod piece;
mod text;
mod token;
mod words;

pub use fault::LexFault;
pub use lexer::lex;
pub use token::{Kind, Mark, Token, Word};
