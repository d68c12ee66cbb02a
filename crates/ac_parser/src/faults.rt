//! What is wrong with a list of tokens.

use thiserror::Error;

/// Why tokens have no tree. A place is that of a byte of the source, counted from 0.
#[derive(Clone, Copy, Debug, PartialEq, Eq, Error)]
pub enum SyntaxFault {
    /// The tokens before this one begin a program, and with it they begin none. Where the tokens end
    /// too early it is the length of the source.
    #[error("unexpected token at {at}")]
    Unexpected { at: u32 },
    /// The first token that is contained in more than 256 statements, parentheses, brackets and operands of unary operators.
    #[error("limit: nesting at {at}")]
    TooDeep { at: u32 },
    /// Memory was refused.
    #[error("no memory")]
    NoMemory,
}
