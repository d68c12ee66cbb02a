//! What is wrong with a text.

ghost use Rattle.std.specs.Prelude.{◌≡◌};
ghost use Rattle.ac_lexer.specs.declared.fault.LexFault.TheVariants as l;

use ac_base::NoMemory;
use thiserror::Error;

/// Why a text has no tokens. A place is that of a byte of the text, counted from 0.
#[derive(Clone, Copy, Debug, PartialEq, Eq, Error)]
pub enum LexFault {
    /// The text has more than 1,048,576 bytes.
    #[error("limit: source")]
    TooLong,
    /// A byte that may not stand there.
    #[error("bad byte at {at}")]
    BadByte { at: u32 },
    /// The first digit of a number over 9,223,372,036,854,775,807.
    #[error("number too large at {at}")]
    NumberTooLarge { at: u32 },
    /// The first byte of a comment that has no end.
    #[error("open comment at {at}")]
    OpenComment { at: u32 },
    /// The opening quote of a text that has no closing quote on its line.
    #[error("open text at {at}")]
    OpenText { at: u32 },
    /// Memory was refused.
    #[error("no memory")]
    NoMemory,
}

impl From<NoMemory> for LexFault {
    ghost from_gives = { λ _ e. e ≡ l.NoMemory };

    fn from(_: NoMemory) -> LexFault {
        LexFault::NoMemory
    }
}
