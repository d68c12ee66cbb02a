//! From tokens to the tree of a program.

ghost use Rattle.std.specs.Prelude.{◌≡◌};
ghost use Rattle.ac_parser.specs.Places.{Parses, place_in};

use crate::faults::SyntaxFault;
use crate::items::program;
use ac_base::List;
use ac_expressions::{Cursor, Halt};
use ac_lexer::Token;
use ac_tree::Program;
use std::alloc::Global;

// The place of the next token, or the length of the source at the end.
fn place_next(c: &Cursor<'_>, len: u32) -> u32
    ensures { result ≡ place_in len c.now.rest.now }
{
    match c.rest {
        [] => len,
        [first, ..] => first.span.at,
    }
}

/// The program that the tokens of a source of that length spell, or the first token that stops every program.
///
/// A token is too deep where it is contained in more than 256 statements, parentheses, brackets and operands of unary operators.
pub fn parse(alloc: Global, tokens: &List<Token>, len: u32) -> Result<Program, SyntaxFault>
    // Ok: the tokens spell this program and no other, and none is too deep.
    // Unexpected: what comes before the place begins a program, and with the token there none.
    // Too deep: in each program that begins so, the token at the place is the first too deep.
    ensures { Parses len tokens.now result }
{
    let mut c = Cursor {
        rest: tokens.as_slice(),
    };
    match program(alloc, &mut c) {
        Ok(found) => Ok(found),
        Err(Halt::Unexpected) => Err(SyntaxFault::Unexpected {
            at: place_next(&c, len),
        }),
        Err(Halt::TooDeep) => Err(SyntaxFault::TooDeep {
            at: place_next(&c, len),
        }),
        Err(Halt::Memory) => Err(SyntaxFault::NoMemory),
    }
}
