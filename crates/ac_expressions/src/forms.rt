//! What the next token begins in an expression. It alone decides how a beginning goes on.

ghost use Rattle.std.specs.Prelude.{◌≡◌};
ghost use Rattle.ac_expressions.specs.Reads.{primary_of, primary_word, primary_mark, begins_expr, operation_of, operation_word};

use crate::cursor::{Cursor, constant_of_word, unary_of_mark};
use ac_lexer::{Kind, Mark, Word};

/// What an expression that is no chain begins with.
#[derive(Clone, Copy)]
pub enum Primary {
    Name,
    Number,
    Constant,
    Operation,
    Group,
    Unary,
    Other,
}

fn primary_of_word(word: Word) -> Primary
    ensures { result ≡ primary_word word }
{
    match word {
        Word::Send | Word::Recv | Word::Read | Word::Write => Primary::Operation,
        _ => match constant_of_word(word) {
            Some(_) => Primary::Constant,
            None => Primary::Other,
        },
    }
}

fn primary_of_mark(mark: Mark) -> Primary
    ensures { result ≡ primary_mark mark }
{
    match mark {
        Mark::OpenParen => Primary::Group,
        _ => match unary_of_mark(mark) {
            Some(_) => Primary::Unary,
            None => Primary::Other,
        },
    }
}

/// What begins with the next token.
pub fn primary_next(c: &Cursor<'_>) -> Primary
    ensures { result ≡ primary_of c.now.rest.now }
{
    match c.rest {
        [] => Primary::Other,
        [first, ..] => match &first.kind {
            Kind::Name(_) => Primary::Name,
            Kind::Number(_) => Primary::Number,
            Kind::Text(_) => Primary::Other,
            Kind::Word(word) => primary_of_word(*word),
            Kind::Mark(mark) => primary_of_mark(*mark),
        },
    }
}

/// Whether an expression can begin with the next token.
pub fn is_expression(c: &Cursor<'_>) -> bool
    ensures { result ≡ begins_expr c.now.rest.now }
{
    match primary_next(c) {
        Primary::Other => false,
        _ => true,
    }
}

/// The operations.
#[derive(Clone, Copy)]
pub enum Operation {
    Send,
    Recv,
    Read,
    Write,
}

fn operation_of_word(word: Word) -> Operation
    ensures { result ≡ operation_word word }
{
    match word {
        Word::Send => Operation::Send,
        Word::Recv => Operation::Recv,
        Word::Read => Operation::Read,
        _ => Operation::Write,
    }
}

/// The operation whose word comes next, where one does.
pub fn operation_next(c: &Cursor<'_>) -> Operation
    ensures { result ≡ operation_of c.now.rest.now }
{
    match c.rest {
        [] => Operation::Write,
        [first, ..] => match &first.kind {
            Kind::Word(word) => operation_of_word(*word),
            _ => Operation::Write,
        },
    }
}
