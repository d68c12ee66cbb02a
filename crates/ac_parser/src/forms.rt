//! What the next token begins. It alone decides how a beginning goes on.

ghost use Rattle.std.specs.Prelude.{◌≡◌};
ghost use Rattle.ac_parser.specs.inner.ReadsStatements.{opening_of, opening_word, opening_mark, begins_stmt, for_begins, for_word};
ghost use Rattle.ac_parser.specs.inner.ReadsItems.{item_begins, item_word, params_begin, params_word};

use ac_expressions::Cursor;
use ac_lexer::{Kind, Mark, Word};

/// What a statement begins with.
#[derive(Clone, Copy)]
pub enum Opening {
    Block,
    Empty,
    Name,
    Operation,
    Print,
    If,
    While,
    For,
    Break,
    Continue,
    Return,
    Do,
    Async,
    Cancel,
    Yield,
    Other,
}

fn opening_of_word(word: Word) -> Opening
    ensures { result ≡ opening_word word }
{
    match word {
        Word::Send | Word::Recv | Word::Read | Word::Write => Opening::Operation,
        Word::Printf => Opening::Print,
        Word::If => Opening::If,
        Word::While => Opening::While,
        Word::For => Opening::For,
        Word::Break => Opening::Break,
        Word::Continue => Opening::Continue,
        Word::Return => Opening::Return,
        Word::Do => Opening::Do,
        Word::Async => Opening::Async,
        Word::Cancel => Opening::Cancel,
        Word::Yield => Opening::Yield,
        _ => Opening::Other,
    }
}

fn opening_of_mark(mark: Mark) -> Opening
    ensures { result ≡ opening_mark mark }
{
    match mark {
        Mark::OpenBrace => Opening::Block,
        Mark::Semicolon => Opening::Empty,
        _ => Opening::Other,
    }
}

/// What begins with the next token.
pub fn opening_next(c: &Cursor<'_>) -> Opening
    ensures { result ≡ opening_of c.now.rest.now }
{
    match c.rest {
        [] => Opening::Other,
        [first, ..] => match &first.kind {
            Kind::Name(_) => Opening::Name,
            Kind::Number(_) | Kind::Text(_) => Opening::Other,
            Kind::Word(word) => opening_of_word(*word),
            Kind::Mark(mark) => opening_of_mark(*mark),
        },
    }
}

/// Whether a statement can begin with the next token.
pub fn is_statement(c: &Cursor<'_>) -> bool
    ensures { result ≡ begins_stmt c.now.rest.now }
{
    !matches!(opening_next(c), Opening::Other)
}

/// What the first part of a `for` begins with.
#[derive(Clone, Copy)]
pub enum ForBegins {
    Int,
    Name,
    Other,
}

fn for_of_word(word: Word) -> ForBegins
    ensures { result ≡ for_word word }
{
    match word {
        Word::Int => ForBegins::Int,
        _ => ForBegins::Other,
    }
}

/// What the first part of a `for` begins with, if there is one.
pub fn for_next(c: &Cursor<'_>) -> ForBegins
    ensures { result ≡ for_begins c.now.rest.now }
{
    match c.rest {
        [] => ForBegins::Other,
        [first, ..] => match &first.kind {
            Kind::Name(_) => ForBegins::Name,
            Kind::Word(word) => for_of_word(*word),
            _ => ForBegins::Other,
        },
    }
}

/// What stands at the top level.
#[derive(Clone, Copy)]
pub enum ItemBegins {
    Int,
    Void,
    Async,
    Channel,
    File,
    Core,
    Other,
}

fn item_of_word(word: Word) -> ItemBegins
    ensures { result ≡ item_word word }
{
    match word {
        Word::Int => ItemBegins::Int,
        Word::Void => ItemBegins::Void,
        Word::Async => ItemBegins::Async,
        Word::Channel => ItemBegins::Channel,
        Word::File => ItemBegins::File,
        Word::Core => ItemBegins::Core,
        _ => ItemBegins::Other,
    }
}

/// What begins with the next token.
pub fn item_next(c: &Cursor<'_>) -> ItemBegins
    ensures { result ≡ item_begins c.now.rest.now }
{
    match c.rest {
        [] => ItemBegins::Other,
        [first, ..] => match &first.kind {
            Kind::Word(word) => item_of_word(*word),
            _ => ItemBegins::Other,
        },
    }
}

/// What stands between the parentheses behind a function's name.
#[derive(Clone, Copy)]
pub enum ParamsBegin {
    Void,
    Int,
    Other,
}

fn params_of_word(word: Word) -> ParamsBegin
    ensures { result ≡ params_word word }
{
    match word {
        Word::Void => ParamsBegin::Void,
        Word::Int => ParamsBegin::Int,
        _ => ParamsBegin::Other,
    }
}

/// What the parameters begin with.
pub fn params_next(c: &Cursor<'_>) -> ParamsBegin
    ensures { result ≡ params_begin c.now.rest.now }
{
    match c.rest {
        [] => ParamsBegin::Other,
        [first, ..] => match &first.kind {
            Kind::Word(word) => params_of_word(*word),
            _ => ParamsBegin::Other,
        },
    }
}
