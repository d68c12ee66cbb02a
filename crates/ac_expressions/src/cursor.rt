//! The tokens that are left, and reading one of them.

ghost use Rattle.std.specs.Prelude.{◌≡◌};
ghost use Rattle.ac_expressions.specs.Spelling.{operator_of, unary_of, constant_of};
ghost use Rattle.ac_expressions.specs.Returned.{Gives};
ghost use Rattle.ac_expressions.specs.Operators.{constant_at, unary_sign_at, operator_at, has_operator};
ghost use Rattle.reading_laws.specs.Letters.{word, sign, starts_with, word_at, mark_at, name_at, number_at, negated_at, text_at, has_name};
ghost use Rattle.reading_laws.specs.Letters.{has_number, has_text, has_other};
ghost use Rattle.ac_expressions.specs.declared.cursor.Halt.TheVariants.{Memory};

use ac_base::{Bytes, Name, NoMemory};
use ac_lexer::{Kind, Mark, Token, Word};
use ac_tree::{BinaryOp, Constant, UnaryOp};
use std::alloc::{AllocError, Global};

/// Why reading stops.
#[derive(Debug, Drop)]
pub enum Halt {
    Unexpected,
    TooDeep,
    Memory,
}

impl From<NoMemory> for Halt {
    ghost from_gives = { λ _ e. e ≡ Memory };

    fn from(_: NoMemory) -> Halt {
        Halt::Memory
    }
}

impl From<AllocError> for Halt {
    ghost from_gives = { λ _ e. e ≡ Memory };

    fn from(_: AllocError) -> Halt {
        Halt::Memory
    }
}

/// The tokens that are left. Where reading stops at a token, it is the first of them.
#[derive(Drop)]
pub struct Cursor<'a> {
    pub rest: &'a [Token],
}

/// Takes that word, and gives its place.
#[tactic(auto, unfolding(reading_laws::specs::Letters::same_word))]
pub fn word(c: &mut Cursor<'_>, wanted: Word) -> Result<u32, Halt>
    ensures { Gives c.new.rest.now (λ at. (at, c.new.rest.now)) result (word_at wanted c.old.rest.now) }
{
    match c.rest {
        [] => Err(Halt::Unexpected),
        [first, rest @ ..] => match first.kind {
            Kind::Word(found) if wanted == found => {
                c.rest = rest;
                Ok(first.span.at)
            }
            _ => Err(Halt::Unexpected),
        },
    }
}

/// Takes that mark, and gives its place.
#[tactic(auto, unfolding(reading_laws::specs::Letters::same_mark))]
pub fn mark(c: &mut Cursor<'_>, wanted: Mark) -> Result<u32, Halt>
    ensures { Gives c.new.rest.now (λ at. (at, c.new.rest.now)) result (mark_at wanted c.old.rest.now) }
{
    match c.rest {
        [] => Err(Halt::Unexpected),
        [first, rest @ ..] => match first.kind {
            Kind::Mark(found) if wanted == found => {
                c.rest = rest;
                Ok(first.span.at)
            }
            _ => Err(Halt::Unexpected),
        },
    }
}

/// Whether that word comes next.
#[tactic(auto, unfolding(reading_laws::specs::Letters::same_word))]
pub fn is_word(c: &Cursor<'_>, wanted: Word) -> bool
    ensures { result ≡ starts_with (word wanted) c.now.rest.now }
{
    match c.rest {
        [] => false,
        [first, ..] => match first.kind {
            Kind::Word(found) => wanted == found,
            _ => false,
        },
    }
}

/// Whether that mark comes next.
#[tactic(auto, unfolding(reading_laws::specs::Letters::same_mark))]
pub fn is_mark(c: &Cursor<'_>, wanted: Mark) -> bool
    ensures { result ≡ starts_with (sign wanted) c.now.rest.now }
{
    match c.rest {
        [] => false,
        [first, ..] => match first.kind {
            Kind::Mark(found) => wanted == found,
            _ => false,
        },
    }
}

/// Whether a token comes next that is not that mark.
pub fn is_other(c: &Cursor<'_>, mark: Mark) -> bool
    ensures { result ≡ has_other (sign mark) c.now.rest.now }
{
    match c.rest {
        [] => false,
        [_, ..] => !is_mark(c, mark),
    }
}

/// Takes a name, and gives its place too.
pub fn name(alloc: Global, c: &mut Cursor<'_>) -> Result<(u32, Name), Halt>
    ensures { Gives c.new.rest.now (λ named. (named, c.new.rest.now)) result (name_at c.old.rest.now) }
{
    match c.rest {
        [] => Err(Halt::Unexpected),
        [first, rest @ ..] => match &first.kind {
            Kind::Name(name) => {
                let name = name.copy(alloc)?;
                c.rest = rest;
                Ok((first.span.at, name))
            }
            _ => Err(Halt::Unexpected),
        },
    }
}

/// Whether a name comes next.
pub fn is_name(c: &Cursor<'_>) -> bool
    ensures { result ≡ has_name c.now.rest.now }
{
    match c.rest {
        [] => false,
        [first, ..] => match &first.kind {
            Kind::Name(_) => true,
            _ => false,
        },
    }
}

/// Takes a number, and gives its place too.
pub fn number(c: &mut Cursor<'_>) -> Result<(u32, i64), Halt>
    ensures { Gives c.new.rest.now (λ numbered. (numbered, c.new.rest.now)) result (number_at c.old.rest.now) }
{
    match c.rest {
        [] => Err(Halt::Unexpected),
        [first, rest @ ..] => match first.kind {
            Kind::Number(value) => {
                c.rest = rest;
                Ok((first.span.at, value))
            }
            _ => Err(Halt::Unexpected),
        },
    }
}

/// Whether a number comes next.
pub fn is_number(c: &Cursor<'_>) -> bool
    ensures { result ≡ has_number c.now.rest.now }
{
    match c.rest {
        [] => false,
        [first, ..] => match &first.kind {
            Kind::Number(_) => true,
            _ => false,
        },
    }
}

/// Takes a number, and gives it negated.
pub fn negated(c: &mut Cursor<'_>) -> Result<i64, Halt>
    ensures { Gives c.new.rest.now (λ n. (n, c.new.rest.now)) result (negated_at c.old.rest.now) }
{
    match c.rest {
        [] => Err(Halt::Unexpected),
        [first, rest @ ..] => match first.kind {
            Kind::Number(value) if value >= 0 => {
                c.rest = rest;
                Ok(-value)
            }
            _ => Err(Halt::Unexpected),
        },
    }
}

/// Takes a text.
pub fn text(alloc: Global, c: &mut Cursor<'_>) -> Result<Bytes, Halt>
    ensures { Gives c.new.rest.now (λ text. (text, c.new.rest.now)) result (text_at c.old.rest.now) }
{
    match c.rest {
        [] => Err(Halt::Unexpected),
        [first, rest @ ..] => match &first.kind {
            Kind::Text(text) => {
                let text = text.copy(alloc)?;
                c.rest = rest;
                Ok(text)
            }
            _ => Err(Halt::Unexpected),
        },
    }
}

/// Whether a text comes next.
pub fn is_text(c: &Cursor<'_>) -> bool
    ensures { result ≡ has_text c.now.rest.now }
{
    match c.rest {
        [] => false,
        [first, ..] => match &first.kind {
            Kind::Text(_) => true,
            _ => false,
        },
    }
}

/// The named result that a word is.
pub fn constant_of_word(word: Word) -> Option<Constant>
    ensures { result ≡ constant_of word }
{
    match word {
        Word::Ok => Some(Constant::Ok),
        Word::Cancelled => Some(Constant::Cancelled),
        Word::Fault => Some(Constant::Fault),
        _ => None,
    }
}

/// Takes a named result, and gives its place too.
pub fn constant(c: &mut Cursor<'_>) -> Result<(u32, Constant), Halt>
    ensures { Gives c.new.rest.now (λ named. (named, c.new.rest.now)) result (constant_at c.old.rest.now) }
{
    match c.rest {
        [] => Err(Halt::Unexpected),
        [first, rest @ ..] => match first.kind {
            Kind::Word(word) => match constant_of_word(word) {
                Some(which) => {
                    c.rest = rest;
                    Ok((first.span.at, which))
                }
                None => Err(Halt::Unexpected),
            },
            _ => Err(Halt::Unexpected),
        },
    }
}

/// The unary operator that a mark is.
pub fn unary_of_mark(mark: Mark) -> Option<UnaryOp>
    ensures { result ≡ unary_of mark }
{
    match mark {
        Mark::Minus => Some(UnaryOp::Neg),
        Mark::Not => Some(UnaryOp::Not),
        Mark::Tilde => Some(UnaryOp::Flip),
        _ => None,
    }
}

/// Takes a unary operator, and gives its place too.
pub fn unary_sign(c: &mut Cursor<'_>) -> Result<(u32, UnaryOp), Halt>
    ensures { Gives c.new.rest.now (λ signed. (signed, c.new.rest.now)) result (unary_sign_at c.old.rest.now) }
{
    match c.rest {
        [] => Err(Halt::Unexpected),
        [first, rest @ ..] => match first.kind {
            Kind::Mark(mark) => match unary_of_mark(mark) {
                Some(op) => {
                    c.rest = rest;
                    Ok((first.span.at, op))
                }
                None => Err(Halt::Unexpected),
            },
            _ => Err(Halt::Unexpected),
        },
    }
}

// The level of the binary operator that a mark is, and what it does.
fn operator_of_mark(mark: Mark) -> Option<(u8, BinaryOp)>
    ensures { result ≡ operator_of mark }
{
    match mark {
        Mark::OrOr => Some((1, BinaryOp::Or)),
        Mark::AndAnd => Some((2, BinaryOp::And)),
        Mark::Bar => Some((3, BinaryOp::BitOr)),
        Mark::Caret => Some((4, BinaryOp::BitXor)),
        Mark::And => Some((5, BinaryOp::BitAnd)),
        Mark::EqEq => Some((6, BinaryOp::Eq)),
        Mark::NotEq => Some((6, BinaryOp::Ne)),
        Mark::Less => Some((7, BinaryOp::Less)),
        Mark::LessEq => Some((7, BinaryOp::LessEq)),
        Mark::More => Some((7, BinaryOp::More)),
        Mark::MoreEq => Some((7, BinaryOp::MoreEq)),
        Mark::Shl => Some((8, BinaryOp::Shl)),
        Mark::Shr => Some((8, BinaryOp::Shr)),
        Mark::Plus => Some((9, BinaryOp::Add)),
        Mark::Minus => Some((9, BinaryOp::Sub)),
        Mark::Star => Some((10, BinaryOp::Mul)),
        Mark::Slash => Some((10, BinaryOp::Div)),
        Mark::Percent => Some((10, BinaryOp::Rem)),
        _ => None,
    }
}

/// Takes a binary operator of that level.
pub fn operator(c: &mut Cursor<'_>, level: u8) -> Result<BinaryOp, Halt>
    ensures { Gives c.new.rest.now (λ op. (op, c.new.rest.now)) result (operator_at level c.old.rest.now) }
{
    match c.rest {
        [] => Err(Halt::Unexpected),
        [first, rest @ ..] => match first.kind {
            Kind::Mark(mark) => match operator_of_mark(mark) {
                Some((its_level, op)) if its_level == level => {
                    c.rest = rest;
                    Ok(op)
                }
                _ => Err(Halt::Unexpected),
            },
            _ => Err(Halt::Unexpected),
        },
    }
}

/// Whether a binary operator of that level comes next.
pub fn is_operator(c: &Cursor<'_>, level: u8) -> bool
    ensures { result ≡ has_operator level c.now.rest.now }
{
    match c.rest {
        [] => false,
        [first, ..] => match first.kind {
            Kind::Mark(mark) => match operator_of_mark(mark) {
                Some((its_level, _)) => its_level == level,
                None => false,
            },
            _ => false,
        },
    }
}
