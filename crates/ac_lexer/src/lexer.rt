//! The tokens of a text of the whole language.

ghost use Rattle.std.specs.Prelude.{◌≡◌, ◌≢◌, ◌↔◌, ◌+◌, ◌<◌, ◌≤◌, ◌^◌, length, IfSome, IfOk, List, Result};
ghost use Rattle.ac_lexer.specs.inner.Reading.{Gives, piece_at, number_at, slash_at, mark_at};
ghost use Rattle.ac_lexer.specs.Tokens.{Answers, Lexes, LexesFrom, max_len};
ghost use Rattle.ac_lexer.specs.declared.fault.LexFault.{LexFault};
ghost use Rattle.ac_lexer.specs.declared.fault.LexFault.TheVariants as l;
ghost use Rattle.ac_lexer.specs.declared.token.Token.{Token};

use crate::bytes::{
    comment_len, digit_run, is_blank_byte, is_digit_byte, is_letter_byte, line_run, number,
    starts_with_letter, starts_with_zero,
};
use crate::fault::LexFault;
use crate::marks::{mark_of_byte, mark_of_bytes};
use crate::piece::{Piece, add, name_piece};
use crate::text::text_piece;
use crate::token::{Kind, Mark, Token};
use ac_base::List;
use std::alloc::Global;

// The number at the front, which begins with a digit.
#[tactic(auto, unfolding(crate::specs::inner::Reading::number_at))]
fn number_piece(at: u32, text: &[u8]) -> Result<Piece, LexFault>
    requires { at + length text.now < 2 ^ 32 }
    ensures gives { Gives result (number_at at text.now) }
    ensures within { IfOk result (λ piece. piece.len ≤ length text.now) }
{
    let len = digit_run(text);
    let Some(value) = number(text) else {
        return Err(LexFault::NumberTooLarge { at });
    };
    if starts_with_zero(text) && len > 1 {
        return Err(LexFault::BadByte { at: at + 1 });
    }
    if starts_with_letter(&text[len..]) {
        return Err(LexFault::BadByte {
            at: at + len as u32,
        });
    }
    Ok(Piece {
        kind: Some(Kind::Number(value as i64)),
        len,
    })
}

// What begins with a slash, which stands before these bytes.
fn slash_piece(at: u32, bytes: &[u8]) -> Result<Piece, LexFault>
    requires { length bytes.now < 2 ^ 32 }
    ensures gives { Gives result (slash_at at bytes.now) }
    ensures within { IfOk result (λ piece. piece.len ≤ length bytes.now + 1) }
{
    match bytes {
        [b'/', rest @ ..] => Ok(Piece {
            kind: None,
            len: line_run(rest) + 2,
        }),
        [b'*', rest @ ..] => match comment_len(rest) {
            None => Err(LexFault::OpenComment { at }),
            Some(len) => Ok(Piece {
                kind: None,
                len: len + 2,
            }),
        },
        _ => Ok(Piece {
            kind: Some(Kind::Mark(Mark::Slash)),
            len: 1,
        }),
    }
}

// The longest mark that begins with a byte, which stands before these bytes.
fn mark_piece(at: u32, b: u8, bytes: &[u8]) -> Result<Piece, LexFault>
    ensures gives { Gives result (mark_at at b bytes.now) }
    ensures within { IfOk result (λ piece. piece.len ≤ length bytes.now + 1) }
{
    if let Some(next) = bytes.first()
        && let Some(mark) = mark_of_bytes(b, *next)
    {
        return Ok(Piece {
            kind: Some(Kind::Mark(mark)),
            len: 2,
        });
    }
    match mark_of_byte(b) {
        Some(mark) => Ok(Piece {
            kind: Some(Kind::Mark(mark)),
            len: 1,
        }),
        None => Err(LexFault::BadByte { at }),
    }
}

// What stands at a place, at the front of these bytes.
#[tactic(auto, unfolding(crate::specs::inner::Reading::piece_at))]
fn piece_at_place(alloc: Global, at: u32, text: &[u8]) -> Result<Piece, LexFault>
    requires { at + length text.now < 2 ^ 32 }
    ensures gives { Gives result (piece_at at text.now) }
    ensures within { IfOk result (λ piece. piece.len ≤ length text.now) }
{
    let [b, rest @ ..] = text else {
        return Err(LexFault::BadByte { at });
    };
    if is_blank_byte(*b) {
        return Ok(Piece { kind: None, len: 1 });
    }
    if is_letter_byte(*b) {
        return Ok(name_piece(alloc, text)?);
    }
    if is_digit_byte(*b) {
        return number_piece(at, text);
    }
    match *b {
        b'"' => text_piece(alloc, at, rest),
        b'/' => slash_piece(at, rest),
        b => mark_piece(at, b, rest),
    }
}

// The tokens of the text, or its first fault.
fn tokens_of(alloc: Global, text: &[u8]) -> Result<List<Token>, LexFault>
    requires { length text.now < 2 ^ 32 }
    ensures lexes { Lexes text.now result }
    ensures only { (r : Result (List Token) LexFault) → LexesFrom 0 text.now r → Answers result r }
    ensures not_long { result ≢ Err l.TooLong }
{
    let mut tokens = List::new(alloc);
    let mut at = 0;
    'pieces: while at < text.len() {
        let piece = piece_at_place(alloc, at as u32, &text[at..])?;
        let end = at + piece.len;
        add(&mut tokens, piece.kind, at as u32, end as u32)?;
        at = end;
    }
    Ok(tokens)
}

// The greatest length of a text in bytes.
const MAX_LEN: usize = 1_048_576;

/// The tokens of a text in order, without blanks and comments.
///
/// A text of more than 1,048,576 bytes is too long, whatever stands in it. Otherwise the fault is
/// the one of least place, where the text has any.
pub fn lex(alloc: Global, text: &[u8]) -> Result<List<Token>, LexFault>
    ensures too_long { (result ≡ Err l.TooLong) ↔ (max_len < length text.now) }

    // The answer is the tokens of the text or its first fault, and the text has no others.
    ensures lexes { Lexes text.now result }
    ensures only { (r : Result (List Token) LexFault) → LexesFrom 0 text.now r → Answers result r }

    ensures few { IfOk result (λ tokens. length tokens ≤ length text.now) }
{
    if text.len() > MAX_LEN {
        return Err(LexFault::TooLong);
    }
    tokens_of(alloc, text)
}
