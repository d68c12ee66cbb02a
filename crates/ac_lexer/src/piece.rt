//! What stands at a place of a text.

ghost use Rattle.std.specs.Prelude.{◌≡◌, ◌≤◌, length, IfOk, OnOk};
ghost use Rattle.ac_lexer.specs.inner.Reading.{name_at, with_kind};

use crate::bytes::name_run;
use crate::token::{Kind, Token};
use crate::words::word_with;
use ac_base::{List, NoMemory, Span};
use std::alloc::Global;

/// What stands at a place: a token, or none where blanks or a comment stand there, and its length
/// in bytes.
#[derive(Drop)]
pub struct Piece {
    pub kind: Option<Kind>,
    pub len: usize,
}

/// The name or word at the front.
#[tactic(auto, unfolding(crate::specs::inner::Reading::name_at))]
pub fn name_piece(alloc: Global, text: &[u8]) -> Result<Piece, NoMemory>
    ensures piece { IfOk result (λ piece. piece ≡ name_at text.now) }
    ensures within { IfOk result (λ piece. piece.len ≤ length text.now) }
{
    let len = name_run(text);
    let letters = &text[..len];
    let kind = match word_with(letters) {
        Some(word) => Kind::Word(word),
        None => Kind::Name(List::from_vec(Vec::from_slice(alloc, letters)?)),
    };
    Ok(Piece {
        kind: Some(kind),
        len,
    })
}

/// Appends the token, if there is one.
pub fn add(tokens: &mut List<Token>, kind: Option<Kind>, at: u32, end: u32) -> Result<(), NoMemory>
    ensures { OnOk result (tokens.new ≡ with_kind tokens.old at end kind) }
{
    if let Some(kind) = kind {
        let span = Span { at, end };
        tokens.push(Token { kind, span })?;
    }
    Ok(())
}
