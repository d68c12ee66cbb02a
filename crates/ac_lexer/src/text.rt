//! Texts, and the values of their bytes.

ghost use Rattle.std.specs.Prelude.{◌≡◌, ◌+◌, ◌<◌, ◌≤◌, ◌^◌, [], false, None, length, IfOk, OnOk};
ghost use Rattle.ac_lexer.specs.inner.Reading.{Gives, text_from, means, is_bad, with_meaning, closed, first_of_two};

use crate::fault::LexFault;
use crate::piece::Piece;
use crate::token::Kind;
use ac_base::{Bytes, List, NoMemory};
use std::alloc::Global;

// What a byte of a text stands for, after a backslash or not.
fn meaning(escaped: bool, b: u8) -> Option<u8>
    ensures { result ≡ means escaped b }
{
    if escaped {
        return match b {
            b'n' => Some(b'\n'),
            b't' => Some(b'\t'),
            b'\\' => Some(b'\\'),
            b'"' => Some(b'"'),
            _ => None,
        };
    }
    if b' ' <= b && b <= b'~' && b != b'"' && b != b'\\' {
        Some(b)
    } else {
        None
    }
}

// Whether a byte has no meaning, and is no backslash before an escape.
fn is_bad_byte(escaped: bool, b: u8, meaning: Option<u8>) -> bool
    ensures { result ≡ is_bad escaped b meaning }
{
    meaning.is_none() && (escaped || b != b'\\')
}

// The first bad byte: the one that was found before, or else the one at this place.
fn first_bad(before: Option<u32>, is_bad: bool, at: u32) -> Option<u32>
    ensures { result ≡ first_of_two before is_bad at }
{
    before.or(is_bad.then_some(at))
}

// Appends the meaning of a byte, if it has one.
fn add_meaning(value: &mut Bytes, meaning: Option<u8>) -> Result<(), NoMemory>
    ensures { OnOk result (value.new ≡ with_meaning value.old meaning) }
{
    if let Some(b) = meaning {
        value.push(b)?;
    }
    Ok(())
}

// A text that is closed, where it has a bad byte or none.
fn close(len: usize, value: Bytes, bad: Option<u32>) -> Result<Piece, LexFault>
    ensures gives { Gives result (closed len value bad) }
    ensures within { IfOk result (λ piece. piece.len ≡ len) }
{
    match bad {
        None => Ok(Piece {
            kind: Some(Kind::Text(value)),
            len,
        }),
        Some(at) => Err(LexFault::BadByte { at }),
    }
}

/// The text whose opening quote stands at a place, before these bytes.
pub fn text_piece(alloc: Global, at: u32, bytes: &[u8]) -> Result<Piece, LexFault>
    requires { at + length bytes.now + 1 < 2 ^ 32 }
    ensures gives { Gives result (text_from at 0 false None [] bytes.now) }
    ensures within { IfOk result (λ piece. piece.len ≤ length bytes.now + 1) }
{
    let mut value = List::new(alloc);
    let mut bad: Option<u32> = None;
    let mut escaped = false;
    'bytes: for (i, b) in bytes.iter().enumerate() {
        if *b == b'\n' {
            return Err(LexFault::OpenText { at });
        }
        if *b == b'"' && !escaped {
            return close(i + 2, value, bad);
        }
        let meant = meaning(escaped, *b);
        bad = first_bad(bad, is_bad_byte(escaped, *b, meant), at + 1 + i as u32);
        add_meaning(&mut value, meant)?;
        escaped = *b == b'\\' && !escaped;
    }
    Err(LexFault::OpenText { at })
}
