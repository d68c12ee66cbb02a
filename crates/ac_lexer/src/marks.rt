//! The table of marks.

ghost use Rattle.std.specs.Prelude.{◌≡◌};
ghost use Rattle.ac_lexer.specs.inner.Reading.{mark_of_one, mark_of_two};

use crate::token::Mark;

/// The mark that is one byte.
#[tactic(auto, unfolding(crate::specs::inner::Reading::mark_of_one))]
pub fn mark_of_byte(b: u8) -> Option<Mark>
    ensures { result ≡ mark_of_one b }
{
    match b {
        b'+' => Some(Mark::Plus),
        b'-' => Some(Mark::Minus),
        b'*' => Some(Mark::Star),
        b'/' => Some(Mark::Slash),
        b'%' => Some(Mark::Percent),
        b'<' => Some(Mark::Less),
        b'>' => Some(Mark::More),
        b'&' => Some(Mark::And),
        b'|' => Some(Mark::Bar),
        b'^' => Some(Mark::Caret),
        b'!' => Some(Mark::Not),
        b'~' => Some(Mark::Tilde),
        b'=' => Some(Mark::Assign),
        b'(' => Some(Mark::OpenParen),
        b')' => Some(Mark::CloseParen),
        b'[' => Some(Mark::OpenBracket),
        b']' => Some(Mark::CloseBracket),
        b'{' => Some(Mark::OpenBrace),
        b'}' => Some(Mark::CloseBrace),
        b',' => Some(Mark::Comma),
        b';' => Some(Mark::Semicolon),
        b':' => Some(Mark::Colon),
        _ => None,
    }
}

/// The mark that is two bytes.
#[tactic(auto, unfolding(crate::specs::inner::Reading::mark_of_two))]
pub fn mark_of_bytes(b: u8, next: u8) -> Option<Mark>
    ensures { result ≡ mark_of_two b next }
{
    if next == b'=' {
        return match b {
            b'=' => Some(Mark::EqEq),
            b'!' => Some(Mark::NotEq),
            b'<' => Some(Mark::LessEq),
            b'>' => Some(Mark::MoreEq),
            _ => None,
        };
    }
    if next != b {
        return None;
    }
    match b {
        b'|' => Some(Mark::OrOr),
        b'&' => Some(Mark::AndAnd),
        b'<' => Some(Mark::Shl),
        b'>' => Some(Mark::Shr),
        _ => None,
    }
}
