//! Bytes of a text, and runs of them.

ghost use Rattle.std.specs.Prelude.{◌≡◌, ◌<◌, ◌≤◌, ◌^◌, length, IfSome, IfNone, false};
ghost use Rattle.ac_lexer.specs.Spelling.{is_blank, is_letter, is_name, is_digit, is_zero, starts, value_of};
ghost use Rattle.ac_lexer.specs.inner.Reading.{run, block_end};
ghost use Rattle.ac_lexer.specs.Tokens.{not_feed};

/// A space, a tab, a carriage return or a line feed.
pub fn is_blank_byte(b: u8) -> bool
    ensures { result ≡ is_blank b }
{
    b == b' ' || b == b'\t' || b == b'\r' || b == b'\n'
}

/// A digit.
pub fn is_digit_byte(b: u8) -> bool
    ensures { result ≡ is_digit b }
{
    b'0' <= b && b <= b'9'
}

/// A letter or `_`.
pub fn is_letter_byte(b: u8) -> bool
    ensures { result ≡ is_letter b }
{
    (b'a' <= b && b <= b'z') || (b'A' <= b && b <= b'Z') || b == b'_'
}

// A letter, a digit or `_`.
fn is_name_byte(b: u8) -> bool
    ensures { result ≡ is_name b }
{
    is_letter_byte(b) || is_digit_byte(b)
}

/// Whether the first byte is a letter or `_`.
pub fn starts_with_letter(text: &[u8]) -> bool
    ensures { result ≡ starts is_letter text.now }
{
    match text {
        [] => false,
        [b, ..] => is_letter_byte(*b),
    }
}

/// Whether the first byte is the digit 0.
pub fn starts_with_zero(text: &[u8]) -> bool
    ensures { result ≡ starts is_zero text.now }
{
    match text {
        [] => false,
        [b, ..] => *b == b'0',
    }
}

/// How many letters, digits and `_` stand at the front.
pub fn name_run(bytes: &[u8]) -> usize
    ensures value { result ≡ run is_name bytes.now }
    ensures within { result ≤ length bytes.now }
{
    for (i, b) in bytes.iter().enumerate() {
        if !is_name_byte(*b) {
            return i;
        }
    }
    bytes.len()
}

/// How many digits stand at the front.
pub fn digit_run(bytes: &[u8]) -> usize
    ensures value { result ≡ run is_digit bytes.now }
    ensures within { result ≤ length bytes.now }
{
    for (i, b) in bytes.iter().enumerate() {
        if !is_digit_byte(*b) {
            return i;
        }
    }
    bytes.len()
}

/// The value of the digits at the front, if it is at most the greatest number.
pub fn number(bytes: &[u8]) -> Option<u64>
    ensures some { IfSome result (λ n. n ≡ value_of 0 bytes.now) }
    ensures low { IfSome result (λ n. n < 2 ^ 63) }
    ensures none { IfNone result (2 ^ 63 ≤ value_of 0 bytes.now) }
{
    let mut n: u64 = 0;
    for b in bytes {
        if !is_digit_byte(*b) {
            return Some(n);
        }
        let d = u64::from(*b - b'0');
        if n > (9_223_372_036_854_775_807 - d) / 10 {
            return None;
        }
        n = n * 10 + d;
    }
    Some(n)
}

/// How many bytes stand before the first line feed.
pub fn line_run(bytes: &[u8]) -> usize
    ensures value { result ≡ run not_feed bytes.now }
    ensures within { result ≤ length bytes.now }
{
    for (i, b) in bytes.iter().enumerate() {
        if *b == b'\n' {
            return i;
        }
    }
    bytes.len()
}

/// How many bytes there are up to the first `*/`, with it.
pub fn comment_len(bytes: &[u8]) -> Option<usize>
    ensures value { result ≡ block_end false bytes.now }
    ensures within { IfSome result (λ n. n ≤ length bytes.now) }
{
    let mut star = false;
    for (i, b) in bytes.iter().enumerate() {
        if star && *b == b'/' {
            return Some(i + 1);
        }
        star = *b == b'*';
    }
    None
}
