//! The bytes of a line that are left, and reading a part of them.

ghost use Rattle.std.specs.Prelude.{◌≡◌, ◌<◌, ◌≤◌, ◌^◌, ◌==◌, length, IfSome, IfNone, IfOk};
ghost use Rattle.trace_text.specs.inner.Reading.{Gives, word_at, ended, is_digit, digit_run, starts};
ghost use Rattle.trace_text.specs.inner.Reading.{value_of, number_at, spaced_at, positive_at, negated_at};
ghost use Rattle.trace_text.specs.inner.Reading.{value_at, digit_of, byte_of, pairs_of, bytes_to_end, spaced_bytes};
ghost use Rattle.trace_text.specs.declared.cursor.LineFault.TheVariants.{Memory};

use ac_base::{Bytes, List, NoMemory};
use std::alloc::Global;

/// Why reading stops.
#[derive(Debug, Drop)]
pub enum LineFault {
    Wrong,
    Memory,
}

impl From<NoMemory> for LineFault {
    ghost from_gives = { λ _ e. e ≡ Memory };

    fn from(_: NoMemory) -> LineFault {
        LineFault::Memory
    }
}

/// The bytes of a line that are left.
#[derive(Drop)]
pub struct Cursor<'a> {
    pub rest: &'a [u8],
}

/// Takes that word.
pub fn word(c: &mut Cursor<'_>, wanted: &[u8]) -> Result<(), LineFault>
    ensures { Gives (λ _. c.new.rest.now) result (word_at wanted.now c.old.rest.now) }
{
    match c.rest.strip_prefix(wanted) {
        None => Err(LineFault::Wrong),
        Some(rest) => {
            c.rest = rest;
            Ok(())
        }
    }
}

/// A value, where nothing is left.
pub fn end<T: Drop>(c: &Cursor<'_>, value: T) -> Result<T, LineFault>
    ensures { Gives (λ x. x) result (ended c.now.rest.now value) }
{
    match c.rest {
        [] => Ok(value),
        _ => Err(LineFault::Wrong),
    }
}

fn is_digit_byte(b: u8) -> bool
    ensures { result ≡ is_digit b }
{
    b'0' <= b && b <= b'9'
}

fn starts_with_zero(text: &[u8]) -> bool
    ensures { result ≡ starts (λ b. b == 48) text.now }
{
    match text {
        [] => false,
        [b, ..] => *b == b'0',
    }
}

// How many digits stand at the front.
fn digit_run(bytes: &[u8]) -> usize
    ensures value { result ≡ digit_run bytes.now }
    ensures within { result ≤ length bytes.now }
{
    for (i, b) in bytes.iter().enumerate() {
        if !is_digit_byte(*b) {
            return i;
        }
    }
    bytes.len()
}

// The value of the digits at the front, if it is at most so great.
fn value_within(bytes: &[u8], most: u64) -> Option<u64>
    ensures some { IfSome result (λ n. n ≡ value_of 0 bytes.now) }
    ensures low { IfSome result (λ n. n ≤ most) }
    ensures none { IfNone result (most < value_of 0 bytes.now) }
{
    let mut n: u64 = 0;
    for b in bytes {
        if !is_digit_byte(*b) {
            return Some(n);
        }
        let d = u64::from(*b - b'0');
        if d > most || n > (most - d) / 10 {
            return None;
        }
        n = n * 10 + d;
    }
    Some(n)
}

/// Takes a number that is at most so great, without a 0 in front of other digits.
#[tactic(auto, unfolding(crate::specs::inner::Reading::number_at))]
pub fn number(c: &mut Cursor<'_>, most: u64) -> Result<u64, LineFault>
    ensures gives { Gives (λ n. (n, c.new.rest.now)) result (number_at most c.old.rest.now) }
    ensures low { IfOk result (λ n. n ≤ most) }
{
    let len = digit_run(c.rest);
    if len == 0 || (starts_with_zero(c.rest) && len > 1) {
        return Err(LineFault::Wrong);
    }
    match value_within(c.rest, most) {
        None => Err(LineFault::Wrong),
        Some(n) => {
            c.rest = &c.rest[len..];
            Ok(n)
        }
    }
}

/// Takes a blank and a number that is at most so great.
pub fn spaced(c: &mut Cursor<'_>, most: u64) -> Result<u64, LineFault>
    ensures gives { Gives (λ n. (n, c.new.rest.now)) result (spaced_at most c.old.rest.now) }
    ensures low { IfOk result (λ n. n ≤ most) }
{
    word(c, b" ")?;
    number(c, most)
}

/// Takes a number from 1 to so great.
pub fn positive(c: &mut Cursor<'_>, most: u64) -> Result<u64, LineFault>
    ensures gives { Gives (λ n. (n, c.new.rest.now)) result (positive_at most c.old.rest.now) }
    ensures some { IfOk result (λ n. 1 ≤ n) }
    ensures low { IfOk result (λ n. n ≤ most) }
{
    let n = number(c, most)?;
    if n == 0 {
        return Err(LineFault::Wrong);
    }
    Ok(n)
}

const MOST_SMALL: u64 = 4_294_967_295;

/// Takes a number below 2^32.
pub fn small(c: &mut Cursor<'_>) -> Result<u32, LineFault>
    ensures { Gives (λ n. (n, c.new.rest.now)) result (number_at 4294967295 c.old.rest.now) }
{
    let n = number(c, MOST_SMALL)?;
    Ok(n as u32)
}

/// Takes a blank and a number below 2^32.
pub fn spaced_small(c: &mut Cursor<'_>) -> Result<u32, LineFault>
    ensures { Gives (λ n. (n, c.new.rest.now)) result (spaced_at 4294967295 c.old.rest.now) }
{
    let n = spaced(c, MOST_SMALL)?;
    Ok(n as u32)
}

// Takes a number from 1 to 2^63, and gives it with a `-` in front.
fn negated(c: &mut Cursor<'_>) -> Result<i64, LineFault>
    ensures { Gives (λ v. (v, c.new.rest.now)) result (negated_at c.old.rest.now) }
{
    let n = positive(c, 9_223_372_036_854_775_808)?;
    Ok(-((n - 1) as i64) - 1)
}

/// Takes a value of 64 bits.
#[tactic(auto, unfolding(crate::specs::inner::Reading::value_at))]
pub fn value(c: &mut Cursor<'_>) -> Result<i64, LineFault>
    ensures { Gives (λ v. (v, c.new.rest.now)) result (value_at c.old.rest.now) }
{
    match c.rest.strip_prefix(b"-") {
        Some(rest) => {
            c.rest = rest;
            negated(c)
        }
        None => {
            let n = number(c, 9_223_372_036_854_775_807)?;
            Ok(n as i64)
        }
    }
}

fn digit(b: u8) -> Option<u8>
    ensures same { result ≡ digit_of b }
    ensures low { IfSome result (λ d. d < 16) }
{
    if is_digit_byte(b) {
        Some(b - b'0')
    } else if b'a' <= b && b <= b'f' {
        Some(b - b'a' + 10)
    } else {
        None
    }
}

// The byte of two digits.
fn byte(high: u8, low: u8) -> Option<u8>
    ensures { result ≡ byte_of (digit_of high) (digit_of low) }
{
    let high = digit(high)?;
    let low = digit(low)?;
    Some(high * 16 + low)
}

// The bytes of so many digits, two a byte.
fn pairs(alloc: Global, digits: &[u8]) -> Result<Bytes, LineFault>
    ensures { Gives (λ bytes. bytes) result (pairs_of digits.now) }
{
    let mut bytes = List::new(alloc);
    let mut rest = digits;
    'pairs: while rest.len() >= 2 {
        match byte(rest[0], rest[1]) {
            None => return Err(LineFault::Wrong),
            Some(byte) => bytes.push(byte)?,
        }
        rest = &rest[2..];
    }
    if rest.len() == 1 {
        return Err(LineFault::Wrong);
    }
    Ok(bytes)
}

/// The bytes that the rest of the line spells.
#[tactic(auto, unfolding(crate::specs::inner::Reading::bytes_to_end))]
pub fn bytes(alloc: Global, c: &Cursor<'_>) -> Result<Bytes, LineFault>
    ensures { Gives (λ bytes. bytes) result (bytes_to_end c.now.rest.now) }
{
    if c.rest == b"-".as_slice() {
        return Ok(List::new(alloc));
    }
    match c.rest {
        [] => Err(LineFault::Wrong),
        _ => pairs(alloc, c.rest),
    }
}

/// Takes a blank, and the bytes that the rest of the line spells.
pub fn spaced_bytes(alloc: Global, c: &mut Cursor<'_>) -> Result<Bytes, LineFault>
    ensures { Gives (λ bytes. bytes) result (spaced_bytes c.old.rest.now) }
{
    word(c, b" ")?;
    bytes(alloc, c)
}
