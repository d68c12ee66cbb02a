//! The limit of this process on the size of files.

ghost use Rattle.std.specs.Io.{ReadsAtMost};

use crate::again;
use std::rt::Files;
use std::{fs, io};

// Where Linux tells the limits of the process that reads it.
const LIMITS: &str = "/proc/self/limits";

// The row of that text for the size of files; the limit that holds now comes first behind it.
const ROW: &[u8] = b"Max file size";

/// How many bytes a file may have (`ulimit -f`); the greatest number where there is no limit, or the
/// system tells none.
pub fn most_bytes<R: Files>(files: &R) -> u64 {
    let mut text = [0; 4096];
    match read_front(files, &mut text) {
        Ok(len) => limit_in(&text[..len]),
        Err(_) => u64::MAX,
    }
}

// Reads until the slice is full or the text has no more.
fn read_front<R: Files>(files: &R, into: &mut [u8]) -> io::Result<usize>
    ensures { ReadsAtMost result into.new }
{
    let mut file = fs::open(files, LIMITS)?;
    let mut at = 0;
    while at < into.len() {
        let count = again::read(&mut file, &mut into[at..])?;
        if count == 0 {
            break;
        }
        at += count;
    }
    Ok(at)
}

// The limit that stands in the row of the size of files.
fn limit_in(text: &[u8]) -> u64 {
    for at in 0..text.len() {
        if text[at..].starts_with(ROW) {
            return number_in(&text[at..][ROW.len()..]);
        }
    }
    u64::MAX
}

// The number behind blanks. Another word says that there is no limit.
fn number_in(text: &[u8]) -> u64 {
    let mut number: Option<u64> = None;
    for byte in text {
        match (number, *byte) {
            (None, b' ') => {}
            (_, digit @ b'0'..=b'9') => {
                let tens = number.unwrap_or(0).saturating_mul(10);
                number = Some(tens.saturating_add(u64::from(digit - b'0')));
            }
            _ => break,
        }
    }
    number.unwrap_or(u64::MAX)
}
