//! Reads and writes of files: their range, and bytes in ints.

ghost use Rattle.std.specs.Prelude.{◌≡◌, ◌<◌, ◌≤◌, ◌^◌, ℕ, length, true, Ok, Err, IfOk, IfErr};
ghost use Rattle.work_item.specs.Conditions.{HomeLives};
ghost use Rattle.work_item.specs.declared.cell.Place as place;
ghost use Rattle.cancel_scope.specs.declared.operation.Asked as wish;
ghost use Rattle.core_state.specs.Requests.{first_of, is_in_range, if_in_range};
ghost use Rattle.core_state.specs.Requests.{bytes_at, with_bytes_at, bytes_for, value_of, with_answer};
ghost use Rattle.core_operators.specs.Answers.{ReadsIntoLiving};

use crate::arithmetic::low_byte;
use ac_base::{Answer, Bytes, List, NoMemory, Trap};
use cancel_scope::Asked;
use std::alloc::Global;
use work_item::{Frames, Place};

// Of one request, in bytes.
const REQUEST_LIMIT: u64 = 256;

// Of a file, in bytes.
const FILE_LIMIT: u64 = 1_048_576;

/// The place in a file from which on a request reads or writes, and the elements with which it does.
#[derive(Clone, Copy, Debug, PartialEq, Eq)]
pub struct Range {
    pub from: u32,
    pub elements: Place,
}

// The first elements of an array, so many.
fn first_of(array: Place, len: u32) -> Place
    ensures { result ≡ first_of array len }
{
    Place {
        home: array.home,
        start: array.start,
        len,
    }
}

// So many bytes from that place of a file on, into or out of that array.
fn is_in_range(array: Place, from: u64, len: u64) -> bool
    requires { from < 2 ^ 63 }
    ensures same { result ≡ is_in_range array from len }
    ensures below { result ≡ true → (from ≤ 1048576) × (len ≤ array.len) }
{
    len <= REQUEST_LIMIT && len <= u64::from(array.len) && from + len <= FILE_LIMIT
}

/// The range of so many bytes from a place of a file on, or the trap where it is wrong. What is asked
/// for is made of the range.
pub fn range_of(from: i64, len: i64, array: Place) -> Result<Range, Trap>
    ensures ok { IfOk result (λ r. (ask : ℕ → place.Place → wish.Asked) → if_in_range array from len ask ≡ Ok (ask r.from r.elements)) }
    ensures err { IfErr result (λ trap. (ask : ℕ → place.Place → wish.Asked) → if_in_range array from len ask ≡ Err trap) }
    ensures home { IfOk result (λ r. r.elements.home ≡ array.home) }
{
    if from < 0 || len < 0 || !is_in_range(array, from as u64, len as u64) {
        return Err(Trap::FileRange);
    }
    Ok(Range {
        from: from as u32,
        elements: first_of(array, len as u32),
    })
}

/// The low 8 bits of each int of an array.
pub fn bytes_at(alloc: Global, frames: &Frames, array: Place) -> Result<Bytes, NoMemory>
    requires { HomeLives frames.now array.home }
    ensures { IfOk result (λ bytes. bytes ≡ bytes_at frames.now array) }
{
    let mut bytes = List::new(alloc);
    for index in 0..array.len {
        bytes.push(low_byte(frames.read_at(array, index)))?;
    }
    Ok(bytes)
}

// Puts bytes into the ints of an array, one in each, as far as there are ints; how many it has put
// there.
fn write_bytes(frames: &mut Frames, into: Place, bytes: &[u8]) -> u32
    requires { HomeLives frames.old into.home }
    ensures frames { frames.new ≡ with_bytes_at frames.old into (bytes_for into bytes.now) }
    ensures count { result ≡ length (bytes_for into bytes.now) }
{
    let count = bytes.len().min(into.len as usize) as u32;
    for index in 0..count {
        frames.write_at(into, index, i64::from(bytes[index as usize]));
    }
    count
}

// The value of a request where the disk has failed.
const FAULT: i64 = -2;

/// The value that an answer gives a request; a read puts its bytes into its elements.
///
/// Condition: where a read puts them, a frame lives, or the globals are.
pub fn take_answer(frames: &mut Frames, asked: &Asked, answer: &Answer) -> i64
    requires { ReadsIntoLiving frames.old asked.now }
    ensures value { result ≡ value_of asked.now answer.now }
    ensures frames { frames.new ≡ with_answer frames.old asked.now answer.now }
{
    match (asked, answer) {
        (Asked::Read { into, .. }, Answer::Bytes(bytes)) => {
            i64::from(write_bytes(frames, *into, bytes.as_slice()))
        }
        (Asked::Write { .. }, Answer::Count(count)) => i64::from(*count),
        _ => FAULT,
    }
}
