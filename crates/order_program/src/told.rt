//! A text that is written, and the status that goes with it.

ghost use Rattle.std.specs.Prelude.{IfOk};
ghost use Rattle.program_reading.specs.Lines.{place_line};
ghost use Rattle.order_program.specs.inner.Telling.{IsSaid};

use ac_base::{Bytes, List, NoMemory, Status};
use program_reading::place_line;
use std::alloc::Global;

/// A text, and the status that goes with it.
#[derive(Drop)]
pub struct Told {
    pub status: Status,
    pub text: Bytes,
}

/// A line with a status.
pub fn say(alloc: Global, number: u8, line: &str) -> Result<Told, NoMemory>
    ensures { IfOk result (IsSaid number line.now) }
{
    Ok(Told {
        status: Status { number },
        text: List::from_vec(Vec::from_slice(alloc, line.as_bytes())?),
    })
}

/// A line of words and a number, with a status.
pub fn say_place(alloc: Global, number: u8, words: &[u8], place: u64) -> Result<Told, NoMemory>
    ensures { IfOk result (IsSaid number (place_line words.now place)) }
{
    Ok(Told {
        status: Status { number },
        text: place_line(alloc, words, place)?,
    })
}
