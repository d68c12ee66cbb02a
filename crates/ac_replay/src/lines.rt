//! What is written, and the status that goes with it.

ghost use Rattle.std.specs.Prelude.{◌≡◌, IfOk};
ghost use Rattle.ac_replay.specs.Lines.{differs_line};

use ac_base::{Bytes, List, NoMemory, Status};
use std::alloc::Global;

/// A text that is written, and the status that goes with it.
#[derive(Drop)]
pub struct Said {
    pub status: Status,
    pub text: Bytes,
}

/// A text with the number of a status.
pub fn say(number: u8, text: Bytes) -> Said
    ensures { result ≡ record { status = record { number = number }; text = text } }
{
    Said {
        status: Status { number },
        text,
    }
}

/// The bytes of a line.
pub fn line_of(alloc: Global, line: &str) -> Result<Bytes, NoMemory>
    ensures { IfOk result (λ it. it ≡ line.now) }
{
    Ok(List::from_vec(Vec::from_slice(alloc, line.as_bytes())?))
}

/// The line of a file that is not as the trace says.
pub fn differs_line(alloc: Global, file: u32) -> Result<Bytes, NoMemory>
    ensures { IfOk result (λ line. line ≡ differs_line file) }
{
    let number = file.to_string(alloc)?;
    let mut line = Vec::from_slice(alloc, b"file ")?;
    line.extend_from_slice(number.as_bytes())?;
    line.extend_from_slice(b" differs\n")?;
    Ok(List::from_vec(line))
}
