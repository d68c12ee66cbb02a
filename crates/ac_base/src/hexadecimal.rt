//! Bytes in hexadecimal.

ghost use Rattle.std.specs.Prelude.{◌≡◌, ◌<◌, IfOk};
ghost use Rattle.ac_base.specs.Hexadecimal.{hex_digit, hex_of};

use crate::list::{Bytes, List};
use crate::memory::NoMemory;
use std::alloc::Global;

fn digit(number: u8) -> u8
    requires { number < 16 }
    ensures { result ≡ hex_digit number }
{
    if number < 10 {
        b'0' + number
    } else {
        b'a' + (number - 10)
    }
}

/// The bytes in lower-case hexadecimal, two digits each, and `-` where there are none.
pub fn hex(alloc: Global, bytes: &[u8]) -> Result<Bytes, NoMemory>
    ensures { IfOk result (λ text. text ≡ hex_of bytes.now) }
{
    let mut text = List::new(alloc);
    if bytes.is_empty() {
        text.push(b'-')?;
        return Ok(text);
    }
    for byte in bytes {
        text.push(digit(*byte / 16))?;
        text.push(digit(*byte % 16))?;
    }
    Ok(text)
}
