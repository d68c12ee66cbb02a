//! The links of a run.

ghost use Rattle.std.specs.Prelude.{◌≡◌};
ghost use Rattle.core_driver.specs.Sides.{links_of};

use stack_code::Code;

/// How many links a run of the code has: its channels, and one for the requests of each core.
pub fn links_of(code: &Code) -> u32
    ensures { result ≡ links_of code.now }
{
    // A code is valid, so its links are few.
    let _instrs = code.instrs();
    (code.ends().len() + code.entries().len()) as u32
}
