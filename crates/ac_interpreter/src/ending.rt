//! A core whose run is known to end.

ghost use Rattle.std.specs.Prelude.{◌≡◌, ◌<◌, ◌^◌, Option, length};
ghost use Rattle.ac_base.specs.declared.ends.CoreEnd.{CoreEnd};
ghost use Rattle.core_state.specs.Shared.{request_link};
ghost use Rattle.ac_interpreter.specs.Ends.{CoreEnds, unique};
ghost use Rattle.ac_interpreter.specs.Unfit.{RunEnds};

use ac_base::Entry;
use ac_commands::{Function, Resolved};

/// A core of a program, by its number, that enters a function, with a bound on its steps and a journal.
///
/// It is known that its run ends, and after how many moves, and that the link of its requests is a number of 32 bits.
#[derive(Clone, Copy)]
pub struct Ending<'a> {
    pub program: &'a Resolved,
    pub core: u32,
    pub function: &'a Function,
    pub bound: u64,
    pub journal: &'a [Entry],
    ghost count: { CoreEnds program.now core function.now bound journal.now } by { unique program.now core function.now bound journal.now },
    ghost link: { request_link (length program.now.channels) core < 2 ^ 32 },
}

impl<'a> Ending<'a> {
    /// Such a core.
    ///
    /// Conditions: its run ends, and the link of its requests is a number of 32 bits.
    pub fn new(
        program: &'a Resolved,
        core: u32,
        function: &'a Function,
        bound: u64,
        journal: &'a [Entry],
    ) -> Ending<'a>
        requires ends { (end : Option CoreEnd) × RunEnds program.now core function.now bound journal.now end }
        requires link { request_link (length program.now.channels) core < 2 ^ 32 }
        ensures program { result.program.now ≡ program.now }
        ensures core { result.core ≡ core }
        ensures function { result.function.now ≡ function.now }
        ensures bound { result.bound ≡ bound }
        ensures journal { result.journal.now ≡ journal.now }
    {
        Ending {
            program,
            core,
            function,
            bound,
            journal,
        }
    }
}
