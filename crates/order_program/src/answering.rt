//! What is written of two files.

ghost use Rattle.std.specs.Prelude.{◌≡◌, ◌≢◌, ◌<◌, ◌^◌, length};
ghost use Rattle.program_reading.specs.Failures.{TellsLibrary};
ghost use Rattle.program_reading.specs.Files.{AreRead};
ghost use Rattle.order_words.specs.Called.{HasMeaning};
ghost use Rattle.order_program.specs.inner.Calling.{IsDueFor};
ghost use Rattle.order_program.specs.inner.Telling.{IsAnswered, IsDueOfBoth};

use crate::asking::told_of;
use ac_base::{NoMemory, Status};
use ac_outside::{Library, Sink};
use order_words::{Call, Question};
use program_reading::{Both, BothFault, answer, answer_halt, read_both};
use std::alloc::Global;

// The status where memory was refused.
const NO_MEMORY: u8 = 11;

// Writes what is told of a trace.
fn answer_both<K: Sink>(alloc: Global, both: &Both, question: Question<'_>, sink: &mut K) -> Status
    requires few { length both.now.trace.entries < 2 ^ 32 }
    requires meant { HasMeaning question }
    ensures answered { IsAnswered (IsDueOfBoth both.now.program both.now.trace question.entry) (K.told sink.old) (K.told sink.new)
        result.number }
    ensures seven { result.number ≢ 7 }
{
    match told_of(alloc, both, question) {
        Err(NoMemory) => Status { number: NO_MEMORY },
        Ok(told) => answer(sink, told.status, told.text.as_slice()),
    }
}

/// Reads the program of a file, and then the trace of another, and writes what is told of it, or what
/// refuses one of them.
pub fn answer_files<L: Library, K: Sink>(
    alloc: Global,
    call: Call<'_>,
    library: &mut L,
    sink: &mut K,
) -> Status
    requires { HasMeaning call.question }
    ensures answered { IsAnswered (IsDueFor call.entry (L.told library.old) (L.told library.new))
        (K.told sink.old) (K.told sink.new) result.number }
    ensures read { result.number ≡ 11 → AreRead call.entry.file.now call.entry.trace.now (L.told library.old) (L.told library.new) }
    ensures library { TellsLibrary (L.told library.old) (L.told library.new) result.number }
{
    match read_both(alloc, call.file, call.trace, library) {
        Err(BothFault::NoMemory) => Status { number: NO_MEMORY },
        Err(BothFault::Halted(halt)) => answer_halt(alloc, sink, halt),
        Ok(both) => answer_both(alloc, &both, call.question, sink),
    }
}
