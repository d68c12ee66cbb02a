//! What is written of two files, and the status that goes with it.

ghost use Rattle.std.specs.Prelude.{◌≡◌, ◌≢◌, IsTrue};
ghost use Rattle.ac_replay.specs.Due.{IsDueOfCall, IsDueOfRun};
ghost use Rattle.ac_replay.specs.Headline.{AreUnwritten, IsLeft};
ghost use Rattle.ac_replay.specs.inner.Answers.{IsAnswered};
ghost use Rattle.ac_replay.specs.inner.Doing.{HasPaths};
ghost use Rattle.ac_names.specs.Numbered.{file_paths};
ghost use Rattle.program_reading.specs.Failures.{TellsLibrary};
ghost use Rattle.program_reading.specs.Files.{AreRead};

use crate::running::judge_and_run;
use ac_base::{NoMemory, Status};
use ac_outside::{Disk, Library, Sink};
use ac_types::Checked;
use program_reading::{BothFault, answer, answer_halt, read_both};
use std::alloc::Global;
use trace_text::Trace;

/// The number of the status where memory was refused.
const NO_MEMORY: u8 = 11;

// Judges a trace, runs it again where it is a run, and writes what comes of it.
fn replay_both<K: Sink, D: Disk>(
    alloc: Global,
    program: &Checked,
    trace: &Trace,
    sink: &mut K,
    disk: &mut D,
) -> Status
    requires paths { HasPaths program.now }
    requires ready { IsTrue (D.told disk.old).is_ready }
    requires none { (D.told disk.old).bound ≡ 0 }
    ensures answered { IsAnswered (IsDueOfRun program.now trace.now (D.told disk.old) (D.told disk.new))
        (K.told sink.old) (K.told sink.new) result.number }
    ensures left { result.number ≡ 11 → AreUnwritten (file_paths program.now.items) (D.told disk.old) (D.told disk.new) }
{
    match judge_and_run(alloc, program, trace, disk) {
        Err(NoMemory) => Status { number: NO_MEMORY },
        Ok(said) => answer(sink, said.status, said.text.as_slice()),
    }
}

/// Reads a program and a trace, runs the trace again, and writes what comes of it, or what refuses one
/// of them.
pub fn replay_files<L: Library, K: Sink, D: Disk>(
    alloc: Global,
    file: &str,
    trace: &str,
    library: &mut L,
    sink: &mut K,
    disk: &mut D,
) -> Status
    requires ready { IsTrue (D.told disk.old).is_ready }
    requires none { (D.told disk.old).bound ≡ 0 }
    ensures answered { IsAnswered (IsDueOfCall file.now trace.now (L.told library.old) (L.told library.new)
        (D.told disk.old) (D.told disk.new)) (K.told sink.old) (K.told sink.new) result.number }
    ensures read { result.number ≡ 11 → AreRead file.now trace.now (L.told library.old) (L.told library.new) }
    ensures library { TellsLibrary (L.told library.old) (L.told library.new) result.number }
    ensures left { result.number ≡ 11 → IsLeft ((L.told library.old).text_at file.now) (D.told disk.old) (D.told disk.new) }
{
    match read_both(alloc, file, trace, library) {
        Err(BothFault::NoMemory) => Status { number: NO_MEMORY },
        Err(BothFault::Halted(halt)) => answer_halt(alloc, sink, halt),
        Ok(both) => replay_both(alloc, &both.program, &both.trace, sink, disk),
    }
}
