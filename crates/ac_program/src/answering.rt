//! What is written, and the outcome that goes with it.

ghost use Rattle.std.specs.Prelude.{◌≡◌, ◌≢◌, ◌≤◌, [], All, AllPairs, length, IsTrue, None, Some};
ghost use Rattle.std.specs.Str.{IsUtf8};
ghost use Rattle.ac_names.specs.Numbered.{file_paths};
ghost use Rattle.ac_outside.specs.Told.{OpenedJust, GrewBy};
ghost use Rattle.ac_words.specs.Words.{IsBounded};
ghost use Rattle.program_reading.specs.Reading.{TookByReads};
ghost use Rattle.program_reading.specs.Writing.{TookFront};
ghost use Rattle.program_reading.specs.Lines.{limit_file_line, refusal_line, refusal_status};
ghost use Rattle.program_reading.specs.Failures.{TellsLibrary, TellsSink};
ghost use Rattle.ac_program.specs.Headline.{IsDueOfFile, IsLeft, TookWhole, TookPart, TellsDisk};
ghost use Rattle.ac_program.specs.Making.{AreLeft, IsDueOf, IsDueOfProgram};
ghost use Rattle.program_reading.specs.Source.{all_steps, most_steps, needed};

use crate::execute::{Done, make};
use crate::outcome::Outcome;
use ac_base::Status;
use ac_outside::{Disk, Gate, Library, Sink};
use ac_types::Checked;
use ac_words::Task;
use program_reading::{
    LIMIT_SOURCE, ReadFault, Refusal, SOURCE_LIMIT, Stop, answer, answer_refusal, build,
    place_line, read_text,
};
use starting_files::StartFault;
use std::alloc::Global;
use std::thread::Threads;

/// The line of words that call for nothing.
pub const USAGE: &str =
    "usage: ac run|trace FILE [--steps N], ac code|check FILE, ac audit FILE TRACE, ac load N [--steps N]\n";

/// The outcome where memory was refused.
pub fn no_memory() -> Outcome
    ensures { result ≡ record { status = record { number = 11 }; run = None } }
{
    Outcome {
        status: Status { number: 11 },
        run: None,
    }
}

// Writes the text of a refusal.
fn refuse_with<K: Sink>(sink: &mut K, number: u8, text: &[u8]) -> Outcome
    requires { number ≢ 8 }
    ensures run { result.run ≡ None }
    ensures status { result.status.number ≢ 8 → result.status.number ≡ number }
    ensures whole { result.status.number ≢ 8 → GrewBy (K.told sink.old).held (K.told sink.new).held text.now }
    ensures part { result.status.number ≡ 8 → TookFront (K.told sink.old).held (K.told sink.new).held text.now }
    ensures sink { TellsSink (K.told sink.old) (K.told sink.new) result.status.number }
{
    let status = answer(sink, Status { number }, text);
    Outcome { status, run: None }
}

/// Writes a line of a refusal.
pub fn refuse<K: Sink>(sink: &mut K, number: u8, line: &str) -> Outcome
    requires { number ≢ 8 }
    ensures run { result.run ≡ None }
    ensures status { result.status.number ≢ 8 → result.status.number ≡ number }
    ensures whole { result.status.number ≢ 8 → GrewBy (K.told sink.old).held (K.told sink.new).held line.now }
    ensures part { result.status.number ≡ 8 → TookFront (K.told sink.old).held (K.told sink.new).held line.now }
    ensures sink { TellsSink (K.told sink.old) (K.told sink.new) result.status.number }
{
    refuse_with(sink, number, line.as_bytes())
}

/// Writes the line of what refuses a source.
pub fn refuse_source<K: Sink>(alloc: Global, sink: &mut K, refusal: Refusal) -> Outcome
    ensures run { result.run ≡ None }
    ensures status { result.status.number ≢ 8 → result.status.number ≢ 11 → result.status.number ≡ refusal_status refusal }
    ensures whole { result.status.number ≢ 8 → result.status.number ≢ 11 →
        GrewBy (K.told sink.old).held (K.told sink.new).held (refusal_line refusal) }
    ensures part { result.status.number ≡ 8 → TookFront (K.told sink.old).held (K.told sink.new).held (refusal_line refusal) }
    ensures memory { result.status.number ≡ 11 → GrewBy (K.told sink.old).held (K.told sink.new).held [] }
    ensures sink { TellsSink (K.told sink.old) (K.told sink.new) result.status.number }
    ensures other { (result.status.number ≢ 1) × ((result.status.number ≢ 7) × (result.status.number ≢ 9)) }
{
    Outcome {
        status: answer_refusal(alloc, sink, refusal),
        run: None,
    }
}

/// Writes the text of what was made.
pub fn give<K: Sink>(sink: &mut K, done: Done) -> Outcome
    requires { done.status.number ≢ 8 }
    ensures run { result.run ≡ done.run }
    ensures status { result.status.number ≢ 8 → result.status.number ≡ done.status.number }
    ensures whole { result.status.number ≢ 8 → GrewBy (K.told sink.old).held (K.told sink.new).held done.text }
    ensures part { result.status.number ≡ 8 → TookFront (K.told sink.old).held (K.told sink.new).held done.text }
    ensures sink { TellsSink (K.told sink.old) (K.told sink.new) result.status.number }
{
    let Done { run, text, status } = done;
    let status = answer(sink, status, text.as_slice());
    Outcome { status, run }
}

// Writes the line of a file that is too long.
fn refuse_file<K: Sink>(alloc: Global, sink: &mut K, file: u32) -> Outcome
    ensures run { result.run ≡ None }
    ensures status { result.status.number ≢ 8 → result.status.number ≢ 11 → result.status.number ≡ 10 }
    ensures whole { result.status.number ≢ 8 → result.status.number ≢ 11 →
        GrewBy (K.told sink.old).held (K.told sink.new).held (limit_file_line file) }
    ensures part { result.status.number ≡ 8 → TookFront (K.told sink.old).held (K.told sink.new).held (limit_file_line file) }
    ensures memory { result.status.number ≡ 11 → GrewBy (K.told sink.old).held (K.told sink.new).held [] }
    ensures sink { TellsSink (K.told sink.old) (K.told sink.new) result.status.number }
{
    match place_line(alloc, b"limit: file ", u64::from(file)) {
        Err(_) => no_memory(),
        Ok(line) => refuse_with(sink, 10, line.as_slice()),
    }
}

// Does a task with a program that nothing refuses, and writes what is made of it, or of its files.
fn do_program<K: Sink, D: Disk + Send, G: Gate + Sync, R: Threads + Sync>(
    rt: &R,
    gate: &G,
    alloc: Global,
    checked: &Checked,
    task: Task,
    sink: &mut K,
    disk: &mut D,
) -> Outcome
    requires bounded { IsBounded task }
    requires few { all_steps checked.now task ≤ most_steps }
    requires files { length (file_paths checked.now.items) ≤ 16 }
    requires texts { All IsUtf8 (file_paths checked.now.items) }
    requires differ { AllPairs (λ path other. path ≢ other) (file_paths checked.now.items) }
    requires ready { IsTrue (D.told disk.old).is_ready }
    requires none { (D.told disk.old).bound ≡ 0 }
    ensures whole { result.status.number ≢ 8 → result.status.number ≢ 11 →
        TookWhole (IsDueOfProgram task checked.now (D.told disk.old) (D.told disk.new))
        result.status.number result.run (K.told sink.old) (K.told sink.new) }
    ensures part { result.status.number ≡ 8 →
        TookPart (IsDueOfProgram task checked.now (D.told disk.old) (D.told disk.new)) result.run (K.told sink.old) (K.told sink.new) }
    ensures left { result.status.number ≡ 11 → AreLeft (needed task checked.now) (D.told disk.old) (D.told disk.new) }
    ensures memory { result.status.number ≡ 11 → GrewBy (K.told sink.old).held (K.told sink.new).held [] }
    ensures no_run { result.status.number ≡ 11 → result.run ≡ None }
    ensures disk { TellsDisk (D.told disk.old) (D.told disk.new) result.status.number result.run }
    ensures sink { TellsSink (K.told sink.old) (K.told sink.new) result.status.number }
    ensures other { (result.status.number ≢ 1) × (result.status.number ≢ 7) }
{
    match make(rt, gate, alloc, checked, task, disk) {
        Err(StartFault::NoMemory) => no_memory(),
        Err(StartFault::Failed) => refuse(sink, 9, "disk fault\n"),
        Err(StartFault::TooLong { file }) => refuse_file(alloc, sink, file),
        Ok(done) => give(sink, done),
    }
}

/// Does a task with a source and writes what is made of it, or what refuses it.
pub fn do_source<K: Sink, D: Disk + Send, G: Gate + Sync, R: Threads + Sync>(
    rt: &R,
    gate: &G,
    alloc: Global,
    source: &[u8],
    task: Task,
    sink: &mut K,
    disk: &mut D,
) -> Outcome
    requires bounded { IsBounded task }
    requires short { length source.now ≤ 1048576 }
    requires ready { IsTrue (D.told disk.old).is_ready }
    requires none { (D.told disk.old).bound ≡ 0 }
    ensures whole { result.status.number ≢ 8 → result.status.number ≢ 11 →
        TookWhole (IsDueOf source.now task (D.told disk.old) (D.told disk.new))
        result.status.number result.run (K.told sink.old) (K.told sink.new) }
    ensures part { result.status.number ≡ 8 →
        TookPart (IsDueOf source.now task (D.told disk.old) (D.told disk.new)) result.run (K.told sink.old) (K.told sink.new) }
    ensures left { result.status.number ≡ 11 → IsLeft (Some source.now) task (D.told disk.old) (D.told disk.new) }
    ensures memory { result.status.number ≡ 11 → GrewBy (K.told sink.old).held (K.told sink.new).held [] }
    ensures no_run { result.status.number ≡ 11 → result.run ≡ None }
    ensures disk { TellsDisk (D.told disk.old) (D.told disk.new) result.status.number result.run }
    ensures sink { TellsSink (K.told sink.old) (K.told sink.new) result.status.number }
    ensures other { (result.status.number ≢ 1) × (result.status.number ≢ 7) }
{
    match build(alloc, source, task) {
        Err(Stop::NoMemory) => no_memory(),
        Err(Stop::Refused(refusal)) => refuse_source(alloc, sink, refusal),
        Ok(checked) => do_program(rt, gate, alloc, &checked, task, sink, disk),
    }
}

/// Reads the text of a name, does a task with it and writes what is made of it, or what refuses it.
pub fn do_file<L: Library, K: Sink, D: Disk + Send, G: Gate + Sync, R: Threads + Sync>(
    rt: &R,
    gate: &G,
    alloc: Global,
    file: &str,
    task: Task,
    library: &mut L,
    sink: &mut K,
    disk: &mut D,
) -> Outcome
    requires bounded { IsBounded task }
    requires ready { IsTrue (D.told disk.old).is_ready }
    requires none { (D.told disk.old).bound ≡ 0 }
    ensures whole { result.status.number ≢ 8 → result.status.number ≢ 11 →
        TookWhole (IsDueOfFile file.now task (L.told library.old) (L.told library.new) (D.told disk.old) (D.told disk.new))
        result.status.number result.run (K.told sink.old) (K.told sink.new) }
    ensures part { result.status.number ≡ 8 →
        TookPart (IsDueOfFile file.now task (L.told library.old) (L.told library.new) (D.told disk.old) (D.told disk.new))
        result.run (K.told sink.old) (K.told sink.new) }
    ensures just { OpenedJust (L.told library.old) (L.told library.new) file.now }
    ensures took { result.status.number ≡ 11 → TookByReads (L.told library.old) (L.told library.new) file.now }
    ensures left { result.status.number ≡ 11 →
        IsLeft ((L.told library.old).text_at file.now) task (D.told disk.old) (D.told disk.new) }
    ensures memory { result.status.number ≡ 11 → GrewBy (K.told sink.old).held (K.told sink.new).held [] }
    ensures no_run { result.status.number ≡ 11 → result.run ≡ None }
    ensures library { TellsLibrary (L.told library.old) (L.told library.new) result.status.number }
    ensures disk { TellsDisk (D.told disk.old) (D.told disk.new) result.status.number result.run }
    ensures sink { TellsSink (K.told sink.old) (K.told sink.new) result.status.number }
    ensures other { result.status.number ≢ 1 }
{
    match read_text(alloc, library, file, SOURCE_LIMIT) {
        Err(ReadFault::NoMemory) => no_memory(),
        Err(ReadFault::Failed) => refuse(sink, 7, "library fault\n"),
        Err(ReadFault::TooLong) => refuse(sink, 10, LIMIT_SOURCE),
        Ok(source) => do_source(rt, gate, alloc, source.as_slice(), task, sink, disk),
    }
}
