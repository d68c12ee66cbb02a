//! The audit of a trace against the program of a file.

ghost use Rattle.std.specs.Prelude.{◌≡◌, ◌≤◌, ◌⊎◌, IfOk, None};
ghost use Rattle.ac_resolve.specs.Resolution.{resolved};
ghost use Rattle.trace_audit.specs.Judged.{Judges};
ghost use Rattle.program_reading.specs.Files.{AreRead, IsTraceRead};
ghost use Rattle.ac_program.specs.Auditing.{IsDueOfAudit, IsDueOfSource, IsDueOfTrace, IsDueOfTraced};
ghost use Rattle.program_reading.specs.Failures.{TellsLibrary};
ghost use Rattle.ac_program.specs.Lines.{verdict_line, verdict_status};
ghost use Rattle.program_reading.specs.Reading.{IsRead, IsShort};
ghost use Rattle.ac_program.specs.inner.Parts.{GivesAnswer, GivesVerdict};
ghost use Rattle.ac_program.specs.inner.Answers.{IsAnswered};

use crate::answering::{give, no_memory, refuse, refuse_source};
use crate::execute::Done;
use crate::outcome::Outcome;
use ac_base::{Bytes, List, NoMemory, Status};
use ac_compile::compile;
use ac_outside::{Library, Sink};
use ac_types::Checked;
use ac_words::Task;
use program_reading::{
    LIMIT_SOURCE, LIMIT_STEPS, LIMIT_TRACE, MOST_STEPS, ReadFault, SOURCE_LIMIT, Stop, TRACE_LIMIT,
    build, place_line, read_text,
};
use std::alloc::Global;
use trace_audit::{Verdict, audit};
use trace_text::{Trace, TraceFault, read_trace};

// A text with a status, and no run.
fn said(status: u8, text: Bytes) -> Done
    ensures { result ≡ record { run = None; text = text; status = record { number = status } } }
{
    Done {
        run: None,
        text,
        status: Status { number: status },
    }
}

fn line_of(alloc: Global, line: &str) -> Result<Bytes, NoMemory>
    ensures { IfOk result (λ it. it ≡ line.now) }
{
    Ok(List::from_vec(Vec::from_slice(alloc, line.as_bytes())?))
}

fn verdict_line(alloc: Global, verdict: Verdict) -> Result<Bytes, NoMemory>
    ensures { IfOk result (λ it. it ≡ verdict_line verdict) }
{
    match verdict {
        Verdict::Yes => line_of(alloc, "yes\n"),
        Verdict::NoAt { entry } => place_line(alloc, b"no at ", entry),
        Verdict::NoAtEnd => line_of(alloc, "no at end\n"),
    }
}

fn verdict_status(verdict: Verdict) -> u8
    ensures { result ≡ verdict_status verdict }
{
    match verdict {
        Verdict::Yes => 0,
        Verdict::NoAt { .. } | Verdict::NoAtEnd => 13,
    }
}

// The verdict on a trace.
fn judge(alloc: Global, checked: &Checked, trace: &Trace) -> Result<Verdict, NoMemory>
    ensures { IfOk result (Judges (resolved checked.now) trace.now) }
{
    let code = compile(alloc, checked)?;
    audit(alloc, &code, u64::from(checked.files()), trace)
}

// What a trace comes to that a text spells.
fn judged(alloc: Global, checked: &Checked, trace: &Trace) -> Result<Done, NoMemory>
    requires { trace.now.steps ≤ 2000000 }
    ensures { IfOk result (GivesVerdict checked.now trace.now) }
{
    if u64::from(checked.cores()) * trace.steps > MOST_STEPS {
        return Ok(said(10, line_of(alloc, LIMIT_STEPS)?));
    }
    let verdict = judge(alloc, checked, trace)?;
    Ok(said(verdict_status(verdict), verdict_line(alloc, verdict)?))
}

// What the text of a trace comes to.
fn read_and_judged(alloc: Global, checked: &Checked, text: &[u8]) -> Result<Done, NoMemory>
    ensures { IfOk result (GivesAnswer checked.now text.now) }
{
    match read_trace(alloc, text) {
        Err(TraceFault::NoMemory) => Err(NoMemory),
        Err(TraceFault::Line { line }) => Ok(said(
            14,
            place_line(alloc, b"trace fault at line ", line)?,
        )),
        Ok(trace) => judged(alloc, checked, &trace),
    }
}

// Writes what the text of a trace comes to.
fn audit_text<K: Sink>(alloc: Global, checked: &Checked, text: &[u8], sink: &mut K) -> Outcome
    ensures { IsAnswered (IsDueOfTraced checked.now text.now) (K.told sink.old) (K.told sink.new) result }
{
    match read_and_judged(alloc, checked, text) {
        Err(NoMemory) => no_memory(),
        Ok(done) => give(sink, done),
    }
}

// Reads the trace and audits it.
fn audit_trace<L: Library, K: Sink>(
    alloc: Global,
    checked: &Checked,
    trace: &str,
    library: &mut L,
    sink: &mut K,
) -> Outcome
    ensures answered { IsAnswered (IsDueOfTrace checked.now trace.now (L.told library.old) (L.told library.new))
        (K.told sink.old) (K.told sink.new) result }
    ensures read { result.status.number ≡ 11 → IsRead (L.told library.old) (L.told library.new) trace.now }
    ensures library { TellsLibrary (L.told library.old) (L.told library.new) result.status.number }
{
    match read_text(alloc, library, trace, TRACE_LIMIT) {
        Err(ReadFault::NoMemory) => no_memory(),
        Err(ReadFault::Failed) => refuse(sink, 7, "library fault\n"),
        Err(ReadFault::TooLong) => refuse(sink, 10, LIMIT_TRACE),
        Ok(text) => audit_text(alloc, checked, text.as_slice(), sink),
    }
}

// Audits the trace against the program of a source, or writes what refuses the source.
fn audit_source<L: Library, K: Sink>(
    alloc: Global,
    source: &[u8],
    trace: &str,
    library: &mut L,
    sink: &mut K,
) -> Outcome
    requires { IsShort source.now }
    ensures answered { IsAnswered (IsDueOfSource source.now trace.now (L.told library.old) (L.told library.new))
        (K.told sink.old) (K.told sink.new) result }
    ensures read { result.status.number ≡ 11 →
        (L.told library.new ≡ L.told library.old) ⊎ IsTraceRead source.now trace.now (L.told library.old) (L.told library.new) }
    ensures library { TellsLibrary (L.told library.old) (L.told library.new) result.status.number }
{
    match build(alloc, source, Task::Check) {
        Err(Stop::NoMemory) => no_memory(),
        Err(Stop::Refused(refusal)) => refuse_source(alloc, sink, refusal),
        Ok(checked) => audit_trace(alloc, &checked, trace, library, sink),
    }
}

/// Reads the program of a file, and then the trace of another, audits it and writes the verdict, or
/// what refuses one of them.
pub fn audit_files<L: Library, K: Sink>(
    alloc: Global,
    file: &str,
    trace: &str,
    library: &mut L,
    sink: &mut K,
) -> Outcome
    ensures answered { IsAnswered (IsDueOfAudit file.now trace.now (L.told library.old) (L.told library.new))
        (K.told sink.old) (K.told sink.new) result }
    ensures read { result.status.number ≡ 11 →
        AreRead file.now trace.now (L.told library.old) (L.told library.new) }
    ensures library { TellsLibrary (L.told library.old) (L.told library.new) result.status.number }
{
    match read_text(alloc, library, file, SOURCE_LIMIT) {
        Err(ReadFault::NoMemory) => no_memory(),
        Err(ReadFault::Failed) => refuse(sink, 7, "library fault\n"),
        Err(ReadFault::TooLong) => refuse(sink, 10, LIMIT_SOURCE),
        Ok(source) => audit_source(alloc, source.as_slice(), trace, library, sink),
    }
}
