//! Reading a trace, line by line.

ghost use Rattle.std.specs.Prelude.{◌≡◌, ◌≤◌, ◌<◌, ◌^◌, ℕ, length};
ghost use Rattle.trace_text.specs.Outcomes.{Reads};
ghost use Rattle.trace_text.specs.inner.Reading.{line_run, read_text, told_in, Told};

use crate::cursor::LineFault;
use crate::faults::TraceFault;
use crate::so_far::{SoFar, Stage};
use crate::trace::Trace;
use crate::version::{Version, is_needless};
use std::alloc::Global;

// How many bytes stand before the first line feed.
fn line_run(bytes: &[u8]) -> usize
    ensures value { result ≡ line_run bytes.now }
    ensures within { result ≤ length bytes.now }
{
    for (i, b) in bytes.iter().enumerate() {
        if *b == b'\n' {
            return i;
        }
    }
    bytes.len()
}

// The trace, where its version is the one that it needs.
fn told(version: Version, trace: Trace) -> Result<Trace, TraceFault>
    ensures { Told result (told_in version trace) }
{
    if is_needless(version, &trace) {
        return Err(TraceFault::Line { line: 1 });
    }
    Ok(trace)
}

fn read(alloc: Global, text: &[u8]) -> Result<Trace, TraceFault>
    ensures { Told result (read_text text.now) }
{
    let mut so_far = SoFar::new(alloc);
    let mut line: u64 = 1;
    let mut at = 0;
    'lines: while at < text.len() {
        let rest = &text[at..];
        let len = line_run(rest);
        if len == rest.len() {
            return Err(TraceFault::Line { line });
        }
        match so_far.add(alloc, &rest[..len]) {
            Ok(()) => {}
            Err(LineFault::Wrong) => return Err(TraceFault::Line { line }),
            Err(LineFault::Memory) => return Err(TraceFault::NoMemory),
        }
        at += len + 1;
        line += 1;
    }
    let SoFar {
        stage,
        version,
        trace,
    } = so_far;
    match stage {
        Stage::Ends => told(version, trace),
        _ => Err(TraceFault::Line { line }),
    }
}

/// The trace that a text spells, or the first line that is not as said at its place.
///
/// It takes time in proportion to the text.
pub fn read_trace(alloc: Global, text: &[u8]) -> Result<Trace, TraceFault>
    // Ok: the text spells this trace, and no other.
    // A line: the text spells no trace, and the lines before this one begin one, and none begins so that has it too;
    // or each line is right in version 2, where version 1 would do, and the line is the first.
    ensures { Reads text.now result }
{
    read(alloc, text)
}
