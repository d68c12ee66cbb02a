//! What a trace tells of the files and of the ends of the cores, against what they are.

ghost use Rattle.std.specs.Prelude.{◌≡◌, ◌↔◌, ◌≤◌, length, All, IsTrue};
ghost use Rattle.trace_audit.specs.RunTrace.{file_limit};
ghost use Rattle.trace_audit.specs.inner.Comparing.{is_told, AreTold};

use ac_base::{Bytes, CoreEnd};
use trace_text::TraceEnd;

/// The greatest length of a file at the start.
const MOST_BYTES: u64 = 1_048_576;

/// Whether no file is too long.
pub fn are_short(start: &[Bytes]) -> bool
    ensures { IsTrue result ↔ All (λ bytes. length bytes ≤ file_limit) start.now }
{
    start.iter().all(|bytes| bytes.len() <= MOST_BYTES)
}

fn is_told(told: &TraceEnd, end: &CoreEnd) -> bool
    ensures { result ≡ is_told told.now end.now }
{
    told.word == end.word
        && told.steps == end.steps
        && told.output.as_slice() == end.output.as_slice()
}

/// Whether there are as many, and the trace tells the word, the steps and the output of each.
pub fn are_told(told: &[TraceEnd], ends: &[CoreEnd]) -> bool
    ensures { IsTrue result ↔ AreTold told.now ends.now }
{
    if told.len() != ends.len() {
        return false;
    }
    for (core, one) in told.iter().enumerate() {
        if !is_told(one, &ends[core]) {
            return false;
        }
    }
    true
}
