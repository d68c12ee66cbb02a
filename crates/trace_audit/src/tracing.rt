//! The trace of a run that has ended.

ghost use Rattle.std.specs.Prelude.{◌≡◌, ◌≤◌, ◌^◌, length, map, IfOk};
ghost use Rattle.trace_audit.specs.Laws.{told_of, trace_of};

use ac_base::{Bytes, List, MachineEnd, NoMemory};
use ac_history::merge;
use program_run::Ended;
use std::alloc::Global;
use trace_text::{Trace, TraceEnd};

// Equal bytes of each file.
fn copies(alloc: Global, files: &[Bytes]) -> Result<List<Bytes>, NoMemory>
    ensures { IfOk result (λ all. all ≡ files.now) }
{
    let mut all = List::new(alloc);
    for file in files {
        all.push(file.copy(alloc)?)?;
    }
    Ok(all)
}

// What a trace tells of how a core has ended.
fn told_of(alloc: Global, end: &MachineEnd) -> Result<TraceEnd, NoMemory>
    ensures { IfOk result (λ told. told ≡ told_of end.now) }
{
    let output = end.core.output.copy(alloc)?;
    Ok(TraceEnd {
        word: end.core.word,
        steps: end.core.steps,
        output,
    })
}

fn all_told(alloc: Global, ends: &[MachineEnd]) -> Result<List<TraceEnd>, NoMemory>
    ensures { IfOk result (λ all. all ≡ map told_of ends.now) }
{
    let mut all = List::new(alloc);
    for end in ends {
        all.push(told_of(alloc, end)?)?;
    }
    Ok(all)
}

/// The trace of a run: its bound on steps, what its files held at the start, its journals merged by the
/// stamps of their entries, and what is told of the end of each core.
///
/// Condition: there are not more journals than parties have numbers.
pub fn trace_of(alloc: Global, ended: &Ended) -> Result<Trace, NoMemory>
    requires { length ended.now.journals ≤ 2 ^ 32 }
    ensures { IfOk result (λ t. t ≡ trace_of ended.now) }
{
    let start = copies(alloc, ended.start.as_slice())?;
    let entries = merge(alloc, &ended.journals)?;
    let ends = all_told(alloc, ended.cores.as_slice())?;
    Ok(Trace {
        steps: ended.steps,
        start,
        entries,
        ends,
    })
}
