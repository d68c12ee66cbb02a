//! How the cores of a run end under the entries of a cut.

ghost use Rattle.std.specs.Prelude.{◌≡◌, suc, ◌<◌, length, take, IfOk};
ghost use Rattle.trace_audit.specs.RunTrace.{journal_of};
ghost use Rattle.ac_causal.specs.Run.{IsAudited};
ghost use Rattle.ac_causal.specs.inner.Standing.{RunsTo, AreRunsTo};

use ac_base::{CoreEnd, List, NoMemory};
use core_replay::Replay;
use stack_code::Code;
use std::alloc::Global;
use trace_text::Trace;

// How a core ends under its first so many entries of the trace.
fn state_of(
    alloc: Global,
    code: &Code,
    trace: &Trace,
    core: u32,
    count: u32,
) -> Result<CoreEnd, NoMemory>
    requires audited { IsAudited code.now trace.now }
    requires core { core < length code.now.entries }
    ensures { IfOk result (λ end. RunsTo code.now core trace.now.steps (take count (journal_of core trace.now.entries)) end) }
{
    // A code is valid and has ranks, so each front of a journal with a run has one.
    let _instrs = code.instrs();
    let _ranks = code.ranks();
    let mut replay = Replay::new(alloc, code, core, trace.steps)?;
    let entries = trace.entries.as_slice();
    let mut left = count;
    for stamped in entries {
        if stamped.party != core {
            continue;
        }
        if left == 0 {
            continue;
        }
        let _took = replay.take(&stamped.entry)?;
        left -= 1;
    }
    replay.end(alloc)
}

/// How each core ends under its entries of a cut.
pub fn states_of(
    alloc: Global,
    code: &Code,
    trace: &Trace,
    counts: &[u32],
) -> Result<List<CoreEnd>, NoMemory>
    requires audited { IsAudited code.now trace.now }
    requires counts { length counts.now ≡ suc (length code.now.entries) }
    ensures { IfOk result (λ ends. AreRunsTo code.now trace.now.steps trace.now.entries counts.now (length code.now.entries) ends) }
{
    // A code is valid, so its cores are few.
    let _instrs = code.instrs();
    let cores = code.entries().len() as u32;
    let mut ends = List::new(alloc);
    for core in 0..cores {
        ends.push(state_of(alloc, code, trace, core, counts[core as usize])?)?;
    }
    Ok(ends)
}
