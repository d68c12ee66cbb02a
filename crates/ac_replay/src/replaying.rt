//! The cores of a code, each under its journal in a trace.

ghost use Rattle.std.specs.Prelude.{◌≡◌, ◌<◌, ◌∷◌, ◌++◌, [], length, IfOk, OnOk, Some};
ghost use Rattle.ac_commands.specs.declared.program.Resolved.{Resolved};
ghost use Rattle.ac_translation.specs.Same.{IsSame};
ghost use Rattle.ac_translation.specs.Translation.{code_of};
ghost use Rattle.ac_replay.specs.Replaying.{AreReplayed};
ghost use Rattle.code_meaning.specs.Machine.{Runs};
ghost use Rattle.replay_laws.specs.Given.{HasRun};
ghost use Rattle.trace_audit.specs.RunTrace.{IsRunTrace, journal_of};

use ac_base::{Journal, List, MachineEnd, NoMemory, Stamped};
use core_replay::{Followed, Replay};
use stack_code::Code;
use std::alloc::Global;
use trace_text::Trace;

// Adds the entry to the journal of a core, if it is one of the core.
fn add_entry(
    alloc: Global,
    core: u32,
    stamped: &Stamped,
    journal: &mut Journal,
) -> Result<(), NoMemory>
    ensures { OnOk result (journal.new.entries ≡ journal.old.entries ++ journal_of core (stamped.now ∷ [])) }
{
    if stamped.party != core {
        return Ok(());
    }
    let entry = stamped.entry.copy(alloc)?;
    journal.reserve(1)?;
    journal.push(entry);
    Ok(())
}

// The entries of a core, in their order.
fn journal_of(alloc: Global, core: u32, entries: &[Stamped]) -> Result<Journal, NoMemory>
    ensures { IfOk result (λ it. it.entries ≡ journal_of core entries.now) }
{
    let mut journal = Journal::new(alloc);
    for stamped in entries {
        add_entry(alloc, core, stamped, &mut journal)?;
    }
    Ok(journal)
}

// How a core ends under its journal in the trace.
//
// Condition: the journal has a run.
fn end_of(alloc: Global, code: &Code, core: u32, trace: &Trace) -> Result<MachineEnd, NoMemory>
    requires core { core < length code.now.entries }
    requires run { HasRun code.now core trace.now.steps (journal_of core trace.now.entries) }
    ensures { IfOk result (λ end. Runs code.now core trace.now.steps (journal_of core trace.now.entries)
        (record { core = Some end.core; count = end.instructions })) }
{
    let journal = journal_of(alloc, core, trace.entries.as_slice())?;
    let mut replay = Replay::new(alloc, code, core, trace.steps)?;
    match replay.follow(&journal)? {
        Followed::Done => replay.machine_end(alloc),
        Followed::Misfit { .. } => unreachable!(),
    }
}

/// How the cores of a program end whose trace this is.
///
/// Condition: the code is that of a program of which the trace is a run.
pub fn ends_of(alloc: Global, code: &Code, trace: &Trace) -> Result<List<MachineEnd>, NoMemory>
    requires { (program : Resolved) × (code.now ≡ code_of program) × IsSame code.now program × IsRunTrace program trace.now }
    ensures { IfOk result (λ ends. (program : Resolved) → code.now ≡ code_of program → AreReplayed program trace.now ends) }
{
    // A code is valid, so its cores are few.
    let _instrs = code.instrs();
    let cores = code.entries().len() as u32;
    let mut ends = List::new(alloc);
    for core in 0..cores {
        ends.push(end_of(alloc, code, core, trace)?)?;
    }
    Ok(ends)
}
