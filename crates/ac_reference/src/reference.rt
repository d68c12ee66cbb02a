//! The run of a core under a journal.

ghost use Rattle.std.specs.Prelude.{◌≡◌, ◌<◌, ◌^◌, ℕ, List, length, Option, Some, None, Err, IfOk};
ghost use Rattle.ac_base.specs.declared.ends.CoreEnd.{CoreEnd};
ghost use Rattle.ac_base.specs.declared.entry.Entry.{Entry};
ghost use Rattle.core_state.specs.Shared.{request_link};
ghost use Rattle.ac_commands.specs.declared.program.Function.{Function};
ghost use Rattle.ac_semantics.specs.Replay.{Enters, Replays};
ghost use Rattle.ac_names.specs.Numbered.{core_names};
ghost use Rattle.ac_resolve.specs.Resolution.{resolved};
ghost use Rattle.ac_compile.specs.OneEnd.{IsOnly};
ghost use Rattle.ac_reference.specs.declared.fault.ReplayFault.TheVariants.{Misfit};
ghost use Rattle.ac_reference.specs.Misfits.{IsMisfit};

use crate::fault::ReplayFault;
use ac_base::{CoreEnd, Journal};
use ac_commands::{Function, Resolved};
use ac_compile::compile;
use ac_interpreter::{Ending, Run, run_core};
use ac_resolve::resolve;
use ac_types::Checked;
use std::alloc::Global;

/// The slow interpreter of trees.
pub struct Reference;

// The function that a core enters.
fn entered(program: &Resolved, core: u32) -> &Function
    requires { (f : Function) × Enters program.now core f }
    ensures { Enters program.now core result.now }
{
    let number = u64::from(core);
    let core = program.cores.get(number);
    let entry = u64::from(core.entry);
    program.functions.get(entry)
}

// The run of a core of which it is known that it comes to one end and to no other.
fn replayed(
    alloc: Global,
    program: &Resolved,
    core: u32,
    steps: u64,
    journal: &Journal,
) -> Result<CoreEnd, ReplayFault>
    requires ends { (entries : List Entry) → IsOnly (λ (end : Option CoreEnd). Replays program.now core steps entries end) }
    requires link { request_link (length program.now.channels) core < 2 ^ 32 }
    ensures ok { IfOk result (λ end. Replays program.now core steps journal.now.entries (Some end)) }
    ensures none { (place : ℕ) → result ≡ Err (Misfit place) → Replays program.now core steps journal.now.entries None }
    ensures misfit { (place : ℕ) → result ≡ Err (Misfit place) → IsMisfit program.now core steps journal.now.entries place }
{
    let entered = entered(program, core);
    let entries = journal.to_list(alloc)?;
    let ending = Ending::new(program, core, entered, steps, entries.as_slice());
    match run_core(alloc, &ending)? {
        Run::Ends(end) => Ok(end),
        Run::Misfit { place } => Err(ReplayFault::Misfit { place }),
    }
}

impl Reference {
    /// What is seen of a core at the end of its run under a journal, with a bound on its steps; or the first entry that does
    /// not fit.
    ///
    /// Condition: the program has that core.
    pub fn replay(
        alloc: Global,
        checked: &Checked,
        core: u32,
        steps: u64,
        journal: &Journal,
    ) -> Result<CoreEnd, ReplayFault>
        requires { core < length (core_names checked.now.items) }
        ensures ok { IfOk result (λ end. Replays (resolved checked.now) core steps journal.now.entries (Some end)) }
        ensures none { (place : ℕ) → result ≡ Err (Misfit place)
            → Replays (resolved checked.now) core steps journal.now.entries None }
        ensures misfit { (place : ℕ) → result ≡ Err (Misfit place)
            → IsMisfit (resolved checked.now) core steps journal.now.entries place }
    {
        // The tree is small, and that the core comes to an end is known of its code.
        let _ = checked.tree();
        let _code = compile(alloc, checked)?;
        let program = resolve(alloc, checked)?;
        replayed(alloc, &program, core, steps, journal)
    }
}
