//! A core that runs under a journal.

ghost use Rattle.std.specs.Prelude.{◌≡◌, ◌<◌, ◌≤◌, [], ℕ, length, take, drop, Some, None, IfOk};
ghost use Rattle.ac_base.specs.declared.ends.CoreEnd.{CoreEnd};
ghost use Rattle.ac_semantics.specs.Threads.{first_state};
ghost use Rattle.ac_interpreter.specs.Unfit.{RunEnds, IsUnfit};
ghost use Rattle.ac_interpreter.specs.inner.Cores.{state_of};
ghost use Rattle.ac_interpreter.specs.inner.Runs.{IsOver, IsStopped};
ghost use Rattle.ac_interpreter.specs.declared.replay.Run.TheVariants as r;

use crate::ending::Ending;
use crate::running::{InterpretedCore, begin_core};
use crate::turns::Came;
use ac_base::{CoreEnd, Entry, NoMemory};
use std::alloc::Global;

/// What has become of a run: its end, or the place of the first entry that does not fit or is left over.
#[derive(Drop)]
pub enum Run {
    Ends(CoreEnd),
    Misfit { place: u64 },
}

// The entries that have come in.
fn before(journal: &[Entry], taken: usize) -> &[Entry]
    requires { taken ≤ length journal.now }
    ensures { result.now ≡ take taken journal.now }
{
    &journal[..taken]
}

// The entries that are still to come.
fn after(journal: &[Entry], taken: usize) -> &[Entry]
    requires { taken ≤ length journal.now }
    ensures { result.now ≡ drop taken journal.now }
{
    &journal[taken..]
}

// Runs a core until it has ended or the next entry does not fit; how many have come in.
fn run_through(core: &mut InterpretedCore, ending: &Ending) -> Result<usize, NoMemory>
    requires program { core.old.program.now ≡ ending.now.program.now }
    requires bound { core.old.bound ≡ ending.now.bound }
    requires first { state_of core.old ≡ first_state ending.now.program.now ending.now.core ending.now.function.now [] }
    ensures within { IfOk result (λ taken. taken ≤ length ending.now.journal.now) }
    ensures over { IfOk result (λ taken. taken ≡ length ending.now.journal.now → IsOver ending.now core.new) }
    ensures stopped { IfOk result (λ taken. taken < length ending.now.journal.now → IsStopped ending.now taken) }
{
    let mut taken = 0;
    'turns: while core.ended.is_none() {
        match core.turn(before(ending.journal, taken), after(ending.journal, taken))? {
            Came::Nothing => {}
            Came::Entry => taken += 1,
            Came::Misfit => return Ok(taken),
        }
    }
    Ok(taken)
}

/// What becomes of the run of a core under its journal.
pub fn run_core(alloc: Global, ending: &Ending) -> Result<Run, NoMemory>
    ensures ends { IfOk result (λ run. (end : CoreEnd) → run ≡ r.Ends end
        → RunEnds ending.now.program.now ending.now.core ending.now.function.now ending.now.bound ending.now.journal.now (Some end)) }
    ensures unfit { IfOk result (λ run. (place : ℕ) → run ≡ r.Misfit place
        → IsUnfit ending.now.program.now ending.now.core ending.now.function.now ending.now.bound ending.now.journal.now place) }
    ensures none { IfOk result (λ run. (place : ℕ) → run ≡ r.Misfit place
        → RunEnds ending.now.program.now ending.now.core ending.now.function.now ending.now.bound ending.now.journal.now None) }
{
    let mut core = begin_core(
        alloc,
        ending.program,
        ending.core,
        ending.function,
        ending.bound,
    )?;
    let taken = run_through(&mut core, ending)?;
    if taken < ending.journal.len() {
        return Ok(Run::Misfit {
            place: taken as u64,
        });
    }
    Ok(Run::Ends(core.end()?))
}
