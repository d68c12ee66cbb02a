//! All cores of a code, each under the entries of its own.

ghost use Rattle.std.specs.Prelude.{◌≡◌, [], true, IfOk};
ghost use Rattle.trace_audit.specs.inner.Replaying.{AreReplays, TookAll, TakesEntry, AreEnds};

use ac_base::{CoreEnd, List, NoMemory, Stamped};
use core_replay::Replay;
use stack_code::Code;
use std::alloc::Global;

/// The cores in their order.
#[derive(Drop)]
pub struct Replays<'a> {
    pub cores: Vec<Replay<'a>>,
}

impl<'a> Replays<'a> {
    /// No core has made an entry.
    pub fn new(alloc: Global, code: &'a Code, steps: u64) -> Result<Replays<'a>, NoMemory>
        ensures cores { IfOk result (λ it. AreReplays code.now steps [] it.cores.items) }
        ensures took_all { IfOk result (λ it. TookAll it.cores.items) }
    {
        // A code is valid, so its cores are few.
        let _instrs = code.instrs();
        let many = code.entries().len() as u32;
        let mut cores = Vec::new(alloc);
        for core in 0..many {
            cores.push(Replay::new(alloc, code, core, steps)?)?;
        }
        Ok(Replays { cores })
    }

    /// Takes the entry, if it is the worker's, or its core has a run that goes on with it.
    ///
    /// Condition: each core took each entry that it was given before.
    pub fn step(&mut self, stamped: &Stamped) -> Result<bool, NoMemory>
        requires { TookAll self.old.cores.items }
        ensures takes { IfOk result (λ b. TakesEntry self.old.cores.items stamped.now b self.new.cores.items) }
        ensures took_all { IfOk result (λ b. b ≡ true → TookAll self.new.cores.items) }
    {
        match self.cores.get_mut(stamped.party as usize) {
            Some(core) => core.take(&stamped.entry),
            None => Ok(true),
        }
    }
}

/// How the cores end, where no more entries come.
pub fn ends_of(alloc: Global, replays: Replays<'_>) -> Result<List<CoreEnd>, NoMemory>
    ensures { IfOk result (λ ends. AreEnds replays.entry.cores.items ends) }
{
    let mut ends = List::new(alloc);
    for core in replays.cores {
        ends.push(core.end(alloc)?)?;
    }
    Ok(ends)
}
