//! A core that takes the entries of a journal, one after the other.

ghost use Rattle.std.specs.Prelude.{◌≡◌, if◌then◌else◌};
ghost use Rattle.code_meaning.specs.Machine.{counted};

use crate::own_offers::OwnOffers;
use crate::search::{run_on, take_next};
use ac_base::{CoreEnd, Entry, Journal, MachineEnd, NoMemory};
use core_machine::CoreMachine;
use stack_code::Code;
use std::alloc::Global;
use std::marker::Model;

/// Whether a core has followed a journal to its end, or at which place, counted from 0, stands the
/// first entry with which it has no run.
#[derive(Clone, Copy, Debug, PartialEq, Eq)]
pub enum Followed {
    Done,
    Misfit { place: u64 },
}

// How many instructions were begun, with the cancel of a core that asks for an outcome.
fn begun(instructions: u64, asks: bool) -> u64
    ensures { result ≡ (if asks then counted instructions else instructions) }
{
    if asks {
        instructions.saturating_add(1)
    } else {
        instructions
    }
}

/// A core under a journal that is given.
///
/// Contracts see which core it is, the entries that it has taken, and whether it took each that it was
/// given.
#[derive(Drop)]
pub struct Replay<'a> {
    machine: CoreMachine<'a>,
    offers: OwnOffers,
    took_all: bool,
}

impl<'a> Model for Replay<'a> {
    ghost use Rattle.core_replay.specs.Replayed.{Replayed};
    ghost use Rattle.core_replay.specs.Standing.{IsReplayed};

    ghost Value = { Replayed };

    ghost view = { λ r. record {
      code = r.machine.code;
      core = r.machine.core;
      bound = r.machine.bound;
      journal = r.machine.journal;
      took_all = r.took_all;
    } };

    ghost invariant = { λ r. IsReplayed r.machine r.offers r.took_all };
}

impl<'a> Replay<'a> {
    ghost use Rattle.std.specs.Prelude.{◌≡◌, ℕ, ◌<◌, ◌++◌, ◌∷◌, [], length, true, false, IfOk, OnErr, Some};
    ghost use Rattle.code_meaning.specs.Machine.{Runs};
    ghost use Rattle.replay_laws.specs.Given.{HasRun};
    ghost use Rattle.core_replay.specs.Following.{Follows, IsFront};
    ghost use Rattle.core_replay.specs.Replayed.{IsSameCore};

    /// A core that has taken no entry.
    ///
    /// Condition: the code has this core.
    pub fn new(alloc: Global, code: &'a Code, core: u32, steps: u64) -> Result<Replay<'a>, NoMemory>
        requires { core < length code.now.entries }
        ensures code { IfOk result (λ r. r.code ≡ code.now) }
        ensures core { IfOk result (λ r. r.core ≡ core) }
        ensures bound { IfOk result (λ r. r.bound ≡ steps) }
        ensures journal { IfOk result (λ r. r.journal ≡ []) }
        ensures took_all { IfOk result (λ r. r.took_all ≡ true) }
    {
        let machine = CoreMachine::new(alloc, code, core, steps)?;
        Ok(Replay {
            machine,
            offers: OwnOffers::new(alloc),
            took_all: true,
        })
    }

    /// Takes the entry, and says whether it did: it does where the journal with it has a run. The core
    /// goes on to where the entry comes in, and no further. After want of memory it has not taken it.
    ///
    /// Condition: it took each entry that it was given before.
    pub fn take(&mut self, entry: &Entry) -> Result<bool, NoMemory>
        requires { self.old.took_all ≡ true }
        ensures same { IsSameCore self.old self.new }
        ensures took { IfOk result (λ b. b ≡ true → self.new.journal ≡ self.old.journal ++ entry.now ∷ []) }
        ensures stays { IfOk result (λ b. b ≡ false → self.new.journal ≡ self.old.journal) }
        ensures refused { IfOk result (λ b. b ≡ false
            → HasRun self.old.code self.old.core self.old.bound (self.old.journal ++ entry.now ∷ []) → ⊥) }
        ensures took_all { IfOk result (λ b. self.new.took_all ≡ b) }
        ensures err { OnErr result (self.new.journal ≡ self.old.journal) }
        ensures closed { OnErr result (self.new.took_all ≡ false) }
        ensures runs { HasRun self.new.code self.new.core self.new.bound self.new.journal }
    {
        self.took_all = false;
        let taken = take_next(&mut self.machine, &mut self.offers, entry);
        // Its end is there for the proof alone that the journal has a run.
        let _ending = self.machine.ending();
        let took = taken?;
        self.took_all = took;
        Ok(took)
    }

    /// Takes the entries of a journal in their order, up to the first that it refuses: it has a run
    /// under as many of them as it took, and under no more. After want of memory it has taken some of
    /// the first ones.
    ///
    /// Condition: it has taken no entry.
    pub fn follow(&mut self, journal: &Journal) -> Result<Followed, NoMemory>
        requires took_all { self.old.took_all ≡ true }
        requires new { self.old.journal ≡ [] }
        ensures same { IsSameCore self.old self.new }
        ensures follows { IfOk result (λ it. Follows self.old journal.now.entries it self.new.journal) }
        ensures err { OnErr result (IsFront journal.now.entries self.new.journal) }
        ensures runs { HasRun self.new.code self.new.core self.new.bound self.new.journal }
    {
        // They are there for the proof alone that the journals have runs, and that no longer one has.
        let _ending = self.machine.ending();
        let _instrs = self.machine.code().instrs();
        let _ranks = self.machine.code().ranks();
        let alloc = self.machine.alloc();
        for place in 0..journal.len() {
            let entry = journal.get(alloc, place)?;
            if !self.take(&entry)? {
                return Ok(Followed::Misfit { place });
            }
        }
        Ok(Followed::Done)
    }

    /// How the core ends, where no more entries come, and how many instructions it has begun.
    pub fn machine_end(self, alloc: Global) -> Result<MachineEnd, NoMemory>
        ensures { IfOk result (λ end. Runs self.entry.code self.entry.core self.entry.bound self.entry.journal
            (record { core = Some end.core; count = end.instructions })) }
    {
        let Replay { mut machine, .. } = self;
        run_on(&mut machine)?;
        // Both are there for the proof alone that this is the end of a run.
        let _ending = machine.ending();
        let _turn = machine.turns();
        let asks = machine.tried().is_some();
        let end = machine.end(alloc)?;
        let instructions = begun(end.instructions, asks);
        Ok(MachineEnd {
            core: end.core,
            instructions,
        })
    }

    /// How the core ends, where no more entries come.
    pub fn end(self, alloc: Global) -> Result<CoreEnd, NoMemory>
        ensures { IfOk result (λ end. (count : ℕ) × Runs self.entry.code self.entry.core self.entry.bound self.entry.journal
            (record { core = Some end; count = count })) }
    {
        let end = self.machine_end(alloc)?;
        Ok(end.core)
    }
}
