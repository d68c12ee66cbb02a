//! The threads of a core.

ghost use Rattle.std.specs.Prelude.{◌≡◌, [], ◌∷◌, ◌++◌, length, IfOk, OnOk};
ghost use Rattle.ac_semantics.specs.Threads.{thread_at, none_within, woken, with_phase, is_among, is_within, is_inside, may_pass};
ghost use Rattle.ac_semantics.specs.Threads as s;
ghost use Rattle.ac_semantics.specs.Work.{given};
ghost use Rattle.ac_interpreter.specs.inner.Phases.{phase_of};

use ac_base::NoMemory;
use interpreter_state::{Datum, Operation};
use interpreter_steps::Agenda;
use std::alloc::Global;
use std::marker::Model;
use std::mem;
use work_item::{BlockId, Item};

#[derive(Clone, Copy)]
pub enum Phase {
    /// It runs, or is ready to.
    Active,
    AtFinish(BlockId),
    Ended,
}

/// A thread, the blocks round the place where it was started, the innermost first, and what it has still to do while another
/// runs.
#[derive(Drop)]
pub struct Thread<'a> {
    around: Vec<BlockId>,
    phase: Phase,
    work: Agenda<'a>,
}

impl<'a> Model for Thread<'a> {
    ghost use Rattle.ac_semantics.specs.Threads as s;
    ghost use Rattle.ac_semantics.specs.Work.{given};
    ghost use Rattle.ac_interpreter.specs.inner.Phases.{phase_of};
    ghost use Rattle.ac_commands.specs.contracts.value.Value as v;
    ghost use Rattle.ac_commands.specs.contracts.value.ValueLink as l;
    ghost use Rattle.ac_commands.specs.contracts.command.Command as e;
    ghost use Rattle.std.specs.Coded.{codes};

    ghost Value = { s.Thread };

    ghost coded = { Prim.hlevel (codes, v.the_row.coded, l.the_row.coded, e.the_row.coded) };

    ghost view = { λ t. record { around = t.around.items; phase = phase_of t.phase; work = t.work } };
}

fn is_among(block: BlockId, blocks: &[BlockId]) -> bool
    ensures { result ≡ is_among block blocks.now }
{
    for other in blocks {
        if other.number == block.number {
            return true;
        }
    }
    false
}

impl<'a> Thread<'a> {
    // A living thread that was started in the block, or in one that descends from it.
    fn is_within(&self, block: BlockId) -> bool
        ensures { result ≡ is_within block self.now }
    {
        !matches!(self.phase, Phase::Ended) && is_among(block, self.around.as_slice())
    }
}

/// The threads of a core, at their numbers.
#[derive(Drop)]
pub struct Threads<'a> {
    threads: Vec<Thread<'a>>,
}

impl<'a> Model for Threads<'a> {
    ghost use Rattle.std.specs.Prelude.{List};
    ghost use Rattle.ac_semantics.specs.Threads.{Thread};
    ghost use Rattle.ac_commands.specs.contracts.value.Value as v;
    ghost use Rattle.ac_commands.specs.contracts.value.ValueLink as l;
    ghost use Rattle.ac_commands.specs.contracts.command.Command as e;
    ghost use Rattle.std.specs.Coded.{codes};

    ghost Value = { List Thread };

    ghost coded = { Prim.hlevel (codes, v.the_row.coded, l.the_row.coded, e.the_row.coded) };

    ghost view = { λ t. t.threads.items };
}

impl<'a> Threads<'a> {
    /// No threads.
    pub fn new(alloc: Global) -> Threads<'a>
        ensures { result ≡ [] }
    {
        Threads {
            threads: Vec::new(alloc),
        }
    }

    /// A thread that is started within these blocks, under the next number.
    pub fn push(&mut self, around: Vec<BlockId>, work: Agenda<'a>) -> Result<Item, NoMemory>
        ensures number { IfOk result (λ item. item.number ≡ length self.old) }
        ensures threads { OnOk result (self.new ≡ self.old ++ record { around = around.items; phase = s.Active; work = work.entry } ∷ []) }
    {
        let item = Item {
            number: self.threads.len() as u64,
        };
        self.threads.push(Thread {
            around,
            phase: Phase::Active,
            work,
        })?;
        Ok(item)
    }

    /// A thread is in that phase, with that work.
    pub fn park(&mut self, item: Item, phase: Phase, work: Agenda<'a>)
        ensures { self.new ≡ with_phase self.old item (phase_of phase) work.entry }
    {
        let index = item.number as usize;
        if index < self.threads.len() {
            let thread = &mut self.threads[index];
            thread.phase = phase;
            let _ = mem::replace(&mut thread.work, work);
        }
    }

    /// An owner goes on.
    pub fn wake(&mut self, item: Item)
        ensures { self.new ≡ with_phase self.old item s.Active (thread_at self.old item).work }
    {
        let index = item.number as usize;
        if index < self.threads.len() {
            self.threads[index].phase = Phase::Active;
        }
    }

    /// A thread has the value for which it waits.
    pub fn give(&mut self, item: Item, value: Datum) -> Result<(), NoMemory>
        ensures { OnOk result (self.new ≡ with_phase self.old item s.Active (given value (thread_at self.old item).work)) }
    {
        let index = item.number as usize;
        if index < self.threads.len() {
            let thread = &mut self.threads[index];
            thread.phase = Phase::Active;
            thread.work.give(value)?;
        }
        Ok(())
    }

    /// The blocks round the place where a thread was started.
    pub fn around(&self, item: Item) -> &[BlockId]
        ensures { result.now ≡ (thread_at self.now item).around }
    {
        let index = item.number as usize;
        if index < self.threads.len() {
            self.threads[index].around.as_slice()
        } else {
            &[]
        }
    }

    /// What a thread has still to do.
    pub fn work(&self, alloc: Global, item: Item) -> Result<Agenda<'a>, NoMemory>
        ensures { IfOk result (λ work. work ≡ (thread_at self.now item).work) }
    {
        let index = item.number as usize;
        if index < self.threads.len() {
            self.threads[index].work.copy(alloc)
        } else {
            Ok(Agenda::new(alloc))
        }
    }

    /// Whether no living thread was started within a block.
    pub fn none_within(&self, block: BlockId) -> bool
        ensures { result ≡ none_within block self.now }
    {
        for thread in &self.threads {
            if thread.is_within(block) {
                return false;
            }
        }
        true
    }

    /// Whether the thread of an operation stands in a block, or in one that descends from it.
    pub fn is_inside(
        &self,
        alloc: Global,
        block: BlockId,
        operation: &Operation,
    ) -> Result<bool, NoMemory>
        ensures { IfOk result (λ inside. inside ≡ is_inside self.now block operation.now) }
    {
        let item = operation.item();
        let work = self.work(alloc, item)?;
        let path = work.closes(alloc, self.around(item))?;
        Ok(is_among(block, path.as_slice()))
    }

    // Whether a thread waits at a finish that would now pass.
    fn may_pass(&self, phase: Phase) -> bool
        ensures { result ≡ may_pass self.now (phase_of phase) }
    {
        match phase {
            Phase::AtFinish(block) => self.none_within(block),
            _ => false,
        }
    }

    /// The first thread that waits at a finish that would now pass.
    pub fn woken(&self) -> Option<Item>
        ensures { result ≡ woken self.now self.now 0 }
    {
        for index in 0..self.threads.len() {
            if self.may_pass(self.threads[index].phase) {
                return Some(Item {
                    number: index as u64,
                });
            }
        }
        None
    }
}
