//! The threads that do not run.

ghost use Rattle.std.specs.Prelude.{◌≡◌, ◌+◌, ◌<◌, ◌^◌, [], ◌∷◌, ◌++◌, true, false, Some, length, slice_set, OnOk, OnErr, IfOk};
ghost use Rattle.code_meaning.specs.Machine.{given, nobody, thread_at};
ghost use Rattle.thread_table.specs.Table.{HasPlace, living, with_given};

use crate::given::Given;
use crate::parked::Parked;
use ac_base::NoMemory;
use birth_table::BirthTable;
use std::alloc::Global;
use std::marker::Model;
use std::mem;
use work_item::{BlockId, Cell, Item};

/// The threads that do not run, at their numbers; one that runs or has ended has left nobody there.
/// They take memory for so many as live at once: the place of one that has ended is used again.
///
/// A value that a thread has been given is put onto its operands later, since that may take memory.
/// Contracts see each thread with what it was given, which have not ended, whether a value is still
/// to be put there, and the spare: the number of further threads for which there is room.
#[derive(Drop)]
pub struct ThreadTable {
    parked: BirthTable<Parked>,
    handed: Option<Given>,
    alloc: Global,
}

impl Model for ThreadTable {
    ghost use Rattle.std.specs.Prelude.{is_some, map};
    ghost use Rattle.thread_table.specs.Table.{Table, or_nobody, with_given};

    ghost Value = { Table };

    ghost view = { λ t. record {
      threads = map or_nobody (with_given t.parked.items t.handed);
      lives = map is_some (with_given t.parked.items t.handed);
      pending = is_some t.handed;
      spare = t.parked.spare;
    } };
}

// What was given goes onto the operands of its thread, where that has not ended.
fn put(parked: &mut BirthTable<Parked>, handed: Given) -> Result<(), NoMemory>
    ensures ok { OnOk result (parked.new.items ≡ with_given parked.old.items (Some handed)) }
    ensures err { OnErr result (parked.new.items ≡ parked.old.items) }
    ensures spare { parked.new.spare ≡ parked.old.spare }
{
    let number = handed.item.number;
    if parked.get(number).is_some() {
        parked.value_mut(number).give(handed.value)?;
    }
    Ok(())
}

impl ThreadTable {
    /// The one thread, which is to start at that address.
    pub fn new(alloc: Global, first: Parked) -> Result<ThreadTable, NoMemory>
        ensures threads { IfOk result (λ t. t.threads ≡ first ∷ []) }
        ensures lives { IfOk result (λ t. t.lives ≡ true ∷ []) }
        ensures pending { IfOk result (λ t. t.pending ≡ false) }
    {
        let mut parked = BirthTable::new(alloc);
        parked.push(first)?;
        Ok(ThreadTable {
            parked,
            handed: None,
            alloc,
        })
    }

    /// How many threads there have been.
    pub fn len(&self) -> u64
        ensures threads { result ≡ length self.now.threads }
        ensures lives { result ≡ length self.now.lives }
    {
        self.parked.len()
    }

    /// How many of them have not ended.
    pub fn living(&self) -> usize
        ensures number { result ≡ living self.now }
        ensures few { result + self.now.spare < 2 ^ 64 }
    {
        self.parked.living()
    }

    /// The innermost block round a thread, if there is one. A thread that runs or has ended has none
    /// here.
    pub fn block_of(&self, item: Item) -> Option<BlockId>
        ensures { result ≡ (thread_at self.now.threads item).block }
    {
        self.parked.get(item.number)?.block
    }

    /// Makes the spare positive. After want of memory all is as before.
    pub fn reserve(&mut self) -> Result<(), NoMemory>
        ensures threads { self.new.threads ≡ self.old.threads }
        ensures lives { self.new.lives ≡ self.old.lives }
        ensures pending { self.new.pending ≡ self.old.pending }
        ensures ok { OnOk result (0 < self.new.spare) }
    {
        self.parked.reserve(1)
    }

    /// Nobody at the next number, that of a thread that runs.
    ///
    /// Condition: the spare is positive, and no value is to be put onto operands.
    pub fn add(&mut self)
        requires spare { 0 < self.old.spare }
        requires settled { self.old.pending ≡ false }
        ensures threads { self.new.threads ≡ self.old.threads ++ nobody ∷ [] }
        ensures lives { self.new.lives ≡ self.old.lives ++ true ∷ [] }
        ensures pending { self.new.pending ≡ false }
        ensures spare { self.new.spare + 1 ≡ self.old.spare }
        ensures few { length self.new.threads < 2 ^ 64 }
    {
        self.parked.push_reserved(Parked::nobody(self.alloc));
        prove!(self.parked.len() <= u64::MAX);
    }

    /// A thread stops and is kept.
    ///
    /// Condition: it has not ended, and no value is to be put onto operands.
    #[inline(always)]
    pub fn keep(&mut self, item: Item, thread: Parked)
        requires place { HasPlace self.old item }
        requires settled { self.old.pending ≡ false }
        ensures threads { self.new.threads ≡ slice_set self.old.threads item.number thread }
        ensures lives { self.new.lives ≡ self.old.lives }
        ensures pending { self.new.pending ≡ false }
        ensures spare { self.new.spare ≡ self.old.spare }
    {
        *self.parked.value_mut(item.number) = thread;
    }

    /// A thread that is to run, which leaves nobody.
    ///
    /// Condition: it has not ended, and no value is to be put onto operands.
    #[inline(always)]
    pub fn take(&mut self, item: Item) -> Parked
        requires place { HasPlace self.old item }
        requires settled { self.old.pending ≡ false }
        ensures thread { result ≡ thread_at self.old.threads item }
        ensures threads { self.new.threads ≡ slice_set self.old.threads item.number nobody }
        ensures lives { self.new.lives ≡ self.old.lives }
        ensures pending { self.new.pending ≡ false }
        ensures spare { self.new.spare ≡ self.old.spare }
    {
        mem::replace(
            self.parked.value_mut(item.number),
            Parked::nobody(self.alloc),
        )
    }

    /// A thread has ended: its place is used again. Nobody stands at its number from now on.
    ///
    /// Condition: it has not ended before, and no value is to be put onto operands.
    pub fn end(&mut self, item: Item)
        requires place { HasPlace self.old item }
        requires settled { self.old.pending ≡ false }
        ensures threads { self.new.threads ≡ slice_set self.old.threads item.number nobody }
        ensures lives { self.new.lives ≡ slice_set self.old.lives item.number false }
        ensures pending { self.new.pending ≡ false }
        ensures spare { self.new.spare ≡ self.old.spare }
    {
        self.parked.give_back(item.number);
    }

    /// A thread has the value of its operation, on top of its operands, where it has not ended. It
    /// takes no memory.
    ///
    /// Condition: no value is to be put onto operands.
    pub fn give(&mut self, item: Item, value: Cell)
        requires { self.old.pending ≡ false }
        ensures threads { HasPlace self.old item → self.new.threads
            ≡ slice_set self.old.threads item.number (given value (thread_at self.old.threads item)) }
        ensures ended { (HasPlace self.old item → ⊥) → self.new.threads ≡ self.old.threads }
        ensures lives { self.new.lives ≡ self.old.lives }
        ensures pending { self.new.pending ≡ true }
        ensures spare { self.new.spare ≡ self.old.spare }
    {
        self.handed = Some(Given { item, value });
    }

    /// Puts what was given onto the operands of its thread. After want of memory it is still to be
    /// put there.
    #[inline(always)]
    pub fn settle(&mut self) -> Result<(), NoMemory>
        ensures threads { self.new.threads ≡ self.old.threads }
        ensures lives { self.new.lives ≡ self.old.lives }
        ensures ok { OnOk result (self.new.pending ≡ false) }
        ensures err { OnErr result (self.new.pending ≡ self.old.pending) }
    {
        if self.handed.is_none() {
            return Ok(());
        }
        self.put_there()
    }

    // The same where something was given.
    #[inline(never)]
    fn put_there(&mut self) -> Result<(), NoMemory>
        ensures threads { self.new.threads ≡ self.old.threads }
        ensures lives { self.new.lives ≡ self.old.lives }
        ensures ok { OnOk result (self.new.pending ≡ false) }
        ensures err { OnErr result (self.new.pending ≡ self.old.pending) }
    {
        let Some(handed) = self.handed else {
            return Ok(());
        };
        put(&mut self.parked, handed)?;
        self.handed = None;
        Ok(())
    }
}
