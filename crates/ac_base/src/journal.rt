//! A party's journal.

ghost use Rattle.std.specs.Prelude.{◌≡◌, ◌+◌, [], ◌∷◌, ◌++◌, ◌<◌, ◌≤◌, ◌^◌, length, slice_get, OnOk, IfOk, Some};
ghost use Rattle.ac_base.specs.Done.{is_done_on};
ghost use Rattle.ac_base.specs.declared.entry.Entry.{Entry};

use crate::draft::Draft;
use crate::entry::Entry;
use crate::list::List;
use crate::memory::NoMemory;
use crate::stored::{MOST_FURTHER, StoredEntry, StoredEvent};
use std::alloc::Global;
use std::marker::Model;

// For so many entries room is made at once, so that few calls ask for it.
const AT_ONCE: u32 = 16;

/// A party's entries in the order in which it made them. Those ints of a message that come after its
/// first stand in a list beside them, so that a message takes no more memory than it has ints.
///
/// Contracts see the entries, and the spare: the number of entries for which there is room.
#[derive(Debug, Drop)]
pub struct Journal {
    entries: Draft<StoredEntry>,
    further: Draft<i64>,
    // Each list has room for so many entries more.
    spare: u64,
}

impl Model for Journal {
    ghost use Rattle.std.specs.Prelude.{◌*◌, ◌≤◌};
    ghost use Rattle.ac_base.specs.Log.{Log};

    ghost Value = { Log };

    ghost use Rattle.ac_base.specs.Stored.{entries_from, HaveInts};

    ghost view = { λ j. record { entries = entries_from j.further.0 j.entries.0; spare = j.spare } };

    ghost invariant = { λ j. HaveInts j.further.0 j.entries.0 × (j.spare ≤ j.entries.1) × (15 * j.spare ≤ j.further.1) };
}

impl Journal {
    /// A journal without entries.
    pub fn new(alloc: Global) -> Journal
        ensures { result.entries ≡ [] }
    {
        Journal {
            entries: Draft::new(alloc),
            further: Draft::new(alloc),
            spare: 0,
        }
    }

    /// Makes the spare at least n. After want of memory the entries are as before.
    pub fn reserve(&mut self, n: u32) -> Result<(), NoMemory>
        ensures entries { self.new.entries ≡ self.old.entries }
        ensures spare { OnOk result (n ≤ self.new.spare) }
        ensures kept { self.old.spare ≤ self.new.spare }
    {
        if self.spare < u64::from(n) {
            let more = u64::from(n.max(AT_ONCE));
            self.entries.reserve(more)?;
            self.further.reserve(MOST_FURTHER * more)?;
            self.spare = more;
        }
        Ok(())
    }

    /// Appends an entry and takes no memory.
    pub fn push(&mut self, entry: Entry)
        requires { 0 < self.old.spare }
        ensures entries { self.new.entries ≡ self.old.entries ++ entry ∷ [] }
        ensures spare { self.new.spare + 1 ≡ self.old.spare }
    {
        let Entry { stamp, turn, event } = entry;
        let event = StoredEvent::of(event, &mut self.further);
        self.entries.push(StoredEntry { stamp, turn, event });
        self.spare -= 1;
    }

    /// The number of entries.
    pub fn len(&self) -> u64
        ensures same { result ≡ length self.now.entries }
        ensures few { result < 2 ^ 63 }
    {
        self.entries.as_slice().len() as u64
    }

    /// The entry at a place, counted from 0, with a copy of its bytes.
    pub fn get(&self, alloc: Global, place: u64) -> Result<Entry, NoMemory>
        requires { place < length self.now.entries }
        ensures { IfOk result (λ it. slice_get self.now.entries place ≡ Some it) }
    {
        let stored = self.entries.get(place);
        Ok(Entry {
            stamp: stored.stamp,
            turn: stored.turn,
            event: stored.event.event(alloc, &self.further)?,
        })
    }

    /// Whether the entry at a place, counted from 0, says that a request of this link was done.
    pub fn is_done_on(&self, place: u64, link: u32) -> bool
        requires { place < length self.now.entries }
        ensures { (e : Entry) → slice_get self.now.entries place ≡ Some e → result ≡ is_done_on link e.event }
    {
        self.entries.get(place).event.is_done_on(link)
    }

    /// The entries, as a list.
    pub fn to_list(&self, alloc: Global) -> Result<List<Entry>, NoMemory>
        ensures { IfOk result (λ it. it ≡ self.now.entries) }
    {
        let mut entries = List::new(alloc);
        for place in 0..self.len() {
            entries.push(self.get(alloc, place)?)?;
        }
        Ok(entries)
    }
}
