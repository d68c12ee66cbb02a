//! Objects in memory that fail where they are told to.

ghost use Rattle.std.specs.Prelude.{◌≡◌, ◌-◌, ◌<◌, ◌≤◌, ◌↔◌, ◌⊎◌, [], ◌++◌, length, take, min, Contains, IsTrue};
ghost use Rattle.std.specs.Prelude.{IfOk, OnOk, OnErr, IfSome, Some, None, is_some, is_err, if◌then◌else◌, refl};
ghost use Rattle.std.specs.Io.{ReadsAtMost, WritesAtMost};
ghost use Rattle.std.specs.Io.KnownBytes.{ReadConsumes};
ghost use Rattle.std.specs.Option.{option_copied};
ghost use Rattle.ac_outside.specs.Told.{CountsOne, OpenedJust, OpenedNone, WriteTook, one_more};
ghost use Rattle.ac_outside.specs.Views.{told_by_failing, told_by_roomy};
ghost use Rattle.ac_outside.specs.Causes.{HasCause};
ghost use Rattle.ac_outside.specs.Texts.{text_of, TakesFront, with_name};

use crate::failed::Failed;
use crate::library::Library;
use crate::names::Names;
use crate::shelf::{NamedBytes, Shelf};
use crate::sink::Sink;
use ac_base::{Bytes, List, NoMemory};
use std::alloc::Global;
use std::marker::Model;

/// A library in memory that fails exactly in the listed calls, and in each `open_text` of a name
/// that it does not hold. Calls are numbered from 0, opens and reads together. It tells the names
/// that it was asked for, up to sixteen, each of at most 4,096 bytes.
#[derive(Debug, Drop)]
pub struct MemoryLibrary {
    shelf: Shelf,
    fails: List<u64>,
    calls: u64,
    opens: u64,
    reads: u64,
    names: Names,
    faults: u64,
}

impl Model for MemoryLibrary {
    ghost use Rattle.ac_outside.specs.Views.{FailingTexts};

    ghost Value = { FailingTexts };

    ghost view = { λ s.
        record {
          texts = s.shelf.texts;
          left = s.shelf.left;
          fails = s.fails;
          calls = s.calls;
          opens = s.opens;
          reads = s.reads;
          names = s.names;
          faults = s.faults;
        } };
}

impl MemoryLibrary {
    /// A library of these texts, none of them open, that fails in the calls of these numbers.
    pub fn new(texts: List<NamedBytes>, fails: List<u64>) -> Result<MemoryLibrary, NoMemory>
        ensures { IfOk result (λ library. library ≡
            record { texts = texts; left = None; fails = fails; calls = 0; opens = 0; reads = 0; names = Some []; faults = 0 }) }
    {
        let texts = texts.into_vec();
        let names = Names::new(*texts.allocator())?;
        Ok(MemoryLibrary {
            shelf: Shelf::new(List::from_vec(texts)),
            fails,
            calls: 0,
            opens: 0,
            reads: 0,
            names,
            faults: 0,
        })
    }

    /// The names that it was asked for, in order. None once one more than sixteen was asked for, or one
    /// of more than 4,096 bytes.
    pub fn names(&self) -> Option<&[Bytes]>
        ensures { option_copied result ≡ self.now.names }
    {
        self.names.noted()
    }

    /// The number of calls of `open_text` so far.
    pub fn opens(&self) -> u64
        ensures { result ≡ self.now.opens }
    {
        self.opens
    }

    /// The number of calls of `read` so far.
    pub fn reads(&self) -> u64
        ensures { result ≡ self.now.reads }
    {
        self.reads
    }

    /// The number of calls so far that have failed.
    pub fn faults(&self) -> u64
        ensures { result ≡ self.now.faults }
    {
        self.faults
    }

    // Counts a call, and a fault where it is a call that fails, and says whether it is.
    fn count_call(&mut self) -> bool
        ensures fails { IsTrue result ↔ Contains self.old.fails self.old.calls }
        ensures after { self.new ≡ record self.old {
          calls = one_more self.old.calls;
          faults = (if result then one_more self.old.faults else self.old.faults);
        } }
        ensures later { self.old.faults ≤ self.new.faults }
    {
        let fails = self.fails.as_slice().contains(&self.calls);
        self.calls = self.calls.saturating_add(1);
        if fails {
            self.faults = self.faults.saturating_add(1);
        }
        fails
    }
}

impl Library for MemoryLibrary {
    ghost told = { told_by_failing };

    ghost tells_opens = { λ _ _ _. refl };

    ghost tells_reads = { λ _ _ _. refl };

    fn open_text(&mut self, name: &str) -> Result<(), Failed>
        ensures same { text_of self.new.texts ≡ text_of self.old.texts }
        ensures opened { OnOk result (IsTrue (is_some self.new.left)) }
        ensures start { OnOk result (IfSome (text_of self.old.texts name.now) (λ text. self.new.left ≡ Some text)) }
        ensures still_open { OnErr result (is_some self.new.left ≡ is_some self.old.left) }
        ensures still_left { OnErr result (self.new.left ≡ self.old.left) }
        ensures just { OpenedJust (told_by_failing self.old) (told_by_failing self.new) name.now }
        ensures cause { HasCause self.old.faults self.new.faults result }

        // It fails exactly in the listed calls and where the name is not held.
        ensures exactly { IsTrue (is_err result) ↔ (Contains self.old.fails self.old.calls ⊎ (text_of self.old.texts name.now ≡ None)) }
        ensures ok { OnOk result (self.new ≡
            record self.old {
              left = text_of self.old.texts name.now;
              calls = one_more self.old.calls;
              opens = one_more self.old.opens;
              names = with_name self.old.names name.now;
            }) }
        ensures err { OnErr result (self.new ≡
            record self.old {
              calls = one_more self.old.calls;
              opens = one_more self.old.opens;
              names = with_name self.old.names name.now;
              faults = one_more self.old.faults;
            }) }
    {
        self.opens = self.opens.saturating_add(1);
        self.names.note(name.as_bytes());
        if self.count_call() {
            return Err(Failed);
        }
        if !self.shelf.open(name.as_bytes()) {
            self.faults = self.faults.saturating_add(1);
            return Err(Failed);
        }
        Ok(())
    }

    fn read(&mut self, into: &mut [u8]) -> Result<usize, Failed>
        requires { IsTrue (is_some self.old.left) }
        ensures same { text_of self.new.texts ≡ text_of self.old.texts }
        ensures still_open { IsTrue (is_some self.new.left) }
        ensures none { OpenedNone (told_by_failing self.old) (told_by_failing self.new) }
        ensures once { CountsOne (Some self.old.reads) (Some self.new.reads) }
        ensures bound { ReadsAtMost result into.new }
        ensures bytes { ReadConsumes self.old.left self.new.left result into.new }
        ensures cause { HasCause self.old.faults self.new.faults result }

        // It fails exactly in the listed calls.
        ensures exactly { IsTrue (is_err result) ↔ Contains self.old.fails self.old.calls }
        ensures err { OnErr result (self.new ≡
            record self.old { calls = one_more self.old.calls; reads = one_more self.old.reads; faults = one_more self.old.faults }) }
        ensures err_into { OnErr result (into.new ≡ into.old) }

        // It takes as much of what is left as fits.
        ensures ok { OnOk result (self.new ≡
            record self.old { left = self.new.left; calls = one_more self.old.calls; reads = one_more self.old.reads }) }
        ensures ok_front { IfOk result (λ n. TakesFront self.old.left self.new.left into.old into.new n) }
    {
        self.reads = self.reads.saturating_add(1);
        if self.count_call() {
            return Err(Failed);
        }
        Ok(self.shelf.read(into))
    }
}

/// A sink in memory that has room for so many bytes. It fails exactly at a piece that is not empty
/// once the room is used up.
#[derive(Debug, Drop)]
pub struct MemorySink {
    taken: Vec<u8>,
    room: u64,
    faults: u64,
}

impl Model for MemorySink {
    ghost use Rattle.std.specs.Prelude.{◌≤◌, vec_len, vec_capacity};
    ghost use Rattle.ac_outside.specs.Views.{RoomyBytes};

    ghost Value = { RoomyBytes };

    ghost view = { λ s. record { taken = s.taken.items; room = s.room; faults = s.faults } };

    ghost invariant = { λ s. (vec_len s.taken ≤ s.room) × (s.room ≤ vec_capacity s.taken) };
}

impl MemorySink {
    /// A sink with room for so many bytes, which it takes from the allocator at once.
    pub fn new(alloc: Global, room: u64) -> Result<MemorySink, NoMemory>
        ensures { IfOk result (λ sink. sink ≡ record { taken = []; room = room; faults = 0 }) }
    {
        Ok(MemorySink {
            taken: Vec::with_capacity(alloc, room as usize)?,
            room,
            faults: 0,
        })
    }

    /// The bytes that it has taken.
    pub fn taken(&self) -> &[u8]
        ensures { result.now ≡ self.now.taken }
    {
        self.taken.as_slice()
    }

    /// The number of calls so far that have failed.
    pub fn faults(&self) -> u64
        ensures { result ≡ self.now.faults }
    {
        self.faults
    }
}

impl Sink for MemorySink {
    ghost told = { told_by_roomy };

    fn write(&mut self, piece: &[u8]) -> Result<usize, Failed>
        ensures bound { WritesAtMost result piece.now }
        ensures moves { IfOk result (λ n. 0 < length piece.now → 0 < n) }
        ensures bytes { WriteTook (Some self.old.taken) (Some self.new.taken) result piece.now }
        ensures cause { HasCause self.old.faults self.new.faults result }

        // It fails exactly at a piece that is not empty once the room is used up.
        ensures exactly { IsTrue (is_err result) ↔ ((0 < length piece.now) × (self.old.room ≤ length self.old.taken)) }
        ensures err { OnErr result (self.new ≡ record self.old { faults = one_more self.old.faults }) }

        // It takes as much as it has room for.
        ensures ok_count { IfOk result (λ n. n ≡ min (length piece.now) (self.old.room - length self.old.taken)) }
        ensures ok { IfOk result (λ n. self.new ≡ record self.old { taken = self.old.taken ++ take n piece.now }) }
    {
        if piece.is_empty() {
            return Ok(0);
        }
        let used = self.taken.len() as u64;
        if used >= self.room {
            self.faults = self.faults.saturating_add(1);
            return Err(Failed);
        }
        let count = piece.len().min((self.room - used) as usize);
        self.taken.extend_from_slice(&piece[..count]).unwrap();
        Ok(count)
    }
}
