//! Objects in memory that never fail.

ghost use Rattle.std.specs.Prelude.{◌≡◌, ◌+◌, ◌<◌, [], ◌++◌, length, take, IsTrue, IsOkAnd, IfOk, Ok, Some};
ghost use Rattle.std.specs.Prelude.{None, is_some, ◌||◌, nat_lt, unwrap_or, if◌then◌else◌, refl, false};
ghost use Rattle.std.specs.Io.{WritesAtMost};
ghost use Rattle.std.specs.Option.{option_copied};
ghost use Rattle.ac_outside.specs.Told.{WriteTook, one_more};
ghost use Rattle.ac_outside.specs.Views.{told_by_safe, told_by_kept};
ghost use Rattle.ac_outside.specs.Causes.{HasCause};
ghost use Rattle.ac_outside.specs.Texts.{text_of, TakesFront, with_name};

use crate::failed::Failed;
use crate::library::Library;
use crate::names::Names;
use crate::shelf::{NamedBytes, Shelf};
use crate::sink::Sink;
use ac_base::{Bytes, List, NoMemory};
use std::alloc::Global;
use std::marker::Model;

/// A library in memory that never fails. A name that it does not hold opens the empty text. It tells
/// the names that it was asked for, up to sixteen, each of at most 4,096 bytes.
#[derive(Debug, Drop)]
pub struct SafeLibrary {
    shelf: Shelf,
    opens: u64,
    reads: u64,
    names: Names,
}

impl Model for SafeLibrary {
    ghost use Rattle.ac_outside.specs.Views.{SafeTexts};

    ghost Value = { SafeTexts };

    ghost view = { λ s. record { texts = s.shelf.texts; left = s.shelf.left; opens = s.opens; reads = s.reads; names = s.names } };
}

impl SafeLibrary {
    /// A library of these texts, none of them open.
    pub fn new(texts: List<NamedBytes>) -> Result<SafeLibrary, NoMemory>
        ensures { IfOk result (λ library. library ≡ record { texts = texts; left = None; opens = 0; reads = 0; names = Some [] }) }
    {
        let texts = texts.into_vec();
        let names = Names::new(*texts.allocator())?;
        Ok(SafeLibrary {
            shelf: Shelf::new(List::from_vec(texts)),
            opens: 0,
            reads: 0,
            names,
        })
    }

    /// The names that it was asked for, in order. None once one more than sixteen was asked for, or one
    /// of more than 4,096 bytes.
    pub fn names(&self) -> Option<&[Bytes]>
        ensures { option_copied result ≡ self.now.names }
    {
        self.names.noted()
    }

    /// The number of calls of `open_text` so far.
    pub fn opens(&self) -> u64
        ensures { result ≡ self.now.opens }
    {
        self.opens
    }
}

impl Library for SafeLibrary {
    ghost told = { told_by_safe };

    ghost tells_opens = { λ _ _ _. refl };

    ghost tells_reads = { λ _ _ _. refl };

    fn open_text(&mut self, name: &str) -> Result<(), Failed>
        ensures well { result ≡ Ok tt }
        ensures after { self.new ≡
            record self.old {
              left = Some (unwrap_or (text_of self.old.texts name.now) []);
              opens = one_more self.old.opens;
              names = with_name self.old.names name.now;
            } }
    {
        self.opens = self.opens.saturating_add(1);
        self.names.note(name.as_bytes());
        if !self.shelf.open(name.as_bytes()) {
            self.shelf.open_empty();
        }
        Ok(())
    }

    fn read(&mut self, into: &mut [u8]) -> Result<usize, Failed>
        requires { IsTrue (is_some self.old.left) }
        ensures front { IsOkAnd result (TakesFront self.old.left self.new.left into.old into.new) }
        ensures after { self.new ≡ record self.old { left = self.new.left; reads = one_more self.old.reads } }
    {
        self.reads = self.reads.saturating_add(1);
        Ok(self.shelf.read(into))
    }
}

/// The number of bytes that a `SafeSink` keeps: 80 MiB.
pub const KEPT: usize = 83_886_080;

/// A sink in memory that never fails. It keeps the first 80 MiB that it is given; once it was given
/// more it takes that all the same, and does not tell what it holds.
#[derive(Debug, Drop)]
pub struct SafeSink {
    taken: Vec<u8>,
    is_over: bool,
}

impl Model for SafeSink {
    ghost use Rattle.std.specs.Prelude.{◌≡◌, ◌≤◌, IsTrue, vec_len, vec_capacity};
    ghost use Rattle.ac_outside.specs.declared.safe.TheConstants.{KEPT};
    ghost use Rattle.ac_outside.specs.Views.{KeptBytes};

    ghost Value = { KeptBytes };

    ghost view = { λ s. record { taken = s.taken.items; is_over = s.is_over } };

    ghost invariant = { λ s. (vec_len s.taken ≤ KEPT) × (KEPT ≤ vec_capacity s.taken) × (IsTrue s.is_over → vec_len s.taken ≡ KEPT) };
}

impl SafeSink {
    /// A sink that takes its 80 MiB from the allocator at once.
    pub fn new(alloc: Global) -> Result<SafeSink, NoMemory>
        ensures { IfOk result (λ sink. sink ≡ record { taken = []; is_over = false }) }
    {
        Ok(SafeSink {
            taken: Vec::with_capacity(alloc, KEPT)?,
            is_over: false,
        })
    }

    /// The first bytes that it was given: all of them, unless it was given more than it keeps.
    pub fn taken(&self) -> &[u8]
        ensures { result.now ≡ self.now.taken }
    {
        self.taken.as_slice()
    }

    /// Whether it was given more than it keeps.
    pub fn is_over(&self) -> bool
        ensures value { result ≡ self.now.is_over }
        ensures full { IsTrue result → length self.now.taken ≡ KEPT }
    {
        self.is_over
    }
}

impl Sink for SafeSink {
    ghost told = { told_by_kept };

    fn write(&mut self, piece: &[u8]) -> Result<usize, Failed>
        ensures bound { WritesAtMost result piece.now }
        ensures moves { IfOk result (λ n. 0 < length piece.now → 0 < n) }
        ensures bytes { WriteTook (if self.old.is_over then None else Some self.old.taken)
            (if self.new.is_over then None else Some self.new.taken) result piece.now }
        ensures cause { HasCause 0 0 result }

        // It takes the whole piece, and keeps what is among the first bytes.
        ensures all { result ≡ Ok (length piece.now) }
        ensures taken { self.new.taken ≡ take KEPT (self.old.taken ++ piece.now) }
        ensures over { self.new.is_over ≡ (self.old.is_over || nat_lt KEPT (length self.old.taken + length piece.now)) }
    {
        let count = piece.len().min(KEPT - self.taken.len());
        self.taken.extend_from_slice(&piece[..count]).unwrap();
        if count < piece.len() {
            self.is_over = true;
        }
        Ok(piece.len())
    }
}
