//! The table: a slot for each number that lives, and the values at the places of a slab.

ghost use Rattle.std.specs.Prelude.{◌≡◌, ◌+◌, ◌^◌, ◌<◌, ◌≤◌, ◌↔◌, [], ◌∷◌, ◌++◌, length, slice_set};
ghost use Rattle.std.specs.Prelude.{IsSome, IsTrue, IfOk, OnOk, OnErr, Some, None, is_some, count_by, option_copied};
ghost use Rattle.std.specs.Borrow.{Lends, sem};
ghost use Rattle.birth_table.specs.Births.{item_at, with_value, with_left};

use crate::index::{self, GONE, NO_SLOT, Slot};
use crate::leaving::{self, Ends, MOST_LEFT, SPARE_SLOTS};
use ac_base::NoMemory;
use slab::Slab;
use std::alloc::Global;
use std::marker::Model;

// Room is made for so many values at least.
const AT_ONCE: u32 = 32;

/// Values at the numbers of their births. A number is given once, in order from 0. The place of a value
/// that is gone is used again, so that it takes memory for what lives.
///
/// A value that is gone may be left in its place, where the next one comes: at most 256 are.
#[derive(Drop)]
pub struct BirthTable<T> {
    // First those of numbers, by rising number; those of values that are gone are dropped at times. Then
    // those of values that were left.
    slots: Vec<Slot>,
    ends: Ends,
    // That of the number that was last asked for, which mostly is asked for again.
    recent: Slot,
    entries: Slab<T>,
    births: u64,
    // For so many further values there is room in both.
    spare: u32,
}

impl<T> Model for BirthTable<T> {
    ghost use Rattle.std.specs.Prelude.{take, vec_capacity};
    ghost use Rattle.birth_table.specs.Births.{Births, births_code};

    ghost Value = { Births T };

    ghost coded = { births_code T.code };

    ghost use Rattle.birth_table.specs.Kept.{items_of, value_at, left_at, IsKept};

    ghost view = { λ s. record {
      items = items_of (value_at (take s.ends.top s.slots.items) s.entries) s.births;
      left = left_at s.slots.items s.entries s.ends.top;
      spare = s.spare;
    } };

    ghost invariant = { λ s. IsKept s.slots.items s.ends s.recent (vec_capacity s.slots) s.entries s.births s.spare };
}

impl<T> BirthTable<T> {
    ghost use Rattle.birth_table.specs.contracts.table.BirthTable.{the_row};

    /// No values.
    pub fn new(alloc: Global) -> Self
        ensures items { result.items ≡ [] }
        ensures left { result.left ≡ None }
        ensures spare { result.spare ≡ 0 }
    {
        BirthTable {
            slots: Vec::new(alloc),
            ends: Ends { top: 0, gone: 0 },
            recent: NO_SLOT,
            entries: Slab::new(alloc),
            births: 0,
            spare: 0,
        }
    }

    /// How many were born.
    #[inline(always)]
    pub fn len(&self) -> u64
        ensures { result ≡ length self.now.items }
    {
        self.births
    }

    /// How many live.
    #[inline(always)]
    pub fn living(&self) -> usize
        ensures number { result ≡ count_by is_some self.now.items }
        ensures few { result + self.now.spare < 2 ^ 64 }
    {
        self.ends.top - self.ends.gone
    }

    /// Makes room for so many further values.
    #[inline(always)]
    pub fn reserve(&mut self, n: u32) -> Result<(), NoMemory>
        ensures items { self.new.items ≡ self.old.items }
        ensures ok { OnOk result (n ≤ self.new.spare) }
        ensures spare { self.old.spare ≤ self.new.spare }
        ensures full { OnErr result (self.old.spare < n) }
        ensures err { OnErr result (self.new ≡ self.old) }
    {
        if n <= self.spare {
            return Ok(());
        }
        self.make_room(n)
    }

    // The same where there is less room.
    #[inline(never)]
    fn make_room(&mut self, n: u32) -> Result<(), NoMemory>
        requires { self.old.spare < n }
        ensures items { self.new.items ≡ self.old.items }
        ensures ok { OnOk result (n ≤ self.new.spare) }
        ensures spare { self.old.spare ≤ self.new.spare }
        ensures err { OnErr result (self.new ≡ self.old) }
    {
        let more = n.max(AT_ONCE);
        if more as u64 > u64::MAX - self.births {
            return Err(NoMemory);
        }
        self.slots.reserve(more as usize)?;
        self.entries.reserve(more as usize)?;
        self.spare = more;
        Ok(())
    }

    /// Adds a value under the next number, and gives the number.
    #[inline(always)]
    pub fn push(&mut self, value: T) -> Result<u64, NoMemory>
    where
        T: Drop,
        ensures number { IfOk result (λ number. number ≡ length self.old.items) }
        ensures ok { OnOk result (self.new.items ≡ self.old.items ++ Some value ∷ []) }
        ensures spare { self.old.spare ≤ self.new.spare + 1 }
        ensures full { OnErr result (self.old.spare ≡ 0) }
        ensures err { OnErr result (self.new ≡ self.old) }
    {
        self.reserve(1)?;
        Ok(self.push_reserved(value))
    }

    /// Adds a value under the next number, in room that was reserved, and gives the number.
    #[inline(always)]
    pub fn push_reserved(&mut self, value: T) -> u64
    where
        T: Drop,
        requires { 0 < self.old.spare }
        ensures number { result ≡ length self.old.items }
        ensures items { self.new.items ≡ self.old.items ++ Some value ∷ [] }
        ensures spare { self.new.spare + 1 ≡ self.old.spare }
    {
        if !self.has_left() {
            return self.insert(value);
        }
        *self.left_mut() = value;
        self.push_left()
    }

    // The same where none is left.
    #[inline(never)]
    fn insert(&mut self, value: T) -> u64
        requires spare { 0 < self.old.spare }
        requires left { self.old.left ≡ None }
        ensures number { result ≡ length self.old.items }
        ensures items { self.new.items ≡ self.old.items ++ Some value ∷ [] }
        ensures spare { self.new.spare + 1 ≡ self.old.spare }
    {
        let number = self.births;
        let key = self.entries.insert_reserved(value);
        prove!(key < self.entries.capacity());
        let slot = Slot { number, key };
        index::put(&mut self.slots, self.ends.top, slot);
        self.recent = slot;
        self.ends.top += 1;
        self.births = number + 1;
        self.spare -= 1;
        number
    }

    /// Whether a value was left where the next one comes.
    #[inline(always)]
    pub fn has_left(&self) -> bool
        ensures { IsTrue result ↔ IsSome self.now.left }
    {
        self.ends.top < self.slots.len() && self.slots[self.ends.top].lives()
    }

    /// The value that was left.
    #[inline(always)]
    pub fn left_mut(&mut self) -> &mut T
        requires { IsSome self.old.left }
        ensures* writes_back { sem 𝓛 (Lends (the_row T.row) T.row self.entry result (with_left self.entry.now)) }
        ensures value { self.old.left ≡ Some result.now }
    {
        &mut self.entries[self.slots[self.ends.top].key]
    }

    /// Lets the value that was left live under the next number, in room that was reserved, and gives the
    /// number.
    #[inline(always)]
    pub fn push_left(&mut self) -> u64
        requires spare { 0 < self.old.spare }
        requires left { IsSome self.old.left }
        ensures number { result ≡ length self.old.items }
        ensures items { self.new.items ≡ self.old.items ++ self.old.left ∷ [] }
        ensures spare { self.new.spare + 1 ≡ self.old.spare }
    {
        let number = self.births;
        let slot = &mut self.slots[self.ends.top];
        slot.number = number;
        self.recent = *slot;
        self.ends.top += 1;
        self.births = number + 1;
        self.spare -= 1;
        number
    }

    /// What stands at that number.
    #[inline(always)]
    pub fn get(&self, number: u64) -> Option<&T>
        ensures { option_copied result ≡ item_at self.now number }
    {
        let key = index::key_near(&self.slots[..self.ends.top], &self.recent, number);
        prove!(self.entries.capacity() <= GONE);
        self.entries.get(key)
    }

    /// Whether a look at that number is quick now. Any answer is right.
    #[inline(always)]
    pub fn is_near(&self, number: u64) -> bool {
        self.recent.number == number
    }

    /// Makes looks at a number quick until another is asked for.
    #[inline(always)]
    pub fn look_at(&mut self, number: u64)
        ensures { self.new ≡ self.old }
    {
        index::look_if(&self.slots[..self.ends.top], &mut self.recent, number);
    }

    /// The value at that number.
    #[inline(always)]
    pub fn value_mut(&mut self, number: u64) -> &mut T
        requires { IsSome (item_at self.old number) }
        ensures* writes_back { sem 𝓛 (Lends (the_row T.row) T.row self.entry result (with_value self.entry.now number)) }
        ensures value { item_at self.old number ≡ Some result.now }
    {
        index::look(&self.slots[..self.ends.top], &mut self.recent, number);
        &mut self.entries[self.recent.key]
    }

    /// The value at that number is gone. It may be left for the next one.
    #[inline(always)]
    pub fn give_back(&mut self, number: u64)
    where
        T: Drop,
        requires { IsSome (item_at self.old number) }
        ensures items { self.new.items ≡ slice_set self.old.items number None }
        ensures spare { self.new.spare ≡ self.old.spare }
    {
        let last = self.ends.top - 1;
        if self.slots[last].number != number
            || self.slots.len() > last + MOST_LEFT
            || self.ends.gone > SPARE_SLOTS
        {
            self.take_away(number);
            return;
        }
        self.ends.top = last;
        self.recent = index::last_slot(&self.slots[..last]);
    }

    // The same for any number, where as many are left as may be, and where slots are to be dropped.
    #[inline(never)]
    fn take_away(&mut self, number: u64)
    where
        T: Drop,
        requires { IsSome (item_at self.old number) }
        ensures items { self.new.items ≡ slice_set self.old.items number None }
        ensures spare { self.new.spare ≡ self.old.spare }
    {
        self.ends = leaving::take_away(&mut self.slots, &mut self.entries, self.ends, number);
        self.recent = index::last_slot(&self.slots[..self.ends.top]);
    }
}
