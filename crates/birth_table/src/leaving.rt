//! Values that go: what becomes of slots and of the slab.

ghost use Rattle.std.specs.Prelude.{◌≡◌, ◌+◌, ◌<◌, ◌≤◌, IsSome, true, take, length, filter, vec_capacity, count_by, ℕ};
ghost use Rattle.birth_table.specs.Keys.{lives, slot_at, key_of};
ghost use Rattle.birth_table.specs.Kept.{HaveKeys, AreBelow};
ghost use Rattle.birth_table.specs.inner.Slots.{IsRising, HaveSameKeys, IsWithout, AreFewer, Shrinks, emptied};

use crate::index::{self, GONE, Slot};
use slab::Slab;

/// So many slots of values that are gone are left beside as many as there are values.
pub(crate) const SPARE_SLOTS: usize = 32;

/// At most so many values that are gone are left for those to come.
pub(crate) const MOST_LEFT: usize = 256;

/// Where the slots of numbers end, and how many of them are of values that are gone.
#[derive(Clone, Copy)]
pub(crate) struct Ends {
    pub(crate) top: usize,
    pub(crate) gone: usize,
}

// Where the slots end when those at the end are left out whose values are gone.
fn trim(slots: &[Slot], top: usize) -> usize
    requires { top ≤ length slots.now }
    ensures below { result ≤ top }
    ensures keys { HaveSameKeys (take top slots.now) (take result slots.now) }
{
    let mut low = top;
    while low > 0 && !slots[low - 1].lives() {
        low -= 1;
    }
    low
}

// Drops all slots whose values are gone. It takes no memory.
fn squeeze(slots: &mut Vec<Slot>)
    ensures items { slots.new.items ≡ filter lives slots.old.items }
    ensures capacity { vec_capacity slots.new ≡ vec_capacity slots.old }
{
    slots.retain(|slot| slot.lives());
}

// Drops slots whose values are gone, so that few are left beside the values.
fn tidy(slots: &mut Vec<Slot>, ends: Ends) -> Ends
    requires { AreBelow slots.old.items ends }
    ensures ends { AreBelow slots.new.items result }
    ensures keys { HaveSameKeys (take ends.top slots.old.items) (take result.top slots.new.items) }
    ensures tight { result.gone ≤ count_by lives (take result.top slots.new.items) + 32 }
    ensures slots { AreFewer slots.old.items slots.new.items }
    ensures top { result.top ≤ ends.top }
    ensures capacity { vec_capacity slots.new ≡ vec_capacity slots.old }
{
    let top = trim(slots.as_slice(), ends.top);
    let gone = ends.gone - (ends.top - top);
    let values = top - gone;
    if gone <= values + SPARE_SLOTS {
        return Ends { top, gone };
    }
    squeeze(slots);
    Ends {
        top: values,
        gone: 0,
    }
}

// Takes a value out of the slab, and marks its slot.
fn empty<T: Drop>(slots: &mut Vec<Slot>, entries: &mut Slab<T>, place: usize)
    requires keys { HaveKeys slots.old.items entries.old }
    requires lives { lives (slot_at slots.old.items place) ≡ true }
    ensures items { slots.new.items ≡ emptied slots.old.items place }
    ensures keys { HaveKeys slots.new.items entries.new }
    ensures shrinks { Shrinks slots.old.items entries.old slots.new.items entries.new }
    ensures capacity { vec_capacity slots.new ≡ vec_capacity slots.old }
{
    let slot = &mut slots[place];
    let key = slot.key;
    slot.key = GONE;
    entries.remove(key);
}

// Ends the life of a number. The value of the last one is left in its place for the next; any other is
// taken out.
fn unlist<T: Drop>(slots: &mut Vec<Slot>, entries: &mut Slab<T>, ends: Ends, number: u64) -> Ends
    requires keys { HaveKeys slots.old.items entries.old }
    requires ends { AreBelow slots.old.items ends }
    requires rising { IsRising (take ends.top slots.old.items) }
    requires alive { IsSome (key_of (take ends.top slots.old.items) number) }
    ensures keys { HaveKeys slots.new.items entries.new }
    ensures ends { AreBelow slots.new.items result }
    ensures without { IsWithout (take ends.top slots.old.items) number (take result.top slots.new.items) }
    ensures shrinks { Shrinks slots.old.items entries.old slots.new.items entries.new }
    ensures top { result.top ≤ ends.top }
    ensures capacity { vec_capacity slots.new ≡ vec_capacity slots.old }
{
    let place = index::place_of(&slots[..ends.top], number).unwrap();
    if place + 1 == ends.top {
        return Ends {
            top: place,
            gone: ends.gone,
        };
    }
    empty(slots, entries, place);
    Ends {
        top: ends.top,
        gone: ends.gone + 1,
    }
}

// Drops the last slot, and what was left there.
fn drop_last<T: Drop>(slots: &mut Vec<Slot>, entries: &mut Slab<T>)
    requires keys { HaveKeys slots.old.items entries.old }
    requires some { 0 < length slots.old.items }
    ensures keys { HaveKeys slots.new.items entries.new }
    ensures shrinks { Shrinks slots.old.items entries.old slots.new.items entries.new }
    ensures items { (n : ℕ) → n < length slots.old.items → take n slots.new.items ≡ take n slots.old.items }
    ensures length { length slots.new.items + 1 ≡ length slots.old.items }
    ensures capacity { vec_capacity slots.new ≡ vec_capacity slots.old }
{
    let slot = slots.take_last();
    if slot.lives() {
        entries.remove(slot.key);
    }
}

// Drops what was left farthest from the next value, so that no more than some are left.
fn shed<T: Drop>(slots: &mut Vec<Slot>, entries: &mut Slab<T>, top: usize)
    requires keys { HaveKeys slots.old.items entries.old }
    requires top { top ≤ length slots.old.items }
    ensures keys { HaveKeys slots.new.items entries.new }
    ensures shrinks { Shrinks slots.old.items entries.old slots.new.items entries.new }
    ensures items { take top slots.new.items ≡ take top slots.old.items }
    ensures within { top ≤ length slots.new.items }
    ensures left { length slots.new.items ≤ top + 256 }
    ensures capacity { vec_capacity slots.new ≡ vec_capacity slots.old }
{
    while slots.len() > top + MOST_LEFT {
        drop_last(slots, entries);
    }
}

/// Ends the life of a number, and drops what is not to be left.
pub(crate) fn take_away<T: Drop>(
    slots: &mut Vec<Slot>,
    entries: &mut Slab<T>,
    ends: Ends,
    number: u64,
) -> Ends
    requires keys { HaveKeys slots.old.items entries.old }
    requires ends { AreBelow slots.old.items ends }
    requires rising { IsRising (take ends.top slots.old.items) }
    requires alive { IsSome (key_of (take ends.top slots.old.items) number) }
    ensures keys { HaveKeys slots.new.items entries.new }
    ensures ends { AreBelow slots.new.items result }
    ensures without { IsWithout (take ends.top slots.old.items) number (take result.top slots.new.items) }
    ensures shrinks { Shrinks slots.old.items entries.old slots.new.items entries.new }
    ensures tight { result.gone ≤ count_by lives (take result.top slots.new.items) + 32 }
    ensures left { length slots.new.items ≤ result.top + 256 }
    ensures top { result.top ≤ ends.top }
    ensures capacity { vec_capacity slots.new ≡ vec_capacity slots.old }
{
    let listed = unlist(slots, entries, ends, number);
    let ends = tidy(slots, listed);
    shed(slots, entries, ends.top);
    ends
}
