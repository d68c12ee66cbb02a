//! The slots of numbers: where the values stand.

ghost use Rattle.std.specs.Prelude.{◌≡◌, ◌<◌, ◌≤◌, IfSome, IfNone, IsSome, Some, None, length, vec_capacity};
ghost use Rattle.birth_table.specs.Keys.{lives, told, key_of, Tells};
ghost use Rattle.birth_table.specs.inner.Slots.{IsRising, LiesBetween, IsAt, put};

/// The key of a value, under its number.
#[derive(Clone, Copy)]
pub(crate) struct Slot {
    pub(crate) number: u64,
    // `GONE` once the value is gone.
    pub(crate) key: usize,
}

/// No value has this key.
pub(crate) const GONE: usize = usize::MAX;

/// The slot of no number.
pub(crate) const NO_SLOT: Slot = Slot {
    number: u64::MAX,
    key: GONE,
};

impl Slot {
    #[inline(always)]
    pub(crate) fn lives(&self) -> bool
        ensures { result ≡ lives self.now }
    {
        self.key < GONE
    }
}

// The place of a number that lies nowhere but between these two.
#[inline(never)]
fn search(slots: &[Slot], number: u64, low: usize, high: usize) -> Option<usize>
    requires rising { IsRising slots.now }
    requires order { low ≤ high }
    requires within { high < length slots.now }
    requires between { LiesBetween slots.now number low high }
    ensures found { IfSome result (λ place. IsAt slots.now number place) }
    ensures absent { IfNone result (key_of slots.now number ≡ None) }
{
    let mut low = low;
    let mut high = high;
    while low < high {
        let middle = low + (high - low) / 2;
        if slots[middle].number < number {
            low = middle + 1;
        } else {
            high = middle;
        }
    }
    if slots[low].number == number {
        Some(low)
    } else {
        None
    }
}

/// The place of a number, if it has a slot. As numbers rise strictly, it is no farther from either end
/// than the number from the one there. Mostly it is the last, or no number is missing before it or behind
/// it.
#[inline(always)]
pub(crate) fn place_of(slots: &[Slot], number: u64) -> Option<usize>
    requires { IsRising slots.now }
    ensures found { IfSome result (λ place. IsAt slots.now number place) }
    ensures absent { IfNone result (key_of slots.now number ≡ None) }
{
    if slots.is_empty() {
        return None;
    }
    let end = slots.len() - 1;
    let first = slots[0].number;
    let last = slots[end].number;
    if number == last {
        return Some(end);
    }
    if number < first || last < number {
        return None;
    }
    let ahead = number - first;
    let high = if ahead < end as u64 {
        ahead as usize
    } else {
        end
    };
    if slots[high].number == number {
        return Some(high);
    }
    let back = last - number;
    let low = if back < end as u64 {
        end - back as usize
    } else {
        0
    };
    if slots[low].number == number {
        return Some(low);
    }
    search(slots, number, low, high)
}

// The key of the value of that number, if it lives.
fn key_at(slots: &[Slot], number: u64) -> Option<usize>
    requires { IsRising slots.now }
    ensures { result ≡ key_of slots.now number }
{
    let place = place_of(slots, number)?;
    let slot = slots[place];
    if slot.lives() { Some(slot.key) } else { None }
}

// The key of the value of that number, and `GONE` where it does not live.
#[inline(never)]
fn key_or_gone(slots: &[Slot], number: u64) -> usize
    requires { IsRising slots.now }
    ensures { key_of slots.now number ≡ told (record { number = number; key = result }) }
{
    match key_at(slots, number) {
        Some(key) => key,
        None => GONE,
    }
}

/// The same, where it mostly is the number that was last asked for.
#[inline(always)]
pub(crate) fn key_near(slots: &[Slot], recent: &Slot, number: u64) -> usize
    requires rising { IsRising slots.now }
    requires seen { Tells slots.now recent.now }
    ensures { key_of slots.now number ≡ told (record { number = number; key = result }) }
{
    if recent.number == number {
        recent.key
    } else {
        key_or_gone(slots, number)
    }
}

// The slot of a number that lives.
#[inline(never)]
fn slot_of(slots: &[Slot], number: u64) -> Slot
    requires rising { IsRising slots.now }
    requires alive { IsSome (key_of slots.now number) }
    ensures number { result.number ≡ number }
    ensures key { key_of slots.now number ≡ Some result.key }
{
    slots[place_of(slots, number).unwrap()]
}

/// Looks for a number that lives, where it was not the last that was asked for.
#[inline(always)]
pub(crate) fn look(slots: &[Slot], recent: &mut Slot, number: u64)
    requires rising { IsRising slots.now }
    requires seen { Tells slots.now recent.old }
    requires alive { IsSome (key_of slots.now number) }
    ensures key { key_of slots.now number ≡ Some recent.new.key }
    ensures seen { Tells slots.now recent.new }
{
    if recent.number == number {
        return;
    }
    *recent = slot_of(slots, number);
}

/// Looks for a number that need not live, where it was not the last that was asked for.
#[inline(always)]
pub(crate) fn look_if(slots: &[Slot], recent: &mut Slot, number: u64)
    requires rising { IsRising slots.now }
    requires seen { Tells slots.now recent.old }
    ensures { Tells slots.now recent.new }
{
    if recent.number == number {
        return;
    }
    let key = key_or_gone(slots, number);
    *recent = Slot { number, key };
}

/// The last slot, if there is one.
#[inline(always)]
pub(crate) fn last_slot(slots: &[Slot]) -> Slot
    requires { IsRising slots.now }
    ensures { Tells slots.now result }
{
    if slots.is_empty() {
        NO_SLOT
    } else {
        slots[slots.len() - 1]
    }
}

/// Sets the slot at a place, or adds it behind the last.
pub(crate) fn put(slots: &mut Vec<Slot>, place: usize, slot: Slot)
    requires place { place ≤ length slots.old.items }
    requires room { place < vec_capacity slots.old }
    ensures items { slots.new.items ≡ put slots.old.items place slot }
    ensures capacity { vec_capacity slots.new ≡ vec_capacity slots.old }
{
    if place < slots.len() {
        slots[place] = slot;
    } else {
        slots.push_reserved(slot);
    }
}
