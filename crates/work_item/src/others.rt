//! Cells that are no ints, each with its index.

ghost use Rattle.std.specs.Prelude.{◌≡◌, ◌<◌, ◌≤◌, ◌+◌, ◌-◌, ◌^◌, ◌++◌, ℕ, List, OnOk, length, take, true, false};
ghost use Rattle.std.specs.Vec.{vec_len, vec_capacity};
ghost use Rattle.work_item.specs.declared.cell.Cell.{Cell};
ghost use Rattle.work_item.specs.Store.{cleared};
ghost use Rattle.work_item.specs.Cells.{others_from};
ghost use Rattle.work_item.specs.inner.Cells.{AreOthers, IsAt};

use crate::cell::Cell;
use ac_base::NoMemory;

/// A cell that is no int, at its index.
#[derive(Clone, Copy, Debug)]
pub(crate) struct Other {
    pub(crate) index: usize,
    pub(crate) cell: Cell,
}

// The place of the first of them that does not stand below an index, by rising index.
#[inline(never)]
fn search(others: &[Other], index: usize) -> usize
    requires { AreOthers others.now }
    ensures cut { (start : ℕ) (cells : List Cell) → others.now ≡ others_from start cells → start ≤ index
        → result ≡ length (others_from start (take (index - start) cells)) }
    ensures within { result ≤ length others.now }
{
    let mut low = 0;
    let mut high = others.len();
    while low < high {
        let middle = low + (high - low) / 2;
        if others[middle].index < index {
            low = middle + 1;
        } else {
            high = middle;
        }
    }
    low
}

/// How many of them stand below an index, by rising index. Mostly there are none, or all do, or none does.
#[inline(always)]
pub(crate) fn place_of(others: &[Other], index: usize) -> usize
    requires { AreOthers others.now }
    ensures cut { (start : ℕ) (cells : List Cell) → others.now ≡ others_from start cells → start ≤ index
        → result ≡ length (others_from start (take (index - start) cells)) }
    ensures within { result ≤ length others.now }
{
    let end = others.len();
    if end == 0 {
        return 0;
    }
    if index <= others[0].index {
        return 0;
    }
    if others[end - 1].index < index {
        return end;
    }
    search(others, index)
}

/// Whether the one at that place stands at an index.
#[inline(always)]
pub(crate) fn is_at(others: &[Other], place: usize, index: usize) -> bool
    ensures yes { result ≡ true → IsAt others.now place index }
    ensures no { result ≡ false → IsAt others.now place index → ⊥ }
{
    match others.get(place) {
        Some(other) => other.index == index,
        None => false,
    }
}

/// Makes room for one more, where there is none.
#[inline(always)]
pub(crate) fn make_room(others: &mut Vec<Other>) -> Result<(), NoMemory>
    ensures items { others.new.items ≡ others.old.items }
    ensures ok { OnOk result (vec_len others.new < vec_capacity others.new) }
{
    if others.len() == others.capacity() {
        others.reserve(1)?;
    }
    Ok(())
}

/// Makes room for so many more, which are mostly none.
#[inline(always)]
pub(crate) fn make_more(others: &mut Vec<Other>, count: usize) -> Result<(), NoMemory>
    ensures items { others.new.items ≡ others.old.items }
    ensures ok { OnOk result (vec_len others.new + count ≤ vec_capacity others.new) }
{
    if count > 0 {
        others.reserve(count)?;
    }
    Ok(())
}

/// Puts others at the end, for which there is room, each so far from one index as it was from the other.
#[inline(always)]
pub(crate) fn put_others(others: &mut Vec<Other>, more: &[Other], from: usize, to: usize)
    requires room { vec_len others.old + length more.now ≤ vec_capacity others.old }
    requires short { (cells : List Cell) × ((more.now ≡ others_from from cells) × (to + length cells < 2 ^ 64)) }
    ensures { (cells : List Cell) → more.now ≡ others_from from cells → others.new.items ≡ others.old.items ++ others_from to cells }
{
    for other in more {
        others.push_reserved(Other {
            index: to + (other.index - from),
            cell: other.cell,
        });
    }
}

/// Drops those from an index up to another one.
#[inline(always)]
pub(crate) fn clear_others(others: &mut Vec<Other>, start: usize, end: usize)
    requires { start ≤ end }
    ensures { (cells : List Cell) → others.old.items ≡ others_from 0 cells
        → others.new.items ≡ others_from 0 (cleared start (end - start) cells) }
{
    others.retain(|other| other.index < start || end <= other.index);
}
