//! The frames that live, each with the count of those that live in it.

ghost use Rattle.std.specs.Prelude.{◌≡◌, ◌+◌, ◌-◌, ◌^◌, ◌<◌, ◌≤◌, [], ◌∷◌, ◌++◌, length, replicate, true, false};
ghost use Rattle.std.specs.Prelude.{nat_lt, slice_index_or, slice_set, IsSome, IfOk, OnOk, OnErr, Some, None};
ghost use Rattle.work_item.specs.declared.cell.Cell.TheVariants as c;
ghost use Rattle.work_item.specs.Store.{all_words, no_cells, no_int, int_in, some_with, some_over, cleared, parent_or};
ghost use Rattle.work_item.specs.Table.{at, children_of};
ghost use Rattle.work_item.specs.inner.Kept.{parent_at, new_frame, is_done, is_alone, LivesIn, IsNew, AddsNew};
ghost use Rattle.work_item.specs.inner.Kept.{IsRooted, CanCountMore, CanCountLess, with_more, with_less, live_at};

use crate::cell::Cell;
use crate::cells::{CellPart, Cells};
use crate::ids::{BlockId, FrameId};
use ac_base::NoMemory;
use birth_table::BirthTable;
use std::alloc::Global;
use std::marker::Model;

// A frame that lives.
#[derive(Drop)]
struct Live {
    parent: Option<FrameId>,
    cells: Cells,
    over: bool,
    // How many frames that live lie directly in it.
    children: u64,
}

// The words of a frame beside its cells.
const HEAD_WORDS: u64 = 4;

// A small list of cells has room for so many at most.
const SPARE_CELLS: usize = 64;

/// The frames of a core, each at its number. They take memory for those that live.
///
/// Contracts see them as a list, in which one that is gone is none.
#[derive(Drop)]
pub struct Table {
    lives: BirthTable<Live>,
    // The words of those that live.
    words: u64,
}

impl Model for Table {
    ghost use Rattle.std.specs.Prelude.{List, Option};
    ghost use Rattle.work_item.specs.Store.{Frame};

    ghost Value = { List (Option Frame) };

    ghost use Rattle.work_item.specs.inner.Kept.{frames_of, IsSound};

    ghost view = { λ s. frames_of s.lives.items };

    ghost invariant = { λ s. IsSound s.lives.items s.words };
}

// Counts a frame in at its parent. The new one is the one that is asked for next.
#[inline(always)]
fn count_in(lives: &mut BirthTable<Live>, parent: Option<FrameId>, born: u64)
    requires { CanCountMore lives.old.items parent }
    ensures { lives.new.items ≡ with_more lives.old.items parent }
{
    let Some(parent) = parent else { return };
    count_more(lives, parent, born);
}

#[inline(never)]
fn count_more(lives: &mut BirthTable<Live>, parent: FrameId, born: u64)
    requires { CanCountMore lives.old.items (Some parent) }
    ensures { lives.new.items ≡ with_more lives.old.items (Some parent) }
{
    lives.value_mut(parent.number).children += 1;
    lives.look_at(born);
}

// Counts a frame out at its parent.
fn count_out(lives: &mut BirthTable<Live>, parent: Option<FrameId>)
    requires { CanCountLess lives.old.items parent }
    ensures { lives.new.items ≡ with_less lives.old.items parent }
{
    let Some(parent) = parent else { return };
    lives.value_mut(parent.number).children -= 1;
}

// A frame that lives.
#[inline(always)]
fn live_of<'a>(lives: &'a BirthTable<Live>, frame: FrameId) -> &'a Live
    requires { IsSome (live_at lives.now.items frame.number) }
    ensures { live_at lives.now.items frame.number ≡ Some result.now }
{
    match lives.get(frame.number) {
        Some(live) => live,
        None => unreachable!(),
    }
}

// Makes a new frame out of one that is gone. Mostly it has as many cells as that one had.
#[inline(always)]
fn renew(
    live: &mut Live,
    parent: Option<FrameId>,
    first: &CellPart,
    words: usize,
) -> Result<(), NoMemory>
    requires { length first.now ≤ words }
    ensures { OnOk result (IsNew parent (first.now ++ replicate (words - length first.now) no_int) live.new) }
{
    live.cells.fill(first, words)?;
    live.parent = parent;
    live.over = false;
    live.children = 0;
    Ok(())
}

// Adds a new frame where none was left, and gives its number.
#[inline(never)]
fn add(
    lives: &mut BirthTable<Live>,
    alloc: Global,
    parent: Option<FrameId>,
    first: &CellPart,
    words: usize,
) -> Result<u64, NoMemory>
    requires first { length first.now ≤ words }
    requires room { 0 < lives.old.spare }
    ensures number { IfOk result (λ number. number ≡ length lives.old.items) }
    ensures ok { OnOk result (AddsNew parent (first.now ++ replicate (words - length first.now) no_int) lives.old.items lives.new.items) }
    ensures err { OnErr result (lives.new.items ≡ lives.old.items) }
{
    let mut cells = Cells::new(alloc);
    cells.fill(first, words)?;
    Ok(lives.push_reserved(Live {
        parent,
        cells,
        over: false,
        children: 0,
    }))
}

// Adds a new frame, mostly in the place of one that is gone, and gives its number.
#[inline(always)]
fn make(
    lives: &mut BirthTable<Live>,
    alloc: Global,
    parent: Option<FrameId>,
    first: &CellPart,
    words: usize,
) -> Result<u64, NoMemory>
    requires first { length first.now ≤ words }
    requires room { 0 < lives.old.spare }
    ensures number { IfOk result (λ number. number ≡ length lives.old.items) }
    ensures ok { OnOk result (AddsNew parent (first.now ++ replicate (words - length first.now) no_int) lives.old.items lives.new.items) }
    ensures err { OnErr result (lives.new.items ≡ lives.old.items) }
{
    if !lives.has_left() {
        return add(lives, alloc, parent, first, words);
    }
    renew(lives.left_mut(), parent, first, words)?;
    Ok(lives.push_left())
}

// Ends the life of a frame whose list of cells is long, so that it is not left for the next one.
#[inline(never)]
fn drop_long(lives: &mut BirthTable<Live>, alloc: Global, frame: FrameId)
    requires { IsSome (live_at lives.old.items frame.number) }
    ensures { lives.new.items ≡ slice_set lives.old.items frame.number None }
{
    lives.value_mut(frame.number).cells = Cells::new(alloc);
    lives.give_back(frame.number);
}

// Ends the life of a frame. Its list of cells is left for the next one, where that has room for few.
#[inline(always)]
fn drop_frame(lives: &mut BirthTable<Live>, alloc: Global, frame: FrameId, room: usize)
    requires { IsSome (live_at lives.old.items frame.number) }
    ensures { lives.new.items ≡ slice_set lives.old.items frame.number None }
{
    if room > SPARE_CELLS {
        drop_long(lives, alloc, frame);
        return;
    }
    lives.give_back(frame.number);
}

impl Table {
    /// No frames.
    pub fn new(alloc: Global) -> Table
        ensures { result ≡ [] }
    {
        Table {
            lives: BirthTable::new(alloc),
            words: 0,
        }
    }

    /// The words of the frames that live.
    pub fn words(&self) -> u64
        ensures { result ≡ all_words self.now }
    {
        self.words
    }

    /// A new frame under the next number, of so many cells, which begin with these and are 0 from
    /// there on.
    #[inline(always)]
    pub fn push(
        &mut self,
        alloc: Global,
        parent: Option<FrameId>,
        first: &CellPart,
        words: u32,
    ) -> Result<FrameId, NoMemory>
        requires parent { LivesIn self.old parent }
        requires first { length first.now ≤ words }
        requires words { all_words self.old + (words + 4) < 2 ^ 64 }
        ensures number { IfOk result (λ f. f.number ≡ length self.old) }
        ensures ok { OnOk result (self.new ≡ self.old
            ++ Some (new_frame parent (first.now ++ replicate (words - length first.now) no_int)) ∷ []) }
        ensures err { OnErr result (self.new ≡ self.old) }
    {
        self.lives.reserve(1)?;
        let number = make(&mut self.lives, alloc, parent, first, words as usize)?;
        self.words += words as u64 + HEAD_WORDS;
        count_in(&mut self.lives, parent, number);
        Ok(FrameId { number })
    }

    /// The frame in which this one lies, and the frame itself where it lies in none.
    pub fn parent_or_self(&self, frame: FrameId) -> FrameId
        requires { IsSome (at self.now frame.number) }
        ensures { result ≡ parent_or frame (at self.now frame.number) }
    {
        match live_of(&self.lives, frame).parent {
            Some(parent) => parent,
            None => frame,
        }
    }

    /// A cell.
    #[inline(always)]
    pub fn cell(&self, frame: FrameId, slot: usize) -> Cell
        requires { slot < length (no_cells (at self.now frame.number)) }
        ensures { result ≡ slice_index_or (no_cells (at self.now frame.number)) slot no_int }
    {
        live_of(&self.lives, frame).cells.get(slot)
    }

    /// Whether a frame has that cell.
    pub fn has_cell(&self, frame: FrameId, slot: usize) -> bool
        requires { IsSome (at self.now frame.number) }
        ensures { result ≡ nat_lt slot (length (no_cells (at self.now frame.number))) }
    {
        slot < live_of(&self.lives, frame).cells.len()
    }

    /// The int that a cell holds, and 0 where it holds none or is not there.
    #[inline(always)]
    pub fn int_or_zero(&self, frame: FrameId, slot: usize) -> i64
        requires { IsSome (at self.now frame.number) }
        ensures { result ≡ int_in (slice_index_or (no_cells (at self.now frame.number)) slot no_int) }
    {
        let ints = live_of(&self.lives, frame).cells.ints();
        if slot < ints.len() { ints[slot] } else { 0 }
    }

    /// Sets a cell to an int.
    #[inline(always)]
    pub fn set_int(&mut self, frame: FrameId, slot: usize, value: i64)
        requires { slot < length (no_cells (at self.old frame.number)) }
        ensures { let x = at self.old frame.number in
            self.new ≡ slice_set self.old frame.number (some_with (slice_set (no_cells x) slot (c.Int value)) x) }
    {
        self.lives
            .value_mut(frame.number)
            .cells
            .set_int(slot, value);
    }

    /// Sets a cell to a block. After want of memory all is as before.
    pub fn set_block(&mut self, frame: FrameId, slot: usize, block: BlockId) -> Result<(), NoMemory>
        requires { slot < length (no_cells (at self.old frame.number)) }
        ensures ok { OnOk result (let x = at self.old frame.number in
            self.new ≡ slice_set self.old frame.number (some_with (slice_set (no_cells x) slot (c.Block block)) x)) }
        ensures err { OnErr result (self.new ≡ self.old) }
    {
        self.lives
            .value_mut(frame.number)
            .cells
            .set_block(slot, block)
    }

    /// Sets so many cells from that one on to 0.
    pub fn clear(&mut self, frame: FrameId, slot: u32, len: u32)
        requires frame { IsSome (at self.old frame.number) }
        requires slots { slot + len ≤ length (no_cells (at self.old frame.number)) }
        ensures { let x = at self.old frame.number in
            self.new ≡ slice_set self.old frame.number (some_with (cleared slot len (no_cells x)) x) }
    {
        let live = self.lives.value_mut(frame.number);
        live.cells.clear(slot as usize, len as usize);
    }

    /// Notes that the activation or body of a frame has ended.
    pub fn end(&mut self, frame: FrameId)
        requires { IsSome (at self.old frame.number) }
        ensures ended { self.new ≡ slice_set self.old frame.number (some_over (at self.old frame.number)) }
        ensures rooted { IsRooted self.new }
    {
        self.lives.value_mut(frame.number).over = true;
    }

    /// Whether the end of a frame has come and no frame that lives lies in it.
    pub fn is_done(&self, frame: FrameId) -> bool
        requires { IsSome (at self.now frame.number) }
        ensures { result ≡ is_done self.now frame.number }
    {
        let live = live_of(&self.lives, frame);
        live.over && live.children == 0
    }

    /// Takes a frame away that lies in none and in which none lives. It says whether it is such a one.
    #[inline(always)]
    pub fn take_alone(&mut self, alloc: Global, frame: FrameId) -> bool
        requires { IsSome (at self.old frame.number) }
        ensures alone { result ≡ is_alone self.old frame.number }
        ensures gone { result ≡ true → self.new ≡ slice_set self.old frame.number None }
        ensures rooted { result ≡ true → IsRooted self.new }
        ensures stays { result ≡ false → self.new ≡ self.old }
    {
        let live = live_of(&self.lives, frame);
        if live.parent.is_some() || live.children != 0 {
            return false;
        }
        let room = live.cells.room();
        self.words -= live.cells.len() as u64 + HEAD_WORDS;
        drop_frame(&mut self.lives, alloc, frame, room);
        true
    }

    /// Takes a frame away in which none lives, and gives its parent.
    pub fn take_away(&mut self, alloc: Global, frame: FrameId) -> Option<FrameId>
        requires lives { IsSome (at self.old frame.number) }
        requires childless { children_of self.old frame.number ≡ 0 }
        ensures parent { result ≡ parent_at (at self.old frame.number) }
        ensures gone { self.new ≡ slice_set self.old frame.number None }
        ensures rooted { IsRooted self.new }
    {
        let live = live_of(&self.lives, frame);
        let parent = live.parent;
        let room = live.cells.room();
        self.words -= live.cells.len() as u64 + HEAD_WORDS;
        drop_frame(&mut self.lives, alloc, frame, room);
        count_out(&mut self.lives, parent);
        parent
    }

    /// Whether looks at a frame are quick now. Any answer is right.
    #[inline(always)]
    pub fn is_near(&self, frame: FrameId) -> bool {
        self.lives.is_near(frame.number)
    }

    /// Makes looks at a frame quick, until another is asked for.
    #[inline(always)]
    pub fn look_at(&mut self, frame: FrameId)
        ensures { self.new ≡ self.old }
    {
        self.lives.look_at(frame.number);
    }
}
