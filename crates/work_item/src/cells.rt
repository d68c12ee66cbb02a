//! Cells in a row, of which an int takes eight bytes.

ghost use Rattle.std.specs.Prelude.{◌≡◌, ◌+◌, ◌-◌, ◌^◌, ◌<◌, ◌≤◌, List, [], ◌∷◌, ◌++◌, length, map, take, drop, replicate};
ghost use Rattle.std.specs.Prelude.{slice_index_or, slice_set, OnOk, OnErr};
ghost use Rattle.work_item.specs.Store.{no_int, int_in, cleared};
ghost use Rattle.work_item.specs.Ends.{EndsInInt, EndsInPlace};
ghost use Rattle.work_item.specs.inner.Cells.{IsOther};
ghost use Rattle.work_item.specs.declared.cell.Cell.{Cell};
ghost use Rattle.work_item.specs.declared.cell.Cell.TheVariants as c;

use crate::cell::{Cell, Place};
use crate::ids::BlockId;
use crate::others::{Other, clear_others, is_at, make_more, make_room, place_of, put_others};
use crate::words::{clear_words, lay_words, push_word, put_words};
use ac_base::NoMemory;
use std::alloc::Global;
use std::marker::Model;

/// Cells in a row: the slots of a frame, or the operands of a thread, the topmost last.
#[derive(Drop)]
pub struct Cells {
    // The int of each cell, and 0 where it is none.
    words: Vec<i64>,
    // Those that are none, by rising index.
    others: Vec<Other>,
}

impl Model for Cells {
    ghost use Rattle.std.specs.Prelude.{List};
    ghost use Rattle.work_item.specs.declared.cell.Cell.{Cell};

    ghost Value = { List Cell };

    ghost use Rattle.work_item.specs.Cells.{laid, AreKept};

    ghost view = { λ s. laid 0 s.words.items s.others.items };

    ghost invariant = { λ s. AreKept 0 s.words.items s.others.items };
}

/// Some cells in a row, as they stand among others.
#[derive(Drop)]
pub struct CellPart<'a> {
    // The index of the first.
    start: usize,
    words: &'a [i64],
    others: &'a [Other],
}

impl<'a> Model for CellPart<'a> {
    ghost use Rattle.std.specs.Prelude.{List};
    ghost use Rattle.work_item.specs.declared.cell.Cell.{Cell};

    ghost Value = { List Cell };

    ghost use Rattle.work_item.specs.Cells.{laid, AreKept};

    ghost view = { λ s. laid s.start s.words.now s.others.now };

    ghost invariant = { λ s. AreKept s.start s.words.now s.others.now };
}

impl CellPart<'_> {
    /// None.
    #[inline(always)]
    pub fn none() -> CellPart<'static>
        ensures { result ≡ [] }
    {
        CellPart {
            start: 0,
            words: &[],
            others: &[],
        }
    }

    /// How many they are.
    #[inline(always)]
    pub fn len(&self) -> usize
        ensures value { result ≡ length self.now }
        ensures few { result < 2 ^ 63 }
    {
        self.words.len()
    }
}

// ---- as a stack

impl Cells {
    /// No cells.
    pub fn new(alloc: Global) -> Cells
        ensures { result ≡ [] }
    {
        Cells {
            words: Vec::new(alloc),
            others: Vec::new(alloc),
        }
    }

    /// How many they are.
    #[inline(always)]
    pub fn len(&self) -> usize
        ensures { result ≡ length self.now }
    {
        self.words.len()
    }

    /// For so many there is room.
    #[inline(always)]
    pub fn room(&self) -> usize {
        self.words.capacity().max(self.others.capacity())
    }

    /// Puts an int at the end. After want of memory they are as before.
    #[inline(always)]
    pub fn push_int(&mut self, value: i64) -> Result<(), NoMemory>
        ensures ok { OnOk result (self.new ≡ self.old ++ c.Int value ∷ []) }
        ensures err { OnErr result (self.new ≡ self.old) }
    {
        push_word(&mut self.words, value)?;
        Ok(())
    }

    // Puts one that is no int at the end.
    #[inline(always)]
    fn push_other(&mut self, cell: Cell) -> Result<(), NoMemory>
        requires { IsOther cell }
        ensures ok { OnOk result (self.new ≡ self.old ++ cell ∷ []) }
        ensures err { OnErr result (self.new ≡ self.old) }
    {
        make_room(&mut self.others)?;
        let index = self.words.len();
        push_word(&mut self.words, 0)?;
        self.others.push_reserved(Other { index, cell });
        Ok(())
    }

    /// Puts a reference at the end. After want of memory they are as before.
    #[inline(always)]
    pub fn push_place(&mut self, place: Place) -> Result<(), NoMemory>
        ensures ok { OnOk result (self.new ≡ self.old ++ c.Array place ∷ []) }
        ensures err { OnErr result (self.new ≡ self.old) }
    {
        self.push_other(Cell::Array(place))
    }

    /// Puts a cell at the end. After want of memory they are as before.
    #[inline(always)]
    pub fn push(&mut self, cell: Cell) -> Result<(), NoMemory>
        ensures ok { OnOk result (self.new ≡ self.old ++ cell ∷ []) }
        ensures err { OnErr result (self.new ≡ self.old) }
    {
        match cell {
            Cell::Int(value) => self.push_int(value),
            Cell::Array(_) | Cell::Block(_) => self.push_other(cell),
        }
    }

    /// Takes the last, which is an int.
    #[inline(always)]
    pub fn pop_int(&mut self) -> i64
        requires { EndsInInt self.old }
        ensures { self.old ≡ self.new ++ c.Int result ∷ [] }
    {
        self.words.take_last()
    }

    /// Takes the last, which is a reference.
    #[inline(always)]
    pub fn pop_place(&mut self) -> Place
        requires { EndsInPlace self.old }
        ensures { self.old ≡ self.new ++ c.Array result ∷ [] }
    {
        self.words.take_last();
        match self.others.take_last().cell {
            Cell::Array(place) => place,
            _ => unreachable!(),
        }
    }

    /// The last, which is an int.
    #[inline(always)]
    pub fn last_int(&self) -> i64
        requires { EndsInInt self.now }
        ensures { (front : List Cell) × (self.now ≡ front ++ c.Int result ∷ []) }
    {
        self.words[self.words.len() - 1]
    }

    /// The last, which is a reference.
    #[inline(always)]
    pub fn last_place(&self) -> Place
        requires { EndsInPlace self.now }
        ensures { (front : List Cell) × (self.now ≡ front ++ c.Array result ∷ []) }
    {
        match self.others[self.others.len() - 1].cell {
            Cell::Array(place) => place,
            _ => unreachable!(),
        }
    }

    /// Puts an int in the place of the last, which is an int.
    #[inline(always)]
    pub fn replace_int(&mut self, value: i64)
        requires { EndsInInt self.old }
        ensures { (front : List Cell) (x : Cell) → self.old ≡ front ++ x ∷ [] → self.new ≡ front ++ c.Int value ∷ [] }
    {
        let last = self.words.len() - 1;
        self.words[last] = value;
    }

    /// Puts an int in the place of the last, which is a reference.
    #[inline(always)]
    pub fn replace_by_int(&mut self, value: i64)
        requires { EndsInPlace self.old }
        ensures { (front : List Cell) (x : Cell) → self.old ≡ front ++ x ∷ [] → self.new ≡ front ++ c.Int value ∷ [] }
    {
        self.others.take_last();
        let last = self.words.len() - 1;
        self.words[last] = value;
    }

    /// Puts a reference in the place of the last, which is a reference.
    #[inline(always)]
    pub fn replace_place(&mut self, place: Place)
        requires { EndsInPlace self.old }
        ensures { (front : List Cell) (x : Cell) → self.old ≡ front ++ x ∷ [] → self.new ≡ front ++ c.Array place ∷ [] }
    {
        let last = self.others.len() - 1;
        self.others[last].cell = Cell::Array(place);
    }

    /// Puts an int in the place of the last. It takes no memory.
    #[inline(always)]
    pub fn replace(&mut self, value: i64)
        requires { 0 < length self.old }
        ensures { (front : List Cell) (x : Cell) → self.old ≡ front ++ x ∷ [] → self.new ≡ front ++ c.Int value ∷ [] }
    {
        let last = self.len() - 1;
        self.set_int(last, value);
    }

    /// Drops those after so many.
    #[inline(always)]
    pub fn truncate(&mut self, len: usize)
        ensures { self.new ≡ take len self.old }
    {
        self.words.truncate(len);
        let place = place_of(self.others.as_slice(), len);
        self.others.truncate(place);
    }
}

// ---- one at an index

impl Cells {
    /// The int of each, and 0 where it is none.
    #[inline(always)]
    pub fn ints(&self) -> &[i64]
        ensures { result.now ≡ map int_in self.now }
    {
        self.words.as_slice()
    }

    /// A cell.
    #[inline(always)]
    pub fn get(&self, index: usize) -> Cell
        requires { index < length self.now }
        ensures { result ≡ slice_index_or self.now index no_int }
    {
        if self.others.is_empty() {
            return Cell::Int(self.words[index]);
        }
        self.look_for(index)
    }

    // The same, which mostly is not asked for.
    #[inline(always)]
    fn look_for(&self, index: usize) -> Cell
        requires { index < length self.now }
        ensures { result ≡ slice_index_or self.now index no_int }
    {
        let place = place_of(self.others.as_slice(), index);
        if is_at(self.others.as_slice(), place, index) {
            return self.others[place].cell;
        }
        Cell::Int(self.words[index])
    }

    /// Puts an int in the place of a cell. It takes no memory.
    #[inline(always)]
    pub fn set_int(&mut self, index: usize, value: i64)
        requires { index < length self.old }
        ensures { self.new ≡ slice_set self.old index (c.Int value) }
    {
        if self.others.is_empty() {
            self.words[index] = value;
            return;
        }
        self.put_for(index, value);
    }

    // The same, which mostly is not asked for.
    #[inline(always)]
    fn put_for(&mut self, index: usize, value: i64)
        requires { index < length self.old }
        ensures { self.new ≡ slice_set self.old index (c.Int value) }
    {
        self.words[index] = value;
        let place = place_of(self.others.as_slice(), index);
        if is_at(self.others.as_slice(), place, index) {
            self.others.remove(place);
        }
    }

    /// Puts a block in the place of a cell. After want of memory they are as before.
    #[inline(never)]
    pub fn set_block(&mut self, index: usize, block: BlockId) -> Result<(), NoMemory>
        requires { index < length self.old }
        ensures ok { OnOk result (self.new ≡ slice_set self.old index (c.Block block)) }
        ensures err { OnErr result (self.new ≡ self.old) }
    {
        let cell = Cell::Block(block);
        let place = place_of(self.others.as_slice(), index);
        if is_at(self.others.as_slice(), place, index) {
            self.others[place].cell = cell;
            return Ok(());
        }
        self.others.insert(place, Other { index, cell })?;
        self.words[index] = 0;
        Ok(())
    }

    /// Sets so many from that one on to 0.
    #[inline(never)]
    pub fn clear(&mut self, start: usize, len: usize)
        requires { start + len ≤ length self.old }
        ensures { self.new ≡ cleared start len self.old }
    {
        clear_words(&mut self.words, start, len);
        clear_others(&mut self.others, start, start + len);
    }
}

// ---- several

impl Cells {
    /// Those from an index on.
    #[inline(always)]
    pub fn from(&self, start: usize) -> CellPart<'_>
        requires { start ≤ length self.now }
        ensures { result ≡ drop start self.now }
    {
        let place = place_of(self.others.as_slice(), start);
        CellPart {
            start,
            words: &self.words[start..],
            others: &self.others[place..],
        }
    }

    /// Those below an index.
    #[inline(always)]
    pub fn below(&self, end: usize) -> CellPart<'_>
        requires { end ≤ length self.now }
        ensures { result ≡ take end self.now }
    {
        let place = place_of(self.others.as_slice(), end);
        CellPart {
            start: 0,
            words: &self.words[..end],
            others: &self.others[..place],
        }
    }

    /// Puts more at the end. After want of memory they are as before.
    #[inline(always)]
    pub fn append(&mut self, part: &CellPart) -> Result<(), NoMemory>
        ensures ok { OnOk result (self.new ≡ self.old ++ part.now) }
        ensures err { OnErr result (self.new ≡ self.old) }
    {
        self.words.reserve(part.words.len())?;
        make_more(&mut self.others, part.others.len())?;
        let start = self.words.len();
        put_others(&mut self.others, part.others, part.start, start);
        put_words(&mut self.words, part.words);
        Ok(())
    }

    /// Makes them so many, which begin with these and are 0 from there on. After want of memory they
    /// are as before.
    #[inline(always)]
    pub fn fill(&mut self, first: &CellPart, len: usize) -> Result<(), NoMemory>
        requires { length first.now ≤ len }
        ensures ok { OnOk result (self.new ≡ first.now ++ replicate (len - length first.now) no_int) }
        ensures err { OnErr result (self.new ≡ self.old) }
    {
        make_more(&mut self.others, first.others.len())?;
        lay_words(&mut self.words, first.words, len)?;
        self.others.clear();
        put_others(&mut self.others, first.others, first.start, 0);
        Ok(())
    }
}
