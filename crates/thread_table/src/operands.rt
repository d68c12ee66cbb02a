//! The operands of a thread.

ghost use Rattle.std.specs.Prelude.{◌≡◌, ◌≤◌, ◌<◌, true, false, [], ◌∷◌, OnOk, OnErr, Some, length, reverse, map, take, drop, slice_get};
ghost use Rattle.work_item.specs.declared.cell.Cell.{Cell};
ghost use Rattle.work_item.specs.Store.{int_in};
ghost use Rattle.code_safety.specs.Fit.{is_int};
ghost use Rattle.thread_table.specs.Operands.{is_reference, on_top};

use ac_base::NoMemory;
use std::alloc::Global;
use std::marker::Model;
use work_item::{Cell, CellPart, Cells, Place};

/// The operands of a thread.
///
/// Contracts see them from the topmost one downwards.
#[derive(Drop)]
pub struct Operands {
    cells: Cells,
}

impl Model for Operands {
    ghost use Rattle.std.specs.Prelude.{List, reverse};
    ghost use Rattle.work_item.specs.declared.cell.Cell.{Cell};

    ghost Value = { List Cell };

    ghost view = { λ it. reverse it.cells };
}

impl Operands {
    /// No operands.
    pub fn new(alloc: Global) -> Operands
        ensures { result ≡ [] }
    {
        Operands {
            cells: Cells::new(alloc),
        }
    }

    /// Puts one on top. After want of memory they are as before.
    #[inline(always)]
    pub fn push(&mut self, cell: Cell) -> Result<(), NoMemory>
        ensures ok { OnOk result (self.new ≡ cell ∷ self.old) }
        ensures err { OnErr result (self.new ≡ self.old) }
    {
        self.cells.push(cell)
    }

    /// Puts an int on top. After want of memory they are as before.
    #[inline(always)]
    pub fn push_int(&mut self, value: i64) -> Result<(), NoMemory>
        ensures ok { OnOk result (self.new ≡ Cell.Int value ∷ self.old) }
        ensures err { OnErr result (self.new ≡ self.old) }
    {
        self.cells.push_int(value)
    }

    /// Puts a reference on top. After want of memory they are as before.
    #[inline(always)]
    pub fn push_place(&mut self, place: Place) -> Result<(), NoMemory>
        ensures ok { OnOk result (self.new ≡ Cell.Array place ∷ self.old) }
        ensures err { OnErr result (self.new ≡ self.old) }
    {
        self.cells.push_place(place)
    }

    /// Takes the topmost.
    #[inline(always)]
    pub fn pop(&mut self) -> Cell
        requires { 1 ≤ length self.old }
        ensures { self.old ≡ result ∷ self.new }
    {
        let top = self.cells.len() - 1;
        let cell = self.cells.get(top);
        self.cells.truncate(top);
        cell
    }

    /// Takes the topmost, which is an int.
    #[inline(always)]
    pub fn pop_int(&mut self) -> i64
        requires { on_top is_int self.old ≡ true }
        ensures items { self.old ≡ Cell.Int result ∷ self.new }
        ensures rest { self.new ≡ drop 1 self.old }
    {
        self.cells.pop_int()
    }

    /// Takes the topmost, which is a reference.
    #[inline(always)]
    pub fn pop_place(&mut self) -> Place
        requires { on_top is_reference self.old ≡ true }
        ensures items { self.old ≡ Cell.Array result ∷ self.new }
        ensures rest { self.new ≡ drop 1 self.old }
    {
        self.cells.pop_place()
    }

    /// The topmost, which is an int.
    #[inline(always)]
    pub fn top_int(&self) -> i64
        requires { on_top is_int self.now ≡ true }
        ensures { self.now ≡ Cell.Int result ∷ drop 1 self.now }
    {
        self.cells.last_int()
    }

    /// The topmost, which is a reference.
    #[inline(always)]
    pub fn top_place(&self) -> Place
        requires { on_top is_reference self.now ≡ true }
        ensures { self.now ≡ Cell.Array result ∷ drop 1 self.now }
    {
        self.cells.last_place()
    }

    /// Puts an int in the place of the topmost. It takes no memory.
    #[inline(always)]
    pub fn replace(&mut self, value: i64)
        requires { 1 ≤ length self.old }
        ensures { self.new ≡ Cell.Int value ∷ drop 1 self.old }
    {
        self.cells.replace(value);
    }

    /// Puts an int in the place of the topmost, which is an int.
    #[inline(always)]
    pub fn replace_int(&mut self, value: i64)
        requires { on_top is_int self.old ≡ true }
        ensures { self.new ≡ Cell.Int value ∷ drop 1 self.old }
    {
        self.cells.replace_int(value);
    }

    /// Puts an int in the place of the topmost, which is a reference.
    #[inline(always)]
    pub fn replace_by_int(&mut self, value: i64)
        requires { on_top is_reference self.old ≡ true }
        ensures { self.new ≡ Cell.Int value ∷ drop 1 self.old }
    {
        self.cells.replace_by_int(value);
    }

    /// Puts a reference in the place of the topmost, which is a reference.
    #[inline(always)]
    pub fn replace_place(&mut self, place: Place)
        requires { on_top is_reference self.old ≡ true }
        ensures { self.new ≡ Cell.Array place ∷ drop 1 self.old }
    {
        self.cells.replace_place(place);
    }

    /// The operand so many below the topmost.
    pub fn get(&self, below: u32) -> Cell
        requires { below < length self.now }
        ensures { slice_get self.now below ≡ Some result }
    {
        self.cells.get(self.cells.len() - 1 - below as usize)
    }

    /// The ints of so many from the top, the topmost last, with 0 for each that is none.
    #[inline(always)]
    pub fn ints(&self, count: u32) -> &[i64]
        requires { count ≤ length self.now }
        ensures { result.now ≡ map int_in (reverse (take count self.now)) }
    {
        &self.cells.ints()[self.cells.len() - count as usize..]
    }

    /// So many from the top, the topmost last.
    #[inline(always)]
    pub fn top(&self, count: u32) -> CellPart<'_>
        requires { count ≤ length self.now }
        ensures { result ≡ reverse (take count self.now) }
    {
        self.cells.from(self.cells.len() - count as usize)
    }

    /// Those below so many from the top, the topmost last.
    #[inline(always)]
    pub fn below(&self, count: u32) -> CellPart<'_>
        requires { count ≤ length self.now }
        ensures { reverse result ≡ drop count self.now }
    {
        self.cells.below(self.cells.len() - count as usize)
    }

    /// Drops all.
    #[inline(always)]
    pub fn clear(&mut self)
        ensures { self.new ≡ [] }
    {
        self.cells.truncate(0);
    }

    /// Puts an int in the place of all, if there are any. It says whether there were, and takes no memory.
    #[inline(always)]
    pub fn replace_all(&mut self, value: i64) -> bool
        ensures some { result ≡ true → self.new ≡ Cell.Int value ∷ [] }
        ensures none { result ≡ false → self.new ≡ self.old }
    {
        if self.cells.len() == 0 {
            return false;
        }
        self.cells.truncate(1);
        self.cells.replace(value);
        true
    }

    /// Puts others in their place, the topmost last, and then an int on top. After want of memory they
    /// are as before.
    pub fn restore(&mut self, others: &CellPart, top: i64) -> Result<(), NoMemory>
        ensures ok { OnOk result (self.new ≡ Cell.Int top ∷ reverse others.now) }
        ensures err { OnErr result (self.new ≡ self.old) }
    {
        self.cells.fill(others, others.len() + 1)?;
        self.cells.replace_int(top);
        Ok(())
    }

    /// Takes so many away.
    #[inline(always)]
    pub fn discard(&mut self, count: u32)
        requires { count ≤ length self.old }
        ensures { self.new ≡ drop count self.old }
    {
        let below = self.cells.len() - count as usize;
        self.cells.truncate(below);
    }
}
