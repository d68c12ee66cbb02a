//! The globals of a core and its frames.

ghost use Rattle.std.specs.Prelude.{◌≡◌, ◌+◌, ◌-◌, ◌^◌, ◌<◌, ◌≤◌, ◌++◌, length, replicate, IfOk, OnOk, OnErr};
ghost use Rattle.work_item.specs.declared.cell.Cell.TheVariants as c;
ghost use Rattle.work_item.specs.Store.{above, cell_at, with_cell, with_cell_at, with_cleared, cells_of, int_at, with_int_at, global_at};
ghost use Rattle.work_item.specs.Store.{with_global, no_int, no_frames, next_frame, made, released, live_words, int_in};
ghost use Rattle.work_item.specs.Conditions.{Lives, ParentLives, HomeLives, HasLevel, HasSlot, HasGlobal, IsGoing};

use crate::cell::{Cell, Place};
use crate::cells::CellPart;
use crate::ids::{BlockId, FrameId};
use crate::table::Table;
use ac_base::NoMemory;
use std::alloc::Global;
use std::marker::Model;

/// The globals of a core and its frames. They keep the allocator with which they are made.
///
/// Contracts see what they hold. Only `new`, `make`, `make_of` and `write_block` take memory.
#[derive(Drop)]
pub struct Frames {
    alloc: Global,
    globals: Vec<i64>,
    table: Table,
}

impl Model for Frames {
    ghost use Rattle.work_item.specs.Store.{Store};

    ghost Value = { Store };

    ghost use Rattle.work_item.specs.Table.{IsWhole};

    ghost view = { λ s. record { globals = s.globals.items; frames = s.table } };

    ghost invariant = { λ s. IsWhole s.globals.items s.table };
}

impl Frames {
    /// So many globals, each of them 0, and no frame, or want of memory.
    pub fn new(alloc: Global, globals: u32) -> Result<Frames, NoMemory>
        ensures { IfOk result (λ it. it ≡ no_frames globals) }
    {
        let globals = vec![in alloc; 0i64; globals as usize]?;
        Ok(Frames {
            alloc,
            globals,
            table: Table::new(alloc),
        })
    }

    /// Makes a frame of so many zeros, and gives its number, which is the next one. After want of
    /// memory all is as before.
    ///
    /// Condition: the parent lives, where one is given, and the live words with those of the new
    /// frame, `words` and 4, are below 2^64.
    pub fn make(&mut self, parent: Option<FrameId>, words: u32) -> Result<FrameId, NoMemory>
        requires parent { ParentLives self.old parent }
        requires words { live_words self.old + (words + 4) < 2 ^ 64 }
        ensures number { IfOk result (λ f. f ≡ next_frame self.old) }
        ensures ok { OnOk result (self.new ≡ made self.old parent (replicate words no_int)) }
        ensures err { OnErr result (self.new ≡ self.old) }
    {
        self.make_of(parent, &CellPart::none(), words)
    }

    /// Makes a frame of so many cells, which begin with these and are 0 from there on, and gives its
    /// number, which is the next one. After want of memory all is as before.
    ///
    /// Condition: the parent lives, where one is given, no more cells are given than the frame has,
    /// and the live words with those of the new frame, `words` and 4, are below 2^64.
    #[inline(always)]
    pub fn make_of(
        &mut self,
        parent: Option<FrameId>,
        first: &CellPart,
        words: u32,
    ) -> Result<FrameId, NoMemory>
        requires parent { ParentLives self.old parent }
        requires first { length first.now ≤ words }
        requires words { live_words self.old + (words + 4) < 2 ^ 64 }
        ensures number { IfOk result (λ f. f ≡ next_frame self.old) }
        ensures ok { OnOk result (self.new ≡ made self.old parent (first.now ++ replicate (words - length first.now) no_int)) }
        ensures err { OnErr result (self.new ≡ self.old) }
    {
        self.table.push(self.alloc, parent, first, words)
    }

    /// The number of the frame so many levels up, at level 0 of the frame itself. It takes one look
    /// for each level.
    ///
    /// Condition: the frame lives, and so many frames lie round it.
    #[inline(always)]
    pub fn above(&self, frame: FrameId, level: u32) -> FrameId
        requires { HasLevel self.now frame level }
        ensures { result ≡ above self.now frame level }
    {
        if level == 0 {
            return frame;
        }
        self.outer(frame, level)
    }

    // The same at a level that is mostly not 0.
    #[inline(never)]
    fn outer(&self, frame: FrameId, level: u32) -> FrameId
        requires { HasLevel self.now frame level }
        ensures { result ≡ above self.now frame level }
    {
        let mut current = frame;
        for _ in 0..level {
            current = self.table.parent_or_self(current);
        }
        current
    }

    /// Makes looks at a frame quick, until another is asked for. Nothing is changed.
    #[inline(always)]
    pub fn look_at(&mut self, frame: FrameId)
        ensures { self.new ≡ self.old }
    {
        self.table.look_at(frame);
    }

    /// What a slot of the frame so many levels up holds.
    ///
    /// Condition: the frame lives, so many frames lie round it, and the slot is below the number
    /// of the cells there.
    #[inline(always)]
    pub fn read(&self, frame: FrameId, level: u32, slot: u32) -> Cell
        requires level { HasLevel self.now frame level }
        requires slot { HasSlot self.now (above self.now frame level) slot }
        ensures { result ≡ cell_at self.now frame level slot }
    {
        let home = self.above(frame, level);
        self.table.cell(home, slot as usize)
    }

    /// Sets a slot of the frame so many levels up to an int. It takes no memory.
    ///
    /// Condition: as that of `read`.
    #[inline(always)]
    pub fn write(&mut self, frame: FrameId, level: u32, slot: u32, value: i64)
        requires level { HasLevel self.old frame level }
        requires slot { HasSlot self.old (above self.old frame level) slot }
        ensures { self.new ≡ with_cell_at self.old frame level slot (c.Int value) }
    {
        let home = self.above(frame, level);
        self.table.set_int(home, slot as usize, value);
    }

    /// Sets a slot of a frame to a block. After want of memory all is as before.
    ///
    /// Condition: the frame lives, and has that slot.
    pub fn write_block(&mut self, frame: FrameId, slot: u32, block: BlockId) -> Result<(), NoMemory>
        requires frame { Lives self.old frame }
        requires slot { HasSlot self.old frame slot }
        ensures ok { OnOk result (self.new ≡ with_cell self.old frame slot (c.Block block)) }
        ensures err { OnErr result (self.new ≡ self.old) }
    {
        self.table.set_block(frame, slot as usize, block)
    }

    /// Sets so many slots of a frame, from that one on, to 0.
    ///
    /// Condition: the frame lives, and has all those slots.
    pub fn clear(&mut self, frame: FrameId, slot: u32, len: u32)
        requires frame { Lives self.old frame }
        requires slots { slot + len ≤ length (cells_of self.old frame) }
        ensures { self.new ≡ with_cleared self.old frame slot len }
    {
        self.table.clear(frame, slot, len);
    }

    /// An element of an array. One that holds no int, or is not there, reads as 0.
    ///
    /// Condition: the frame in which it lies lives, and the index is below its length.
    pub fn read_at(&self, place: Place, index: u32) -> i64
        requires home { HomeLives self.now place.home }
        requires index { index < place.len }
        ensures { result ≡ int_at self.now place index }
    {
        let slot = place.start as usize + index as usize;
        match place.home {
            None => {
                if slot < self.globals.len() {
                    self.globals[slot]
                } else {
                    0
                }
            }
            Some(frame) => self.table.int_or_zero(frame, slot),
        }
    }

    /// Sets an element of an array, where it is there.
    ///
    /// Condition: as that of `read_at`.
    pub fn write_at(&mut self, place: Place, index: u32, value: i64)
        requires home { HomeLives self.old place.home }
        requires index { index < place.len }
        ensures { self.new ≡ with_int_at self.old place index value }
    {
        let slot = place.start as usize + index as usize;
        match place.home {
            None => {
                if slot < self.globals.len() {
                    self.globals[slot] = value;
                }
            }
            Some(frame) => {
                if self.table.has_cell(frame, slot) {
                    self.table.set_int(frame, slot, value);
                }
            }
        }
    }

    /// A global.
    ///
    /// Condition: there is a global of this number.
    pub fn read_global(&self, slot: u32) -> i64
        requires { HasGlobal self.now slot }
        ensures { result ≡ global_at self.now slot }
    {
        self.globals[slot as usize]
    }

    /// Sets a global.
    ///
    /// Condition: as that of `read_global`.
    pub fn write_global(&mut self, slot: u32, value: i64)
        requires { HasGlobal self.old slot }
        ensures { self.new ≡ with_global self.old slot value }
    {
        self.globals[slot as usize] = value;
    }

    /// Notes that the activation or body of a frame has ended. A frame is taken away once that was
    /// noted and no frame that lives lies in it, and then its parent likewise. It looks at no other
    /// frames than those.
    ///
    /// Condition: the frame lives, and this was not yet said of it.
    #[inline(always)]
    pub fn give_back(&mut self, frame: FrameId)
        requires { IsGoing self.old frame }
        ensures { self.new ≡ released self.old frame }
    {
        if self.table.take_alone(self.alloc, frame) {
            return;
        }
        self.unwind(frame);
    }

    // The same where its parent may go after it, or where it has to wait for a child.
    #[inline(never)]
    fn unwind(&mut self, frame: FrameId)
        requires { IsGoing self.old frame }
        ensures { self.new ≡ released self.old frame }
    {
        self.table.end(frame);
        let mut current = frame;
        while self.table.is_done(current) {
            match self.table.take_away(self.alloc, current) {
                Some(parent) => current = parent,
                None => return,
            }
        }
    }

    /// The globals, in the order of their slots.
    pub fn globals(&self) -> &[i64]
        ensures { result.now ≡ self.now.globals }
    {
        self.globals.as_slice()
    }

    /// The words of the globals and of the frames that live, 4 for a frame beside its cells.
    pub fn live_words(&self) -> u64
        ensures { result ≡ live_words self.now }
    {
        self.globals.len() as u64 + self.table.words()
    }
}
