//! What the globals and the frames of a core hold. Whatever is not there reads as 0, and is not set.

ghost use Rattle.std.specs.Prelude.{◌≡◌, ◌-◌, ◌<◌, ◌^◌, min, length, drop, None, IfOk, OnOk, slice_index_or, slice_set};
ghost use Rattle.work_item.specs.Store.{above, parent_or, frame_at, cell_of, cell_at, with_cell, with_cell_at, with_cleared};
ghost use Rattle.work_item.specs.Store.{global_at, with_global, int_at, with_int_at, no_frames, next_frame, made, released};
ghost use Rattle.work_item.specs.Store.{live_words, any_in, cleared, no_int, some_over};
ghost use Rattle.interpreter_state.specs.inner.Released.{is_over, one_ended};
ghost use Rattle.core_state.specs.Frames.{has_words};
ghost use Rattle.core_state.specs.Messages.{ints_at, with_ints_at, message_in};
ghost use Rattle.core_state.specs.Requests.{bytes_at, bytes_for, with_bytes_at};

use crate::datum::{Datum, Span};
use ac_base::{Bytes, List, NoMemory};
use core_operators::low_byte;
use std::alloc::Global;
use std::marker::Model;
use work_item::FrameId;

/// A frame that lives.
#[derive(Drop)]
pub struct Live {
    parent: Option<FrameId>,
    cells: Vec<Datum>,
    over: bool,
}

impl Model for Live {
    ghost use Rattle.work_item.specs.Store.{Frame};

    ghost Value = { Frame };

    ghost view = { λ x. record { parent = x.parent; cells = x.cells.items; over = x.over } };
}

// How many words the globals and the frames of a core may have.
const WORD_LIMIT: u64 = 4_194_304;

// The words of a frame beside its cells.
const HEAD_WORDS: u64 = 4;

/// The globals of a core and its frames, each frame at its number.
#[derive(Drop)]
pub struct Memory {
    globals: Vec<i64>,
    frames: Vec<Option<Live>>,
}

impl Model for Memory {
    ghost use Rattle.work_item.specs.Store.{Store};

    ghost Value = { Store };

    ghost view = { λ s. record { globals = s.globals.items; frames = s.frames.items } };
}

fn clear_cell(cells: &mut Vec<Datum>, index: usize)
    ensures { cells.new.items ≡ slice_set cells.old.items index no_int }
{
    if index < cells.len() {
        cells[index] = Datum::int(0);
    }
}

// Sets so many cells from that one on to 0.
fn clear_cells(cells: &mut Vec<Datum>, slot: u32, len: u32)
    ensures { cells.new.items ≡ cleared slot len cells.old.items }
{
    for index in 0..len as usize {
        clear_cell(cells, slot as usize + index);
    }
}

// ---- frames

impl Memory {
    /// So many globals, each of them 0, and no frame.
    pub fn new(alloc: Global, globals: u32) -> Result<Memory, NoMemory>
        ensures { IfOk result (λ it. it ≡ no_frames globals) }
    {
        Ok(Memory {
            globals: vec![in alloc; 0i64; globals as usize]?,
            frames: Vec::new(alloc),
        })
    }

    // The frame in which this one lies, and the frame itself where it lies in none.
    fn parent_or_self(&self, frame: FrameId) -> FrameId
        ensures { result ≡ parent_or frame (frame_at self.now frame) }
    {
        let index = frame.number as usize;
        if index >= self.frames.len() {
            return frame;
        }
        match &self.frames[index] {
            Some(live) => live.parent.unwrap_or(frame),
            None => frame,
        }
    }

    /// The frame so many levels up.
    pub fn above(&self, frame: FrameId, level: u32) -> FrameId
        ensures { result ≡ above self.now frame level }
    {
        let mut current = frame;
        for _ in 0..level {
            current = self.parent_or_self(current);
        }
        current
    }

    /// The number of the next frame.
    pub fn next_frame(&self) -> FrameId
        ensures { result ≡ next_frame self.now }
    {
        FrameId {
            number: self.frames.len() as u64,
        }
    }

    /// Makes a frame that holds these cells, under the next number.
    pub fn make(&mut self, parent: Option<FrameId>, cells: Vec<Datum>) -> Result<(), NoMemory>
        ensures { OnOk result (self.new ≡ made self.old parent cells.items) }
    {
        self.frames.push(Some(Live {
            parent,
            cells,
            over: false,
        }))?;
        Ok(())
    }

    // How many globals there are.
    fn global_count(&self) -> u64
        ensures { result ≡ length self.now.globals }
    {
        self.globals.len() as u64
    }

    // The words of the globals and of the frames that live, as far as a number tells them.
    fn words(&self) -> u64
        ensures { result ≡ min (live_words self.now) (2 ^ 64 - 1) }
    {
        let mut words = self.global_count();
        for frame in &self.frames {
            if let Some(live) = frame {
                let more = (live.cells.len() as u64).saturating_add(HEAD_WORDS);
                words = words.saturating_add(more);
            }
        }
        words
    }

    /// Whether a frame of so many slots keeps the words within their limit.
    pub fn has_words(&self, slots: u64) -> bool
        ensures { result ≡ has_words self.now slots }
    {
        let words = self.words();
        words <= WORD_LIMIT && slots <= WORD_LIMIT && words + slots + HEAD_WORDS <= WORD_LIMIT
    }

    // How many frames were made.
    fn count(&self) -> usize
        ensures { result ≡ length self.now.frames }
    {
        self.frames.len()
    }

    // Whether a frame that lives lies in the one of that number, from this one on.
    fn any_in(&self, number: usize, from: usize) -> bool
        ensures { result ≡ any_in number (drop from self.now.frames) }
    {
        for index in from..self.frames.len() {
            if let Some(live) = &self.frames[index]
                && let Some(parent) = live.parent
                && parent.number == number as u64
            {
                return true;
            }
        }
        false
    }

    fn is_over(&self, index: usize) -> bool
        requires { index < length self.now.frames }
        ensures { result ≡ is_over (slice_index_or self.now.frames index None) }
    {
        match &self.frames[index] {
            Some(live) => live.over,
            None => false,
        }
    }

    // Notes that the activation or body of a frame has ended.
    fn end(&mut self, frame: FrameId)
        ensures { self.new ≡ record self.old { frames = slice_set self.old.frames frame.number (some_over (frame_at self.old frame)) } }
    {
        let index = frame.number as usize;
        if index < self.frames.len()
            && let Some(live) = &mut self.frames[index]
        {
            live.over = true;
        }
    }

    // Takes a frame away that is over, and in which none lies that lives.
    fn end_one(&mut self, index: usize)
        requires { index < length self.old.frames }
        ensures globals { self.new.globals ≡ self.old.globals }
        ensures frames { self.new.frames ≡ one_ended index self.old.frames }
    {
        if self.is_over(index) && !self.any_in(index, index + 1) {
            self.frames[index] = None;
        }
    }

    /// The activation or body of a frame has ended. A frame is gone once that holds of it and no
    /// frame that lives lies in it.
    pub fn release(&mut self, frame: FrameId)
        ensures { self.new ≡ released self.old frame }
    {
        self.end(frame);
        let count = self.count();
        for index in (0..count).rev() {
            self.end_one(index);
        }
    }
}

// ---- slots, globals and elements

impl Memory {
    // What a slot of a frame holds.
    fn cell_of(&self, frame: FrameId, slot: u64) -> Datum
        ensures { result ≡ cell_of self.now frame slot }
    {
        let index = frame.number as usize;
        if index >= self.frames.len() {
            return Datum::int(0);
        }
        match &self.frames[index] {
            Some(live) if slot < live.cells.len() as u64 => live.cells[slot as usize],
            _ => Datum::int(0),
        }
    }

    fn set_cell(&mut self, frame: FrameId, slot: u64, cell: Datum)
        ensures { self.new ≡ with_cell self.old frame slot cell }
    {
        let index = frame.number as usize;
        if index < self.frames.len()
            && let Some(live) = &mut self.frames[index]
            && slot < live.cells.len() as u64
        {
            live.cells[slot as usize] = cell;
        }
    }

    /// What a slot of the frame so many levels up holds.
    pub fn read(&self, frame: FrameId, level: u32, slot: u32) -> Datum
        ensures { result ≡ cell_at self.now frame level slot }
    {
        let home = self.above(frame, level);
        self.cell_of(home, u64::from(slot))
    }

    /// Sets a slot of the frame so many levels up.
    pub fn write(&mut self, frame: FrameId, level: u32, slot: u32, cell: Datum)
        ensures { self.new ≡ with_cell_at self.old frame level slot cell }
    {
        let home = self.above(frame, level);
        self.set_cell(home, u64::from(slot), cell);
    }

    /// Sets so many slots of a frame, from that one on, to 0.
    pub fn clear(&mut self, frame: FrameId, slot: u32, len: u32)
        ensures { self.new ≡ with_cleared self.old frame slot len }
    {
        let index = frame.number as usize;
        if index < self.frames.len()
            && let Some(live) = &mut self.frames[index]
        {
            clear_cells(&mut live.cells, slot, len);
        }
    }

    fn global(&self, slot: u64) -> i64
        ensures { result ≡ global_at self.now slot }
    {
        if slot < self.globals.len() as u64 {
            self.globals[slot as usize]
        } else {
            0
        }
    }

    fn put_global(&mut self, slot: u64, value: i64)
        ensures { self.new ≡ with_global self.old slot value }
    {
        if slot < self.globals.len() as u64 {
            self.globals[slot as usize] = value;
        }
    }

    /// A global.
    pub fn read_global(&self, slot: u32) -> i64
        ensures { result ≡ global_at self.now slot }
    {
        self.global(u64::from(slot))
    }

    /// Sets a global.
    pub fn write_global(&mut self, slot: u32, value: i64)
        ensures { self.new ≡ with_global self.old slot value }
    {
        self.put_global(u64::from(slot), value);
    }

    /// An element of an array.
    pub fn read_at(&self, place: Span, index: u32) -> i64
        ensures { result ≡ int_at self.now place index }
    {
        let slot = place.slot(index);
        match place.home() {
            None => self.global(slot),
            Some(frame) => self.cell_of(frame, slot).as_int(),
        }
    }

    /// Sets an element of an array.
    pub fn write_at(&mut self, place: Span, index: u32, value: i64)
        ensures { self.new ≡ with_int_at self.old place index value }
    {
        let slot = place.slot(index);
        match place.home() {
            None => self.put_global(slot, value),
            Some(frame) => self.set_cell(frame, slot, Datum::int(value)),
        }
    }

    /// The low 8 bits of each element of an array.
    pub fn bytes_at(&self, alloc: Global, place: Span) -> Result<Bytes, NoMemory>
        ensures { IfOk result (λ bytes. bytes ≡ bytes_at self.now place) }
    {
        let mut bytes = List::new(alloc);
        for index in 0..place.len() {
            bytes.push(low_byte(self.read_at(place, index)))?;
        }
        Ok(bytes)
    }

    /// Puts bytes into the elements of an array, one in each, as far as there are elements; how many it has put there.
    pub fn write_bytes(&mut self, into: Span, bytes: &[u8]) -> u32
        ensures memory { self.new ≡ with_bytes_at self.old into (bytes_for into bytes.now) }
        ensures count { result ≡ length (bytes_for into bytes.now) }
    {
        let count = bytes.len().min(into.len() as usize) as u32;
        for index in 0..count {
            self.write_at(into, index, i64::from(bytes[index as usize]));
        }
        count
    }

    // All elements of an array.
    fn ints_at(&self, alloc: Global, place: Span) -> Result<List<i64>, NoMemory>
        ensures { IfOk result (λ ints. ints ≡ ints_at self.now place) }
    {
        let mut ints = List::new(alloc);
        for index in 0..place.len() {
            ints.push(self.read_at(place, index))?;
        }
        Ok(ints)
    }

    /// What is sent of a slot: the int that it is, or all elements of the array to which it refers, as they are now.
    #[tactic(auto, using(crate::proofs::Messages::array_is_sent, crate::proofs::Messages::int_is_sent))]
    pub fn message_in(&self, alloc: Global, datum: Datum) -> Result<List<i64>, NoMemory>
        ensures { IfOk result (λ ints. ints ≡ message_in self.now datum) }
    {
        match datum.span() {
            Some(place) => self.ints_at(alloc, place),
            None => {
                let mut ints = List::new(alloc);
                ints.push(datum.as_int())?;
                Ok(ints)
            }
        }
    }

    /// Puts ints into the elements of an array, in order, as far as there are both.
    pub fn write_ints(&mut self, into: Span, ints: &[i64])
        ensures { self.new ≡ with_ints_at self.old into ints.now }
    {
        let count = ints.len().min(into.len() as usize) as u32;
        for index in 0..count {
            self.write_at(into, index, ints[index as usize]);
        }
    }

    /// The globals, out of the memory.
    pub fn into_globals(self) -> Vec<i64>
        ensures { result.items ≡ self.globals }
    {
        let Memory { globals, frames: _ } = self;
        globals
    }
}
