//! What a core holds beside its threads.

ghost use Rattle.std.specs.Prelude.{◌≡◌, IfOk, OnOk, map, MatchBool, false, nat_lt, Ok, Err, if◌then◌else◌, slice_index_or};
ghost use Rattle.ac_base.specs.declared.ends.Trap.TheVariants.{OutputFull};
ghost use Rattle.work_item.specs.Store.{int_in};
ghost use Rattle.core_state.specs.Shared.{printed, formatted};

use crate::datum::Datum;
use crate::memory::Memory;
use crate::operation::{Asked, Operation};
use ac_base::NoMemory;
use core_operators::add_formatted;
use std::alloc::Global;
use std::marker::Model;
use work_item::{BlockId, FrameId, Item};

/// The steps and turns that a core has used, the bytes that it has printed, its globals and frames, whether each block that
/// was born is marked as cancelled, its operations that have not ended, the oldest first, and the link of its requests.
#[derive(Drop)]
pub struct Held {
    pub steps: u64,
    pub turn: u64,
    pub output: Vec<u8>,
    pub memory: Memory,
    pub marks: Vec<bool>,
    pub operations: Vec<Operation>,
    pub requests: u32,
}

// The ints among them, and 0 for each that is none.
fn ints_of(alloc: Global, values: &[Datum]) -> Result<Vec<i64>, NoMemory>
    ensures { IfOk result (λ ints. ints.items ≡ map int_in values.now) }
{
    let mut ints = Vec::new(alloc);
    for value in values {
        ints.push(value.as_int())?;
    }
    Ok(ints)
}

impl Held {
    ghost use Rattle.ac_semantics.specs.Held.{stepped, entered, next_block, with_mark, any_marked, with_shared, with_started};
    ghost use Rattle.interpreter_state.specs.Operations.{asked_of};
    ghost use Rattle.interpreter_state.specs.State.{held_of, shared_of};

    /// Whether there was a step left, which is used now.
    pub fn step(&mut self, bound: u64) -> bool
        ensures left { result ≡ nat_lt (shared_of self.old).steps bound }
        ensures held { held_of self.new ≡ (if result then stepped (held_of self.old) else held_of self.old) }
    {
        if self.steps >= bound {
            return false;
        }
        self.steps += 1;
        true
    }

    /// A new block, kept in that slot of a frame.
    pub fn enter(&mut self, frame: FrameId, slot: u32) -> Result<BlockId, NoMemory>
        ensures number { IfOk result (λ block. block ≡ next_block (held_of self.old)) }
        ensures held { OnOk result (held_of self.new ≡ entered (held_of self.old) frame slot) }
    {
        let block = BlockId {
            number: self.marks.len() as u64,
        };
        self.marks.push(false)?;
        self.memory.write(frame, 0, slot, Datum::block(block));
        Ok(block)
    }

    /// A block is marked as cancelled.
    pub fn mark(&mut self, block: BlockId)
        ensures { held_of self.new ≡ with_mark (held_of self.old) block }
    {
        let index = block.number as usize;
        if index < self.marks.len() {
            self.marks[index] = true;
        }
    }

    // Whether a block is marked.
    fn is_marked(&self, block: BlockId) -> bool
        ensures { result ≡ slice_index_or self.now.marks.items block.number false }
    {
        let index = block.number as usize;
        index < self.marks.len() && self.marks[index]
    }

    /// Whether one of these blocks is marked.
    pub fn any_marked(&self, blocks: &[BlockId]) -> bool
        ensures { result ≡ any_marked self.now.marks.items blocks.now }
    {
        blocks.iter().any(|b| self.is_marked(*b))
    }

    /// An operation starts, for whose end that thread waits.
    pub fn operate(&mut self, link: u32, asked: Asked, item: Item) -> Result<(), NoMemory>
        ensures { OnOk result (held_of self.new ≡ with_started (held_of self.old) link (asked_of asked) item) }
    {
        self.operations.push(Operation::start(link, asked, item))?;
        Ok(())
    }

    /// Whether a text with its values was printed, which is so where the output keeps within its limit.
    pub fn print(&mut self, alloc: Global, text: &[u8], values: &[Datum]) -> Result<bool, NoMemory>
        ensures printed { IfOk result (λ done. MatchBool done
            (printed (shared_of self.old) (formatted text.now (map int_in values.now)) ≡ Ok (shared_of self.new))
            (printed (shared_of self.old) (formatted text.now (map int_in values.now)) ≡ Err OutputFull)) }
        ensures unprinted { IfOk result (λ done. done ≡ false → held_of self.new ≡ held_of self.old) }
        ensures held { IfOk result (λ done. held_of self.new ≡ with_shared (held_of self.old) (shared_of self.new)) }
    {
        let values = ints_of(alloc, values)?;
        add_formatted(alloc, &mut self.output, text, values.as_slice())
    }
}
