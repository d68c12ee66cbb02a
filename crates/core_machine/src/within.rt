//! What a cancel looks for: the oldest operation within a block that its peer has not begun.

use crate::running::Running;
use crate::tried::{Tried, tried_in};
use cancel_scope::Operation;
use stack_code::Instr;
use work_item::{BlockId, Cell};

impl Running<'_> {
    ghost use Rattle.std.specs.Prelude.{◌≡◌, None, position};
    ghost use Rattle.work_item.specs.Store.{above, cell_at};
    ghost use Rattle.work_item.specs.Conditions.{HasLevel, HasSlot};
    ghost use Rattle.core_state.specs.Frames.{block_in};
    ghost use Rattle.core_state.specs.Cancelling.{is_to_try};
    ghost use Rattle.code_meaning.specs.Machine.{is_inside};
    ghost use Rattle.core_machine.specs.State.{flat_of, state_of, IsSound};
    ghost use Rattle.core_machine.specs.Tried.{cancelled_in, tried_of};

    /// The block that a slot keeps.
    pub fn block_in(&self, level: u32, slot: u32) -> BlockId
        requires level { HasLevel self.now.frames self.now.frame level }
        requires slot { HasSlot self.now.frames (above self.now.frames self.now.frame level) slot }
        ensures { result ≡ block_in (cell_at self.now.frames self.now.frame level slot) }
    {
        match self.frames.read(self.frame, level, slot) {
            Cell::Block(block) => block,
            _ => BlockId { number: 0 },
        }
    }

    // Whether an operation lies within a block.
    fn is_inside(&self, block: BlockId, operation: &Operation) -> bool
        ensures { result ≡ is_inside (flat_of self.now) block operation.now }
    {
        let own = self.threads.block_of(operation.item);
        self.blocks.is_within(own, block)
    }

    // Whether a cancel of a block tries an operation.
    fn is_to_try(&self, block: BlockId, operation: &Operation) -> bool
        ensures { result ≡ is_to_try (is_inside (flat_of self.now) block) operation.now }
    {
        self.is_inside(block, operation) && !operation.has_begun()
    }

    /// The place of the oldest operation that a cancel of a block tries.
    pub fn oldest_within(&self, block: BlockId) -> Option<usize>
        ensures { result ≡ position (is_to_try (is_inside (flat_of self.now) block)) self.now.outstanding.operations }
    {
        let mut place = 0;
        while place < self.outstanding.len() {
            let operation = self.outstanding.get(place);
            if self.is_to_try(block, operation) {
                return Some(place);
            }
            place += 1;
        }
        None
    }

    /// The block at whose cancel the running thread stands.
    pub fn cancels(&self) -> Option<BlockId>
        requires running { self.now.ended ≡ None }
        requires sound { IsSound self.now }
        ensures { result ≡ cancelled_in self.now.code.now (flat_of self.now) }
    {
        if self.schedule.running().is_none() {
            return None;
        }
        match *self.next_instr(self.place, self.code.instrs()) {
            Instr::Cancel { level, slot } => Some(self.block_in(level, slot)),
            _ => None,
        }
    }

    /// The offer for which it asks for an outcome.
    pub fn tried(&self) -> Option<Tried>
        requires sound { IsSound self.now }
        ensures { result ≡ tried_of self.now.code.now (state_of self.now) }
    {
        if self.ended.is_some() {
            return None;
        }
        let block = self.cancels()?;
        let place = self.oldest_within(block)?;
        tried_in(self.outstanding.get(place))
    }
}
