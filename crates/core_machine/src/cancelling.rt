//! The instruction that cancels a block.

use crate::running::Running;
use crate::values::CANCELLED;
use crate::went::Went;
use cancel_scope::Progress;

impl Running<'_> {
    ghost use Rattle.std.specs.Prelude.{◌≡◌, ◌≢◌, None, Some, IsSome, ◌<◌, ◌^◌, false};
    ghost use Rattle.work_item.specs.Store.{above, cell_at};
    ghost use Rattle.work_item.specs.Conditions.{HasLevel, HasSlot};
    ghost use Rattle.core_state.specs.Frames.{block_in};
    ghost use Rattle.stack_code.specs.declared.instr.Instr.{Instr};
    ghost use Rattle.core_machine.specs.declared.went.Went.{Went};
    ghost use Rattle.core_machine.specs.State.{flat_of, HavePlaces};
    ghost use Rattle.core_machine.specs.Tried.{tried_within};
    ghost use Rattle.core_machine.specs.inner.Changes.{Keeps, Does, Stays, Continues};

    /// Marks the block whose number a slot keeps as cancelled, and tries the oldest operation within
    /// it that its peer has not begun. Where there is none, the thread goes on.
    pub fn cancel(&mut self, level: u32, slot: u32) -> Went
        requires running { self.old.ended ≡ None }
        requires inside { self.old.place < 2 ^ 32 }
        requires seat { 0 < self.old.schedule.spare }
        requires places { HavePlaces self.old }
        requires settled { self.old.threads.pending ≡ false }
        requires level { HasLevel self.old.frames self.old.frame level }
        requires slot { HasSlot self.old.frames (above self.old.frames self.old.frame level) slot }
        ensures does { result ≢ Went.Asks → Does self.old (Instr.Cancel level slot) self.new }
        ensures asks { result ≡ Went.Asks → IsSome
            (tried_within (flat_of self.old) (Some (block_in (cell_at self.old.frames self.old.frame level slot)))) }
        ensures stays { result ≡ Went.Asks → Stays self.old self.new }
        ensures keeps { Keeps self.old self.new }
        ensures continues { result ≡ Went.On → Continues self.old self.new }
    {
        let block = self.block_in(level, slot);
        let Some(place) = self.oldest_within(block) else {
            self.blocks.mark_cancelled(block);
            self.go_on();
            return Went::On;
        };
        let operation = self.outstanding.get(place);
        let item = operation.item;
        match operation.progress {
            Progress::Offered { .. } => Went::Asks,
            Progress::Waiting => {
                let _ = self.outstanding.end_at(place);
                self.blocks.mark_cancelled(block);
                self.resume(item, CANCELLED);
                Went::Away
            }
            Progress::Started { .. } => unreachable!(),
        }
    }
}
