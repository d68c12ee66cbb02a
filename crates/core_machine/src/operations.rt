//! Operations start; in a cancelled block they end at once.

use crate::running::Running;
use crate::values::CANCELLED;
use ac_base::NoMemory;
use cancel_scope::{Asked, Operation};
use core_operators::message_in;
use thread_table::Parked;
use work_item::Item;

impl Running<'_> {
    ghost use Rattle.std.specs.Prelude.{◌≡◌, true, false, Some, None, ◌+◌, ◌-◌, ◌≤◌, ◌<◌, ◌^◌, min, ◌∷◌, length, drop, IsSome, OnOk, OnErr};
    ghost use Rattle.stack_code.specs.declared.instr.Instr.{Instr};
    ghost use Rattle.work_item.specs.declared.cell.Cell.{Cell};
    ghost use Rattle.core_state.specs.Arrivals.{cancelled};
    ghost use Rattle.code_meaning.specs.Machine.{operates};
    ghost use Rattle.core_machine.specs.State.{flat_of, HavePlaces};
    ghost use Rattle.thread_table.specs.Operands.{is_reference, on_top};
    ghost use Rattle.thread_table.specs.Table.{HasPlace};
    ghost use Rattle.core_machine.specs.inner.Needs.{HasMessage};
    ghost use Rattle.core_machine.specs.inner.Changes.{Keeps, Does, Stays};

    /// The running thread waits for the end of an operation on that link.
    pub fn operate(&mut self, item: Item, link: u32, asked: Asked)
        requires inside { self.old.place < 2 ^ 32 }
        requires runs { self.old.schedule.running ≡ Some item }
        requires place { HasPlace self.old.threads item }
        requires settled { self.old.threads.pending ≡ false }
        requires room { 0 < self.old.outstanding.spare }
        ensures flat { flat_of self.new ≡ operates (flat_of self.old) item link asked self.old.operands }
        ensures ended { self.new.ended ≡ self.old.ended }
        ensures keeps { Keeps self.old self.new }
    {
        self.schedule.suspend();
        self.outstanding.add(Operation::start(link, asked, item));
        self.count_one();
        self.park(item, self.place + 1, Parked::nobody(self.alloc));
    }

    /// An operation in a cancelled block never happens: its value stands where its operand stood, and
    /// the thread goes on.
    pub fn end_at_once(&mut self)
        requires inside { self.old.place < 2 ^ 32 }
        requires one { 1 ≤ length self.old.operands }
        ensures { self.new ≡ record self.old {
          operands = Cell.Int cancelled ∷ drop 1 self.old.operands;
          place = self.old.place + 1;
          count = min (self.old.count + 1) (2 ^ 64 - 1);
        } }
    {
        self.operands.replace(CANCELLED);
        self.go_on();
    }

    /// Starts to send over a channel what it pops: an int, or all elements of an array as they are now.
    #[tactic(auto, using(crate::proofs::Places::runner_place))]
    pub fn send(&mut self, channel: u32) -> Result<(), NoMemory>
        requires running { self.old.ended ≡ None }
        requires inside { self.old.place < 2 ^ 32 }
        requires runs { IsSome self.old.schedule.running }
        requires places { HavePlaces self.old }
        requires settled { self.old.threads.pending ≡ false }
        requires message { HasMessage (flat_of self.old) }
        ensures ok { OnOk result (Does self.old (Instr.Send channel) self.new) }
        ensures err { OnErr result (Stays self.old self.new) }
        ensures keeps { Keeps self.old self.new }
    {
        if self.blocks.is_cancelled(self.block) {
            self.end_at_once();
            return Ok(());
        }
        let item = self.item();
        self.outstanding.reserve(1)?;
        let top = self.operands.pop();
        let message = message_in(&self.frames, top);
        self.operate(item, channel, Asked::Send(message));
        Ok(())
    }

    /// Starts to receive a message from a channel, into the place of a reference, which it pops.
    #[tactic(auto, using(crate::proofs::Places::runner_place))]
    pub fn receive(&mut self, channel: u32) -> Result<(), NoMemory>
        requires running { self.old.ended ≡ None }
        requires inside { self.old.place < 2 ^ 32 }
        requires runs { IsSome self.old.schedule.running }
        requires places { HavePlaces self.old }
        requires settled { self.old.threads.pending ≡ false }
        requires reference { on_top is_reference self.old.operands ≡ true }
        ensures ok { OnOk result (Does self.old (Instr.Recv channel) self.new) }
        ensures err { OnErr result (Stays self.old self.new) }
        ensures keeps { Keeps self.old self.new }
    {
        if self.blocks.is_cancelled(self.block) {
            self.end_at_once();
            return Ok(());
        }
        let item = self.item();
        self.outstanding.reserve(1)?;
        let place = self.operands.pop_place();
        self.operate(item, channel, Asked::Recv(place));
        Ok(())
    }
}
