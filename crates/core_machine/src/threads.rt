//! Threads and blocks.

use crate::beginning::has_room;
use crate::ending::Ending;
use crate::running::Running;
use ac_base::{NoMemory, Trap};
use finish_block::Arrival;
use std::mem;
use thread_table::Parked;
use work_item::{BlockId, Item};

impl Running<'_> {
    ghost use Rattle.std.specs.Prelude.{◌≡◌, ◌+◌, ◌-◌, ◌^◌, min, slice_set, ◌<◌, length, Some, IsSome, false};
    ghost use Rattle.core_scheduler.specs.Schedule.{suspended};
    ghost use Rattle.finish_block.specs.Table.{woken, ended};
    ghost use Rattle.finish_block.specs.Conditions.{HasThread, ChildlessAtEnd};
    ghost use Rattle.code_meaning.specs.Machine.{nobody};
    ghost use Rattle.thread_table.specs.Table.{HasPlace};
    ghost use Rattle.core_machine.specs.State.{flat_of, thread_of};
    ghost use Rattle.core_machine.specs.inner.Changes.{KeepsCode, Keeps, with_woken};

    // Another thread stands where the running one did, which is given.
    #[inline(always)]
    fn stand(&mut self, next: Parked) -> Parked
        ensures stood { result ≡ thread_of self.old }
        ensures stands { self.new ≡ record self.old {
          place = next.place;
          frame = next.frame;
          operands = next.operands;
          callers = next.callers;
          block = next.block;
        } }
    {
        let Parked {
            place,
            frame,
            operands,
            callers,
            block,
        } = next;
        Parked {
            place: mem::replace(&mut self.place, place),
            frame: mem::replace(&mut self.frame, frame),
            operands: mem::replace(&mut self.operands, operands),
            callers: mem::replace(&mut self.callers, callers),
            block: mem::replace(&mut self.block, block),
        }
    }

    /// Keeps the running thread in the table, to go on at that address, and lets another one stand
    /// in its place.
    #[inline(always)]
    pub fn park(&mut self, item: Item, place: usize, next: Parked)
        requires place { HasPlace self.old.threads item }
        requires settled { self.old.threads.pending ≡ false }
        ensures flat { flat_of self.new ≡ record (flat_of self.old) {
          current = next;
          threads = slice_set self.old.threads.threads item.number (record (thread_of self.old) { place = place });
        } }
        ensures ended { self.new.ended ≡ self.old.ended }
        ensures keeps { Keeps self.old self.new }
    {
        self.place = place;
        let kept = self.stand(next);
        self.threads.keep(item, kept);
    }

    // The running thread has ended: none stands in its place, and the one in the table is used again.
    fn bury(&mut self, item: Item)
        requires place { HasPlace self.old.threads item }
        requires settled { self.old.threads.pending ≡ false }
        ensures flat { flat_of self.new ≡ record (flat_of self.old) {
          current = nobody;
          threads = slice_set self.old.threads.threads item.number nobody;
        } }
        ensures lives { self.new.threads.lives ≡ slice_set self.old.threads.lives item.number false }
        ensures ended { self.new.ended ≡ self.old.ended }
        ensures keeps { KeepsCode self.old self.new }
    {
        let _ = self.stand(Parked::nobody(self.alloc));
        self.threads.end(item);
    }

    // The running thread leaves a block for good, and wakes the owner where it is to.
    fn leave(&mut self, block: BlockId)
        requires runs { IsSome self.old.schedule.running }
        requires spare { 0 < self.old.schedule.spare }
        requires thread { HasThread self.old.blocks.blocks block }
        requires childless { ChildlessAtEnd self.old.blocks.blocks block }
        ensures { self.new ≡ record self.old {
          schedule = with_woken (suspended self.old.schedule) (woken self.old.blocks.blocks block);
          blocks = ended self.old.blocks block;
        } }
    {
        self.schedule.suspend();
        if let Some(owner) = self.blocks.end(block) {
            self.schedule.wake_owner(owner);
        }
    }

    /// The running thread.
    pub fn item(&self) -> Item
        requires { IsSome self.now.schedule.running }
        ensures { self.now.schedule.running ≡ Some result }
    {
        match self.schedule.running() {
            Some(item) => item,
            None => unreachable!(),
        }
    }

    // The innermost block.
    fn innermost(&self) -> BlockId
        requires { IsSome self.now.block }
        ensures { self.now.block ≡ Some result }
    {
        match self.block {
            Some(block) => block,
            None => unreachable!(),
        }
    }
}

impl Running<'_> {
    ghost use Rattle.std.specs.Prelude.{◌≡◌, None, ◌<◌, ◌^◌, IsSome, OnOk, OnErr, false};
    ghost use Rattle.stack_code.specs.declared.instr.Instr.{Instr};
    ghost use Rattle.code_meaning.specs.Machine.{exec};
    ghost use Rattle.core_machine.specs.State.{flat_of, state_of, HavePlaces};
    ghost use Rattle.core_machine.specs.inner.Needs.{CanEnter, CanFinish, CanStart, CanEnd, HasNext};
    ghost use Rattle.core_machine.specs.inner.Changes.{KeepsCode, Keeps, Does, Places, Stays};

    /// Enters a block, and keeps it in a slot.
    pub fn enter(&mut self, slot: u32) -> Result<(), NoMemory>
        requires running { self.old.ended ≡ None }
        requires inside { self.old.place < 2 ^ 32 }
        requires runs { IsSome self.old.schedule.running }
        requires can { CanEnter (flat_of self.old) slot }
        ensures ok { OnOk result (Does self.old (Instr.Enter slot) self.new) }
        ensures err { OnErr result (Stays self.old self.new) }
        ensures keeps { Keeps self.old self.new }
    {
        let owner = self.item();
        self.blocks.reserve(1)?;
        let block = self.blocks.next();
        self.frames.write_block(self.frame, slot, block)?;
        self.blocks.enter(self.block, owner);
        self.block = Some(block);
        self.go_on();
        Ok(())
    }

    /// Arrives at the finish of the innermost block: passes where no thread of it lives, and else
    /// waits.
    #[tactic(auto, using(crate::proofs::Places::runner_place))]
    pub fn finish(&mut self, slot: u32)
        requires running { self.old.ended ≡ None }
        requires inside { self.old.place < 2 ^ 32 }
        requires runs { IsSome self.old.schedule.running }
        requires can { CanFinish (flat_of self.old) }
        requires places { HavePlaces self.old }
        requires settled { self.old.threads.pending ≡ false }
        ensures does { Does self.old (Instr.Finish slot) self.new }
        ensures keeps { Keeps self.old self.new }
    {
        let item = self.item();
        let block = self.innermost();
        self.block = self.blocks.parent(block);
        match self.blocks.at_finish(block) {
            Arrival::Passes => self.go_on(),
            Arrival::Waits => {
                self.schedule.suspend();
                self.count_one();
                self.park(item, self.place + 1, Parked::nobody(self.alloc));
            }
        }
    }

    /// Starts a thread, which runs from the next address on in a frame of so many slots; the running
    /// one goes to the front of the ready list and on at that address. The list has room for all
    /// threads that live from here on, so that no later call takes memory for it.
    #[tactic(auto, using(crate::proofs::Places::runner_place, crate::proofs::Places::has_after))]
    pub fn start(&mut self, slots: u32, to: u32) -> Result<(), NoMemory>
        requires running { self.old.ended ≡ None }
        requires inside { self.old.place < 2 ^ 32 }
        requires runs { IsSome self.old.schedule.running }
        requires can { CanStart (flat_of self.old) }
        requires seat { 0 < self.old.schedule.spare }
        requires places { HavePlaces self.old }
        requires settled { self.old.threads.pending ≡ false }
        ensures ok { OnOk result (Does self.old (Instr.Async slots to) self.new) }
        ensures places { OnOk result (Places self.old (Instr.Async slots to) self.new) }
        ensures err { OnErr result (Stays self.old self.new) }
        ensures keeps { KeepsCode self.old self.new }
    {
        if !has_room(&self.frames, slots) {
            self.end(Ending::Trapped(Trap::StackFull));
            return Ok(());
        }
        let item = self.item();
        let block = self.innermost();
        self.threads.reserve()?;
        self.schedule.reserve_all(self.threads.living() + 1)?;
        let frame = self.frames.make(Some(self.frame), slots)?;
        let born = Item {
            number: self.threads.len(),
        };
        self.threads.add();
        self.blocks.begin(block);
        self.schedule.yield_to(born);
        self.count_one();
        let next = Parked::new(self.alloc, self.place + 1, frame, self.block);
        self.park(item, to as usize, next);
        Ok(())
    }

    /// Ends the running thread, and gives its frame back; where it was the last of its block and the
    /// owner waits at the finish, the owner goes to the front of the ready list.
    #[tactic(auto, using(crate::proofs::Places::runner_place))]
    pub fn end_thread(&mut self)
        requires running { self.old.ended ≡ None }
        requires runs { IsSome self.old.schedule.running }
        requires can { CanEnd (flat_of self.old) }
        requires seat { 0 < self.old.schedule.spare }
        requires places { HavePlaces self.old }
        requires settled { self.old.threads.pending ≡ false }
        ensures does { Does self.old Instr.End self.new }
        ensures places { Places self.old Instr.End self.new }
        ensures keeps { KeepsCode self.old self.new }
    {
        let item = self.item();
        let block = self.innermost();
        self.frames.give_back(self.frame);
        self.leave(block);
        self.count_one();
        self.bury(item);
    }

    /// The running thread goes to the back of the ready list.
    #[tactic(auto, using(crate::proofs::Places::runner_place))]
    pub fn yield_now(&mut self)
        requires running { self.old.ended ≡ None }
        requires inside { self.old.place < 2 ^ 32 }
        requires runs { IsSome self.old.schedule.running }
        requires seat { 0 < self.old.schedule.spare }
        requires places { HavePlaces self.old }
        requires settled { self.old.threads.pending ≡ false }
        ensures does { Does self.old Instr.Yield self.new }
        ensures keeps { Keeps self.old self.new }
    {
        let item = self.item();
        self.schedule.yield_now();
        self.count_one();
        self.park(item, self.place + 1, Parked::nobody(self.alloc));
    }

    /// No thread runs: the one at the front of the ready list does.
    #[tactic(auto, using(crate::proofs::Places::next_place))]
    pub fn dispatch(&mut self)
        requires running { self.old.ended ≡ None }
        requires idle { self.old.schedule.running ≡ None }
        requires next { HasNext (flat_of self.old) }
        requires places { HavePlaces self.old }
        requires settled { self.old.threads.pending ≡ false }
        ensures does { state_of self.new ≡ exec self.old.code.now self.old.bound (flat_of self.old) }
        ensures keeps { Keeps self.old self.new }
    {
        let Some(item) = self.schedule.next() else {
            unreachable!()
        };
        if self.turn == u64::MAX {
            self.ended = Some(Ending::OutOfSteps);
            return;
        }
        self.turn += 1;
        let next = self.threads.take(item);
        let _ = self.stand(next);
        self.frames.look_at(self.frame);
    }
}
