//! Calls and returns.

use crate::beginning::has_room;
use crate::ending::Ending;
use crate::running::Running;
use ac_base::{NoMemory, Trap};

impl Running<'_> {
    ghost use Rattle.std.specs.Prelude.{◌≡◌, true, None, ◌<◌, ◌^◌, OnOk, OnErr, IfOk};
    ghost use Rattle.work_item.specs.Conditions.{IsGoing};
    ghost use Rattle.stack_code.specs.declared.instr.Instr.{Instr};
    ghost use Rattle.code_safety.specs.Fit.{is_int};
    ghost use Rattle.thread_table.specs.Operands.{on_top};
    ghost use Rattle.core_machine.specs.inner.Needs.{HasCall};
    ghost use Rattle.core_machine.specs.inner.Changes.{Keeps, DoesAt, StaysAt, Continues};

    /// Calls a function with so many arguments. It says whether the core goes on.
    #[inline(always)]
    pub fn call(&mut self, address: &mut usize, function: u32, count: u32) -> Result<bool, NoMemory>
        requires running { self.old.ended ≡ None }
        requires inside { address.old < 2 ^ 32 }
        requires has { HasCall self.old.code.now self.old.operands function count }
        ensures ok { OnOk result (DoesAt self.old address.old (Instr.Call function count) self.new address.new) }
        ensures err { OnErr result (StaysAt self.old address.old self.new address.new) }
        ensures keeps { Keeps self.old self.new }
        ensures continues { IfOk result (λ goes. goes ≡ true → Continues self.old self.new) }
    {
        let entered = &self.code.functions()[function as usize];
        if !has_room(&self.frames, entered.words) {
            self.end(Ending::Trapped(Trap::StackFull));
            return Ok(false);
        }
        self.callers
            .push(*address + 1, self.frame, &self.operands.below(count))?;
        let args = self.operands.top(count);
        match self.frames.make_of(None, &args, entered.words) {
            Ok(frame) => {
                self.operands.clear();
                self.frame = frame;
                self.pass_to(address, entered.at as usize);
                Ok(true)
            }
            Err(error) => {
                self.callers.forget();
                Err(error)
            }
        }
    }

    /// Gives the value of an activation to its caller; without one the core has finished. It says
    /// whether it goes on.
    #[inline(always)]
    pub fn ret(&mut self, address: &mut usize) -> Result<bool, NoMemory>
        requires running { self.old.ended ≡ None }
        requires int { on_top is_int self.old.operands ≡ true }
        requires frame { IsGoing self.old.frames self.old.frame }
        ensures ok { OnOk result (DoesAt self.old address.old Instr.Ret self.new address.new) }
        ensures err { OnErr result (StaysAt self.old address.old self.new address.new) }
        ensures keeps { Keeps self.old self.new }
        ensures continues { IfOk result (λ goes. goes ≡ true → Continues self.old self.new) }
    {
        let value = self.operands.top_int();
        match self.callers.pop(value, &mut self.operands)? {
            None => {
                self.end(Ending::Finished);
                Ok(false)
            }
            Some(caller) => {
                self.frames.give_back(self.frame);
                self.frame = caller.frame;
                self.pass_to(address, caller.place);
                Ok(true)
            }
        }
    }
}
