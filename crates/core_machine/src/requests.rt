//! Reads and writes of files start; in a cancelled block they end at once.

ghost use Rattle.std.specs.Prelude.{◌≡◌, ◌<◌, ◌≤◌, ℕ, length, slice_get, Some, Ok, Err, IfOk, IfErr};
ghost use Rattle.work_item.specs.declared.cell.Place as place;
ghost use Rattle.cancel_scope.specs.declared.operation.Asked as wish;
ghost use Rattle.core_state.specs.Requests.{if_in_range};
ghost use Rattle.core_machine.specs.inner.Operands.{first_place, int_below};

use crate::ending::Ending;
use crate::running::Running;
use ac_base::{NoMemory, Trap};
use cancel_scope::Asked;
use core_operators::{Range, bytes_at, int_in, place_in, range_of};
use thread_table::Operands;
use work_item::Cell;

// The operand so many below the topmost.
fn operand(operands: &Operands, below: u32) -> Cell
    requires few { below < 3 }
    requires there { below < length operands.now }
    ensures { slice_get operands.now below ≡ Some result }
{
    operands.get(below)
}

// The range of a request, whose place in the file, length and array are the three operands on top.
fn range_in(operands: &Operands) -> Result<Range, Trap>
    requires { 3 ≤ length operands.now }
    ensures ok { IfOk result (λ r. (ask : ℕ → place.Place → wish.Asked) → if_in_range (first_place operands.now)
        (int_below operands.now 2) (int_below operands.now 1) ask ≡ Ok (ask r.from r.elements)) }
    ensures err { IfErr result (λ trap. (ask : ℕ → place.Place → wish.Asked) → if_in_range (first_place operands.now)
        (int_below operands.now 2) (int_below operands.now 1) ask ≡ Err trap) }
    ensures home { IfOk result (λ r. r.elements.home ≡ (first_place operands.now).home) }
{
    let from = int_in(operand(operands, 2));
    let len = int_in(operand(operands, 1));
    range_of(from, len, place_in(operand(operands, 0)))
}

impl Running<'_> {
    ghost use Rattle.std.specs.Prelude.{◌≡◌, None, ◌≤◌, ◌<◌, ◌^◌, drop, length, false, IsSome, OnOk, OnErr};
    ghost use Rattle.stack_code.specs.declared.instr.Instr.{Instr};
    ghost use Rattle.code_meaning.specs.Machine.{asks};
    ghost use Rattle.core_machine.specs.State.{flat_of, state_of, HavePlaces};
    ghost use Rattle.core_machine.specs.inner.Needs.{HasRequest};
    ghost use Rattle.core_machine.specs.inner.Changes.{Keeps, Does, Stays, item_of};

    // What is asked for on the core's own link starts, in the place of three operands; in a cancelled
    // block it has its value at once.
    #[tactic(auto, using(crate::proofs::Places::runner_place))]
    fn request(&mut self, asked: Asked) -> Result<(), NoMemory>
        requires running { self.old.ended ≡ None }
        requires inside { self.old.place < 2 ^ 32 }
        requires runs { IsSome self.old.schedule.running }
        requires places { HavePlaces self.old }
        requires settled { self.old.threads.pending ≡ false }
        requires three { 3 ≤ length self.old.operands }
        ensures ok { OnOk result (state_of self.new
            ≡ asks (flat_of self.old) (item_of self.old.schedule.running) self.old.requests asked (drop 3 self.old.operands)) }
        ensures err { OnErr result (Stays self.old self.new) }
        ensures keeps { Keeps self.old self.new }
    {
        if self.blocks.is_cancelled(self.block) {
            self.operands.discard(2);
            self.end_at_once();
            return Ok(());
        }
        let item = self.item();
        let link = self.requests;
        self.outstanding.reserve(1)?;
        self.operands.discard(3);
        self.operate(item, link, asked);
        Ok(())
    }

    /// Starts to read from a file: pops an array, a length, and a place in the file.
    pub fn read(&mut self, file: u32) -> Result<(), NoMemory>
        requires running { self.old.ended ≡ None }
        requires inside { self.old.place < 2 ^ 32 }
        requires runs { IsSome self.old.schedule.running }
        requires places { HavePlaces self.old }
        requires settled { self.old.threads.pending ≡ false }
        requires has { HasRequest (flat_of self.old) }
        ensures ok { OnOk result (Does self.old (Instr.Read file) self.new) }
        ensures err { OnErr result (Stays self.old self.new) }
        ensures keeps { Keeps self.old self.new }
    {
        match range_in(&self.operands) {
            Ok(range) => self.request(Asked::Read {
                file,
                from: range.from,
                into: range.elements,
            }),
            Err(trap) => {
                self.end(Ending::Trapped(trap));
                Ok(())
            }
        }
    }

    /// Starts to write to a file: pops an array, a length, and a place in the file. It takes its bytes
    /// now.
    pub fn write(&mut self, file: u32) -> Result<(), NoMemory>
        requires running { self.old.ended ≡ None }
        requires inside { self.old.place < 2 ^ 32 }
        requires runs { IsSome self.old.schedule.running }
        requires places { HavePlaces self.old }
        requires settled { self.old.threads.pending ≡ false }
        requires has { HasRequest (flat_of self.old) }
        ensures ok { OnOk result (Does self.old (Instr.Write file) self.new) }
        ensures err { OnErr result (Stays self.old self.new) }
        ensures keeps { Keeps self.old self.new }
    {
        let range = range_in(&self.operands);
        match range {
            Ok(range) => {
                let bytes = bytes_at(self.alloc, &self.frames, range.elements)?;
                self.request(Asked::Write {
                    file,
                    from: range.from,
                    bytes,
                })
            }
            Err(trap) => {
                self.end(Ending::Trapped(trap));
                Ok(())
            }
        }
    }
}
