//! Elements of arrays.

use crate::ending::Ending;
use crate::running::Running;
use core_operators::within;
use work_item::Place;

impl Running<'_> {
    ghost use Rattle.std.specs.Prelude.{◌≡◌, true, None, Some, ◌+◌, ◌-◌, ◌≤◌, ◌<◌, ◌^◌, [], ◌∷◌, length};
    ghost use Rattle.work_item.specs.Conditions.{HomeLives};
    ghost use Rattle.stack_code.specs.declared.instr.Instr.{Instr};
    ghost use Rattle.code_safety.specs.Fit.{is_int};
    ghost use Rattle.thread_table.specs.Operands.{is_reference};
    ghost use Rattle.core_machine.specs.inner.Operands.{Stand, second_place};
    ghost use Rattle.core_machine.specs.inner.Changes.{Keeps, Does, DoesAt, Continues};

    /// Pops an index, then a reference, and pushes that element. Each of these says whether it did so,
    /// and did not trap.
    pub fn element(&mut self, address: &mut usize) -> bool
        requires running { self.old.ended ≡ None }
        requires inside { address.old < 2 ^ 32 }
        requires operands { Stand (is_int ∷ is_reference ∷ []) self.old.operands }
        requires home { HomeLives self.old.frames (second_place self.old.operands).home }
        ensures does { DoesAt self.old address.old Instr.Elem self.new address.new }
        ensures keeps { Keeps self.old self.new }
        ensures continues { result ≡ true → Continues self.old self.new }
    {
        let index = self.operands.pop_int();
        let place = self.operands.top_place();
        match within(place, index) {
            Ok(index) => {
                let value = self.frames.read_at(place, index);
                self.operands.replace_by_int(value);
                self.pass(address);
                true
            }
            Err(trap) => {
                self.end(Ending::Trapped(trap));
                false
            }
        }
    }

    /// Pops an index, a reference and an int, and puts the int into that element.
    pub fn set_element(&mut self, address: &mut usize) -> bool
        requires running { self.old.ended ≡ None }
        requires inside { address.old < 2 ^ 32 }
        requires operands { Stand (is_int ∷ is_reference ∷ is_int ∷ []) self.old.operands }
        requires home { HomeLives self.old.frames (second_place self.old.operands).home }
        ensures does { DoesAt self.old address.old Instr.SetElem self.new address.new }
        ensures keeps { Keeps self.old self.new }
        ensures continues { result ≡ true → Continues self.old self.new }
    {
        let index = self.operands.pop_int();
        let place = self.operands.pop_place();
        let value = self.operands.pop_int();
        match within(place, index) {
            Ok(index) => {
                self.frames.write_at(place, index, value);
                self.pass(address);
                true
            }
            Err(trap) => {
                self.end(Ending::Trapped(trap));
                false
            }
        }
    }

    /// Pops an index, then a reference, and pushes the reference to just that element.
    pub fn element_place(&mut self) -> bool
        requires running { self.old.ended ≡ None }
        requires inside { self.old.place < 2 ^ 32 }
        requires operands { Stand (is_int ∷ is_reference ∷ []) self.old.operands }
        requires place { (second_place self.old.operands).start + (second_place self.old.operands).len < 2 ^ 32 }
        ensures does { Does self.old Instr.Place self.new }
        ensures keeps { Keeps self.old self.new }
        ensures continues { result ≡ true → Continues self.old self.new }
    {
        let index = self.operands.pop_int();
        let place = self.operands.top_place();
        match within(place, index) {
            Ok(index) => {
                self.operands.replace_place(Place {
                    home: place.home,
                    start: place.start + index,
                    len: 1,
                });
                self.go_on();
                true
            }
            Err(trap) => {
                self.end(Ending::Trapped(trap));
                false
            }
        }
    }
}
