//! The instructions on slots and globals.

use crate::running::Running;
use ac_base::NoMemory;
use work_item::Place;

impl Running<'_> {
    ghost use Rattle.std.specs.Prelude.{◌≡◌, true, None, Some, ◌+◌, ◌-◌, ◌≤◌, ◌<◌, ◌^◌, length, OnOk, OnErr};
    ghost use Rattle.work_item.specs.Store.{above, cells_of};
    ghost use Rattle.work_item.specs.Conditions.{Lives, HasLevel, HasSlot, HasGlobal};
    ghost use Rattle.stack_code.specs.declared.instr.Instr.{Instr};
    ghost use Rattle.code_safety.specs.Fit.{is_int};
    ghost use Rattle.thread_table.specs.Operands.{on_top};
    ghost use Rattle.core_machine.specs.inner.Changes.{Keeps, Does, DoesAt, StaysAt, Continues};

    /// Pushes an int.
    pub fn push(&mut self, address: &mut usize, value: i64) -> Result<(), NoMemory>
        requires running { self.old.ended ≡ None }
        requires inside { address.old < 2 ^ 32 }
        ensures ok { OnOk result (DoesAt self.old address.old (Instr.Push value) self.new address.new) }
        ensures err { OnErr result (StaysAt self.old address.old self.new address.new) }
        ensures keeps { Keeps self.old self.new }
        ensures continues { Continues self.old self.new }
    {
        self.operands.push_int(value)?;
        self.pass(address);
        Ok(())
    }

    /// Pushes what a slot holds.
    pub fn load(&mut self, address: &mut usize, level: u32, slot: u32) -> Result<(), NoMemory>
        requires running { self.old.ended ≡ None }
        requires inside { address.old < 2 ^ 32 }
        requires level { HasLevel self.old.frames self.old.frame level }
        requires slot { HasSlot self.old.frames (above self.old.frames self.old.frame level) slot }
        ensures ok { OnOk result (DoesAt self.old address.old (Instr.Load level slot) self.new address.new) }
        ensures err { OnErr result (StaysAt self.old address.old self.new address.new) }
        ensures keeps { Keeps self.old self.new }
        ensures continues { Continues self.old self.new }
    {
        let cell = self.frames.read(self.frame, level, slot);
        self.operands.push(cell)?;
        self.pass(address);
        Ok(())
    }

    /// Pushes what a global holds.
    pub fn load_global(&mut self, address: &mut usize, slot: u32) -> Result<(), NoMemory>
        requires running { self.old.ended ≡ None }
        requires inside { address.old < 2 ^ 32 }
        requires slot { HasGlobal self.old.frames slot }
        ensures ok { OnOk result (DoesAt self.old address.old (Instr.LoadG slot) self.new address.new) }
        ensures err { OnErr result (StaysAt self.old address.old self.new address.new) }
        ensures keeps { Keeps self.old self.new }
        ensures continues { Continues self.old self.new }
    {
        let value = self.frames.read_global(slot);
        self.operands.push_int(value)?;
        self.pass(address);
        Ok(())
    }

    /// Pops an int into a slot.
    pub fn store(&mut self, address: &mut usize, level: u32, slot: u32)
        requires running { self.old.ended ≡ None }
        requires inside { address.old < 2 ^ 32 }
        requires level { HasLevel self.old.frames self.old.frame level }
        requires slot { HasSlot self.old.frames (above self.old.frames self.old.frame level) slot }
        requires int { on_top is_int self.old.operands ≡ true }
        ensures does { DoesAt self.old address.old (Instr.Store level slot) self.new address.new }
        ensures keeps { Keeps self.old self.new }
        ensures continues { Continues self.old self.new }
    {
        let value = self.operands.pop_int();
        self.frames.write(self.frame, level, slot, value);
        self.pass(address);
    }

    /// Pops an int into a global.
    pub fn store_global(&mut self, address: &mut usize, slot: u32)
        requires running { self.old.ended ≡ None }
        requires inside { address.old < 2 ^ 32 }
        requires slot { HasGlobal self.old.frames slot }
        requires int { on_top is_int self.old.operands ≡ true }
        ensures does { DoesAt self.old address.old (Instr.StoreG slot) self.new address.new }
        ensures keeps { Keeps self.old self.new }
        ensures continues { Continues self.old self.new }
    {
        let value = self.operands.pop_int();
        self.frames.write_global(slot, value);
        self.pass(address);
    }

    /// Pushes the reference to an array in a frame.
    pub fn array(
        &mut self,
        address: &mut usize,
        level: u32,
        slot: u32,
        len: u32,
    ) -> Result<(), NoMemory>
        requires running { self.old.ended ≡ None }
        requires inside { address.old < 2 ^ 32 }
        requires level { HasLevel self.old.frames self.old.frame level }
        ensures ok { OnOk result (DoesAt self.old address.old (Instr.Arr level slot len) self.new address.new) }
        ensures err { OnErr result (StaysAt self.old address.old self.new address.new) }
        ensures keeps { Keeps self.old self.new }
        ensures continues { Continues self.old self.new }
    {
        let home = self.frames.above(self.frame, level);
        self.operands.push_place(Place {
            home: Some(home),
            start: slot,
            len,
        })?;
        self.pass(address);
        Ok(())
    }

    /// Pushes the reference to an array in the globals.
    pub fn global_array(&mut self, address: &mut usize, slot: u32, len: u32) -> Result<(), NoMemory>
        requires running { self.old.ended ≡ None }
        requires inside { address.old < 2 ^ 32 }
        ensures ok { OnOk result (DoesAt self.old address.old (Instr.ArrG slot len) self.new address.new) }
        ensures err { OnErr result (StaysAt self.old address.old self.new address.new) }
        ensures keeps { Keeps self.old self.new }
        ensures continues { Continues self.old self.new }
    {
        self.operands.push_place(Place {
            home: None,
            start: slot,
            len,
        })?;
        self.pass(address);
        Ok(())
    }

    /// Sets so many slots of the own frame to 0.
    pub fn clear(&mut self, slot: u32, len: u32)
        requires running { self.old.ended ≡ None }
        requires inside { self.old.place < 2 ^ 32 }
        requires frame { Lives self.old.frames self.old.frame }
        requires slots { slot + len ≤ length (cells_of self.old.frames self.old.frame) }
        ensures does { Does self.old (Instr.Clear slot len) self.new }
        ensures keeps { Keeps self.old self.new }
        ensures continues { Continues self.old self.new }
    {
        self.frames.clear(self.frame, slot, len);
        self.go_on();
    }
}
