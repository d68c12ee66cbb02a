//! Code as far as it is emitted, in one pass. A jump forward is emitted without its address, which is set when it is known.
//! Addresses count instructions.

ghost use Rattle.std.specs.Prelude.{◌≡◌, ◌+◌, ◌<◌, ◌^◌, [], length, OnOk, IfOk};
ghost use Rattle.ac_translation.specs.Pieces.{one, out_past, out_turn};
ghost use Rattle.ac_compile.specs.inner.Emission.{nothing_yet, with_code, with_instr, with_outs, with_jumps, AreBelow};

use ac_base::NoMemory;
use stack_code::Instr;
use std::alloc::Global;
use std::marker::Model;
use std::mem;

/// The addresses of the jumps out of a loop whose exits are not known yet: to where it is left, and to where it goes on.
#[derive(Drop)]
pub struct Outs {
    pub pasts: Vec<u32>,
    pub turns: Vec<u32>,
}

impl Outs {
    /// No jumps.
    pub fn new(alloc: Global) -> Outs
        ensures pasts { result.pasts.items ≡ [] }
        ensures turns { result.turns.items ≡ [] }
    {
        Outs {
            pasts: Vec::new(alloc),
            turns: Vec::new(alloc),
        }
    }
}

/// The instructions so far, and the jumps out of the loop round what comes next.
///
/// What emits answers `NoMemory` where there is no memory for it, and the emitter is of no use then.
#[derive(Drop)]
pub struct Emitter {
    instrs: Vec<Instr>,
    outs: Outs,
}

impl Model for Emitter {
    ghost use Rattle.ac_compile.specs.inner.Emission.{Emitted};

    ghost Value = { Emitted };

    ghost view = { λ e. record { instrs = e.instrs.items; pasts = e.outs.pasts.items; turns = e.outs.turns.items } };
}

impl Emitter {
    /// No code.
    pub fn new(alloc: Global) -> Emitter
        ensures { result ≡ nothing_yet }
    {
        Emitter {
            instrs: Vec::new(alloc),
            outs: Outs::new(alloc),
        }
    }

    /// The address of the next instruction.
    pub fn len(&self) -> u32
        requires { length self.now.instrs < 2 ^ 32 }
        ensures { result ≡ length self.now.instrs }
    {
        self.instrs.len() as u32
    }

    /// The instructions.
    pub fn into_instrs(self) -> Vec<Instr>
        ensures { result.items ≡ self.instrs }
    {
        self.instrs
    }

    /// One more instruction.
    pub fn put(&mut self, instr: Instr) -> Result<(), NoMemory>
        ensures { OnOk result (self.new ≡ with_code (one instr) self.old) }
    {
        self.instrs.push(instr)?;
        Ok(())
    }

    /// A jump whose address is not known yet. It gives its own address.
    pub fn jump(&mut self, instr: Instr) -> Result<u32, NoMemory>
        requires { length self.old.instrs < 2 ^ 32 }
        ensures at { IfOk result (λ at. at ≡ length self.old.instrs) }
        ensures code { OnOk result (self.new ≡ with_code (one instr) self.old) }
    {
        let at = self.len();
        self.put(instr)?;
        Ok(at)
    }

    /// Puts an instruction in place of another.
    pub fn set(&mut self, at: u32, instr: Instr)
        requires { at < length self.old.instrs }
        ensures { self.new ≡ with_instr at instr self.old }
    {
        self.instrs[at as usize] = instr;
    }

    /// A jump to where the loop is left.
    pub fn put_past(&mut self) -> Result<(), NoMemory>
        requires { length self.old.instrs < 2 ^ 32 }
        ensures { OnOk result (self.new ≡ with_code out_past self.old) }
    {
        let at = self.len();
        self.outs.pasts.push(at)?;
        self.instrs.push(Instr::Jump { to: 0 })?;
        Ok(())
    }

    /// A jump to where the loop goes on.
    pub fn put_turn(&mut self) -> Result<(), NoMemory>
        requires { length self.old.instrs < 2 ^ 32 }
        ensures { OnOk result (self.new ≡ with_code out_turn self.old) }
    {
        let at = self.len();
        self.outs.turns.push(at)?;
        self.instrs.push(Instr::Jump { to: 0 })?;
        Ok(())
    }

    /// Exchanges the jumps out of the loop for those of another.
    pub fn exchange(&mut self, outs: Outs) -> Outs
        ensures after { self.new ≡ with_outs outs.pasts.items outs.turns.items self.old }
        ensures pasts { result.pasts.items ≡ self.old.pasts }
        ensures turns { result.turns.items ≡ self.old.turns }
    {
        mem::replace(&mut self.outs, outs)
    }

    /// Sets jumps to this address.
    pub fn fill(&mut self, jumps: &[u32], to: u32)
        requires { AreBelow (length self.old.instrs) jumps.now }
        ensures { self.new ≡ with_jumps to jumps.now self.old }
    {
        for at in jumps {
            self.instrs[*at as usize] = Instr::Jump { to };
        }
    }

    /// Sets the jumps out of a loop whose exits are known.
    pub fn fill_outs(&mut self, outs: &Outs, past: u32, turn: u32)
        requires pasts { AreBelow (length self.old.instrs) outs.now.pasts.items }
        requires turns { AreBelow (length self.old.instrs) outs.now.turns.items }
        ensures { self.new ≡ with_jumps turn outs.now.turns.items (with_jumps past outs.now.pasts.items self.old) }
    {
        self.fill(outs.pasts.as_slice(), past);
        self.fill(outs.turns.as_slice(), turn);
    }
}
