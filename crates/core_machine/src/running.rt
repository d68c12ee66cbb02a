//! A core that runs, instruction after instruction.

ghost use Rattle.std.specs.Prelude.{◌≡◌};

use crate::counter::Counter;
use crate::ending::Ending;
use crate::went::{Follows, Went, done, how_on};
use ac_base::{Journal, NoMemory, Trap};
use cancel_scope::Outstanding;
use core_operators::{
    add_formatted, both_bits, difference, differing_bits, either_bits, flipped, is_at_most,
    is_equal, is_less, is_not_equal, negated, not_true, product, quotient, remainder, shifted_left,
    shifted_right, sum, truth,
};
use core_scheduler::Scheduler;
use finish_block::Blocks;
use stack_code::{Code, Instr};
use std::alloc::Global;
use thread_table::{Callers, Operands, ThreadTable};
use work_item::{BlockId, FrameId, Frames};

/// The fields of a core that runs: the link of its requests, and its journal; its globals and frames,
/// and its operations that have not ended; the frame, the address, the operands, the callers and the
/// innermost block of the running thread; which threads run and are ready, the others at their
/// numbers, and the blocks; the steps and turns that it has used, the bytes that it has printed, the
/// instructions begun, and how it has ended.
#[derive(Drop)]
pub struct Running<'a> {
    pub code: &'a Code,
    pub core: u32,
    pub bound: u64,
    pub requests: u32,
    pub journal: Journal,
    pub frames: Frames,
    pub outstanding: Outstanding,
    pub frame: FrameId,
    pub place: usize,
    pub operands: Operands,
    pub callers: Callers,
    pub block: Option<BlockId>,
    pub schedule: Scheduler,
    pub threads: ThreadTable,
    pub blocks: Blocks,
    pub steps: u64,
    pub turn: u64,
    pub output: Vec<u8>,
    pub count: Counter,
    pub ended: Option<Ending>,
    pub alloc: Global,
}

impl Running<'_> {
    ghost use Rattle.std.specs.Prelude.{◌≡◌, true, None, Some, ◌+◌, ◌-◌, ◌≤◌, ◌<◌, ◌^◌, min, length};
    ghost use Rattle.stack_code.specs.declared.instr.Instr.{Instr};
    ghost use Rattle.core_machine.specs.declared.ending.Ending.{Ending};
    ghost use Rattle.code_safety.specs.Fit.{is_int};
    ghost use Rattle.thread_table.specs.Operands.{on_top};
    ghost use Rattle.core_machine.specs.inner.Changes.{Keeps, DoesAt, Continues};

    /// One instruction more.
    #[inline(always)]
    pub fn count_one(&mut self)
        ensures { self.new ≡ record self.old { count = min (self.old.count + 1) (2 ^ 64 - 1) } }
    {
        self.count.add_one();
    }

    /// One instruction more, and on to that address.
    #[inline(always)]
    pub fn go_to(&mut self, place: usize)
        ensures { self.new ≡ record self.old { place = place; count = min (self.old.count + 1) (2 ^ 64 - 1) } }
    {
        self.place = place;
        self.count_one();
    }

    /// One instruction more, and on to the next address.
    #[inline(always)]
    pub fn go_on(&mut self)
        requires { self.old.place < 2 ^ 32 }
        ensures { self.new ≡ record self.old { place = self.old.place + 1; count = min (self.old.count + 1) (2 ^ 64 - 1) } }
    {
        self.go_to(self.place + 1);
    }

    /// One instruction more, by which the core has ended.
    pub fn end(&mut self, ending: Ending)
        ensures { self.new ≡ record self.old { count = min (self.old.count + 1) (2 ^ 64 - 1); ended = Some ending } }
    {
        self.count_one();
        self.ended = Some(ending);
    }

    /// One instruction more, and on to that address, which is held apart from the core.
    #[inline(always)]
    pub fn pass_to(&mut self, address: &mut usize, to: usize)
        ensures core { self.new ≡ record self.old { count = min (self.old.count + 1) (2 ^ 64 - 1) } }
        ensures address { address.new ≡ to }
    {
        *address = to;
        self.count_one();
    }

    /// One instruction more, and on to the next address, which is held apart from the core.
    #[inline(always)]
    pub fn pass(&mut self, address: &mut usize)
        requires { address.old < 2 ^ 32 }
        ensures core { self.new ≡ record self.old { count = min (self.old.count + 1) (2 ^ 64 - 1) } }
        ensures address { address.new ≡ address.old + 1 }
    {
        *address += 1;
        self.count_one();
    }

    /// Uses a step. It says whether there was one.
    pub fn step(&mut self, address: &mut usize) -> bool
        requires running { self.old.ended ≡ None }
        requires inside { address.old < 2 ^ 32 }
        ensures does { DoesAt self.old address.old Instr.Step self.new address.new }
        ensures keeps { Keeps self.old self.new }
        ensures continues { result ≡ true → Continues self.old self.new }
    {
        if self.steps >= self.bound {
            self.ended = Some(Ending::OutOfSteps);
            return false;
        }
        self.steps += 1;
        self.pass(address);
        true
    }

    /// Drops an operand.
    pub fn drop_one(&mut self, address: &mut usize)
        requires running { self.old.ended ≡ None }
        requires inside { address.old < 2 ^ 32 }
        requires one { 1 ≤ length self.old.operands }
        ensures does { DoesAt self.old address.old Instr.Drop self.new address.new }
        ensures keeps { Keeps self.old self.new }
        ensures continues { Continues self.old self.new }
    {
        let _ = self.operands.pop();
        self.pass(address);
    }

    /// Goes to an address.
    pub fn jump(&mut self, address: &mut usize, to: u32)
        requires running { self.old.ended ≡ None }
        ensures does { DoesAt self.old address.old (Instr.Jump to) self.new address.new }
        ensures keeps { Keeps self.old self.new }
        ensures continues { Continues self.old self.new }
    {
        self.pass_to(address, to as usize);
    }

    /// Goes to an address where an int is 0.
    pub fn jump_if_zero(&mut self, address: &mut usize, to: u32)
        requires running { self.old.ended ≡ None }
        requires inside { address.old < 2 ^ 32 }
        requires int { on_top is_int self.old.operands ≡ true }
        ensures does { DoesAt self.old address.old (Instr.Jz to) self.new address.new }
        ensures keeps { Keeps self.old self.new }
        ensures continues { Continues self.old self.new }
    {
        if self.operands.pop_int() == 0 {
            self.pass_to(address, to as usize);
        } else {
            self.pass(address);
        }
    }

    /// Goes to an address where an int is not 0.
    pub fn jump_if_not_zero(&mut self, address: &mut usize, to: u32)
        requires running { self.old.ended ≡ None }
        requires inside { address.old < 2 ^ 32 }
        requires int { on_top is_int self.old.operands ≡ true }
        ensures does { DoesAt self.old address.old (Instr.Jnz to) self.new address.new }
        ensures keeps { Keeps self.old self.new }
        ensures continues { Continues self.old self.new }
    {
        if self.operands.pop_int() != 0 {
            self.pass_to(address, to as usize);
        } else {
            self.pass(address);
        }
    }
}

// ---- printing

impl Running<'_> {
    ghost use Rattle.std.specs.Prelude.{◌≡◌, None, Some, true, ◌+◌, ◌-◌, ◌≤◌, ◌<◌, ◌^◌, length, OnOk, OnErr, IfOk};
    ghost use Rattle.stack_code.specs.declared.instr.Instr.{Instr};
    ghost use Rattle.core_machine.specs.State.{flat_of, state_of};
    ghost use Rattle.core_machine.specs.inner.Changes.{Keeps, Does, Stays, Continues};

    /// Pops so many ints, and prints a text with them. It says whether there was room for it.
    #[inline(always)]
    pub fn print(&mut self, text: u32, count: u32) -> Result<bool, NoMemory>
        requires running { self.old.ended ≡ None }
        requires inside { self.old.place < 2 ^ 32 }
        requires text { text < length self.old.code.now.texts }
        requires many { count ≤ length self.old.operands }
        ensures ok { OnOk result (Does self.old (Instr.Print text count) self.new) }
        ensures err { OnErr result (Stays self.old self.new) }
        ensures keeps { Keeps self.old self.new }
        ensures continues { IfOk result (λ goes. goes ≡ true → Continues self.old self.new) }
    {
        let text = self.code.texts()[text as usize].as_slice();
        let values = self.operands.ints(count);
        if add_formatted(self.alloc, &mut self.output, text, values)? {
            self.operands.discard(count);
            self.go_on();
            Ok(true)
        } else {
            self.end(Ending::Trapped(Trap::OutputFull));
            Ok(false)
        }
    }
}

// ---- one instruction after another

impl Running<'_> {
    ghost use Rattle.std.specs.Prelude.{◌≡◌, ◌≢◌, ℕ, None, Some, IsSome, true, false, ◌+◌, ◌<◌, ◌^◌, OnOk, OnErr, IfOk, length};
    ghost use Rattle.std.specs.Prelude.{slice_get, slice_index_or};
    ghost use Rattle.core_state.specs.Moves.{GoesOn};
    ghost use Rattle.stack_code.specs.declared.instr.Instr.{Instr};
    ghost use Rattle.stack_code.specs.Kept.{IsRanked};
    ghost use Rattle.code_meaning.specs.Machine.{exec};
    ghost use Rattle.replay_laws.specs.Given.{Passes, passes_first};
    ghost use Rattle.core_machine.specs.Machine.{is_resting, is_idle, has_ended};
    ghost use Rattle.core_machine.specs.Points.{is_at_point};
    ghost use Rattle.core_machine.specs.State.{flat_of, state_of, HavePlaces, IsSound};
    ghost use Rattle.core_machine.specs.declared.went.Went.{Went};
    ghost use Rattle.core_machine.specs.declared.went.Follows.{Follows};
    ghost use Rattle.core_machine.specs.Tried.{cancelled_by, tried_within, tried_of};
    ghost use Rattle.core_machine.specs.inner.Left.{left_of};
    ghost use Rattle.core_machine.specs.inner.Needs.{Finds, is_on_threads, is_apart};
    ghost use Rattle.core_machine.specs.inner.Changes.{IsSameCode, KeepsCode, Keeps, Does, DoesAt, Places, Stays, StaysAt};
    ghost use Rattle.core_machine.specs.inner.Changes.{Continues, at_address};
    ghost use Rattle.core_machine.specs.inner.Led.{IsLed, DoesOn};
    ghost use Rattle.core_machine.specs.inner.Operators.{is_comparison};

    // An instruction on blocks, threads and operations, which finds what it needs.
    fn change_threads(&mut self, instr: Instr) -> Result<(), NoMemory>
        requires running { self.old.ended ≡ None }
        requires runs { IsSome self.old.schedule.running }
        requires inside { self.old.place < 2 ^ 32 }
        requires threads { is_on_threads instr ≡ true }
        requires finds { Finds self.old.code.now (flat_of self.old) instr }
        requires seat { 0 < self.old.schedule.spare }
        requires places { HavePlaces self.old }
        requires settled { self.old.threads.pending ≡ false }
        ensures ok { OnOk result (Does self.old instr self.new) }
        ensures places { OnOk result (Places self.old instr self.new) }
        ensures err { OnErr result (Stays self.old self.new) }
        ensures keeps { KeepsCode self.old self.new }
    {
        match instr {
            Instr::Enter { slot } => self.enter(slot),
            Instr::Finish { slot } => {
                self.finish(slot);
                Ok(())
            }
            Instr::Async { slots, to } => self.start(slots, to),
            Instr::End => {
                self.end_thread();
                Ok(())
            }
            Instr::Yield => {
                self.yield_now();
                Ok(())
            }
            Instr::Send { channel } => self.send(channel),
            Instr::Recv { channel } => self.receive(channel),
            Instr::Read { file } => self.read(file),
            Instr::Write { file } => self.write(file),
            _ => unreachable!(),
        }
    }

    // An instruction that is met seldom, or that need not leave the same thread running; it finds what it
    // needs. It is no part of the run loop, which stays small.
    #[inline(never)]
    fn apart(&mut self, instr: &Instr) -> Result<Went, NoMemory>
        requires running { self.old.ended ≡ None }
        requires runs { IsSome self.old.schedule.running }
        requires inside { self.old.place < 2 ^ 32 }
        requires apart { is_apart instr.now ≡ true }
        requires finds { Finds self.old.code.now (flat_of self.old) instr.now }
        requires seat { 0 < self.old.schedule.spare }
        requires places { HavePlaces self.old }
        requires settled { self.old.threads.pending ≡ false }
        ensures ok { IfOk result (λ went. went ≢ Went.Asks → Does self.old instr.now self.new) }
        ensures places { IfOk result (λ went. Places self.old instr.now self.new) }
        ensures asks { IfOk result (λ went. went ≡ Went.Asks → IsSome
            (tried_within (flat_of self.old) (cancelled_by (flat_of self.old) (Some instr.now)))) }
        ensures stays { IfOk result (λ went. went ≡ Went.Asks → Stays self.old self.new) }
        ensures err { OnErr result (Stays self.old self.new) }
        ensures keeps { KeepsCode self.old self.new }
        ensures continues { IfOk result (λ went. went ≡ Went.On → Continues self.old self.new) }
    {
        match *instr {
            Instr::Place => return Ok(done(self.element_place())),
            Instr::Clear { slot, len } => self.clear(slot, len),
            Instr::Print { text, count } => return Ok(done(self.print(text, count)?)),
            Instr::Cancel { level, slot } => return Ok(self.cancel(level, slot)),
            Instr::Enter { .. }
            | Instr::Finish { .. }
            | Instr::Async { .. }
            | Instr::End
            | Instr::Yield
            | Instr::Send { .. }
            | Instr::Recv { .. }
            | Instr::Read { .. }
            | Instr::Write { .. } => {
                self.change_threads(*instr)?;
                return Ok(Went::Away);
            }
            _ => unreachable!(),
        }
        Ok(Went::On)
    }

    // One instruction, which finds what it needs, or a comparison and the jump at 0 behind it, so that the
    // int need not be put onto the operands. The address of the running thread is held apart from
    // the core, so that compiled code need not write it at each one.
    #[inline(always)]
    fn execute(
        &mut self,
        address: &mut usize,
        instr: &Instr,
        instrs: &[Instr],
    ) -> Result<Went, NoMemory>
        requires running { self.old.ended ≡ None }
        requires runs { IsSome self.old.schedule.running }
        requires inside { address.old < 2 ^ 32 }
        requires finds { Finds self.old.code.now (flat_of (at_address self.old address.old)) instr.now }
        requires seat { 0 < self.old.schedule.spare }
        requires places { HavePlaces (at_address self.old address.old) }
        requires settled { self.old.threads.pending ≡ false }
        requires next { is_comparison instr.now ≡ true → address.old + 1 < length instrs.now }
        ensures ok { IfOk result (λ went. went ≢ Went.Asks → DoesOn (at_address self.old address.old) instr.now
            (slice_index_or instrs.now (address.old + 1) Instr.Step) (at_address self.new address.new)) }
        ensures places { IfOk result (λ went. Places self.old instr.now self.new) }
        ensures asks { IfOk result (λ went. went ≡ Went.Asks → IsSome
            (tried_within (flat_of (at_address self.old address.old))
            (cancelled_by (flat_of (at_address self.old address.old)) (Some instr.now)))) }
        ensures stays { IfOk result (λ went. went ≡ Went.Asks → StaysAt self.old address.old self.new address.new) }
        ensures err { OnErr result (StaysAt self.old address.old self.new address.new) }
        ensures keeps { KeepsCode self.old self.new }
        ensures continues { IfOk result (λ went. went ≡ Went.On → Continues self.old self.new) }
    {
        match *instr {
            Instr::Step => return Ok(done(self.step(address))),
            Instr::Push(value) => self.push(address, value)?,
            Instr::Load { level, slot } => self.load(address, level, slot)?,
            Instr::LoadG { slot } => self.load_global(address, slot)?,
            Instr::Store { level, slot } => self.store(address, level, slot),
            Instr::StoreG { slot } => self.store_global(address, slot),
            Instr::Arr { level, slot, len } => self.array(address, level, slot, len)?,
            Instr::ArrG { slot, len } => self.global_array(address, slot, len)?,
            Instr::Elem => return Ok(done(self.element(address))),
            Instr::SetElem => return Ok(done(self.set_element(address))),
            Instr::Drop => self.drop_one(address),
            Instr::Jump { to } => self.jump(address, to),
            Instr::Jz { to } => self.jump_if_zero(address, to),
            Instr::Jnz { to } => self.jump_if_not_zero(address, to),
            Instr::Call { function, count } => return Ok(done(self.call(
                address, function, count,
            )?)),
            Instr::Ret => return Ok(done(self.ret(address)?)),
            // One arm for each operator, so that nothing looks at the instruction twice.
            Instr::Neg => self.apply_unary(address, Instr::Neg, |x| negated(x)),
            Instr::Not => self.apply_unary(address, Instr::Not, |x| not_true(x)),
            Instr::Flip => self.apply_unary(address, Instr::Flip, |x| flipped(x)),
            Instr::Bool => self.apply_unary(address, Instr::Bool, |x| truth(x)),
            Instr::BitOr => self.apply_binary(address, Instr::BitOr, |x, y| either_bits(x, y)),
            Instr::BitXor => self.apply_binary(address, Instr::BitXor, |x, y| differing_bits(x, y)),
            Instr::BitAnd => self.apply_binary(address, Instr::BitAnd, |x, y| both_bits(x, y)),
            Instr::Eq => self.compare(
                address,
                Instr::Eq,
                &instrs[*address + 1],
                |x, y| is_equal(x, y),
            ),
            Instr::Ne => self.compare(
                address,
                Instr::Ne,
                &instrs[*address + 1],
                |x, y| is_not_equal(x, y),
            ),
            Instr::Less => self.compare(
                address,
                Instr::Less,
                &instrs[*address + 1],
                |x, y| is_less(x, y),
            ),
            Instr::LessEq => self.compare(
                address,
                Instr::LessEq,
                &instrs[*address + 1],
                |x, y| is_at_most(x, y),
            ),
            Instr::More => self.compare(
                address,
                Instr::More,
                &instrs[*address + 1],
                |x, y| is_less(y, x),
            ),
            Instr::MoreEq => self.compare(
                address,
                Instr::MoreEq,
                &instrs[*address + 1],
                |x, y| is_at_most(y, x),
            ),
            Instr::Shl => self.apply_binary(address, Instr::Shl, |x, y| shifted_left(x, y)),
            Instr::Shr => self.apply_binary(address, Instr::Shr, |x, y| shifted_right(x, y)),
            Instr::Add => self.apply_binary(address, Instr::Add, |x, y| sum(x, y)),
            Instr::Sub => self.apply_binary(address, Instr::Sub, |x, y| difference(x, y)),
            Instr::Mul => self.apply_binary(address, Instr::Mul, |x, y| product(x, y)),
            Instr::Div => return Ok(done(self.divide(address, Instr::Div, |x, y| quotient(x, y)))),
            Instr::Rem => return Ok(done(self.divide(address, Instr::Rem, |x, y| remainder(x, y)))),
            Instr::Place
            | Instr::Clear { .. }
            | Instr::Print { .. }
            | Instr::Cancel { .. }
            | Instr::Enter { .. }
            | Instr::Finish { .. }
            | Instr::Async { .. }
            | Instr::End
            | Instr::Yield
            | Instr::Send { .. }
            | Instr::Recv { .. }
            | Instr::Read { .. }
            | Instr::Write { .. } => {
                self.place = *address;
                let went = self.apart(instr);
                *address = self.place;
                match went? {
                    Went::On => {}
                    Went::Away => return Ok(Went::Away),
                    Went::Asks => return Ok(Went::Asks),
                }
            }
        }
        Ok(Went::On)
    }

    /// The next instruction of the running thread, with its address held apart from the core.
    #[inline(always)]
    pub fn next_instr<'i>(&self, address: usize, instrs: &'i [Instr]) -> &'i Instr
        requires running { self.now.ended ≡ None }
        requires runs { IsSome self.now.schedule.running }
        requires sound { IsSound (at_address self.now address) }
        requires instrs { instrs.now ≡ self.now.code.now.instrs }
        ensures here { slice_get self.now.code.now.instrs address ≡ Some result.now }
        ensures inside { address < 2 ^ 32 }
        ensures finds { Finds self.now.code.now (flat_of (at_address self.now address)) result.now }
    {
        &instrs[address]
    }

    // That next instruction is done, and the jump behind a comparison. The ranks are there for the proof
    // alone that less is left to do.
    #[inline(always)]
    fn one(
        &mut self,
        address: &mut usize,
        instr: &Instr,
        instrs: &[Instr],
        _ranks: &[u64],
    ) -> Follows
        requires running { self.old.ended ≡ None }
        requires runs { IsSome self.old.schedule.running }
        requires sound { IsSound (at_address self.old address.old) }
        requires here { slice_get self.old.code.now.instrs address.old ≡ Some instr.now }
        requires inside { address.old < 2 ^ 32 }
        requires finds { Finds self.old.code.now (flat_of (at_address self.old address.old)) instr.now }
        requires instrs { instrs.now ≡ self.old.code.now.instrs }
        requires ranked { IsRanked self.old.code.now _ranks.now }
        requires settled { self.old.threads.pending ≡ false }
        ensures led { IsLed (at_address self.old address.old) (at_address self.new address.new) }
        ensures asks { result ≡ Follows.Asks → IsSome (tried_of self.old.code.now (state_of (at_address self.old address.old))) }
        ensures stays { result ≡ Follows.Asks → StaysAt self.old address.old self.new address.new }
        ensures keeps { KeepsCode self.old self.new }
        ensures sound { IsSound (at_address self.new address.new) }
        ensures less { result ≢ Follows.Asks → result ≢ Follows.Refused
            → left_of _ranks.now (at_address self.new address.new) < left_of _ranks.now (at_address self.old address.old) }
        ensures continues { result ≡ Follows.Same → Continues self.old self.new }
    {
        how_on(self.execute(address, instr, instrs))
    }

    // A push of an int and an operator after it, both at once, so that the int need not be put onto the
    // operands; and the jump behind a comparison. It says whether the next ones were so; else nothing
    // has changed.
    #[inline(always)]
    fn two_at_once(
        &mut self,
        address: &mut usize,
        instr: &Instr,
        instrs: &[Instr],
        _ranks: &[u64],
    ) -> bool
        requires running { self.old.ended ≡ None }
        requires runs { IsSome self.old.schedule.running }
        requires sound { IsSound (at_address self.old address.old) }
        requires here { slice_get self.old.code.now.instrs address.old ≡ Some instr.now }
        requires instrs { instrs.now ≡ self.old.code.now.instrs }
        requires ranked { IsRanked self.old.code.now _ranks.now }
        ensures led { result ≡ true → IsLed (at_address self.old address.old) (at_address self.new address.new) }
        ensures sound { result ≡ true → IsSound (at_address self.new address.new) }
        ensures less { result ≡ true
            → left_of _ranks.now (at_address self.new address.new) < left_of _ranks.now (at_address self.old address.old) }
        ensures stays { result ≡ false → at_address self.new address.new ≡ at_address self.old address.old }
        ensures keeps { Keeps self.old self.new }
        ensures continues { Continues self.old self.new }
    {
        let Instr::Push(value) = *instr else {
            return false;
        };
        self.push_and_apply(address, value, &instrs[*address + 1], instrs)
    }

    // The next instruction is done, or up to three of them.
    #[inline(always)]
    fn one_or_two(
        &mut self,
        address: &mut usize,
        instr: &Instr,
        instrs: &[Instr],
        _ranks: &[u64],
    ) -> Follows
        requires running { self.old.ended ≡ None }
        requires runs { IsSome self.old.schedule.running }
        requires sound { IsSound (at_address self.old address.old) }
        requires here { slice_get self.old.code.now.instrs address.old ≡ Some instr.now }
        requires inside { address.old < 2 ^ 32 }
        requires finds { Finds self.old.code.now (flat_of (at_address self.old address.old)) instr.now }
        requires instrs { instrs.now ≡ self.old.code.now.instrs }
        requires ranked { IsRanked self.old.code.now _ranks.now }
        requires settled { self.old.threads.pending ≡ false }
        ensures led { IsLed (at_address self.old address.old) (at_address self.new address.new) }
        ensures asks { result ≡ Follows.Asks → IsSome (tried_of self.old.code.now (state_of (at_address self.old address.old))) }
        ensures stays { result ≡ Follows.Asks → StaysAt self.old address.old self.new address.new }
        ensures keeps { KeepsCode self.old self.new }
        ensures sound { IsSound (at_address self.new address.new) }
        ensures less { result ≢ Follows.Asks → result ≢ Follows.Refused
            → left_of _ranks.now (at_address self.new address.new) < left_of _ranks.now (at_address self.old address.old) }
        ensures continues { result ≡ Follows.Same → Continues self.old self.new }
    {
        if self.two_at_once(address, instr, instrs, _ranks) {
            return Follows::Same;
        }
        self.one(address, instr, instrs, _ranks)
    }

    // The instructions of the running thread, until it need not be the same thread that goes on, or
    // the core asks for an outcome. Each is looked up at the end of the one before it, so that compiled
    // code goes from one to the next without a test of how it went.
    fn stretch(&mut self, _ranks: &[u64]) -> Result<(), NoMemory>
        requires running { self.old.ended ≡ None }
        requires runs { IsSome self.old.schedule.running }
        requires sound { IsSound self.old }
        requires ranked { IsRanked self.old.code.now _ranks.now }
        requires settled { self.old.threads.pending ≡ false }
        requires asks { tried_of self.old.code.now (state_of self.old) ≡ None }
        ensures led { IsLed self.old self.new }
        ensures keeps { KeepsCode self.old self.new }
        ensures sound { IsSound self.new }
        ensures less { OnOk result (left_of _ranks.now self.new < left_of _ranks.now self.old) }
    {
        let code = self.code;
        let instrs = code.instrs();
        let mut address = self.place;
        let mut instr = self.next_instr(address, instrs);
        'steps: loop {
            match self.one_or_two(&mut address, instr, instrs, _ranks) {
                Follows::Same => instr = self.next_instr(address, instrs),
                Follows::Away => {
                    self.place = address;
                    return Ok(());
                }
                Follows::Asks => {
                    self.place = address;
                    return Ok(());
                }
                Follows::Refused => {
                    self.place = address;
                    return Err(NoMemory);
                }
            }
        }
    }

    // What was given to a thread goes onto its operands.
    fn settle(&mut self) -> Result<(), NoMemory>
        ensures stays { Stays self.old self.new }
        ensures same { IsSameCode self.old self.new }
        ensures schedule { self.new.schedule ≡ self.old.schedule }
        ensures ok { OnOk result (self.new.threads.pending ≡ false) }
    {
        self.threads.settle()
    }

    // No thread runs: the one at the front of the ready list does.
    fn start_next(&mut self, _ranks: &[u64])
        requires running { self.old.ended ≡ None }
        requires idle { self.old.schedule.running ≡ None }
        requires active { is_resting (flat_of self.old) ≡ false }
        requires sound { IsSound self.old }
        requires ranked { IsRanked self.old.code.now _ranks.now }
        requires settled { self.old.threads.pending ≡ false }
        ensures goes { GoesOn (exec self.old.code.now self.old.bound) (state_of self.old) (state_of self.new) }
        ensures passes { (turn : ℕ) → passes_first self.old.code.now turn (state_of self.old) ≡ true
            → (k : ℕ) × Passes self.old.code.now self.old.bound turn k (state_of self.old) (state_of self.new) }
        ensures keeps { Keeps self.old self.new }
        ensures sound { IsSound self.new }
        ensures less { left_of _ranks.now self.new < left_of _ranks.now self.old }
    {
        self.dispatch();
    }

    /// A stretch of a core that has not ended, or the next dispatch.
    ///
    /// Condition: the core asks for no outcome.
    pub fn turn(&mut self, _ranks: &[u64]) -> Result<(), NoMemory>
        requires running { self.old.ended ≡ None }
        requires active { is_resting (flat_of self.old) ≡ false }
        requires sound { IsSound self.old }
        requires ranked { IsRanked self.old.code.now _ranks.now }
        requires asks { tried_of self.old.code.now (state_of self.old) ≡ None }
        ensures goes { GoesOn (exec self.old.code.now self.old.bound) (state_of self.old) (state_of self.new) }
        ensures passes { (turn : ℕ) → passes_first self.old.code.now turn (state_of self.old) ≡ true
            → (k : ℕ) × Passes self.old.code.now self.old.bound turn k (state_of self.old) (state_of self.new) }
        ensures same { IsSameCode self.old self.new }
        ensures journal { self.new.journal.entries ≡ self.old.journal.entries }
        ensures sound { IsSound self.new }
        ensures less { OnOk result (left_of _ranks.now self.new < left_of _ranks.now self.old) }
    {
        self.settle()?;
        if self.schedule.running().is_none() {
            self.start_next(_ranks);
            return Ok(());
        }
        self.stretch(_ranks)
    }

    /// Whether no thread runs, and none is ready.
    #[tactic(auto, using(crate::proofs::Lives::none_at_front))]
    pub fn is_resting(&self) -> bool
        ensures { result ≡ is_resting (flat_of self.now) }
    {
        self.schedule.running().is_none() && self.schedule.front().is_none()
    }

    /// Whether it has not ended, no thread runs and none is ready.
    pub fn is_idle(&self) -> bool
        ensures { result ≡ is_idle (state_of self.now) }
    {
        match self.ended {
            None => self.is_resting(),
            Some(_) => false,
        }
    }

    /// Whether it has not ended and no thread runs.
    pub fn is_at_point(&self) -> bool
        ensures { result ≡ is_at_point (state_of self.now) }
    {
        match self.ended {
            None => self.schedule.running().is_none(),
            Some(_) => false,
        }
    }

    /// Whether it has ended.
    pub fn has_ended(&self) -> bool
        ensures { result ≡ has_ended (state_of self.now) }
    {
        match self.ended {
            None => false,
            Some(_) => true,
        }
    }
}
