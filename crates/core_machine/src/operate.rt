//! Instructions that apply an operator.

use crate::ending::Ending;
use crate::running::Running;
use ac_base::Trap;
use core_operators::{
    both_bits, difference, differing_bits, either_bits, is_at_most, is_equal, is_less,
    is_not_equal, product, shifted_left, shifted_right, sum,
};
use stack_code::Instr;
use stack_code::Instr::{
    Add, BitAnd, BitOr, BitXor, Eq, Jz, Less, LessEq, More, MoreEq, Mul, Ne, Shl, Shr, Sub,
};

impl Running<'_> {
    ghost use Rattle.std.specs.Prelude.{◌≡◌, true, false, None, IsSome, ◌+◌, ◌<◌, ◌^◌, [], ◌∷◌, length, slice_index_or};
    ghost use Rattle.stack_code.specs.declared.instr.Instr.{Instr};
    ghost use Rattle.code_safety.specs.Fit.{is_int};
    ghost use Rattle.thread_table.specs.Operands.{on_top};
    ghost use Rattle.core_machine.specs.inner.Operands.{Stand};
    ghost use Rattle.core_machine.specs.inner.Operators.{binary, is_comparison, IsUnary, IsBinary, IsPartial};
    ghost use Rattle.core_machine.specs.inner.Changes.{Keeps, Does, DoesAt, Places, Continues, at_address};
    ghost use Rattle.core_machine.specs.inner.Led.{pushed, DoesOn};

    /// Applies an operator to one int. The instruction is there for the proof alone.
    #[inline(always)]
    pub fn apply_unary<F: Fn(i64) -> i64>(
        &mut self,
        address: &mut usize,
        _instr: Instr,
        operator: F,
    )
        requires running { self.old.ended ≡ None }
        requires inside { address.old < 2 ^ 32 }
        requires callable { F.IsAlwaysCallable operator }
        requires operator { IsUnary (F.post operator) _instr }
        requires int { on_top is_int self.old.operands ≡ true }
        ensures does { DoesAt self.old address.old _instr self.new address.new }
        ensures keeps { Keeps self.old self.new }
        ensures continues { Continues self.old self.new }
    {
        let x = self.operands.top_int();
        self.operands.replace_int(operator(x));
        self.pass(address);
    }

    /// Applies an operator to two ints. The instruction is there for the proof alone.
    #[inline(always)]
    pub fn apply_binary<F: Fn(i64, i64) -> i64>(
        &mut self,
        address: &mut usize,
        _instr: Instr,
        operator: F,
    )
        requires running { self.old.ended ≡ None }
        requires inside { address.old < 2 ^ 32 }
        requires callable { F.IsAlwaysCallable operator }
        requires operator { IsBinary (F.post operator) _instr }
        requires ints { Stand (is_int ∷ is_int ∷ []) self.old.operands }
        ensures does { DoesAt self.old address.old _instr self.new address.new }
        ensures keeps { Keeps self.old self.new }
        ensures continues { Continues self.old self.new }
    {
        let y = self.operands.pop_int();
        let x = self.operands.top_int();
        self.operands.replace_int(operator(x, y));
        self.pass(address);
    }

    /// Applies an operator to two ints that may trap. It says whether it did not. The instruction is
    /// there for the proof alone.
    #[inline(always)]
    pub fn divide<F: Fn(i64, i64) -> Result<i64, Trap>>(
        &mut self,
        address: &mut usize,
        _instr: Instr,
        operator: F,
    ) -> bool
        requires running { self.old.ended ≡ None }
        requires inside { address.old < 2 ^ 32 }
        requires callable { F.IsAlwaysCallable operator }
        requires operator { IsPartial (F.post operator) _instr }
        requires ints { Stand (is_int ∷ is_int ∷ []) self.old.operands }
        ensures does { DoesAt self.old address.old _instr self.new address.new }
        ensures keeps { Keeps self.old self.new }
        ensures continues { result ≡ true → Continues self.old self.new }
    {
        let y = self.operands.pop_int();
        let x = self.operands.top_int();
        match operator(x, y) {
            Ok(value) => {
                self.operands.replace_int(value);
                self.pass(address);
                true
            }
            Err(trap) => {
                self.end(Ending::Trapped(trap));
                false
            }
        }
    }

    /// Compares two ints; where the next instruction jumps at 0, that is done at once. The instruction is
    /// there for the proof alone.
    #[inline(always)]
    pub fn compare<F: Fn(i64, i64) -> i64>(
        &mut self,
        address: &mut usize,
        _instr: Instr,
        next: &Instr,
        operator: F,
    )
        requires running { self.old.ended ≡ None }
        requires inside { address.old < 2 ^ 32 }
        requires callable { F.IsAlwaysCallable operator }
        requires operator { IsBinary (F.post operator) _instr }
        requires comparison { is_comparison _instr ≡ true }
        requires ints { Stand (is_int ∷ is_int ∷ []) self.old.operands }
        ensures does { DoesOn (at_address self.old address.old) _instr next.now (at_address self.new address.new) }
        ensures keeps { Keeps self.old self.new }
        ensures continues { Continues self.old self.new }
    {
        let y = self.operands.pop_int();
        let x = self.operands.top_int();
        let Jz { to } = *next else {
            self.operands.replace_int(operator(x, y));
            self.pass(address);
            return;
        };
        *address = if operator(x, y) == 0 {
            to as usize
        } else {
            *address + 2
        };
        let _ = self.operands.pop_int();
        self.count.add_two();
    }

    /// Applies an operator to an int and to this one, which the instruction before it pushes: both are
    /// done at once. The instruction is there for the proof alone.
    #[inline(always)]
    fn apply_to<F: Fn(i64, i64) -> i64>(
        &mut self,
        address: &mut usize,
        _instr: Instr,
        y: i64,
        operator: F,
    )
        requires running { self.old.ended ≡ None }
        requires inside { address.old + 1 < 2 ^ 32 }
        requires callable { F.IsAlwaysCallable operator }
        requires operator { IsBinary (F.post operator) _instr }
        requires int { on_top is_int self.old.operands ≡ true }
        ensures does { Does (pushed (at_address self.old address.old) y) _instr (at_address self.new address.new) }
        ensures keeps { Keeps self.old self.new }
        ensures continues { Continues self.old self.new }
    {
        let x = self.operands.top_int();
        self.operands.replace_int(operator(x, y));
        *address += 2;
        self.count.add_two();
    }

    /// Compares an int with this one, which the instruction before it pushes: both are done at once, and
    /// where the third instruction jumps at 0, that too. The instruction is there for the proof alone.
    #[inline(always)]
    fn compare_to<F: Fn(i64, i64) -> i64>(
        &mut self,
        address: &mut usize,
        _instr: Instr,
        y: i64,
        third: &Instr,
        operator: F,
    )
        requires running { self.old.ended ≡ None }
        requires inside { address.old + 1 < 2 ^ 32 }
        requires callable { F.IsAlwaysCallable operator }
        requires operator { IsBinary (F.post operator) _instr }
        requires comparison { is_comparison _instr ≡ true }
        requires int { on_top is_int self.old.operands ≡ true }
        ensures does { DoesOn (pushed (at_address self.old address.old) y) _instr third.now (at_address self.new address.new) }
        ensures keeps { Keeps self.old self.new }
        ensures continues { Continues self.old self.new }
    {
        let Jz { to } = *third else {
            self.apply_to(address, _instr, y, operator);
            return;
        };
        let x = self.operands.top_int();
        *address = if operator(x, y) == 0 {
            to as usize
        } else {
            *address + 3
        };
        let _ = self.operands.pop_int();
        self.count.add_three();
    }

    /// Pushes an int and does the next instruction, where that is an operator on two ints that does not
    /// trap, and the jump at 0 behind a comparison. It says whether it was so; else nothing has changed.
    #[inline(always)]
    pub fn push_and_apply(
        &mut self,
        address: &mut usize,
        value: i64,
        next: &Instr,
        instrs: &[Instr],
    ) -> bool
        requires running { self.old.ended ≡ None }
        requires inside { address.old + 1 < 2 ^ 32 }
        requires int { IsSome (binary next.now) → on_top is_int self.old.operands ≡ true }
        requires third { is_comparison next.now ≡ true → address.old + 1 + 1 < length instrs.now }
        ensures does { result ≡ true → DoesOn (pushed (at_address self.old address.old) value) next.now
            (slice_index_or instrs.now (address.old + 1 + 1) Instr.Step) (at_address self.new address.new) }
        ensures places { result ≡ true → Places (pushed (at_address self.old address.old) value) next.now self.new }
        ensures stays { result ≡ false → at_address self.new address.new ≡ at_address self.old address.old }
        ensures keeps { Keeps self.old self.new }
        ensures continues { Continues self.old self.new }
    {
        match *next {
            BitOr => self.apply_to(address, BitOr, value, |x, y| either_bits(x, y)),
            BitXor => self.apply_to(address, BitXor, value, |x, y| differing_bits(x, y)),
            BitAnd => self.apply_to(address, BitAnd, value, |x, y| both_bits(x, y)),
            Eq => self.compare_to(
                address,
                Eq,
                value,
                &instrs[*address + 1 + 1],
                |x, y| is_equal(x, y),
            ),
            Ne => self.compare_to(
                address,
                Ne,
                value,
                &instrs[*address + 1 + 1],
                |x, y| is_not_equal(x, y),
            ),
            Less => self.compare_to(
                address,
                Less,
                value,
                &instrs[*address + 1 + 1],
                |x, y| is_less(x, y),
            ),
            LessEq => self.compare_to(
                address,
                LessEq,
                value,
                &instrs[*address + 1 + 1],
                |x, y| is_at_most(x, y),
            ),
            More => self.compare_to(
                address,
                More,
                value,
                &instrs[*address + 1 + 1],
                |x, y| is_less(y, x),
            ),
            MoreEq => self.compare_to(
                address,
                MoreEq,
                value,
                &instrs[*address + 1 + 1],
                |x, y| is_at_most(y, x),
            ),
            Shl => self.apply_to(address, Shl, value, |x, y| shifted_left(x, y)),
            Shr => self.apply_to(address, Shr, value, |x, y| shifted_right(x, y)),
            Add => self.apply_to(address, Add, value, |x, y| sum(x, y)),
            Sub => self.apply_to(address, Sub, value, |x, y| difference(x, y)),
            Mul => self.apply_to(address, Mul, value, |x, y| product(x, y)),
            _ => return false,
        }
        true
    }
}
