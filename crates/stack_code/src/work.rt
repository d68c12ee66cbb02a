//! The search for the shapes of the addresses that are reached.

ghost use Rattle.std.specs.Prelude.{◌≡◌, ℕ, ◌+◌, ◌<◌, ◌^◌, length, IfOk, MatchOption};
ghost use Rattle.stack_code.specs.declared.shape.Shape.{Shape};
ghost use Rattle.stack_code.specs.Shapes.{LeadsTo};
ghost use Rattle.stack_code.specs.Valid.{Reaches, IsShaped};
ghost use Rattle.stack_code.specs.inner.Work.{IsWork, Met, Followed, Turned, Begun, IsFound};

use crate::bodies::{copy, same_shape};
use crate::effect::{first_shape, leads};
use crate::shape::{Leads, Shape};
use crate::sketch::Sketch;
use ac_base::NoMemory;
use std::alloc::Global;

// By address, its shape where one was found; the addresses that were found, in order; and how many
// of them are followed.
#[derive(Drop)]
struct Work {
    table: Vec<Option<Shape>>,
    found: Vec<u32>,
    next: usize,
}

impl Work {
    // A way leads to the address with this shape; false where that makes the code invalid.
    fn meet(&mut self, code: &Sketch, to: u32, shape: Shape) -> Result<bool, NoMemory>
        requires work { IsWork code.now self.old.table.items self.old.found.items self.old.next }
        requires reached { Reaches code.now to shape }
        ensures met { IfOk result (λ ok. Met code.now self.old.table.items self.new.table.items self.old.found.items self.new.found.items
            self.old.next to shape ok) }
        ensures next { self.new.next ≡ self.old.next }
    {
        let place = to as usize;
        if place >= self.table.len() {
            return Ok(false);
        }
        match &self.table[place] {
            Some(known) => Ok(same_shape(known, &shape)),
            None => {
                self.found.push(to)?;
                self.table[place] = Some(shape);
                Ok(true)
            }
        }
    }

    fn follow(&mut self, code: &Sketch, to: Leads) -> Result<bool, NoMemory>
        requires work { IsWork code.now self.old.table.items self.old.found.items self.old.next }
        requires reached { (at : ℕ) (s : Shape) → LeadsTo to at s → Reaches code.now at s }
        ensures followed { IfOk result (λ ok. Followed code.now self.old.table.items self.new.table.items self.old.found.items
            self.new.found.items self.old.next to ok) }
        ensures next { self.new.next ≡ self.old.next }
    {
        match to {
            Leads::Stop => Ok(true),
            Leads::One { to, shape } => self.meet(code, to, shape),
            Leads::Two {
                next,
                shape,
                to,
                other,
            } => {
                if !self.meet(code, next, shape)? {
                    return Ok(false);
                }
                self.meet(code, to, other)
            }
        }
    }

    // Follows the next address that was found; false where the code is not valid.
    fn turn(&mut self, alloc: Global, code: &Sketch) -> Result<bool, NoMemory>
        requires few { length code.now.instrs < 2 ^ 32 }
        requires more { self.old.next < length self.old.found.items }
        requires work { IsWork code.now self.old.table.items self.old.found.items self.old.next }
        ensures turned { IfOk result (λ ok. Turned code.now self.old.table.items self.new.table.items self.new.found.items self.old.next
            ok) }
        ensures next { self.new.next ≡ self.old.next }
    {
        let at = self.found[self.next];
        let Some(known) = &self.table[at as usize] else {
            unreachable!()
        };
        let shape = copy(alloc, known)?;
        let Some(instr) = code.instr(at) else {
            unreachable!()
        };
        match leads(alloc, code, at, instr, shape)? {
            None => Ok(false),
            Some(to) => self.follow(code, to),
        }
    }

    // Each core begins at the first address of its function.
    fn begin(&mut self, alloc: Global, code: &Sketch) -> Result<bool, NoMemory>
        requires work { IsWork code.now self.old.table.items self.old.found.items 0 }
        requires next { self.old.next ≡ 0 }
        ensures begun { IfOk result (λ ok. Begun code.now self.new.table.items self.new.found.items ok) }
        ensures next { self.new.next ≡ 0 }
    {
        for number in code.entries() {
            match code.function(*number) {
                None => {}
                Some(function) => {
                    let shape = first_shape(alloc, *number, function)?;
                    if !self.meet(code, function.at, shape)? {
                        return Ok(false);
                    }
                }
            }
        }
        Ok(true)
    }
}

/// By address, its shape where it is reached; None exactly where something that is reached lies
/// outside the code, does not find what it needs, or has two shapes.
pub fn shapes(alloc: Global, code: &Sketch) -> Result<Option<Vec<Option<Shape>>>, NoMemory>
    requires { length code.now.instrs < 2 ^ 32 }
    ensures { IfOk result (λ found. MatchOption found (IsShaped code.now → ⊥) (λ table. IsFound code.now table.items)) }
{
    let mut table = Vec::new(alloc);
    for _ in 0..code.len() {
        table.push(None)?;
    }
    let mut work = Work {
        table,
        found: Vec::new(alloc),
        next: 0,
    };
    if !work.begin(alloc, code)? {
        return Ok(None);
    }
    while work.next < work.found.len() {
        if !work.turn(alloc, code)? {
            return Ok(None);
        }
        work.next += 1;
    }
    let Work {
        table,
        found: _,
        next: _,
    } = work;
    Ok(Some(table))
}
