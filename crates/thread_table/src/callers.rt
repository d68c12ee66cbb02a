//! The activations of a thread that wait for what they have called.

ghost use Rattle.std.specs.Prelude.{◌≡◌, List, [], ◌∷◌, ◌++◌, reverse, IfOk, OnOk, OnErr};
ghost use Rattle.work_item.specs.declared.cell.Cell.{Cell};
ghost use Rattle.code_meaning.specs.Machine.{Caller};
ghost use Rattle.thread_table.specs.Callers.{Popped};

use crate::operands::Operands;
use ac_base::NoMemory;
use std::alloc::Global;
use std::marker::Model;
use work_item::{CellPart, Cells, FrameId};

/// Where an activation goes on, in which frame, and how many operands it has left below.
#[derive(Clone, Copy, Debug)]
pub struct WaitingCall {
    pub place: usize,
    pub frame: FrameId,
    pub below: usize,
}

/// The activations of a thread that wait, and beside them the operands of all of these.
///
/// Contracts see each with its own operands, the innermost first.
#[derive(Drop)]
pub struct Callers {
    waiting: Vec<WaitingCall>,
    cells: Cells,
}

impl Model for Callers {
    ghost use Rattle.std.specs.Prelude.{List, ◌≡◌, length, reverse};
    ghost use Rattle.code_meaning.specs.Machine.{Caller};
    ghost use Rattle.thread_table.specs.Callers.{callers_of, all_below};

    ghost Value = { List Caller };

    ghost view = { λ c. callers_of (reverse c.waiting.items) (reverse c.cells) };

    ghost invariant = { λ c. all_below (reverse c.waiting.items) ≡ length c.cells };
}

// Puts more cells at the end. Mostly there are none.
fn extend(cells: &mut Cells, more: &CellPart) -> Result<(), NoMemory>
    ensures ok { OnOk result (cells.new ≡ cells.old ++ more.now) }
    ensures err { OnErr result (cells.new ≡ cells.old) }
{
    if more.len() == 0 {
        return Ok(());
    }
    cells.append(more)
}

impl Callers {
    /// None waits.
    pub fn new(alloc: Global) -> Callers
        ensures { result ≡ [] }
    {
        Callers {
            waiting: Vec::new(alloc),
            cells: Cells::new(alloc),
        }
    }

    /// One more waits, with these operands, the topmost last. After want of memory all is as before.
    pub fn push(
        &mut self,
        place: usize,
        frame: FrameId,
        operands: &CellPart,
    ) -> Result<(), NoMemory>
        ensures ok { OnOk result
            (self.new ≡ (record { place = place; frame = frame; operands = reverse operands.now }) ∷ self.old) }
        ensures err { OnErr result (self.new ≡ self.old) }
    {
        self.waiting.reserve(1)?;
        extend(&mut self.cells, operands)?;
        self.waiting.push_reserved(WaitingCall {
            place,
            frame,
            below: operands.len(),
        });
        Ok(())
    }

    /// The innermost no longer waits, if one does, and its operands are dropped.
    pub fn forget(&mut self)
        ensures one { (c : Caller) (callers : List Caller) → self.old ≡ c ∷ callers → self.new ≡ callers }
        ensures none { self.old ≡ [] → self.new ≡ [] }
    {
        if let Some(caller) = self.waiting.pop() {
            let left = self.cells.len() - caller.below;
            self.cells.truncate(left);
        }
    }

    /// The innermost goes on: its operands come back, with the value on top. It gives none exactly
    /// where none waits, and the operands then stay. After want of memory all is as before.
    pub fn pop(
        &mut self,
        value: i64,
        operands: &mut Operands,
    ) -> Result<Option<WaitingCall>, NoMemory>
        ensures ok { IfOk result (λ back. Popped self.old self.new (Cell.Int value) back operands.old operands.new) }
        ensures err { OnErr result (self.new ≡ self.old) }
        ensures same { OnErr result (operands.new ≡ operands.old) }
    {
        let Some(caller) = self.waiting.last().copied() else {
            return Ok(None);
        };
        if caller.below == 0 && operands.replace_all(value) {
            let _ = self.waiting.pop();
            return Ok(Some(caller));
        }
        let left = self.cells.len() - caller.below;
        operands.restore(&self.cells.from(left), value)?;
        self.forget();
        Ok(Some(caller))
    }
}
