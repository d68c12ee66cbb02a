//! A thread that does not run.

ghost use Rattle.std.specs.Prelude.{◌≡◌, OnOk, OnErr};
ghost use Rattle.code_meaning.specs.Machine.{given, nobody};

use crate::callers::Callers;
use crate::operands::Operands;
use ac_base::NoMemory;
use std::alloc::Global;
use std::marker::Model;
use work_item::{BlockId, Cell, FrameId};

/// A thread that does not run: where it stands, in which frame, with which operands, the activations
/// that wait, and the innermost block.
#[derive(Drop)]
pub struct Parked {
    pub place: usize,
    pub frame: FrameId,
    pub operands: Operands,
    pub callers: Callers,
    pub block: Option<BlockId>,
}

impl Model for Parked {
    ghost use Rattle.code_meaning.specs.Machine.{Thread};

    ghost Value = { Thread };

    ghost view = { λ p. record { place = p.place; frame = p.frame; operands = p.operands; callers = p.callers; block = p.block } };
}

impl Parked {
    /// A thread that has not started in that frame and block, at that address.
    pub fn new(alloc: Global, place: usize, frame: FrameId, block: Option<BlockId>) -> Parked
        ensures { result ≡ record nobody { place = place; frame = frame; block = block } }
    {
        Parked {
            place,
            frame,
            operands: Operands::new(alloc),
            callers: Callers::new(alloc),
            block,
        }
    }

    /// What stands in the place of a thread that runs, or has ended.
    pub fn nobody(alloc: Global) -> Parked
        ensures { result ≡ nobody }
    {
        Parked::new(alloc, 0, FrameId { number: 0 }, None)
    }

    /// It has this value on top of its operands. After want of memory it is as before.
    pub fn give(&mut self, value: Cell) -> Result<(), NoMemory>
        ensures ok { OnOk result (self.new ≡ given value self.old) }
        ensures err { OnErr result (self.new ≡ self.old) }
    {
        self.operands.push(value)
    }
}
