//! What a slot of a frame holds.

ghost use Rattle.std.specs.Prelude.{◌≡◌, ◌+◌, ◌<◌, ◌≤◌, ◌^◌, None, IfOk};
ghost use Rattle.work_item.specs.Store.{int_in, place_in};
ghost use Rattle.work_item.specs.declared.cell.Cell.TheVariants as c;
ghost use Rattle.core_state.specs.Frames.{within, one_place, part_at, block_in};
ghost use Rattle.core_state.specs.Requests.{first_of};
ghost use Rattle.interpreter_state.specs.inner.Data.{array_in};

use ac_base::Trap;
use std::marker::Model;
use work_item::{BlockId, FrameId};

/// The slots of an array: in that frame, or in the globals, from that slot on.
///
/// A slot is a number of 64 bits, so that each element has one.
#[derive(Clone, Copy)]
pub struct Span {
    home: Option<FrameId>,
    start: u64,
    len: u32,
}

impl Model for Span {
    ghost use Rattle.std.specs.Prelude.{◌+◌, ◌≤◌, ◌^◌};
    ghost use Rattle.work_item.specs.declared.cell.Place.{Place};

    ghost Value = { Place };

    ghost view = { λ s. record { home = s.home; start = s.start; len = s.len } };

    ghost invariant = { λ s. s.start + s.len ≤ 2 ^ 33 };

    ghost inverse = { λ p. record { home = p.home; start = p.start; len = p.len } };
}

impl Span {
    /// So many slots from that one on.
    pub fn new(home: Option<FrameId>, start: u32, len: u32) -> Span
        ensures { result ≡ record { home = home; start = start; len = len } }
    {
        Span {
            home,
            start: u64::from(start),
            len,
        }
    }

    /// The frame in which it lies; none where it lies in the globals.
    pub fn home(self) -> Option<FrameId>
        ensures { result ≡ self.home }
    {
        self.home
    }

    /// How many elements it has.
    pub fn len(self) -> u32
        ensures { result ≡ self.len }
    {
        self.len
    }

    /// The first elements, so many.
    ///
    /// Condition: it has as many.
    pub fn first(self, len: u32) -> Span
        requires { len ≤ self.len }
        ensures { result ≡ first_of self len }
    {
        Span {
            home: self.home,
            start: self.start,
            len,
        }
    }

    /// The slot so many from the first one on.
    pub fn slot(self, index: u32) -> u64
        ensures { result ≡ self.start + index }
    {
        self.start + u64::from(index)
    }

    /// The index of an element, or the trap where there is none.
    pub fn within(self, index: i64) -> Result<u32, Trap>
        ensures same { result ≡ within self index }
        ensures below { IfOk result (λ i. i < self.len) }
    {
        if index >= 0 && index < i64::from(self.len) {
            Ok(index as u32)
        } else {
            Err(Trap::Index)
        }
    }

    // The slot of an element.
    fn one(self, index: u32) -> Span
        requires { index < self.len }
        ensures { result ≡ one_place self index }
    {
        Span {
            home: self.home,
            start: self.slot(index),
            len: 1,
        }
    }

    /// The slot of one element, or the trap where there is none.
    pub fn part_at(self, index: i64) -> Result<Span, Trap>
        ensures { result ≡ part_at self index }
    {
        let index = self.within(index)?;
        Ok(self.one(index))
    }
}

#[derive(Clone, Copy)]
enum DatumKind {
    Int(i64),
    Array(Span),
    Block(BlockId),
}

/// What a slot of a frame holds, or an operand: an int, a reference to an array or the block of a `do`.
#[derive(Clone, Copy)]
pub struct Datum {
    kind: DatumKind,
}

impl Model for Datum {
    ghost use Rattle.std.proofs.Common.{ap};
    ghost use Rattle.work_item.specs.declared.cell.Cell.{Cell};

    ghost Value = { Cell };

    ghost use Rattle.interpreter_state.specs.Data.{cell_of};
    ghost use Rattle.interpreter_state.specs.inner.Data.{kind_of, the_same_kind};

    ghost view = { λ d. cell_of d.kind };

    ghost inverse = { λ cell. record { kind = kind_of cell } };

    ghost inverse_ok = { λ d h. ap (λ kind. record { kind = kind }) (the_same_kind d.kind) };
}

impl Datum {
    /// An int.
    pub fn int(value: i64) -> Datum
        ensures { result ≡ c.Int value }
    {
        Datum {
            kind: DatumKind::Int(value),
        }
    }

    /// A reference to the array in these slots.
    pub fn array(span: Span) -> Datum
        ensures { result ≡ c.Array span }
    {
        Datum {
            kind: DatumKind::Array(span),
        }
    }

    /// The block of a `do`.
    pub fn block(block: BlockId) -> Datum
        ensures { result ≡ c.Block block }
    {
        Datum {
            kind: DatumKind::Block(block),
        }
    }

    /// The int that it is, and 0 where it is none.
    pub fn as_int(self) -> i64
        ensures { result ≡ int_in self }
    {
        match self.kind {
            DatumKind::Int(value) => value,
            _ => 0,
        }
    }

    /// The array to which it refers; where it refers to none, that of no element.
    pub fn as_array(self) -> Span
        ensures { result ≡ place_in self }
    {
        let kind = self.kind;
        match kind {
            DatumKind::Array(span) => span,
            _ => Span::new(None, 0, 0),
        }
    }

    /// The array to which it refers, where it refers to one.
    pub(crate) fn span(self) -> Option<Span>
        ensures { result ≡ array_in self }
    {
        let kind = self.kind;
        match kind {
            DatumKind::Array(span) => Some(span),
            _ => None,
        }
    }

    /// The block that it is; where it is none, the first.
    pub fn as_block(self) -> BlockId
        ensures { result ≡ block_in self }
    {
        match self.kind {
            DatumKind::Block(block) => block,
            _ => BlockId { number: 0 },
        }
    }
}
