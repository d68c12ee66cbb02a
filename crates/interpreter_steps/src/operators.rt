//! Operators, places and elements.

ghost use Rattle.std.specs.Prelude.{◌≡◌};
ghost use Rattle.core_state.specs.Frames.{element};
ghost use Rattle.ac_semantics.specs.Evaluation.{unary, operate, variable, reference, array};

use ac_base::Trap;
use ac_commands::{Array, Place};
use ac_tree::{BinaryOp, UnaryOp};
use interpreter_state::{Datum, Memory, Span};
use work_item::FrameId;

/// Applies an operator to one int.
pub fn unary(op: UnaryOp, x: i64) -> i64
    ensures { result ≡ unary op x }
{
    match op {
        UnaryOp::Neg => core_operators::negated(x),
        UnaryOp::Not => core_operators::not_true(x),
        UnaryOp::Flip => core_operators::flipped(x),
    }
}

/// Applies an operator to two ints; the left one has not decided alone.
pub fn operate(op: BinaryOp, x: i64, y: i64) -> Result<i64, Trap>
    ensures { result ≡ operate op x y }
{
    Ok(match op {
        BinaryOp::Or | BinaryOp::And => core_operators::truth(y),
        BinaryOp::BitOr => core_operators::either_bits(x, y),
        BinaryOp::BitXor => core_operators::differing_bits(x, y),
        BinaryOp::BitAnd => core_operators::both_bits(x, y),
        BinaryOp::Eq => core_operators::is_equal(x, y),
        BinaryOp::Ne => core_operators::is_not_equal(x, y),
        BinaryOp::Less => core_operators::is_less(x, y),
        BinaryOp::LessEq => core_operators::is_at_most(x, y),
        BinaryOp::More => core_operators::is_less(y, x),
        BinaryOp::MoreEq => core_operators::is_at_most(y, x),
        BinaryOp::Shl => core_operators::shifted_left(x, y),
        BinaryOp::Shr => core_operators::shifted_right(x, y),
        BinaryOp::Add => core_operators::sum(x, y),
        BinaryOp::Sub => core_operators::difference(x, y),
        BinaryOp::Mul => core_operators::product(x, y),
        BinaryOp::Div => return core_operators::quotient(x, y),
        BinaryOp::Rem => return core_operators::remainder(x, y),
    })
}

/// What stands at a place.
pub fn variable(memory: &Memory, frame: FrameId, place: Place) -> Datum
    ensures { result ≡ variable memory.now frame place }
{
    match place {
        Place::Global { slot } => Datum::int(memory.read_global(slot)),
        Place::Local { level, slot } => memory.read(frame, level, slot),
    }
}

/// A reference to an array.
pub fn reference(memory: &Memory, frame: FrameId, whole: Array) -> Datum
    ensures { result ≡ reference memory.now frame whole }
{
    match whole {
        Array::Global { slot, len } => Datum::array(Span::new(None, slot, len)),
        Array::Local { level, slot, len } => {
            let home = memory.above(frame, level);
            Datum::array(Span::new(Some(home), slot, len))
        }
        Array::Param { level, slot } => memory.read(frame, level, slot),
    }
}

/// Where an array lies.
pub fn array(memory: &Memory, frame: FrameId, whole: Array) -> Span
    ensures { result ≡ array memory.now frame whole }
{
    reference(memory, frame, whole).as_array()
}

/// An element of an array, or the trap where there is none.
pub fn element(memory: &Memory, place: Span, index: i64) -> Result<i64, Trap>
    ensures { result ≡ element memory.now place index }
{
    let index = place.within(index)?;
    Ok(memory.read_at(place, index))
}
