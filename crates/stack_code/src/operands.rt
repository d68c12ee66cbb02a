//! The kinds of the operands of a shape.

ghost use Rattle.std.specs.Prelude.{◌≡◌, ◌∷◌, List, None, Some, if◌then◌else◌, option_map, replicate, IfOk, MatchBool};
ghost use Rattle.stack_code.specs.declared.shape.Want.{Want};
ghost use Rattle.stack_code.specs.Shapes.{is_known, takes, taken, with_operands, pushed, arguments};

use crate::shape::{CellKind, Shape, Want};
use crate::stack::Stack;
use ac_base::NoMemory;

// Whether that many elements are known to be there.
fn is_known(count: u32, len: Option<u32>) -> bool
    ensures { result ≡ is_known count len }
{
    match len {
        Some(known) => known == count,
        None => false,
    }
}

fn is_wanted(want: Want, kind: CellKind) -> bool
    ensures { result ≡ takes want kind }
{
    match (want, kind) {
        (Want::Any, _) => true,
        (Want::Int, CellKind::Int) => true,
        (Want::Reference, CellKind::Reference { .. }) => true,
        (Want::Elements(count), CellKind::Reference { len }) => is_known(count, len),
        (Want::Message(count), CellKind::Reference { len }) => is_known(count, len),
        (Want::Message(count), CellKind::Int) => count == 1,
        _ => false,
    }
}

// Takes the topmost operand away; false where it is not as wanted.
fn take_one(operands: &mut Stack<CellKind>, want: Want) -> bool
    ensures { (wants : List Want) → taken (want ∷ wants) operands.old ≡ (if result then taken wants operands.new else None) }
{
    match operands.pop() {
        Some(kind) => is_wanted(want, kind),
        None => false,
    }
}

/// The shape without the wanted operands, of which the topmost is the first; None where they are
/// not there.
pub fn take(shape: Shape, wants: &[Want]) -> Option<Shape>
    ensures { result ≡ option_map (with_operands shape) (taken wants.now shape.operands) }
{
    let Shape {
        bodies,
        blocks,
        mut operands,
    } = shape;
    for want in wants {
        if !take_one(&mut operands, *want) {
            return None;
        }
    }
    Some(Shape {
        bodies,
        blocks,
        operands,
    })
}

/// The shape without so many ints.
pub fn take_ints(shape: Shape, count: u32) -> Option<Shape>
    ensures { result ≡ option_map (with_operands shape) (taken (replicate count Want.Int) shape.operands) }
{
    let Shape {
        bodies,
        blocks,
        mut operands,
    } = shape;
    for _ in 0..count {
        if !take_one(&mut operands, Want::Int) {
            return None;
        }
    }
    Some(Shape {
        bodies,
        blocks,
        operands,
    })
}

/// The shape without the arguments for these parameters.
pub fn take_arguments(shape: Shape, params: &[bool]) -> Option<Shape>
    ensures { result ≡ option_map (with_operands shape) (taken (arguments params.now) shape.operands) }
{
    let Shape {
        bodies,
        blocks,
        mut operands,
    } = shape;
    let mut left = params.len();
    while left > 0 {
        left -= 1;
        let want = if params[left] {
            Want::Reference
        } else {
            Want::Int
        };
        if !take_one(&mut operands, want) {
            return None;
        }
    }
    Some(Shape {
        bodies,
        blocks,
        operands,
    })
}

/// The shape with an operand more.
pub fn push(shape: Shape, kind: CellKind) -> Result<Shape, NoMemory>
    ensures { IfOk result (λ t. t ≡ pushed kind shape) }
{
    let Shape {
        bodies,
        blocks,
        mut operands,
    } = shape;
    operands.push(kind)?;
    Ok(Shape {
        bodies,
        blocks,
        operands,
    })
}
