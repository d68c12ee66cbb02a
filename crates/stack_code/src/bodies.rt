//! The bodies and the blocks of a shape.

ghost use Rattle.std.specs.Prelude.{◌≡◌, ◌↔◌, nat_eq, reverse, slice_get, IfOk, IsTrue};
ghost use Rattle.std.specs.List.{list_any};
ghost use Rattle.stack_code.specs.declared.shape.OpenBlock.{OpenBlock};
ghost use Rattle.stack_code.specs.Shapes.{is_block, body_with, is_entered, entered, finished};
ghost use Rattle.stack_code.specs.Shapes.{has_own, inner, can_start, can_end, can_return};

use crate::shape::{Body, CellKind, Home, OpenBlock, Shape};
use ac_base::NoMemory;
use std::alloc::Global;

/// An equal shape.
pub fn copy(alloc: Global, shape: &Shape) -> Result<Shape, NoMemory>
    ensures { IfOk result (λ it. it ≡ shape.now) }
{
    let bodies = shape.bodies.copy(alloc)?;
    let blocks = shape.blocks.copy(alloc)?;
    let operands = shape.operands.copy(alloc)?;
    Ok(Shape {
        bodies,
        blocks,
        operands,
    })
}

/// The body so many levels up.
pub fn body_at(shape: &Shape, level: u32) -> Option<Body>
    ensures { result ≡ slice_get shape.now.bodies level }
{
    if u64::from(level) < shape.bodies.len() {
        Some(*shape.bodies.get(u64::from(level)))
    } else {
        None
    }
}

/// The body so many levels up, where so many slots from that one on lie in its frame.
pub fn body_with_slots(shape: &Shape, level: u32, slot: u32, len: u32) -> Option<Body>
    ensures { result ≡ body_with shape.now level slot len }
{
    match body_at(shape, level) {
        Some(body) => {
            if u64::from(slot) + u64::from(len) <= u64::from(body.slots) {
                Some(body)
            } else {
                None
            }
        }
        None => None,
    }
}

fn same_block(bodies: u64, slot: u32, block: OpenBlock) -> bool
    ensures { result ≡ is_block bodies slot block }
{
    block.bodies == bodies && block.slot == slot
}

fn any_block(blocks: &[OpenBlock], bodies: u64, slot: u32) -> bool
    ensures { result ≡ list_any (is_block bodies slot) (reverse blocks.now) }
{
    blocks
        .iter()
        .rev()
        .any(|block| same_block(bodies, slot, *block))
}

/// Whether the block in that slot of the frame so many levels up is entered.
pub fn has_block(shape: &Shape, level: u32, slot: u32) -> bool
    ensures { result ≡ is_entered shape.now level slot }
{
    let bodies = shape.bodies.len().saturating_sub(u64::from(level));
    any_block(shape.blocks.as_slice(), bodies, slot)
}

fn any_in(blocks: &[OpenBlock], bodies: u64) -> bool
    ensures { result ≡ list_any (λ (block : OpenBlock). nat_eq block.bodies bodies) (reverse blocks.now) }
{
    blocks.iter().rev().any(|block| block.bodies == bodies)
}

fn has_own_block(shape: &Shape) -> bool
    ensures { result ≡ has_own shape.now }
{
    any_in(shape.blocks.as_slice(), shape.bodies.len())
}

/// The shape in the block of its own body and that slot.
pub fn enter(shape: Shape, slot: u32) -> Result<Shape, NoMemory>
    ensures { IfOk result (λ t. t ≡ entered slot shape) }
{
    let Shape {
        bodies,
        mut blocks,
        operands,
    } = shape;
    blocks.push(OpenBlock {
        bodies: bodies.len(),
        slot,
    })?;
    Ok(Shape {
        bodies,
        blocks,
        operands,
    })
}

/// The shape without its innermost block; None where that is not the one of the own body and this
/// slot.
pub fn finish(shape: Shape, slot: u32) -> Option<Shape>
    ensures { result ≡ finished slot shape }
{
    let Shape {
        bodies,
        mut blocks,
        operands,
    } = shape;
    match blocks.pop() {
        Some(block) => {
            if same_block(bodies.len(), slot, block) {
                Some(Shape {
                    bodies,
                    blocks,
                    operands,
                })
            } else {
                None
            }
        }
        None => None,
    }
}

/// The shape in the body of the `Async` at that address.
pub fn begin_body(shape: Shape, at: u32, slots: u32) -> Result<Shape, NoMemory>
    ensures { IfOk result (λ t. t ≡ inner at slots shape) }
{
    let Shape {
        mut bodies,
        blocks,
        operands,
    } = shape;
    let home = Home::Async { at };
    bodies.push(Body { home, slots })?;
    Ok(Shape {
        bodies,
        blocks,
        operands,
    })
}

/// Whether a thread may be started here.
pub fn may_start(shape: &Shape) -> bool
    ensures { result ≡ can_start shape.now }
{
    shape.operands.len() == 0 && 0 < shape.blocks.len()
}

/// Whether the thread of a body may end here.
pub fn may_end(shape: &Shape) -> bool
    ensures { result ≡ can_end shape.now }
{
    1 < shape.bodies.len() && (shape.operands.len() == 0 && !has_own_block(shape))
}

/// Whether the function may return here.
pub fn may_return(shape: &Shape) -> bool
    ensures { result ≡ can_return shape.now }
{
    if shape.bodies.len() != 1 || shape.blocks.len() != 0 || shape.operands.len() != 1 {
        return false;
    }
    match *shape.operands.get(0) {
        CellKind::Int => true,
        CellKind::Reference { .. } => false,
    }
}

fn same_bodies(a: &Shape, b: &Shape) -> bool
    ensures { IsTrue result ↔ (a.now.bodies ≡ b.now.bodies) }
{
    a.bodies.as_slice() == b.bodies.as_slice()
}

fn same_blocks(a: &Shape, b: &Shape) -> bool
    ensures { IsTrue result ↔ (a.now.blocks ≡ b.now.blocks) }
{
    a.blocks.as_slice() == b.blocks.as_slice()
}

fn same_operands(a: &Shape, b: &Shape) -> bool
    ensures { IsTrue result ↔ (a.now.operands ≡ b.now.operands) }
{
    a.operands.as_slice() == b.operands.as_slice()
}

/// Whether two shapes are the same.
pub fn same_shape(a: &Shape, b: &Shape) -> bool
    ensures { IsTrue result ↔ (a.now ≡ b.now) }
{
    same_bodies(a, b) && same_blocks(a, b) && same_operands(a, b)
}
