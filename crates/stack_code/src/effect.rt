//! Where an instruction leads from a shape.

ghost use Rattle.std.specs.Prelude.{◌≡◌, [], ◌∷◌, ◌+◌, ◌^◌, ◌<◌, ℕ, IfOk, Some, None, option_copied};
ghost use Rattle.std.specs.Prelude.{slice_get, nat_lt, nat_le, nat_eq, if◌then◌else◌, replicate};
ghost use Rattle.stack_code.specs.declared.parts.Entered.{Entered};
ghost use Rattle.stack_code.specs.Shapes.{on_some, body_with, after, goes, pushes, branches, calls, transfers, first};
ghost use Rattle.stack_code.specs.Shapes.{can_start, inner, is_entered, entered, finished, channels_of, effect};

use crate::bodies::{
    begin_body, body_at, body_with_slots, copy, enter, finish, has_block, may_end, may_return,
    may_start,
};
use crate::instr::Instr;
use crate::operands::{push, take, take_arguments, take_ints};
use crate::parts::Entered;
use crate::shape::{Body, CellKind, Home, Leads, Shape, Want};
use crate::sketch::Sketch;
use crate::stack::Stack;
use ac_base::NoMemory;
use std::alloc::Global;

/// The shape at the first address of the function with that number.
pub fn first_shape(alloc: Global, number: u32, function: &Entered) -> Result<Shape, NoMemory>
    ensures { IfOk result (λ s. s ≡ first number function.now) }
{
    let mut bodies = Stack::new(alloc);
    let home = Home::Function { number };
    bodies.push(Body {
        home,
        slots: function.words,
    })?;
    Ok(Shape {
        bodies,
        blocks: Stack::new(alloc),
        operands: Stack::new(alloc),
    })
}

fn go_on(at: u32, shape: Shape) -> Option<Leads>
    requires { at + 1 < 2 ^ 32 }
    ensures { result ≡ goes at shape }
{
    Some(Leads::One { to: at + 1, shape })
}

fn push_on(at: u32, kind: CellKind, shape: Shape) -> Result<Option<Leads>, NoMemory>
    requires { at + 1 < 2 ^ 32 }
    ensures { IfOk result (λ l. l ≡ pushes at kind shape) }
{
    Ok(go_on(at, push(shape, kind)?))
}

// Takes the wanted operands and goes on.
fn take_on(at: u32, wants: &[Want], shape: Shape) -> Option<Leads>
    requires { at + 1 < 2 ^ 32 }
    ensures { result ≡ after wants.now shape (goes at) }
{
    match take(shape, wants) {
        Some(left) => go_on(at, left),
        None => None,
    }
}

// Takes the wanted operands, pushes one and goes on.
fn make_on(at: u32, wants: &[Want], kind: CellKind, shape: Shape) -> Result<Option<Leads>, NoMemory>
    requires { at + 1 < 2 ^ 32 }
    ensures { IfOk result (λ l. l ≡ after wants.now shape (pushes at kind)) }
{
    match take(shape, wants) {
        Some(left) => push_on(at, kind, left),
        None => Ok(None),
    }
}

fn branch(alloc: Global, at: u32, to: u32, shape: Shape) -> Result<Option<Leads>, NoMemory>
    requires { at + 1 < 2 ^ 32 }
    ensures { IfOk result (λ l. l ≡ branches at to shape) }
{
    match take(shape, &[Want::Int]) {
        Some(left) => {
            let other = copy(alloc, &left)?;
            Ok(Some(Leads::Two {
                next: at + 1,
                shape: left,
                to,
                other,
            }))
        }
        None => Ok(None),
    }
}

// Pushes what a slot of a frame holds.
fn load(
    code: &Sketch,
    at: u32,
    level: u32,
    slot: u32,
    shape: Shape,
) -> Result<Option<Leads>, NoMemory>
    requires { at + 1 < 2 ^ 32 }
    ensures { IfOk result (λ l. l ≡ effect code.now at (Instr.Load level slot) shape) }
{
    match body_with_slots(&shape, level, slot, 1) {
        Some(body) => {
            let kind = if code.is_array(body.home, slot) {
                CellKind::Reference { len: None }
            } else {
                CellKind::Int
            };
            push_on(at, kind, shape)
        }
        None => Ok(None),
    }
}

fn print(code: &Sketch, at: u32, text: u32, count: u32, shape: Shape) -> Option<Leads>
    requires { at + 1 < 2 ^ 32 }
    ensures { result ≡ effect code.now at (Instr.Print text count) shape }
{
    match code.directives(text) {
        Some(directives) => {
            if u64::from(count) == directives {
                match take_ints(shape, count) {
                    Some(left) => go_on(at, left),
                    None => None,
                }
            } else {
                None
            }
        }
        None => None,
    }
}

fn call(
    alloc: Global,
    code: &Sketch,
    at: u32,
    number: u32,
    count: u32,
    shape: Shape,
) -> Result<Option<Leads>, NoMemory>
    requires { at + 1 < 2 ^ 32 }
    ensures { IfOk result (λ l. l ≡ effect code.now at (Instr.Call number count) shape) }
{
    match code.function(number) {
        Some(function) => call_of(alloc, at, number, count, shape, function),
        None => Ok(None),
    }
}

fn call_of(
    alloc: Global,
    at: u32,
    number: u32,
    count: u32,
    shape: Shape,
    function: &Entered,
) -> Result<Option<Leads>, NoMemory>
    requires { at + 1 < 2 ^ 32 }
    ensures { IfOk result (λ l. l ≡ calls at number count shape function.now) }
{
    if u64::from(count) != function.params.len() {
        return Ok(None);
    }
    match take_arguments(shape, function.params.as_slice()) {
        Some(left) => {
            let shape = push(left, CellKind::Int)?;
            let other = first_shape(alloc, number, function)?;
            Ok(Some(Leads::Two {
                next: at + 1,
                shape,
                to: function.at,
                other,
            }))
        }
        None => Ok(None),
    }
}

fn start(
    alloc: Global,
    at: u32,
    slots: u32,
    to: u32,
    shape: Shape,
) -> Result<Option<Leads>, NoMemory>
    requires { at + 1 < 2 ^ 32 }
    ensures { IfOk result (λ l. l ≡ (if can_start shape then Some (Leads.Two (at + 1) (inner at slots shape) to shape) else None)) }
{
    if !may_start(&shape) {
        return Ok(None);
    }
    let body = begin_body(copy(alloc, &shape)?, at, slots)?;
    Ok(Some(Leads::Two {
        next: at + 1,
        shape: body,
        to,
        other: shape,
    }))
}

fn store(at: u32, level: u32, slot: u32, shape: Shape) -> Option<Leads>
    requires { at + 1 < 2 ^ 32 }
    ensures { result ≡ on_some (body_with shape level slot 1) (λ body. after (Want.Int ∷ []) shape (goes at)) }
{
    match body_with_slots(&shape, level, slot, 1) {
        Some(_) => take_on(at, &[Want::Int], shape),
        None => None,
    }
}

fn array(at: u32, level: u32, slot: u32, len: u32, shape: Shape) -> Result<Option<Leads>, NoMemory>
    requires { at + 1 < 2 ^ 32 }
    ensures { IfOk result (λ l. l ≡ on_some (body_with shape level slot len) (λ b. pushes at (CellKind.Reference (Some len)) shape)) }
{
    match body_with_slots(&shape, level, slot, len) {
        Some(_) => push_on(at, CellKind::Reference { len: Some(len) }, shape),
        None => Ok(None),
    }
}

fn clear(at: u32, slot: u32, len: u32, shape: Shape) -> Option<Leads>
    requires { at + 1 < 2 ^ 32 }
    ensures { result ≡ on_some (body_with shape 0 slot len) (λ body. goes at shape) }
{
    match body_with_slots(&shape, 0, slot, len) {
        Some(_) => go_on(at, shape),
        None => None,
    }
}

fn into_block(at: u32, slot: u32, shape: Shape) -> Result<Option<Leads>, NoMemory>
    requires { at + 1 < 2 ^ 32 }
    ensures { IfOk result (λ l. l ≡ on_some (body_with shape 0 slot 1)
        (λ body. if is_entered shape 0 slot then None else goes at (entered slot shape))) }
{
    match body_with_slots(&shape, 0, slot, 1) {
        Some(_) => {
            if has_block(&shape, 0, slot) {
                Ok(None)
            } else {
                Ok(go_on(at, enter(shape, slot)?))
            }
        }
        None => Ok(None),
    }
}

fn out_of_block(at: u32, slot: u32, shape: Shape) -> Option<Leads>
    requires { at + 1 < 2 ^ 32 }
    ensures { result ≡ on_some (finished slot shape) (goes at) }
{
    match finish(shape, slot) {
        Some(left) => go_on(at, left),
        None => None,
    }
}

fn cancel(at: u32, level: u32, slot: u32, shape: Shape) -> Option<Leads>
    requires { at + 1 < 2 ^ 32 }
    ensures { result ≡ on_some (slice_get shape.bodies level) (λ body. if is_entered shape level slot then goes at shape else None) }
{
    match body_at(&shape, level) {
        Some(_) => {
            if has_block(&shape, level, slot) {
                go_on(at, shape)
            } else {
                None
            }
        }
        None => None,
    }
}

// What names a file.
fn transfer(at: u32, file: u32, shape: Shape) -> Result<Option<Leads>, NoMemory>
    requires { at + 1 < 2 ^ 32 }
    ensures { IfOk result (λ l. l ≡ transfers at file shape) }
{
    if file >= 16 {
        return Ok(None);
    }
    make_on(
        at,
        &[Want::Reference, Want::Int, Want::Int],
        CellKind::Int,
        shape,
    )
}

fn stop_if(here: bool) -> Option<Leads>
    ensures { result ≡ (if here then Some Leads.Stop else None) }
{
    if here { Some(Leads::Stop) } else { None }
}

fn load_global(code: &Sketch, at: u32, slot: u32, shape: Shape) -> Result<Option<Leads>, NoMemory>
    requires { at + 1 < 2 ^ 32 }
    ensures { IfOk result (λ l. l ≡ (if nat_lt slot code.now.globals then pushes at CellKind.Int shape else None)) }
{
    if slot < code.globals() {
        push_on(at, CellKind::Int, shape)
    } else {
        Ok(None)
    }
}

fn store_global(code: &Sketch, at: u32, slot: u32, shape: Shape) -> Option<Leads>
    requires { at + 1 < 2 ^ 32 }
    ensures { result ≡ (if nat_lt slot code.now.globals then after (Want.Int ∷ []) shape (goes at) else None) }
{
    if slot < code.globals() {
        take_on(at, &[Want::Int], shape)
    } else {
        None
    }
}

fn global_array(
    code: &Sketch,
    at: u32,
    slot: u32,
    len: u32,
    shape: Shape,
) -> Result<Option<Leads>, NoMemory>
    requires { at + 1 < 2 ^ 32 }
    ensures { IfOk result (λ l. l ≡ (if nat_le (slot + len) code.now.globals then pushes at (CellKind.Reference (Some len)) shape
        else None)) }
{
    if u64::from(slot) + u64::from(len) <= u64::from(code.globals()) {
        push_on(at, CellKind::Reference { len: Some(len) }, shape)
    } else {
        Ok(None)
    }
}

// What names a channel.
fn operate(
    code: &Sketch,
    at: u32,
    channel: u32,
    want: Want,
    shape: Shape,
) -> Result<Option<Leads>, NoMemory>
    requires { at + 1 < 2 ^ 32 }
    ensures { IfOk result (λ l. l ≡ (if nat_lt channel (channels_of code.now) then after (want ∷ []) shape (pushes at CellKind.Int)
        else None)) }
{
    if u64::from(channel) < code.channels() {
        make_on(at, &[want], CellKind::Int, shape)
    } else {
        Ok(None)
    }
}

/// Where the instruction leads; None where it does not find what it needs.
pub fn leads(
    alloc: Global,
    code: &Sketch,
    at: u32,
    instr: Instr,
    shape: Shape,
) -> Result<Option<Leads>, NoMemory>
    requires { at + 1 < 2 ^ 32 }
    ensures { IfOk result (λ l. l ≡ effect code.now at instr shape) }
{
    match instr {
        Instr::Step | Instr::Yield => Ok(go_on(at, shape)),
        Instr::Push(_) => push_on(at, CellKind::Int, shape),
        Instr::Load { level, slot } => load(code, at, level, slot, shape),
        Instr::LoadG { slot } => load_global(code, at, slot, shape),
        Instr::Store { level, slot } => Ok(store(at, level, slot, shape)),
        Instr::StoreG { slot } => Ok(store_global(code, at, slot, shape)),
        Instr::Arr { level, slot, len } => array(at, level, slot, len, shape),
        Instr::ArrG { slot, len } => global_array(code, at, slot, len, shape),
        Instr::Elem => make_on(at, &[Want::Int, Want::Reference], CellKind::Int, shape),
        Instr::SetElem => Ok(take_on(at, &[Want::Int, Want::Reference, Want::Int], shape)),
        Instr::Place => make_on(
            at,
            &[Want::Int, Want::Reference],
            CellKind::Reference { len: Some(1) },
            shape,
        ),
        Instr::Clear { slot, len } => Ok(clear(at, slot, len, shape)),
        Instr::Neg | Instr::Not | Instr::Flip | Instr::Bool => make_on(
            at,
            &[Want::Int],
            CellKind::Int,
            shape,
        ),
        Instr::BitOr
        | Instr::BitXor
        | Instr::BitAnd
        | Instr::Eq
        | Instr::Ne
        | Instr::Less
        | Instr::LessEq
        | Instr::More
        | Instr::MoreEq
        | Instr::Shl
        | Instr::Shr
        | Instr::Add
        | Instr::Sub
        | Instr::Mul
        | Instr::Div
        | Instr::Rem => make_on(at, &[Want::Int, Want::Int], CellKind::Int, shape),
        Instr::Drop => Ok(take_on(at, &[Want::Any], shape)),
        Instr::Jump { to } => Ok(Some(Leads::One { to, shape })),
        Instr::Jz { to } | Instr::Jnz { to } => branch(alloc, at, to, shape),
        Instr::Print { text, count } => Ok(print(code, at, text, count, shape)),
        Instr::Call { function, count } => call(alloc, code, at, function, count, shape),
        Instr::Ret => Ok(stop_if(may_return(&shape))),
        Instr::Enter { slot } => into_block(at, slot, shape),
        Instr::Finish { slot } => Ok(out_of_block(at, slot, shape)),
        Instr::Async { slots, to } => start(alloc, at, slots, to, shape),
        Instr::End => Ok(stop_if(may_end(&shape))),
        Instr::Cancel { level, slot } => Ok(cancel(at, level, slot, shape)),
        Instr::Send { channel } => {
            let width = code.width(channel);
            operate(code, at, channel, Want::Message(width), shape)
        }
        Instr::Recv { channel } => {
            let width = code.width(channel);
            operate(code, at, channel, Want::Elements(width), shape)
        }
        Instr::Read { file } | Instr::Write { file } => transfer(at, file, shape),
    }
}
