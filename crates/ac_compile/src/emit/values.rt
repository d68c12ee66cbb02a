//! The code of values.

ghost use Rattle.std.specs.Prelude.{◌≡◌, ◌+◌, ◌<◌, ◌^◌, length, map, pos, OnOk};
ghost use Rattle.ac_translation.specs.Pieces.{one, ◌⨾◌, over};
ghost use Rattle.ac_translation.specs.Translation.{unary_code, operator_code, variable_code, array_code, action_code, lazily};
ghost use Rattle.ac_translation.specs.Translation.{joined_code, chained_code, value_code, link_code, values_code};
ghost use Rattle.ac_compile.specs.inner.Emission.{with_code, HasRoom};

use crate::emit::emitter::Emitter;
use ac_base::NoMemory;
use ac_commands::{Action, Array, Place, Value, ValueLink};
use ac_tree::{BinaryOp, UnaryOp};
use stack_code::Instr;

fn unary_code(op: UnaryOp) -> Instr
    ensures { result ≡ unary_code op }
{
    match op {
        UnaryOp::Neg => Instr::Neg,
        UnaryOp::Not => Instr::Not,
        UnaryOp::Flip => Instr::Flip,
    }
}

fn operator_code(op: BinaryOp) -> Instr
    ensures { result ≡ operator_code op }
{
    match op {
        BinaryOp::Or | BinaryOp::And => Instr::Bool,
        BinaryOp::BitOr => Instr::BitOr,
        BinaryOp::BitXor => Instr::BitXor,
        BinaryOp::BitAnd => Instr::BitAnd,
        BinaryOp::Eq => Instr::Eq,
        BinaryOp::Ne => Instr::Ne,
        BinaryOp::Less => Instr::Less,
        BinaryOp::LessEq => Instr::LessEq,
        BinaryOp::More => Instr::More,
        BinaryOp::MoreEq => Instr::MoreEq,
        BinaryOp::Shl => Instr::Shl,
        BinaryOp::Shr => Instr::Shr,
        BinaryOp::Add => Instr::Add,
        BinaryOp::Sub => Instr::Sub,
        BinaryOp::Mul => Instr::Mul,
        BinaryOp::Div => Instr::Div,
        BinaryOp::Rem => Instr::Rem,
    }
}

fn variable_code(place: Place) -> Instr
    ensures { result ≡ variable_code place }
{
    match place {
        Place::Global { slot } => Instr::LoadG { slot },
        Place::Local { level, slot } => Instr::Load { level, slot },
    }
}

/// A reference to an array.
pub fn array_code(array: Array) -> Instr
    ensures { result ≡ array_code array }
{
    match array {
        Array::Global { slot, len } => Instr::ArrG { slot, len },
        Array::Local { level, slot, len } => Instr::Arr { level, slot, len },
        Array::Param { level, slot } => Instr::Load { level, slot },
    }
}

// After its operands, of which there are so many.
fn action_code(action: Action, count: u32) -> Instr
    ensures { result ≡ action_code action count }
{
    match action {
        Action::Call { function } => Instr::Call { function, count },
        Action::Send { channel } => Instr::Send { channel },
        Action::Recv { channel } => Instr::Recv { channel },
        Action::Read { file } => Instr::Read { file },
        Action::Write { file } => Instr::Write { file },
    }
}

/// The code of a value.
#[cycle(value)]
pub fn emit_value(emitter: &mut Emitter, value: &Value) -> Result<(), NoMemory>
    requires { HasRoom (value_code value.now) emitter.old }
    ensures { OnOk result (emitter.new ≡ with_code (value_code value.now) emitter.old) }
{
    match value {
        Value::Number(value) => {
            emitter.put(Instr::Push(*value))?;
            Ok(())
        }
        Value::Variable(place) => {
            emitter.put(variable_code(*place))?;
            Ok(())
        }
        Value::Reference(array) => {
            emitter.put(array_code(*array))?;
            Ok(())
        }
        Value::Element { array, index } => {
            emitter.put(array_code(*array))?;
            emit_value(emitter, index.get())?;
            emitter.put(Instr::Elem)?;
            Ok(())
        }
        Value::Part { array, index } => {
            emitter.put(array_code(*array))?;
            emit_value(emitter, index.get())?;
            emitter.put(Instr::Place)?;
            Ok(())
        }
        Value::Unary { op, operand } => {
            emit_value(emitter, operand.get())?;
            emitter.put(unary_code(*op))?;
            Ok(())
        }
        Value::Chain { first, rest } => {
            emit_value(emitter, first.get())?;
            emit_links(emitter, rest.as_slice())?;
            Ok(())
        }
        Value::Act { action, operands } => {
            let count = operands.len() as u32;
            emit_values(emitter, operands.as_slice())?;
            emitter.put(action_code(*action, count))?;
            Ok(())
        }
    }
}

/// The code of values, one after the other.
#[cycle(value)]
pub fn emit_values(emitter: &mut Emitter, values: &[Value]) -> Result<(), NoMemory>
    requires { HasRoom (values_code values.now) emitter.old }
    ensures { OnOk result (emitter.new ≡ with_code (values_code values.now) emitter.old) }
{
    for value in values {
        emit_value(emitter, value)?;
    }
    Ok(())
}

#[cycle(value)]
fn emit_links(emitter: &mut Emitter, links: &[ValueLink]) -> Result<(), NoMemory>
    requires { HasRoom (chained_code (map link_code links.now)) emitter.old }
    ensures { OnOk result (emitter.new ≡ with_code (chained_code (map link_code links.now)) emitter.old) }
{
    for link in links {
        emit_joined(emitter, link.op, &link.operand)?;
    }
    Ok(())
}

// What stands after the left operand.
#[cycle(value)]
fn emit_joined(emitter: &mut Emitter, op: BinaryOp, right: &Value) -> Result<(), NoMemory>
    requires { HasRoom (joined_code op (value_code right.now)) emitter.old }
    ensures { OnOk result (emitter.new ≡ with_code (joined_code op (value_code right.now)) emitter.old) }
{
    match op {
        BinaryOp::Or => emit_or(emitter, right),
        BinaryOp::And => emit_and(emitter, right),
        _ => {
            emit_value(emitter, right)?;
            emitter.put(operator_code(op))?;
            Ok(())
        }
    }
}

#[cycle(value)]
fn emit_or(emitter: &mut Emitter, right: &Value) -> Result<(), NoMemory>
    requires { HasRoom (lazily (λ to. Instr.Jnz to) (Instr.Push (pos 1)) (value_code right.now)) emitter.old }
    ensures { OnOk result (emitter.new ≡ with_code (lazily (λ to. Instr.Jnz to) (Instr.Push (pos 1)) (value_code right.now)) emitter.old) }
{
    let jump = emitter.jump(Instr::Jnz { to: 0 })?;
    emit_right(emitter, right)?;
    let to = emitter.len();
    emitter.set(jump, Instr::Jnz { to });
    emitter.put(Instr::Push(1))?;
    Ok(())
}

#[cycle(value)]
fn emit_and(emitter: &mut Emitter, right: &Value) -> Result<(), NoMemory>
    requires { HasRoom (lazily (λ to. Instr.Jz to) (Instr.Push (pos 0)) (value_code right.now)) emitter.old }
    ensures { OnOk result (emitter.new ≡ with_code (lazily (λ to. Instr.Jz to) (Instr.Push (pos 0)) (value_code right.now)) emitter.old) }
{
    let jump = emitter.jump(Instr::Jz { to: 0 })?;
    emit_right(emitter, right)?;
    let to = emitter.len();
    emitter.set(jump, Instr::Jz { to });
    emitter.put(Instr::Push(0))?;
    Ok(())
}

// The truth of the right side, and a jump over what the left side decides.
#[cycle(value)]
fn emit_right(emitter: &mut Emitter, right: &Value) -> Result<(), NoMemory>
    requires { length emitter.old.instrs + ((value_code right.now).size + 3) < 2 ^ 32 }
    ensures { OnOk result (emitter.new ≡ with_code (value_code right.now ⨾ one Instr.Bool ⨾ over (λ to. Instr.Jump to) 1) emitter.old) }
{
    emit_value(emitter, right)?;
    emitter.put(Instr::Bool)?;
    let to = emitter.len() + 2;
    emitter.put(Instr::Jump { to })?;
    Ok(())
}
