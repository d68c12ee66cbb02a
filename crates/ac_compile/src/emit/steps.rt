//! The code of statements that have no statements in them, of where ints are put, and of tests.

ghost use Rattle.std.specs.Prelude.{◌≡◌, ◌+◌, ◌<◌, ◌^◌, length, OnOk, IfOk, IfSome};
ghost use Rattle.ac_translation.specs.Pieces.{one, ◌⨾◌, out_past, out_turn};
ghost use Rattle.ac_translation.specs.Translation.{array_code, value_code, values_code, target_code, operand_code};
ghost use Rattle.ac_compile.specs.inner.Emission.{with_code, HasRoom, decided, open_test, test_jump, with_test};

use crate::emit::emitter::Emitter;
use crate::emit::values::{array_code, emit_value, emit_values};
use ac_base::{List, NoMemory};
use ac_commands::{Array, Place, Target, Value};
use stack_code::Instr;

/// A step and one instruction.
pub fn emit_stepped(emitter: &mut Emitter, instr: Instr) -> Result<(), NoMemory>
    ensures { OnOk result (emitter.new ≡ with_code (one Instr.Step ⨾ one instr) emitter.old) }
{
    emitter.put(Instr::Step)?;
    emitter.put(instr)?;
    Ok(())
}

// What puts an int into an element of an array.
fn emit_element(emitter: &mut Emitter, array: Array, index: &Value) -> Result<(), NoMemory>
    requires { HasRoom (one (array_code array) ⨾ value_code index.now ⨾ one Instr.SetElem) emitter.old }
    ensures { OnOk result (emitter.new ≡ with_code (one (array_code array) ⨾ value_code index.now ⨾ one Instr.SetElem) emitter.old) }
{
    emitter.put(array_code(array))?;
    emit_value(emitter, index)?;
    emitter.put(Instr::SetElem)?;
    Ok(())
}

/// What puts an int into a target.
pub fn emit_target(emitter: &mut Emitter, target: &Target) -> Result<(), NoMemory>
    requires { HasRoom (target_code target.now) emitter.old }
    ensures { OnOk result (emitter.new ≡ with_code (target_code target.now) emitter.old) }
{
    match target {
        Target::Variable(Place::Global { slot }) => emitter.put(Instr::StoreG { slot: *slot }),
        Target::Variable(Place::Local { level, slot }) => emitter.put(Instr::Store {
            level: *level,
            slot: *slot,
        }),
        Target::Element { array, index } => emit_element(emitter, *array, index),
    }
}

/// Puts an int into a target.
pub fn emit_set(emitter: &mut Emitter, target: &Target, value: &Value) -> Result<(), NoMemory>
    requires { HasRoom (one Instr.Step ⨾ value_code value.now ⨾ target_code target.now) emitter.old }
    ensures { OnOk result (emitter.new ≡ with_code (one Instr.Step ⨾ value_code value.now ⨾ target_code target.now) emitter.old) }
{
    emitter.put(Instr::Step)?;
    emit_value(emitter, value)?;
    emit_target(emitter, target)?;
    Ok(())
}

/// A call or an operation whose value is dropped.
pub fn emit_run(emitter: &mut Emitter, value: &Value) -> Result<(), NoMemory>
    requires { HasRoom (one Instr.Step ⨾ value_code value.now ⨾ one Instr.Drop) emitter.old }
    ensures { OnOk result (emitter.new ≡ with_code (one Instr.Step ⨾ value_code value.now ⨾ one Instr.Drop) emitter.old) }
{
    emitter.put(Instr::Step)?;
    emit_value(emitter, value)?;
    emitter.put(Instr::Drop)?;
    Ok(())
}

/// Prints a text with its arguments, of which there are fewer than 2 ^ 32 where there is room for them.
pub fn emit_print(emitter: &mut Emitter, text: u32, args: &List<Value>) -> Result<(), NoMemory>
    requires { HasRoom (one Instr.Step ⨾ values_code args.now ⨾ one (Instr.Print text (length args.now))) emitter.old }
    ensures { OnOk result (emitter.new ≡ with_code (one Instr.Step ⨾ values_code args.now ⨾ one (Instr.Print text (length args.now)))
        emitter.old) }
{
    let count = args.len() as u32;
    emitter.put(Instr::Step)?;
    emit_values(emitter, args.as_slice())?;
    emitter.put(Instr::Print { text, count })?;
    Ok(())
}

/// Leaves the innermost loop.
pub fn emit_break(emitter: &mut Emitter) -> Result<(), NoMemory>
    requires { HasRoom (one Instr.Step ⨾ out_past) emitter.old }
    ensures { OnOk result (emitter.new ≡ with_code (one Instr.Step ⨾ out_past) emitter.old) }
{
    emitter.put(Instr::Step)?;
    emitter.put_past()?;
    Ok(())
}

/// Goes on with the innermost loop.
pub fn emit_continue(emitter: &mut Emitter) -> Result<(), NoMemory>
    requires { HasRoom (one Instr.Step ⨾ out_turn) emitter.old }
    ensures { OnOk result (emitter.new ≡ with_code (one Instr.Step ⨾ out_turn) emitter.old) }
{
    emitter.put(Instr::Step)?;
    emitter.put_turn()?;
    Ok(())
}

// What a function gives, which is 0 where nothing is named.
fn emit_operand(emitter: &mut Emitter, value: &Option<Value>) -> Result<(), NoMemory>
    requires { HasRoom (operand_code value.now) emitter.old }
    ensures { OnOk result (emitter.new ≡ with_code (operand_code value.now) emitter.old) }
{
    match value {
        None => emitter.put(Instr::Push(0)),
        Some(value) => emit_value(emitter, value),
    }
}

/// Ends a function with a value.
pub fn emit_return(emitter: &mut Emitter, value: &Option<Value>) -> Result<(), NoMemory>
    requires { HasRoom (one Instr.Step ⨾ operand_code value.now ⨾ one Instr.Ret) emitter.old }
    ensures { OnOk result (emitter.new ≡ with_code (one Instr.Step ⨾ operand_code value.now ⨾ one Instr.Ret) emitter.old) }
{
    emitter.put(Instr::Step)?;
    emit_operand(emitter, value)?;
    emitter.put(Instr::Ret)?;
    Ok(())
}

/// What decides, and a jump where it is 0, whose address is to be set.
pub fn emit_test(emitter: &mut Emitter, test: &Value) -> Result<u32, NoMemory>
    requires { HasRoom (decided test.now ⨾ one (Instr.Jz 0)) emitter.old }
    ensures jump { IfOk result (λ jump. jump ≡ length (with_code (decided test.now) emitter.old).instrs) }
    ensures code { OnOk result (emitter.new ≡ with_code (one (Instr.Jz 0)) (with_code (decided test.now) emitter.old)) }
{
    emitter.put(Instr::Step)?;
    emit_value(emitter, test)?;
    let jump = emitter.jump(Instr::Jz { to: 0 })?;
    Ok(jump)
}

/// What decides whether a loop goes on, and the jump that is to be set, where there is one: a missing test is true.
pub fn emit_open_test(emitter: &mut Emitter, test: &Option<Value>) -> Result<Option<u32>, NoMemory>
    requires { HasRoom (open_test test.now) emitter.old }
    ensures jump { IfOk result (λ jump. jump ≡ test_jump test.now emitter.old) }
    ensures code { OnOk result (emitter.new ≡ with_code (open_test test.now) emitter.old) }
{
    match test {
        None => {
            emitter.put(Instr::Step)?;
            Ok(None)
        }
        Some(test) => {
            let jump = emit_test(emitter, test)?;
            Ok(Some(jump))
        }
    }
}

/// Sets the jump of a test.
pub fn set_test(emitter: &mut Emitter, jump: Option<u32>, to: u32)
    requires { IfSome jump (λ at. at < length emitter.old.instrs) }
    ensures { emitter.new ≡ with_test jump to emitter.old }
{
    match jump {
        None => {}
        Some(at) => emitter.set(at, Instr::Jz { to }),
    }
}
