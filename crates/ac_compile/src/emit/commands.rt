//! The code of statements.

ghost use Rattle.std.specs.Prelude.{◌≡◌, ◌+◌, ◌<◌, ◌^◌, length, map, Some, None, OnOk, IfOk};
ghost use Rattle.std.specs.Option.{option_map};
ghost use Rattle.ac_translation.specs.Pieces.{one, ◌⨾◌, over, no_code, loop};
ghost use Rattle.ac_translation.specs.Translation.{value_code, if_code, test_code, at_loop, at_next, command_code, body_code};
ghost use Rattle.ac_compile.specs.inner.Emission.{with_code, HasRoom, enclosed};

use crate::emit::emitter::{Emitter, Outs};
use crate::emit::steps::{
    emit_break, emit_continue, emit_open_test, emit_print, emit_return, emit_run, emit_set,
    emit_stepped, emit_test, set_test,
};
use ac_base::{List, NoMemory};
use ac_commands::{Command, Value};
use stack_code::Instr;
use std::alloc::Global;

// The code of a statement.
#[cycle(emit)]
fn emit_command(alloc: Global, emitter: &mut Emitter, command: &Command) -> Result<(), NoMemory>
    requires { HasRoom (command_code command.now) emitter.old }
    ensures { OnOk result (emitter.new ≡ with_code (command_code command.now) emitter.old) }
{
    match command {
        Command::Nothing => emitter.put(Instr::Step),
        Command::Set { target, value } => emit_set(emitter, target, value),
        Command::Clear { slot, len } => emit_stepped(
            emitter,
            Instr::Clear {
                slot: *slot,
                len: *len,
            },
        ),
        Command::Run(value) => emit_run(emitter, value),
        Command::Print { text, args } => emit_print(emitter, *text, args),
        Command::If { test, body, other } => {
            emit_if(alloc, emitter, test, body.as_slice(), other)
        }
        Command::While { test, body } => emit_while(alloc, emitter, test, body.as_slice()),
        Command::For { test, next, body } => {
            emit_for(alloc, emitter, test, next.as_slice(), body.as_slice())
        }
        Command::Break => emit_break(emitter),
        Command::Continue => emit_continue(emitter),
        Command::Return(value) => emit_return(emitter, value),
        Command::Do { slot, body } => emit_do(alloc, emitter, *slot, body.as_slice()),
        Command::Async { slots, body } => emit_async(alloc, emitter, *slots, body.as_slice()),
        Command::Cancel { level, slot } => emit_stepped(
            emitter,
            Instr::Cancel {
                level: *level,
                slot: *slot,
            },
        ),
        Command::Yield => emit_stepped(emitter, Instr::Yield),
    }
}

/// The code of statements, one after the other.
#[cycle(emit)]
pub fn emit_body(alloc: Global, emitter: &mut Emitter, body: &[Command]) -> Result<(), NoMemory>
    requires { HasRoom (body_code body.now) emitter.old }
    ensures { OnOk result (emitter.new ≡ with_code (body_code body.now) emitter.old) }
{
    for command in body {
        emit_command(alloc, emitter, command)?;
    }
    Ok(())
}

#[cycle(emit)]
fn emit_if(
    alloc: Global,
    emitter: &mut Emitter,
    test: &Value,
    body: &[Command],
    other: &Option<List<Command>>,
) -> Result<(), NoMemory>
    requires { HasRoom (if_code (value_code test.now) (body_code body.now) (option_map (map command_code) other.now)) emitter.old }
    ensures { OnOk result (emitter.new ≡ with_code (if_code (value_code test.now) (body_code body.now)
        (option_map (map command_code) other.now)) emitter.old) }
{
    match other {
        None => emit_then(alloc, emitter, test, body),
        Some(other) => emit_else(alloc, emitter, test, body, other.as_slice()),
    }
}

// An `if` without an `else`.
#[cycle(emit)]
fn emit_then(
    alloc: Global,
    emitter: &mut Emitter,
    test: &Value,
    body: &[Command],
) -> Result<(), NoMemory>
    requires { HasRoom (if_code (value_code test.now) (body_code body.now) None) emitter.old }
    ensures { OnOk result (emitter.new ≡ with_code (if_code (value_code test.now) (body_code body.now) None) emitter.old) }
{
    let jump = emit_test(emitter, test)?;
    emit_body(alloc, emitter, body)?;
    let to = emitter.len();
    emitter.set(jump, Instr::Jz { to });
    Ok(())
}

// An `if` with an `else`.
#[cycle(emit)]
fn emit_else(
    alloc: Global,
    emitter: &mut Emitter,
    test: &Value,
    body: &[Command],
    other: &[Command],
) -> Result<(), NoMemory>
    requires { HasRoom (if_code (value_code test.now) (body_code body.now) (Some (map command_code other.now))) emitter.old }
    ensures { OnOk result (emitter.new ≡ with_code (if_code (value_code test.now) (body_code body.now) (Some (map command_code other.now)))
        emitter.old) }
{
    let jump = emit_test(emitter, test)?;
    emit_body(alloc, emitter, body)?;
    let end = emitter.jump(Instr::Jump { to: 0 })?;
    let to = emitter.len();
    emitter.set(jump, Instr::Jz { to });
    emit_body(alloc, emitter, other)?;
    let past = emitter.len();
    emitter.set(end, Instr::Jump { to: past });
    Ok(())
}

// The body of a loop. It gives its jumps out of the loop, whose addresses are to be set.
#[cycle(emit)]
fn emit_inside(alloc: Global, emitter: &mut Emitter, body: &[Command]) -> Result<Outs, NoMemory>
    requires { HasRoom (body_code body.now) emitter.old }
    ensures code { OnOk result (emitter.new ≡ with_code (enclosed (body_code body.now)) emitter.old) }
    ensures pasts { IfOk result (λ outs. outs.pasts.items ≡ (body_code body.now).pasts (length emitter.old.instrs)) }
    ensures turns { IfOk result (λ outs. outs.turns.items ≡ (body_code body.now).turns (length emitter.old.instrs)) }
{
    let outer = emitter.exchange(Outs::new(alloc));
    emit_body(alloc, emitter, body)?;
    Ok(emitter.exchange(outer))
}

#[cycle(emit)]
fn emit_while(
    alloc: Global,
    emitter: &mut Emitter,
    test: &Value,
    body: &[Command],
) -> Result<(), NoMemory>
    requires { HasRoom (loop at_loop (test_code (Some test.now) ((body_code body.now).size + 1)) (body_code body.now) no_code) emitter.old }
    ensures { OnOk result (emitter.new ≡ with_code (loop at_loop (test_code (Some test.now) ((body_code body.now).size + 1))
        (body_code body.now) no_code) emitter.old) }
{
    let place = emitter.len();
    let jump = emit_test(emitter, test)?;
    let outs = emit_inside(alloc, emitter, body)?;
    emitter.put(Instr::Jump { to: place })?;
    let past = emitter.len();
    emitter.set(jump, Instr::Jz { to: past });
    emitter.fill_outs(&outs, past, place);
    Ok(())
}

#[cycle(emit)]
fn emit_for(
    alloc: Global,
    emitter: &mut Emitter,
    test: &Option<Value>,
    next: &[Command],
    body: &[Command],
) -> Result<(), NoMemory>
    requires { HasRoom (loop at_next (test_code test.now ((body_code body.now).size + ((body_code next.now).size + 1))) (body_code body.now)
        (body_code next.now)) emitter.old }
    ensures { OnOk result (emitter.new ≡ with_code (loop at_next
        (test_code test.now ((body_code body.now).size + ((body_code next.now).size + 1))) (body_code body.now) (body_code next.now))
        emitter.old) }
{
    let place = emitter.len();
    let jump = emit_open_test(emitter, test)?;
    let outs = emit_inside(alloc, emitter, body)?;
    let turn = emitter.len();
    emit_body(alloc, emitter, next)?;
    emitter.put(Instr::Jump { to: place })?;
    let past = emitter.len();
    set_test(emitter, jump, past);
    emitter.fill_outs(&outs, past, turn);
    Ok(())
}

#[cycle(emit)]
fn emit_do(
    alloc: Global,
    emitter: &mut Emitter,
    slot: u32,
    body: &[Command],
) -> Result<(), NoMemory>
    requires { HasRoom (one Instr.Step ⨾ one (Instr.Enter slot) ⨾ body_code body.now ⨾ one Instr.Step ⨾ one (Instr.Finish slot))
        emitter.old }
    ensures { OnOk result (emitter.new ≡ with_code (one Instr.Step ⨾ one (Instr.Enter slot) ⨾ body_code body.now ⨾ one Instr.Step
        ⨾ one (Instr.Finish slot)) emitter.old) }
{
    emit_stepped(emitter, Instr::Enter { slot })?;
    emit_body(alloc, emitter, body)?;
    emit_stepped(emitter, Instr::Finish { slot })?;
    Ok(())
}

#[cycle(emit)]
fn emit_async(
    alloc: Global,
    emitter: &mut Emitter,
    slots: u32,
    body: &[Command],
) -> Result<(), NoMemory>
    requires { HasRoom (one Instr.Step ⨾ over (λ to. Instr.Async slots to) ((body_code body.now).size + 1) ⨾ body_code body.now
        ⨾ one Instr.End) emitter.old }
    ensures { OnOk result (emitter.new ≡ with_code (one Instr.Step ⨾ over (λ to. Instr.Async slots to) ((body_code body.now).size + 1)
        ⨾ body_code body.now ⨾ one Instr.End) emitter.old) }
{
    emitter.put(Instr::Step)?;
    let jump = emitter.jump(Instr::Async { slots, to: 0 })?;
    emit_body(alloc, emitter, body)?;
    emitter.put(Instr::End)?;
    let to = emitter.len();
    emitter.set(jump, Instr::Async { slots, to });
    Ok(())
}
