//! The rows of operands of statements, and how what has stopped goes on.

ghost use Rattle.std.specs.Prelude.{◌≡◌, [], ◌∷◌, reverse, IfOk};
ghost use Rattle.ac_commands.specs.declared.command.Command.{out-Command};
ghost use Rattle.ac_semantics.specs.Evaluation as s;
ghost use Rattle.ac_semantics.specs.Statements.{operands_of, target_operands};
ghost use Rattle.interpreter_steps.specs.inner.Pending.{IsOutcome, context_of, head_of, rest_of};

use crate::evaluation::{chain, row, then_int, then_part, within};
use crate::operators::{element, operate, reference, unary};
use crate::pending::{Around, Context, Evaluated, Head, Rest};
use ac_base::NoMemory;
use ac_commands::{Command, Target, Value};
use interpreter_state::{Datum, Memory};
use std::alloc::Global;
use work_item::FrameId;

// One operand, which is the last.
fn row_one<'a>(
    alloc: Global,
    memory: &Memory,
    frame: FrameId,
    head: Head,
    mut done: Vec<Datum>,
    value: &'a Value,
    around: &mut Around<'a>,
) -> Result<Evaluated, NoMemory>
    ensures { IfOk result (λ o. IsOutcome o around.old around.new
        (s.row_goes memory.now frame (head_of head) (reverse done.items) (value.now ∷ []) around.old)) }
{
    let context = Context::Operands(
        head,
        Vec::from_slice(alloc, done.as_slice())?,
        Rest::Nothing,
    );
    match within(alloc, memory, frame, context, value, around)? {
        Evaluated::Comes(cell) => {
            done.push(cell)?;
            Ok(Evaluated::Stops(head, done))
        }
        other => Ok(other),
    }
}

// What a target needs.
fn row_target<'a>(
    alloc: Global,
    memory: &Memory,
    frame: FrameId,
    head: Head,
    mut done: Vec<Datum>,
    target: &'a Target,
    around: &mut Around<'a>,
) -> Result<Evaluated, NoMemory>
    ensures { IfOk result (λ o. IsOutcome o around.old around.new
        (s.row_goes memory.now frame (head_of head) (reverse done.items) (target_operands target.now) around.old)) }
{
    match target {
        Target::Variable(_) => Ok(Evaluated::Stops(head, done)),
        Target::Element { array, index } => {
            done.push(reference(memory, frame, *array))?;
            row_one(alloc, memory, frame, head, done, index, around)
        }
    }
}

// A value, and what the target needs into which it is put.
fn row_into<'a>(
    alloc: Global,
    memory: &Memory,
    frame: FrameId,
    head: Head,
    mut done: Vec<Datum>,
    value: &'a Value,
    target: &'a Target,
    around: &mut Around<'a>,
) -> Result<Evaluated, NoMemory>
    ensures { IfOk result (λ o. IsOutcome o around.old around.new
        (s.row_goes memory.now frame (head_of head) (reverse done.items) (value.now ∷ target_operands target.now) around.old)) }
{
    let context = Context::Operands(
        head,
        Vec::from_slice(alloc, done.as_slice())?,
        Rest::Target(target),
    );
    match within(alloc, memory, frame, context, value, around)? {
        Evaluated::Comes(cell) => {
            done.push(cell)?;
            row_target(alloc, memory, frame, head, done, target, around)
        }
        other => Ok(other),
    }
}

// The operands that are left.
fn row_rest<'a>(
    alloc: Global,
    memory: &Memory,
    frame: FrameId,
    head: Head,
    done: Vec<Datum>,
    rest: Rest<'a>,
    around: &mut Around<'a>,
) -> Result<Evaluated, NoMemory>
    ensures { IfOk result (λ o. IsOutcome o around.old around.new
        (s.row_goes memory.now frame (head_of head) (reverse done.items) (rest_of rest.entry) around.old)) }
{
    match rest {
        Rest::Nothing => Ok(Evaluated::Stops(head, done)),
        Rest::Values(values) => row(alloc, memory, frame, head, done, values, around),
        Rest::One(value) => row_one(alloc, memory, frame, head, done, value, around),
        Rest::Target(target) => row_target(alloc, memory, frame, head, done, target, around),
        Rest::Into(value, target) => row_into(
            alloc, memory, frame, head, done, value, target, around,
        ),
    }
}

// The expressions of a statement, in the order in which they are computed.
fn operands_of<'a>(command: &'a Command) -> Rest<'a>
    ensures { rest_of result ≡ operands_of (out-Command command.now) }
{
    match command {
        Command::Set { target, value } => Rest::Into(value, target),
        Command::Run(value)
        | Command::If { test: value, .. }
        | Command::While { test: value, .. } => { Rest::One(value) }
        Command::Print { args, .. } => Rest::Values(args.as_slice()),
        Command::For {
            test: Some(value),
            ..
        }
        | Command::Return(Some(value)) => Rest::One(value),
        _ => Rest::Nothing,
    }
}

/// What the operands of a statement come to.
pub fn begin<'a>(
    alloc: Global,
    memory: &Memory,
    frame: FrameId,
    command: &'a Command,
    around: &mut Around<'a>,
) -> Result<Evaluated, NoMemory>
    ensures { IfOk result (λ o. IsOutcome o around.old around.new
        (s.row_goes memory.now frame s.Ending [] (operands_of (out-Command command.now)) around.old)) }
{
    row_rest(
        alloc,
        memory,
        frame,
        Head::Ending,
        Vec::new(alloc),
        operands_of(command),
        around,
    )
}

// What comes of a cell in the open place of a context.
fn give<'a>(
    alloc: Global,
    memory: &Memory,
    frame: FrameId,
    context: Context<'a>,
    cell: Datum,
    around: &mut Around<'a>,
) -> Result<Evaluated, NoMemory>
    ensures { IfOk result (λ o. IsOutcome o around.old around.new (s.gives memory.now frame (context_of context.entry) cell around.old)) }
{
    match context {
        Context::ElementAt(place) => Ok(then_int(element(memory, place, cell.as_int()))),
        Context::PartAt(place) => Ok(then_part(place, cell)),
        Context::Operand(op) => Ok(Evaluated::Comes(Datum::int(unary(op, cell.as_int())))),
        Context::First(links) => chain(alloc, memory, frame, cell, links, around),
        Context::Right(x, op, links) => match operate(op, x, cell.as_int()) {
            Ok(value) => chain(alloc, memory, frame, Datum::int(value), links, around),
            Err(trap) => Ok(Evaluated::Traps(trap)),
        },
        Context::Operands(head, mut done, rest) => {
            done.push(cell)?;
            row_rest(alloc, memory, frame, head, done, rest, around)
        }
    }
}

/// Goes on with a cell in the open place.
pub fn resume<'a>(
    alloc: Global,
    memory: &Memory,
    frame: FrameId,
    cell: Datum,
    around: &mut Around<'a>,
) -> Result<Evaluated, NoMemory>
    ensures { IfOk result (λ o. IsOutcome o [] around.new (s.resumes memory.now frame around.old cell)) }
{
    let mut cell = cell;
    'contexts: while let Some(context) = around.pop() {
        match give(alloc, memory, frame, context, cell, around)? {
            Evaluated::Comes(value) => cell = value,
            other => return Ok(other),
        }
    }
    Ok(Evaluated::Comes(cell))
}
