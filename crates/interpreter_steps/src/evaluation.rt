//! What expressions come to, from left to right.

ghost use Rattle.std.specs.Prelude.{◌≡◌, List, ◌∷◌, reverse, IfOk};
ghost use Rattle.work_item.specs.Store.{int_in};
ghost use Rattle.core_state.specs.Frames.{part_at};
ghost use Rattle.ac_semantics.specs.Evaluation as s;
ghost use Rattle.interpreter_steps.specs.inner.Pending.{IsOutcome, context_of, head_of};
ghost use Rattle.interpreter_steps.specs.inner.Chains.{decided, joined};

use crate::operators::{array, element, operate, reference, unary, variable};
use crate::pending::{Around, Context, Evaluated, Head, Rest};
use ac_base::{NoMemory, Trap};
use ac_commands::{Value, ValueLink};
use ac_tree::BinaryOp;
use interpreter_state::{Datum, Memory, Span};
use std::alloc::Global;
use work_item::FrameId;

/// An int that has come, or a trap.
pub fn then_int(computed: Result<i64, Trap>) -> Evaluated
    ensures { (around : List s.Context) → IsOutcome result around around (s.then_int computed s.comes_int) }
{
    match computed {
        Ok(value) => Evaluated::Comes(Datum::int(value)),
        Err(trap) => Evaluated::Traps(trap),
    }
}

/// The reference to one element that has come, or a trap.
pub fn then_part(place: Span, index: Datum) -> Evaluated
    ensures { (around : List s.Context) → IsOutcome result around around (s.then_part (part_at place (int_in index))) }
{
    match place.part_at(index.as_int()) {
        Ok(part) => Evaluated::Comes(Datum::array(part)),
        Err(trap) => Evaluated::Traps(trap),
    }
}

/// What an expression comes to in a frame, by what is round it; at a stop `around` is what is round the open place.
#[cycle(value)]
pub fn evaluate<'a>(
    alloc: Global,
    memory: &Memory,
    frame: FrameId,
    value: &'a Value,
    around: &mut Around<'a>,
) -> Result<Evaluated, NoMemory>
    ensures { IfOk result (λ o. IsOutcome o around.old around.new (s.goes memory.now frame value.now around.old)) }
{
    match value {
        Value::Number(number) => Ok(Evaluated::Comes(Datum::int(*number))),
        Value::Variable(place) => Ok(Evaluated::Comes(variable(memory, frame, *place))),
        Value::Reference(whole) => Ok(Evaluated::Comes(reference(memory, frame, *whole))),
        Value::Element {
            array: whole,
            index,
        } => {
            let place = array(memory, frame, *whole);
            match within(
                alloc,
                memory,
                frame,
                Context::ElementAt(place),
                index.get(),
                around,
            )? {
                Evaluated::Comes(y) => Ok(then_int(element(memory, place, y.as_int()))),
                other => Ok(other),
            }
        }
        Value::Part {
            array: whole,
            index,
        } => {
            let place = array(memory, frame, *whole);
            match within(
                alloc,
                memory,
                frame,
                Context::PartAt(place),
                index.get(),
                around,
            )? {
                Evaluated::Comes(y) => Ok(then_part(place, y)),
                other => Ok(other),
            }
        }
        Value::Unary { op, operand } => {
            match within(
                alloc,
                memory,
                frame,
                Context::Operand(*op),
                operand.get(),
                around,
            )? {
                Evaluated::Comes(x) => Ok(Evaluated::Comes(Datum::int(unary(*op, x.as_int())))),
                other => Ok(other),
            }
        }
        Value::Chain { first, rest } => {
            let links = rest.as_slice();
            match within(
                alloc,
                memory,
                frame,
                Context::First(links),
                first.get(),
                around,
            )? {
                Evaluated::Comes(x) => chain(alloc, memory, frame, x, links, around),
                other => Ok(other),
            }
        }
        Value::Act { action, operands } => row(
            alloc,
            memory,
            frame,
            Head::Acting(*action),
            Vec::new(alloc),
            operands.as_slice(),
            around,
        ),
    }
}

// An operand in its context, which is gone once the operand has come.
#[cycle(value)]
pub fn within<'a>(
    alloc: Global,
    memory: &Memory,
    frame: FrameId,
    context: Context<'a>,
    value: &'a Value,
    around: &mut Around<'a>,
) -> Result<Evaluated, NoMemory>
    ensures { IfOk result (λ o. IsOutcome o around.old around.new
        (s.goes memory.now frame value.now (context_of context.entry ∷ around.old))) }
{
    around.push(context)?;
    let outcome = evaluate(alloc, memory, frame, value, around)?;
    if matches!(&outcome, Evaluated::Comes(_)) {
        let _ = around.pop();
    }
    Ok(outcome)
}

// The value of a chain, of which this is the left operand of what is left.
#[cycle(value)]
pub fn chain<'a>(
    alloc: Global,
    memory: &Memory,
    frame: FrameId,
    first: Datum,
    links: &'a [ValueLink],
    around: &mut Around<'a>,
) -> Result<Evaluated, NoMemory>
    ensures { IfOk result (λ o. IsOutcome o around.old around.new (s.chain_goes memory.now frame first links.now around.old)) }
{
    let mut x = first;
    'links: for (index, link) in links.iter().enumerate() {
        let others = &links[index + 1..];
        match joined(alloc, memory, frame, x, link, others, around)? {
            Evaluated::Comes(value) => x = value,
            other => return Ok(other),
        }
    }
    Ok(Evaluated::Comes(x))
}

// The left operand of `||` and `&&` may decide alone.
fn decided(op: BinaryOp, x: i64) -> Option<i64>
    ensures { result ≡ decided op x }
{
    match op {
        BinaryOp::Or if x != 0 => Some(1),
        BinaryOp::And if x == 0 => Some(0),
        _ => None,
    }
}

// One operator with its right operand, after the value on its left.
#[cycle(value)]
fn joined<'a>(
    alloc: Global,
    memory: &Memory,
    frame: FrameId,
    left: Datum,
    link: &'a ValueLink,
    others: &'a [ValueLink],
    around: &mut Around<'a>,
) -> Result<Evaluated, NoMemory>
    ensures { IfOk result (λ o. IsOutcome o around.old around.new (joined memory.now frame (int_in left) link.now others.now around.old)) }
{
    let x = left.as_int();
    if let Some(value) = decided(link.op, x) {
        return Ok(Evaluated::Comes(Datum::int(value)));
    }
    let context = Context::Right(x, link.op, others);
    match within(alloc, memory, frame, context, &link.operand, around)? {
        Evaluated::Comes(y) => Ok(then_int(operate(link.op, x, y.as_int()))),
        other => Ok(other),
    }
}

// Operands from left to right, and then the stop at what takes them.
#[cycle(value)]
pub fn row<'a>(
    alloc: Global,
    memory: &Memory,
    frame: FrameId,
    head: Head,
    done: Vec<Datum>,
    values: &'a [Value],
    around: &mut Around<'a>,
) -> Result<Evaluated, NoMemory>
    ensures { IfOk result (λ o. IsOutcome o around.old around.new
        (s.row_goes memory.now frame (head_of head) (reverse done.items) values.now around.old)) }
{
    let mut done = done;
    'values: for (index, value) in values.iter().enumerate() {
        let others = &values[index + 1..];
        let context = Context::Operands(
            head,
            Vec::from_slice(alloc, done.as_slice())?,
            Rest::Values(others),
        );
        match within(alloc, memory, frame, context, value, around)? {
            Evaluated::Comes(cell) => done.push(cell)?,
            other => return Ok(other),
        }
    }
    Ok(Evaluated::Stops(head, done))
}
