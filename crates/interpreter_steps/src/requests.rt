//! What a read and a write of a file ask for.

ghost use Rattle.std.specs.Prelude.{◌≡◌, ℕ, reverse, Ok, Err, IfOk, IfErr};
ghost use Rattle.work_item.specs.declared.cell.Place as place;
ghost use Rattle.work_item.specs.Store.{int_in, place_in};
ghost use Rattle.cancel_scope.specs.declared.operation.Asked as c;
ghost use Rattle.core_state.specs.Requests.{if_in_range, read_of, write_of};
ghost use Rattle.ac_semantics.specs.Statements.{place_operand, length_operand, last_of};
ghost use Rattle.interpreter_steps.specs.inner.Requests.{somewhere, asked_or_trap};

use crate::statements::operand;
use ac_base::{NoMemory, Trap};
use core_operators::range_of;
use interpreter_state::{Asked, Datum, Memory, Span};
use std::alloc::Global;
use work_item::Place;

// The place in a file from which on a request reads or writes, and the elements with which it does.
#[derive(Clone, Copy)]
struct Elements {
    from: u32,
    span: Span,
}

// Somewhere so many elements: whether a range is right depends on nothing else of an array.
fn somewhere(len: u32) -> Place
    ensures { result ≡ somewhere len }
{
    Place {
        home: None,
        start: 0,
        len,
    }
}

// The elements for so many bytes from a place of a file on, or the trap where that range is wrong.
fn elements_of(from: i64, len: i64, array: Span) -> Result<Elements, Trap>
    ensures ok { IfOk result (λ r. (ask : ℕ → place.Place → c.Asked) → if_in_range array from len ask ≡ Ok (ask r.from r.span)) }
    ensures err { IfErr result (λ trap. (ask : ℕ → place.Place → c.Asked) → if_in_range array from len ask ≡ Err trap) }
{
    let range = range_of(from, len, somewhere(array.len()))?;
    Ok(Elements {
        from: range.from,
        span: array.first(range.elements.len),
    })
}

// The elements of a request with these operands: a place in its file, a length and an array.
fn elements_in(operands: &[Datum]) -> Result<Elements, Trap>
    ensures ok { IfOk result (λ r. (ask : ℕ → place.Place → c.Asked) → if_in_range (place_in (last_of (reverse operands.now)))
        (place_operand (reverse operands.now)) (length_operand (reverse operands.now)) ask ≡ Ok (ask r.from r.span)) }
    ensures err { IfErr result (λ trap. (ask : ℕ → place.Place → c.Asked) → if_in_range (place_in (last_of (reverse operands.now)))
        (place_operand (reverse operands.now)) (length_operand (reverse operands.now)) ask ≡ Err trap) }
{
    let from = operand(operands, 2).as_int();
    let len = operand(operands, 1).as_int();
    elements_of(from, len, operand(operands, 0).as_array())
}

/// What a read with these operands asks for, or the trap where its range is wrong.
pub fn read_of(file: u32, operands: &[Datum]) -> Result<Asked, Trap>
    ensures { asked_or_trap result ≡ read_of file (place_operand (reverse operands.now)) (length_operand (reverse operands.now))
        (place_in (last_of (reverse operands.now))) }
{
    let elements = elements_in(operands)?;
    Ok(Asked::Read {
        file,
        from: elements.from,
        into: elements.span,
    })
}

/// What a write with these operands asks for, or the trap where its range is wrong. It takes its bytes now.
pub fn write_of(
    alloc: Global,
    memory: &Memory,
    file: u32,
    operands: &[Datum],
) -> Result<Result<Asked, Trap>, NoMemory>
    ensures { IfOk result (λ asked. asked_or_trap asked ≡ write_of memory.now file (place_operand (reverse operands.now))
        (length_operand (reverse operands.now)) (place_in (last_of (reverse operands.now)))) }
{
    match elements_in(operands) {
        Ok(elements) => Ok(Ok(Asked::Write {
            file,
            from: elements.from,
            bytes: memory.bytes_at(alloc, elements.span)?,
        })),
        Err(trap) => Ok(Err(trap)),
    }
}
