//! Texts of numbers, the report of a run, and its status.

ghost use Rattle.std.specs.Prelude.{◌≡◌, ◌++◌, length, string_bytes, IfOk, OnOk};
ghost use Rattle.std.specs.Fmt.{signed_decimal};
ghost use Rattle.ac_base.specs.Report.{word_text, trap_text, ending_of, line_of, closed, report_of};
ghost use Rattle.ac_base.specs.Report.{any_ends, is_trapped, is_out_of_steps, is_stalled, status_of};

use crate::ends::{EndWord, MachineEnd, Status, Trap};
use crate::list::{Bytes, List, Name};
use crate::memory::NoMemory;
use std::alloc::Global;

/// The decimal text of a number, with a `-` in front of a negative one.
pub fn decimal(alloc: Global, value: i64) -> Result<Bytes, NoMemory>
    ensures { IfOk result (λ text. text ≡ signed_decimal value) }
{
    let text = value.to_string(alloc)?;
    Ok(List::from_vec(text.into_bytes()))
}

fn trap_word(trap: Trap) -> &'static str
    ensures { result.now ≡ trap_text trap }
{
    match trap {
        Trap::ZeroDivisor => "zero-divisor",
        Trap::Index => "index",
        Trap::StackFull => "stack-full",
        Trap::OutputFull => "output-full",
        Trap::FileRange => "file-range",
    }
}

/// The word for how a core has ended, as a report and a trace have it.
pub fn end_word(word: EndWord) -> &'static str
    ensures { result.now ≡ word_text word }
{
    match word {
        EndWord::Finished => "finished",
        EndWord::Trapped(trap) => trap_word(trap),
        EndWord::OutOfSteps => "out-of-steps",
        EndWord::Stalled => "stalled",
    }
}

// What stands after the name in a core's line.
fn ending(alloc: Global, end: &MachineEnd) -> Result<String, NoMemory>
    ensures { IfOk result (λ text. string_bytes text ≡ ending_of end.now) }
{
    let word = end_word(end.core.word);
    let steps = end.core.steps;
    let count = end.instructions;
    Ok(format!(in alloc; ": {word} after {steps} steps, {count} instructions\n")?)
}

fn add_line(
    alloc: Global,
    text: &mut Vec<u8>,
    name: &[u8],
    end: &MachineEnd,
) -> Result<(), NoMemory>
    ensures { OnOk result (text.new.items ≡ text.old.items ++ line_of name.now end.now) }
{
    let ending = ending(alloc, end)?;
    text.extend_from_slice(name)?;
    text.extend_from_slice(ending.as_bytes())?;
    Ok(())
}

// The output, and a line feed where it does not end its last line.
fn add_output(text: &mut Vec<u8>, output: &[u8]) -> Result<(), NoMemory>
    ensures { OnOk result (text.new.items ≡ text.old.items ++ closed output.now) }
{
    text.extend_from_slice(output)?;
    let is_open = match output.last() {
        None => false,
        Some(last) => *last != b'\n',
    };
    if is_open {
        text.push(b'\n')?;
    }
    Ok(())
}

/// The report: for each core in order the line `NAME: WORD after N steps, M instructions`, and
/// then its output, whose last line is ended.
pub fn report(alloc: Global, names: &List<Name>, ends: &List<MachineEnd>) -> Result<Bytes, NoMemory>
    requires { length names.now ≡ length ends.now }
    ensures { IfOk result (λ text. text ≡ report_of names.now ends.now) }
{
    let mut text = Vec::new(alloc);
    let ends = ends.as_slice();
    for (place, name) in names.as_slice().iter().enumerate() {
        let end = &ends[place];
        add_line(alloc, &mut text, name.as_slice(), end)?;
        add_output(&mut text, end.core.output.as_slice())?;
    }
    Ok(List::from_vec(text))
}

fn any_trapped(ends: &[MachineEnd]) -> bool
    ensures { result ≡ any_ends is_trapped ends.now }
{
    ends.iter()
        .any(|end| matches!(end.core.word, EndWord::Trapped(_)))
}

fn any_out_of_steps(ends: &[MachineEnd]) -> bool
    ensures { result ≡ any_ends is_out_of_steps ends.now }
{
    ends.iter()
        .any(|end| matches!(end.core.word, EndWord::OutOfSteps))
}

fn any_stalled(ends: &[MachineEnd]) -> bool
    ensures { result ≡ any_ends is_stalled ends.now }
{
    ends.iter()
        .any(|end| matches!(end.core.word, EndWord::Stalled))
}

/// The status of ended cores: 4 where one trapped, else 6 where one is out of steps, else 5 where
/// one is stalled, else 0.
pub fn status(ends: &List<MachineEnd>) -> Status
    ensures { result.number ≡ status_of ends.now }
{
    let ends = ends.as_slice();
    let number = if any_trapped(ends) {
        4
    } else if any_out_of_steps(ends) {
        6
    } else if any_stalled(ends) {
        5
    } else {
        0
    };
    Status { number }
}
