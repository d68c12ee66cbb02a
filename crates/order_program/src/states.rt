//! How the cores of a run end at a cut.

ghost use Rattle.std.specs.Prelude.{◌≡◌, ◌++◌, suc, length, string_bytes, IfOk, OnOk};
ghost use Rattle.ac_causal.specs.Cuts.{IsCut, IsClosed};
ghost use Rattle.order_program.specs.Lines.{ending_of, states_text};
ghost use Rattle.order_program.specs.inner.Cutting.{IsDueOfClosed, IsDueOfCounts};

use crate::told::{Told, say, say_place};
use ac_base::{Bytes, CoreEnd, List, Name, NoMemory, Status, end_word};
use ac_causal::{Causal, CutAnswer};
use stack_code::Code;
use std::alloc::Global;

// What stands after the name in a core's line.
fn ending(alloc: Global, end: &CoreEnd) -> Result<String, NoMemory>
    ensures { IfOk result (λ text. string_bytes text ≡ ending_of end.now) }
{
    let word = end_word(end.word);
    let steps = end.steps;
    Ok(format!(in alloc; ": {word} after {steps} steps\n")?)
}

fn add_line(alloc: Global, text: &mut Vec<u8>, name: &[u8], end: &CoreEnd) -> Result<(), NoMemory>
    ensures { OnOk result (text.new.items ≡ text.old.items ++ (name.now ++ ending_of end.now)) }
{
    let ending = ending(alloc, end)?;
    text.extend_from_slice(name)?;
    text.extend_from_slice(ending.as_bytes())?;
    Ok(())
}

// For each core the line `NAME: WORD after N steps`.
fn states_text(alloc: Global, names: &[Name], ends: &[CoreEnd]) -> Result<Bytes, NoMemory>
    ensures { IfOk result (λ text. text ≡ states_text names.now ends.now) }
{
    let mut text = Vec::new(alloc);
    for (place, name) in names.iter().enumerate() {
        let Some(end) = ends.get(place) else {
            return Ok(List::from_vec(text));
        };
        add_line(alloc, &mut text, name.as_slice(), end)?;
    }
    Ok(List::from_vec(text))
}

// How the cores end at a closed cut.
fn told_of_closed(
    alloc: Global,
    code: &Code,
    causal: &Causal<'_>,
    counts: &List<u32>,
) -> Result<Told, NoMemory>
    requires code { causal.now.code ≡ code.now }
    requires cut { IsCut causal.now.entries causal.now.parties counts.now }
    requires closed { IsClosed causal.now.entries counts.now }
    ensures { IfOk result (IsDueOfClosed code.now causal.now counts.now) }
{
    let ends = causal.states(alloc, counts)?;
    Ok(Told {
        status: Status { number: 0 },
        text: states_text(alloc, code.names().as_slice(), ends.as_slice())?,
    })
}

/// How the cores end at the cut of these counts; or that they are none, or where it is open.
pub fn told_of_cut(
    alloc: Global,
    code: &Code,
    causal: &Causal<'_>,
    counts: &List<u32>,
) -> Result<Told, NoMemory>
    requires code { causal.now.code ≡ code.now }
    requires parties { causal.now.parties ≡ suc (length code.now.entries) }
    ensures { IfOk result (IsDueOfCounts code.now causal.now counts.now) }
{
    if !causal.is_cut(counts) {
        return say(alloc, 18, "no such cut\n");
    }
    match causal.cut(counts) {
        CutAnswer::Open { entry } => say_place(alloc, 17, b"open at ", entry),
        CutAnswer::Closed => told_of_closed(alloc, code, causal, counts),
    }
}
