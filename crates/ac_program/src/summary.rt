//! The summary of a load.

ghost use Rattle.std.specs.Prelude.{◌≡◌, ◌++◌, IfOk, OnOk};
ghost use Rattle.ac_program.specs.Summary.{clients_of, outputs_of, summary_line, summary_of};

use ac_base::{Bytes, List, MachineEnd, NoMemory, Status};
use std::alloc::Global;

// Adds what cores have printed, as it is.
fn add_outputs(text: &mut Vec<u8>, ends: &[MachineEnd]) -> Result<(), NoMemory>
    ensures { OnOk result (text.new.items ≡ text.old.items ++ outputs_of ends.now) }
{
    for end in ends {
        text.extend_from_slice(end.core.output.as_slice())?;
    }
    Ok(())
}

// Cores 1, 2 and 3 of these, counted from 0.
fn clients_of(ends: &[MachineEnd]) -> &[MachineEnd]
    ensures { result.now ≡ clients_of ends.now }
{
    let first = ends.len().min(1);
    let last = ends.len().min(4);
    &ends[first..last]
}

fn summary_line(alloc: Global, turns: u32, status: Status) -> Result<Vec<u8>, NoMemory>
    ensures { IfOk result (λ line. line.items ≡ summary_line turns status.number) }
{
    let turns = turns.to_string(alloc)?;
    let number = status.number.to_string(alloc)?;
    let mut line = Vec::from_slice(alloc, b"load ")?;
    line.extend_from_slice(turns.as_bytes())?;
    line.extend_from_slice(b" status ")?;
    line.extend_from_slice(number.as_bytes())?;
    line.push(b'\n')?;
    Ok(line)
}

/// The summary of a load of so many turns whose run has this status and these ends.
pub fn summary(
    alloc: Global,
    turns: u32,
    status: Status,
    ends: &[MachineEnd],
) -> Result<Bytes, NoMemory>
    ensures { IfOk result (λ text. text ≡ summary_of turns status.number ends.now) }
{
    let mut text = summary_line(alloc, turns, status)?;
    add_outputs(&mut text, clients_of(ends))?;
    Ok(List::from_vec(text))
}
