//! From a source text to the program that a task is done with.

ghost use Rattle.std.specs.Prelude.{◌≤◌, length};
ghost use Rattle.program_reading.specs.Source.{GivesReady};

use crate::front::accept;
use crate::refusal::{Refusal, Stop};
use ac_types::Checked;
use ac_words::Task;
use std::alloc::Global;

/// How many steps all cores together may go.
pub const MOST_STEPS: u64 = 4_000_000;

/// The program of a source of at most 1,048,576 bytes, where nothing refuses it for the task.
pub fn build(alloc: Global, source: &[u8], task: Task) -> Result<Checked, Stop>
    requires { length source.now ≤ 1048576 }
    ensures { GivesReady source.now task result }
{
    let checked = accept(alloc, source)?;
    if u64::from(checked.cores()) * u64::from(task.steps()) > MOST_STEPS {
        return Err(Stop::Refused(Refusal::TooManySteps));
    }
    Ok(checked)
}
