//! What is written of a run.

ghost use Rattle.std.specs.Prelude.{◌≡◌, length, IfOk};
ghost use Rattle.ac_base.specs.Report.{status_of};
ghost use Rattle.program_reading.specs.Lines.{limit_trace_line};
ghost use Rattle.ac_program.specs.inner.Parts.{GivesTelling, GivesTraced, IsTellable};

use crate::summary::summary;
use ac_base::{Bytes, List, NoMemory, Status, report, status};
use ac_words::Telling;
use program_reading::LIMIT_TRACE;
use program_run::Ended;
use std::alloc::Global;
use trace_audit::trace_of;
use trace_text::{WriteFault, write_trace};

/// A text, and the status that goes with it.
#[derive(Drop)]
pub struct Told {
    pub text: Bytes,
    pub status: Status,
}

fn too_long(alloc: Global) -> Result<Told, NoMemory>
    ensures { IfOk result (λ it. it ≡ record { text = limit_trace_line; status = record { number = 10 } }) }
{
    let line = Vec::from_slice(alloc, LIMIT_TRACE.as_bytes())?;
    Ok(Told {
        text: List::from_vec(line),
        status: Status { number: 10 },
    })
}

// The trace of a run, or that it is too long.
fn traced(alloc: Global, ended: &Ended, status: Status) -> Result<Told, NoMemory>
    requires tellable { IsTellable ended.now }
    requires status { status.number ≡ status_of ended.now.cores }
    ensures { IfOk result (GivesTraced ended.now) }
{
    let trace = trace_of(alloc, ended)?;
    match write_trace(alloc, &trace) {
        Ok(text) => Ok(Told { text, status }),
        Err(WriteFault::TooLong) => too_long(alloc),
        Err(WriteFault::NoMemory) => Err(NoMemory),
    }
}

/// What is written of a run whose cores have these names.
pub fn tell(
    alloc: Global,
    names: &List<Bytes>,
    ended: &Ended,
    telling: Telling,
) -> Result<Told, NoMemory>
    requires names { length names.now ≡ length ended.now.cores }
    requires tellable { IsTellable ended.now }
    ensures { IfOk result (GivesTelling telling names.now ended.now) }
{
    let status = status(&ended.cores);
    match telling {
        Telling::Report => Ok(Told {
            text: report(alloc, names, &ended.cores)?,
            status,
        }),
        Telling::Trace => traced(alloc, ended, status),
        Telling::Summary(turns) => Ok(Told {
            text: summary(alloc, turns, status, ended.cores.as_slice())?,
            status,
        }),
    }
}
