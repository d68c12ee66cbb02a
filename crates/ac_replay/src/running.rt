//! A trace, judged, and where it is a run, run again.

ghost use Rattle.std.specs.Prelude.{◌≡◌, IfOk, IsTrue, OnErr};
ghost use Rattle.ac_commands.specs.declared.program.Resolved.{Resolved};
ghost use Rattle.ac_compile.specs.Compiled.{IsCodeOf};
ghost use Rattle.ac_names.specs.Numbered.{file_paths};
ghost use Rattle.ac_resolve.specs.Resolution.{resolved};
ghost use Rattle.ac_translation.specs.Same.{IsSame};
ghost use Rattle.ac_translation.specs.Translation.{code_of};
ghost use Rattle.ac_tree.specs.declared.item.Program.{Program};
ghost use Rattle.ac_replay.specs.Due.{IsDueOfFiles, IsDueOfRun};
ghost use Rattle.ac_replay.specs.Headline.{AreUnwritten};
ghost use Rattle.ac_replay.specs.inner.Doing.{HasPaths, IsRedo, TellsHalt};
ghost use Rattle.trace_audit.specs.Judged.{Judges};
ghost use Rattle.trace_audit.specs.RunTrace.{IsRunTrace};

use crate::doing::{Halt, do_again};
use crate::lines::{Said, differs_line, line_of, say};
use crate::replaying::ends_of;
use ac_base::{Bytes, List, NoMemory, Status, report, status};
use ac_compile::compile;
use ac_outside::Disk;
use ac_types::Checked;
use program_reading::place_line;
use stack_code::Code;
use starting_files::StartFault;
use std::alloc::Global;
use trace_audit::{Verdict, audit};
use trace_text::Trace;
use trace_writes::{FileWrite, writes_of};

/// What is done again of a trace that is a run: its writes, and the report of its cores with their
/// status.
#[derive(Drop)]
pub struct Redo {
    pub status: Status,
    pub report: Bytes,
    pub writes: List<FileWrite>,
}

// The paths of the files of a program, in order.
fn paths_of(alloc: Global, checked: &Checked) -> Result<List<Bytes>, NoMemory>
    ensures { IfOk result (λ paths. paths ≡ file_paths checked.now.items) }
{
    let mut paths = List::new(alloc);
    for file in 0..checked.files() {
        paths.push(checked.path(file).copy(alloc)?)?;
    }
    Ok(paths)
}

// The cores of a code run again under the trace, and what they tell of it.
//
// Condition: the code is that of a program of which the trace is a run.
fn redo_of(alloc: Global, code: &Code, trace: &Trace) -> Result<Redo, NoMemory>
    requires { (program : Resolved) × (code.now ≡ code_of program) × IsSame code.now program × IsRunTrace program trace.now }
    ensures { IfOk result (λ redo. (program : Program) → IsCodeOf program code.now → IsRedo program trace.now redo) }
{
    let ends = ends_of(alloc, code, trace)?;
    let writes = writes_of(
        alloc,
        code.capacities().as_slice(),
        trace.entries.as_slice(),
    )?;
    Ok(Redo {
        status: status(&ends),
        report: report(alloc, code.names(), &ends)?,
        writes,
    })
}

// What is said where not all was done again; the line of a failed disk is made before.
fn said_of(alloc: Global, halt: Halt, fault: Bytes) -> Result<Said, NoMemory>
    ensures { TellsHalt halt fault result }
{
    match halt {
        Halt::Torn => Ok(say(9, fault)),
        Halt::Differs { file } => Ok(say(19, differs_line(alloc, file)?)),
        Halt::Stopped(StartFault::Failed) => Ok(say(9, fault)),
        Halt::Stopped(StartFault::NoMemory) => Err(NoMemory),
        Halt::Stopped(StartFault::TooLong { file }) => Ok(say(
            10,
            place_line(alloc, b"limit: file ", u64::from(file))?,
        )),
    }
}

// Runs a trace again that is a run of the program. All that takes memory is made before a file is
// written.
fn run_again<D: Disk>(
    alloc: Global,
    checked: &Checked,
    code: &Code,
    trace: &Trace,
    disk: &mut D,
) -> Result<Said, NoMemory>
    requires code { IsCodeOf checked.now code.now }
    requires same { IsSame code.now (resolved checked.now) }
    requires run { IsRunTrace (resolved checked.now) trace.now }
    requires paths { HasPaths checked.now }
    requires ready { IsTrue (D.told disk.old).is_ready }
    requires none { (D.told disk.old).bound ≡ 0 }
    ensures due { IfOk result (λ it. IsDueOfFiles checked.now trace.now (D.told disk.old) (D.told disk.new) it.status.number it.text) }
    ensures left { OnErr result (AreUnwritten (file_paths checked.now.items) (D.told disk.old) (D.told disk.new)) }
{
    // What holds of a tree and of its code at any time is asked for, for the proof.
    let _ = checked.tree();
    let _ = code.instrs();
    let _ = code.ranks();
    let redo = redo_of(alloc, code, trace)?;
    let fault = line_of(alloc, "disk fault\n")?;
    let paths = paths_of(alloc, checked)?;
    match do_again(
        alloc,
        paths.as_slice(),
        trace.start.as_slice(),
        redo.writes.as_slice(),
        disk,
    ) {
        Ok(()) => Ok(Said {
            status: redo.status,
            text: redo.report,
        }),
        Err(halt) => said_of(alloc, halt, fault),
    }
}

// The verdict on a trace.
fn judge(alloc: Global, checked: &Checked, code: &Code, trace: &Trace) -> Result<Verdict, NoMemory>
    requires code { IsCodeOf checked.now code.now }
    requires same { IsSame code.now (resolved checked.now) }
    ensures { IfOk result (Judges (resolved checked.now) trace.now) }
{
    audit(alloc, code, u64::from(checked.files()), trace)
}

/// Judges a trace of a program, and where it is a run, runs it again.
pub fn judge_and_run<D: Disk>(
    alloc: Global,
    checked: &Checked,
    trace: &Trace,
    disk: &mut D,
) -> Result<Said, NoMemory>
    requires paths { HasPaths checked.now }
    requires ready { IsTrue (D.told disk.old).is_ready }
    requires none { (D.told disk.old).bound ≡ 0 }
    ensures due { IfOk result (λ it. IsDueOfRun checked.now trace.now (D.told disk.old) (D.told disk.new) it.status.number it.text) }
    ensures left { OnErr result (AreUnwritten (file_paths checked.now.items) (D.told disk.old) (D.told disk.new)) }
{
    let code = compile(alloc, checked)?;
    match judge(alloc, checked, &code, trace) {
        Err(NoMemory) => Err(NoMemory),
        Ok(Verdict::Yes) => run_again(alloc, checked, &code, trace, disk),
        Ok(Verdict::NoAt { entry }) => Ok(say(13, place_line(alloc, b"no at ", entry)?)),
        Ok(Verdict::NoAtEnd) => Ok(say(13, line_of(alloc, "no at end\n")?)),
    }
}
