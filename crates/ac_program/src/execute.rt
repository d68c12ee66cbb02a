//! What a task makes of a program, and the status that goes with it.

ghost use Rattle.std.specs.Prelude.{◌≡◌, ◌≢◌, ◌*◌, ◌≤◌, All, AllPairs, length, IfOk, IsTrue, None};
ghost use Rattle.std.specs.Str.{IsUtf8};
ghost use Rattle.ac_names.specs.Numbered.{core_names, file_paths};
ghost use Rattle.ac_resolve.specs.Resolution.{resolved};
ghost use Rattle.ac_translation.specs.Translation.{code_of};
ghost use Rattle.code_listing.specs.Listing.{listing};
ghost use Rattle.ac_words.specs.declared.task.Task.TheVariants as t;
ghost use Rattle.ac_words.specs.Words.{IsBounded};
ghost use Rattle.ac_program.specs.Lines.{accepted_line};
ghost use Rattle.program_reading.specs.Source.{all_steps, most_steps};
ghost use Rattle.ac_program.specs.inner.Parts.{GivesDone, GivesText};

use crate::telling::tell;
use ac_base::{Bytes, List, NoMemory, Status};
use ac_compile::compile;
use ac_outside::{Disk, Gate};
use ac_types::Checked;
use ac_words::{Task, Telling};
use code_listing::listing;
use core_runner::run;
use program_run::Ended;
use starting_files::{StartFault, start_files};
use std::alloc::Global;
use std::thread::Threads;

/// What is made of a source: a run, if there is one, a text that is written, and a status.
#[derive(Drop)]
pub struct Done {
    pub run: Option<Ended>,
    pub text: Bytes,
    pub status: Status,
}

// The paths of the files of a program, in order.
fn paths_of(alloc: Global, checked: &Checked) -> Result<List<Bytes>, NoMemory>
    ensures { IfOk result (λ paths. paths ≡ file_paths checked.now.items) }
{
    let mut paths = List::new(alloc);
    for file in 0..checked.files() {
        paths.push(checked.path(file).copy(alloc)?)?;
    }
    Ok(paths)
}

// A run of a program on its files, and what tells of it.
fn reported<D: Disk + Send, G: Gate + Sync, R: Threads + Sync>(
    rt: &R,
    gate: &G,
    alloc: Global,
    checked: &Checked,
    steps: u32,
    telling: Telling,
    disk: &mut D,
) -> Result<Done, StartFault>
    requires bounded { IsBounded (t.Run steps telling) }
    requires few { length (core_names checked.now.items) * steps ≤ 4000000 }
    requires files { length (file_paths checked.now.items) ≤ 16 }
    requires texts { All IsUtf8 (file_paths checked.now.items) }
    requires differ { AllPairs (λ path other. path ≢ other) (file_paths checked.now.items) }
    requires ready { IsTrue (D.told disk.old).is_ready }
    requires none { (D.told disk.old).bound ≡ 0 }
    ensures { GivesDone (t.Run steps telling) checked.now (D.told disk.old) (D.told disk.new) result }
{
    // What holds of a tree and of its code at any time is asked for, for the proof.
    let _ = checked.tree();
    let code = compile(alloc, checked)?;
    let _ = code.instrs();
    let _ = code.ranks();
    let paths = paths_of(alloc, checked)?;
    let start = start_files(alloc, disk, paths.as_slice())?;
    let ended = run(rt, gate, alloc, &code, u64::from(steps), start, disk)?;
    let told = tell(alloc, code.names(), &ended, telling)?;
    Ok(Done {
        run: Some(ended),
        text: told.text,
        status: told.status,
    })
}

// The text of what is not run.
fn told(text: Bytes) -> Done
    ensures { result ≡ record { run = None; text = text; status = record { number = 0 } } }
{
    Done {
        run: None,
        text,
        status: Status { number: 0 },
    }
}

fn accepted(alloc: Global) -> Result<Done, NoMemory>
    ensures { IfOk result (GivesText accepted_line) }
{
    let line = Vec::from_slice(alloc, b"accepted\n")?;
    Ok(told(List::from_vec(line)))
}

fn listed(alloc: Global, checked: &Checked) -> Result<Done, NoMemory>
    ensures { IfOk result (GivesText (listing (code_of (resolved checked.now)))) }
{
    let code = compile(alloc, checked)?;
    let text = listing(alloc, &code)?;
    Ok(told(text))
}

/// What a task makes of a program that nothing refuses. Only a run needs the disk, on which its
/// files are bound and read first.
pub fn make<D: Disk + Send, G: Gate + Sync, R: Threads + Sync>(
    rt: &R,
    gate: &G,
    alloc: Global,
    checked: &Checked,
    task: Task,
    disk: &mut D,
) -> Result<Done, StartFault>
    requires bounded { IsBounded task }
    requires few { all_steps checked.now task ≤ most_steps }
    requires files { length (file_paths checked.now.items) ≤ 16 }
    requires texts { All IsUtf8 (file_paths checked.now.items) }
    requires differ { AllPairs (λ path other. path ≢ other) (file_paths checked.now.items) }
    requires ready { IsTrue (D.told disk.old).is_ready }
    requires none { (D.told disk.old).bound ≡ 0 }
    ensures { GivesDone task checked.now (D.told disk.old) (D.told disk.new) result }
{
    match task {
        Task::Run(steps, telling) => reported(rt, gate, alloc, checked, steps, telling, disk),
        Task::Check => Ok(accepted(alloc)?),
        Task::Code => Ok(listed(alloc, checked)?),
    }
}
