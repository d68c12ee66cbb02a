//! The load of the file server.

ghost use Rattle.std.specs.Prelude.{◌≡◌, ◌≢◌, ◌≤◌, [], IsTrue, None, Some};
ghost use Rattle.ac_file_server.specs.ServerText.{load_text};
ghost use Rattle.ac_outside.specs.Told.{GrewBy};
ghost use Rattle.ac_words.specs.Words.{IsBounded};
ghost use Rattle.program_reading.specs.Failures.{TellsSink};
ghost use Rattle.ac_program.specs.Headline.{IsLeft, TookWhole, TookPart, TellsDisk, summed};
ghost use Rattle.ac_program.specs.Making.{IsDueOf};

use crate::answering::{do_source, no_memory};
use crate::outcome::Outcome;
use ac_file_server::load_text;
use ac_outside::{Disk, Gate, Sink};
use ac_words::{Task, Telling};
use std::alloc::Global;
use std::thread::Threads;

/// Runs the text of the file server, whose clients take so many turns, and writes the summary of the
/// run.
pub fn load<K: Sink, D: Disk + Send, G: Gate + Sync, R: Threads + Sync>(
    rt: &R,
    gate: &G,
    alloc: Global,
    turns: u32,
    steps: u32,
    sink: &mut K,
    disk: &mut D,
) -> Outcome
    requires some { 1 ≤ turns }
    requires few { turns ≤ 500 }
    requires bounded { IsBounded (summed turns steps) }
    requires ready { IsTrue (D.told disk.old).is_ready }
    requires none { (D.told disk.old).bound ≡ 0 }
    ensures whole { result.status.number ≢ 8 → result.status.number ≢ 11 →
        TookWhole (IsDueOf (load_text turns) (summed turns steps) (D.told disk.old) (D.told disk.new))
        result.status.number result.run (K.told sink.old) (K.told sink.new) }
    ensures part { result.status.number ≡ 8 →
        TookPart (IsDueOf (load_text turns) (summed turns steps) (D.told disk.old) (D.told disk.new))
        result.run (K.told sink.old) (K.told sink.new) }
    ensures left { result.status.number ≡ 11 →
        IsLeft (Some (load_text turns)) (summed turns steps) (D.told disk.old) (D.told disk.new) }
    ensures memory { result.status.number ≡ 11 → GrewBy (K.told sink.old).held (K.told sink.new).held [] }
    ensures no_run { result.status.number ≡ 11 → result.run ≡ None }
    ensures disk { TellsDisk (D.told disk.old) (D.told disk.new) result.status.number result.run }
    ensures sink { TellsSink (K.told sink.old) (K.told sink.new) result.status.number }
    ensures other { (result.status.number ≢ 1) × (result.status.number ≢ 7) }
{
    match load_text(alloc, turns) {
        Err(_) => no_memory(),
        Ok(text) => {
            let task = Task::Run(steps, Telling::Summary(turns));
            do_source(rt, gate, alloc, text.as_slice(), task, sink, disk)
        }
    }
}
