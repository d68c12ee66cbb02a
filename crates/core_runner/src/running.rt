//! The run of the cores of a code and of the worker of their files.

ghost use Rattle.std.specs.Prelude.{◌≡◌, ◌*◌, ◌≤◌, ◌<◌, ◌^◌, [], ◌∷◌, ◌++◌, suc, length, IfOk, IfSome, IsTrue};
ghost use Rattle.std.specs.Prelude.{vec_len, vec_capacity};
ghost use Rattle.std.specs.List.{AllByRecursion};
ghost use Rattle.ac_commands.specs.declared.program.Resolved.{Resolved};
ghost use Rattle.ac_translation.specs.Translation.{code_of};
ghost use Rattle.ac_translation.specs.Same.{IsSame};
ghost use Rattle.code_safety.specs.KeptEnds.{KeepsEnds};
ghost use Rattle.file_ops.specs.Agreement.{DiskGoesOn};
ghost use Rattle.file_ops.specs.Asked.{texts};
ghost use Rattle.file_worker.specs.Workers.{loan_of, told_of};
ghost use Rattle.program_run.specs.DiskLeft.{LeavesDisk};
ghost use Rattle.program_run.specs.Run.{IsRunOf};
ghost use Rattle.run_ends.specs.Unused.{AreUnused, seats_of};
ghost use Rattle.run_parties.specs.Parties.{HaveEnds, MayGoOn};
ghost use Rattle.run_parties.specs.declared.run_party.RunParty.TheVariants as party;
ghost use Rattle.settled_rounds.specs.Linked.{AreWays, OnLinks};
ghost use Rattle.core_runner.specs.Places.{HavePlaces};
ghost use Rattle.core_runner.specs.inner.Runs.{HaveRun};

use crate::ended::ended_of;
use crate::parties::{cores_of, ways_of};
use ac_base::{Bytes, List, NoMemory};
use ac_outside::{Disk, Gate};
use completion_word::Words;
use file_worker::Worker;
use program_run::Ended;
use run_ends::{AllSeats, Dealt, deal, make_words};
use run_parties::RunParty;
use settled_rounds::Way;
use settled_run::{settled_ends_leave_the_disk, settled_ends_make_a_run};
use stack_code::Code;
use std::alloc::Global;
use std::thread::Threads;

// Lets these cores and this worker run until each is done, and gives what they have made, and the disk
// back.
fn run_all<'a, 'd, D: Disk + Send, G: Gate + Sync, R: Threads + Sync>(
    rt: &R,
    gate: &G,
    alloc: Global,
    steps: u64,
    files: List<Bytes>,
    ways: &[Way],
    cores: Vec<RunParty<'a, 'd, D>>,
    worker: Worker<'a, 'd, D>,
) -> (Result<Ended, NoMemory>, &'d mut D)
    requires room { vec_len cores < vec_capacity cores }
    requires few { length ways.now < 2 ^ 32 }
    requires parties { suc (length cores.items) < 2 ^ 32 }
    requires ways { AreWays (suc (length cores.items)) ways.now }
    requires paired { OnLinks HaveEnds ways.now (cores.items ++ party.Disk worker ∷ []) }
    requires ready { AllByRecursion (MayGoOn D.told) (cores.items ++ party.Disk worker ∷ []) }
    ensures run { IfOk result.0 (λ ended. HaveRun D.told ways.now steps files (cores.entry.items ++ party.Disk worker.entry ∷ [])
        (D.told result.1.now) ended) }
    ensures disk { DiskGoesOn (told_of D.told worker.entry) (D.told result.1.now) }
    ensures loan { result.1.ghost_name ≡ loan_of worker.entry }
{
    let mut parties = cores;
    parties.push_reserved(RunParty::Disk(worker));
    let ran = settled_rounds::run(rt, gate, ways, parties.as_mut_slice());
    let RunParty::Disk(worker) = parties.take_last() else {
        unreachable!()
    };
    // What holds of its ends at any time is asked for, for the proof.
    let _cores = worker.cores();
    let (journal, disk) = worker.into_parts();
    let ended = match ran {
        Ok(()) => ended_of(alloc, steps, files, parties, journal),
        Err(no_memory) => Err(no_memory),
    };
    (ended, disk)
}

// Runs a code over these words.
fn run_over<'a, D: Disk + Send, G: Gate + Sync, R: Threads + Sync>(
    rt: &R,
    gate: &G,
    alloc: Global,
    code: &'a Code,
    steps: u64,
    start: List<Bytes>,
    words: &'a [Words],
    seats: AllSeats,
    disk: &mut D,
) -> Result<Ended, NoMemory>
    requires keeps { KeepsEnds code.now }
    requires few { length code.now.entries * steps ≤ 4000000 }
    requires places { HavePlaces code.now }
    requires unused { AreUnused code.now.capacities words.now (seats_of seats) }
    requires channels { length seats.channels.items ≡ length code.now.ends }
    requires ready { IsTrue (D.told disk.old).is_ready }
    requires held { IfSome (D.told disk.old).held (λ held. texts held ≡ start) }
    ensures run { IfOk result (λ ended. (program : Resolved) → code.now ≡ code_of program → IsSame code.now program
        → IsRunOf program steps start ended) }
    ensures disk { IfOk result (λ ended. (program : Resolved) → code.now ≡ code_of program → IsSame code.now program
        → LeavesDisk program start ended.journals (D.told disk.old) (D.told disk.new)) }
    ensures bound { (D.told disk.new).bound ≡ (D.told disk.old).bound }
    ensures ready { (D.told disk.new).is_ready ≡ (D.told disk.old).is_ready }
    ensures binds { (D.told disk.new).binds ≡ (D.told disk.old).binds }
{
    // What holds of a code at any time, and of settled ends, is asked for, for the proof.
    let _instrs = code.instrs();
    settled_ends_make_a_run();
    settled_ends_leave_the_disk();
    let number = code.entries().len() as u32;
    let Dealt {
        ports,
        asks,
        replies,
    } = deal(
        alloc,
        code.ends(),
        code.capacities().as_slice(),
        words,
        seats,
    )?;
    let ways = ways_of(alloc, code.ends(), number)?;
    let cores = cores_of(alloc, code, steps, ports)?;
    let first = code.ends().len() as u32;
    let worker = Worker::new(alloc, disk, first, asks, replies);
    let (ended, _disk) = run_all(
        rt,
        gate,
        alloc,
        steps,
        start,
        ways.as_slice(),
        cores,
        worker,
    );
    ended
}

/// Runs the cores of a code, each with this bound on its steps, and the worker of their files, until each
/// core has ended, or is idle and nothing on its links is for it, and no request is left undone. They go on
/// at the same time, each on a thread, where several have something to do. Each has ends of its own, which
/// are settled with those of the others in between. Whatever the schedule is, the run is one of the program.
///
/// A party passes the gate with its number, the worker's being the number of cores, and with the count of
/// its entries, as its part of a round begins and after each call that made an entry.
///
/// `start` is what the bound files of the disk hold. The disk is called once for each request of a bound
/// file that is done, and what it holds after the run is what the history of the run has made of `start`.
///
/// Conditions: each core uses a channel only at its own end, the link of its requests has sixteen places,
/// as in the code of each program, all cores together may take at most 4,000,000 steps, the disk may be
/// called, as many files are bound as `start` has, and where the disk tells its files, they are these.
pub fn run<D: Disk + Send, G: Gate + Sync, R: Threads + Sync>(
    rt: &R,
    gate: &G,
    alloc: Global,
    code: &Code,
    steps: u64,
    start: List<Bytes>,
    disk: &mut D,
) -> Result<Ended, NoMemory>
    requires keeps { KeepsEnds code.now }
    requires places { HavePlaces code.now }
    requires few { length code.now.entries * steps ≤ 4000000 }
    requires ready { IsTrue (D.told disk.old).is_ready }
    requires bound { (D.told disk.old).bound ≡ length start }
    requires held { IfSome (D.told disk.old).held (λ held. texts held ≡ start) }
    ensures run { IfOk result (λ ended. (program : Resolved) → code.now ≡ code_of program → IsSame code.now program
        → IsRunOf program steps start ended) }
    ensures disk { IfOk result (λ ended. (program : Resolved) → code.now ≡ code_of program → IsSame code.now program
        → LeavesDisk program start ended.journals (D.told disk.old) (D.told disk.new)) }
    ensures bound { (D.told disk.new).bound ≡ (D.told disk.old).bound }
    ensures ready { (D.told disk.new).is_ready ≡ (D.told disk.old).is_ready }
    ensures binds { (D.told disk.new).binds ≡ (D.told disk.old).binds }
{
    // What holds of a code at any time is asked for, for the proof.
    let _instrs = code.instrs();
    let channels = code.ends().len() as u32;
    let (words, seats) = make_words(alloc, code.capacities().as_slice(), channels)?;
    run_over(
        rt,
        gate,
        alloc,
        code,
        steps,
        start,
        words.as_slice(),
        seats,
        disk,
    )
}
