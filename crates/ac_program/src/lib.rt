//! The top call: from the words of a command line to a status and what is written.
#![tactic(auto)]

ghost use Rattle.std.specs.Prelude.{◌≡◌, ◌≢◌, ℕ, List, map, string_bytes, is_some, IfSome, IsTrue};
ghost use Rattle.ac_words.specs.declared.task.Task.{Task};
ghost use Rattle.ac_words.specs.declared.task.Task.TheVariants.{Run};
ghost use Rattle.ac_words.specs.declared.task.Telling.TheVariants.{Trace};
ghost use Rattle.ac_words.specs.Words.{Does, Audits, Loads, IsCall};
ghost use Rattle.ac_program.specs.Auditing.{IsJudged};
ghost use Rattle.ac_program.specs.Headline.{IsDue, TookWhole, TookPart, GaveUp, IsOfText, IsDecided, IsLoaded, IsOfCores, ReadsBack};
ghost use Rattle.program_reading.specs.Failures.{TellsLibrary, TellsSink};
ghost use Rattle.ac_program.specs.Headline.{TellsUsage, TellsDisk, HasFewEntries};

mod answering;
mod auditing;
mod execute;
mod loading;
mod outcome;
mod summary;
mod telling;

use ac_outside::{Disk, Gate, Library, Sink};
use ac_words::{Call, read_words};
use answering::{USAGE, do_file, refuse};
use auditing::audit_files;
use loading::load;
pub use outcome::Outcome;
pub use program_run::Ended;
use std::alloc::Global;
use std::thread::Threads;

/// Does what the words of a command line ask for. With the text of a file, which it reads from the
/// library: runs its program with the bound on steps that they give, on its files on the disk, and
/// writes the report or the trace of the run to the sink; or checks it, or compiles it, and writes the
/// line `accepted` or the listing of the code. With two: says whether the trace that the second tells
/// is a run of the program of the first. With a number N: runs the file server, each of whose clients
/// takes N turns, and writes the line `load N status S`, with the status S of the run, and then what
/// cores 1, 2 and 3, the clients, have printed.
///
/// The statuses of a run, each with the report, the trace or the summary, are 4 where a core
/// trapped, else 6 where one was out of steps, else 5 where one is stalled, as it waits and nothing
/// can come any more, and else 0, where every core finished. Which of the messages for a core come
/// first, and which of the requests of files, is not said by a program with channels or files, so
/// its runs may have several statuses: the call's is that of the run that it gives. A check and a
/// listing have 0. An audit has 0 with `yes`, and 13 with `no at K` where entry K, counted from 0,
/// is the first that may not come after those before it, or with `no at end` where all may and the
/// end is not that of the run. The others come with a line, by the first refusal in this order: 1
/// with the usage line where the words are not `run`, `trace`, `check` or `code` and one FILE,
/// `audit`, FILE and TRACE, or `load` and a number from 1 to 500, and, for `run`, `trace` and `load`
/// alone, at most one bound from 1 to 2,000,000; 7 with `library fault` where a call of the library
/// failed; 10 with `limit: source` where the text is longer than 1,048,576 bytes; 2 with `bad byte
/// at B`, `number too large at B`, `open comment at B` or `open text at B` for the first lexical
/// fault, and with `unexpected token at B` for the first token with which no program goes on; 10
/// with `limit: nesting at B` for the first token that is more than 256 deep; 3 with `rule Cn at B`
/// for the least broken rule, by node and then by number; in an audit, with the text of the trace, 7
/// as above, 10 with `limit: trace` where it is longer than 268,435,456 bytes, and 14 with `trace
/// fault at line L` for the first line, counted from 1, that is not as it should be; 10 with `limit:
/// steps` where the cores together may go more than 4,000,000 steps; before a run, file by file, 9
/// with `disk fault` where a call of the disk failed, and 10 with `limit: file K` where file K is
/// longer than 1,048,576 bytes; and after it 10 with `limit: trace` where its trace would be longer
/// than 268,435,456 bytes. B is a place in bytes from 0. The status is 8 where the sink failed,
/// which has then taken a front of the text, and 11 where memory was refused, and nothing is
/// written.
///
/// A run reads and writes the files of its program: where the disk tells them, they are read as they
/// are, and afterwards hold what the run's history has written. What fails there is an answer to the
/// program.
///
/// The cores of a run and the worker of their files go on at the same time, on threads of `rt`, and
/// pass `gate` with their numbers and how many entries they have made. Which outcome a race has is not
/// said: whatever the schedule is, the run is one of the program, with fewer than 2^45 entries and no
/// stamp above their number.
pub fn ac_main<L: Library, K: Sink, D: Disk + Send, G: Gate + Sync, R: Threads + Sync>(
    rt: &R,
    alloc: Global,
    words: &[String],
    library: &mut L,
    sink: &mut K,
    disk: &mut D,
    gate: &G,
) -> Outcome
    // The disk has bound no file, and may be called.
    requires ready { IsTrue (D.told disk.old).is_ready }
    requires none { (D.told disk.old).bound ≡ 0 }

    // But for a failed sink and want of memory, the status, the run and the text that the sink has
    // taken are those due for these words and what the library and the disk did.
    ensures whole { result.status.number ≢ 8 → result.status.number ≢ 11 →
        TookWhole (IsDue (map string_bytes words.now) (L.told library.old) (L.told library.new) (D.told disk.old) (D.told disk.new))
        result.status.number result.run (K.told sink.old) (K.told sink.new) }

    // Where the sink failed, it has taken a front of a text that is due, and not the whole.
    ensures part { result.status.number ≡ 8 →
        TookPart (IsDue (map string_bytes words.now) (L.told library.old) (L.told library.new) (D.told disk.old) (D.told disk.new))
        result.run (K.told sink.old) (K.told sink.new) }

    // Where memory was refused, the words are a call, just its files were opened, none for a load, and
    // the second of an audit only where nothing refuses a check of the first; nothing is written and no
    // run is kept. The files of a program are left as they were, unless a run had begun: of the disk of
    // such a run no more is said than that no other file was to be bound.
    ensures memory { result.status.number ≡ 11 →
        GaveUp (map string_bytes words.now) (L.told library.old) (L.told library.new) (D.told disk.old) (D.told disk.new)
        result.run (K.told sink.old) (K.told sink.new) }

    // Status 1 stands for words that are no call.
    ensures usage { TellsUsage (map string_bytes words.now) result.status.number }

    // Status 7 stands for a library that failed.
    ensures library { TellsLibrary (L.told library.old) (L.told library.new) result.status.number }

    // Status 9 stands for a disk that failed before a run.
    ensures disk { TellsDisk (D.told disk.old) (D.told disk.new) result.status.number result.run }

    // Status 8 stands for a sink that failed.
    ensures sink { TellsSink (K.told sink.old) (K.told sink.new) result.status.number }

    // Any other status is one that the text of the file calls for with the task of the words and the
    // files that the disk holds, and just the file was opened. It calls for no other, but for those of
    // other runs of a program with channels or files.
    ensures decided { IsOfText result.status.number → (task : Task) (file : List ℕ) → IsCall (map string_bytes words.now) (Does task file) →
        IsDecided task file (L.told library.old) (L.told library.new) (D.told disk.old) result.status.number }

    // In an audit the two texts call for it, and for no other, and no more than the two files were
    // opened, in this order, and the second only where nothing refuses a check of the first.
    ensures judged { IsOfText result.status.number → (file trace : List ℕ) → IsCall (map string_bytes words.now) (Audits file trace) →
        IsJudged file trace (L.told library.old) (L.told library.new) result.status.number }

    // In a load the text of the file server calls for it, and the library is left alone.
    ensures loaded { IsOfText result.status.number → (turns steps : ℕ) → IsCall (map string_bytes words.now) (Loads turns steps) →
        IsLoaded turns steps (L.told library.old) (L.told library.new) (D.told disk.old) result.status.number }

    // The trace that is written is read back as that of the run that is kept, and is a run of the
    // program, where the disk tells its files.
    ensures read_back { IsOfCores result.status.number → IsTrue (is_some (D.told disk.old).held) → (steps : ℕ) (file : List ℕ) →
        IsCall (map string_bytes words.now) (Does (Run steps Trace) file) →
        ReadsBack ((L.told library.old).text_at file) (Run steps Trace) result.run (K.told sink.old) (K.told sink.new) }

    // A run has few entries, and no stamp is above their number.
    ensures few { IfSome result.run HasFewEntries }
{
    match read_words(words) {
        None => refuse(sink, 1, USAGE),
        Some(Call::Does { task, file }) => do_file(
            rt, gate, alloc, file, task, library, sink, disk,
        ),
        Some(Call::Audits { file, trace }) => audit_files(alloc, file, trace, library, sink),
        Some(Call::Loads { turns, steps }) => load(rt, gate, alloc, turns, steps, sink, disk),
    }
}
