//! The top call: a trace is run again, and leaves the report and the files of the run that it tells.
#![tactic(auto)]

ghost use Rattle.std.specs.Prelude.{◌≡◌, ◌≢◌, ℕ, List, map, string_bytes, IsTrue};
ghost use Rattle.ac_replay.specs.Due.{IsDue};
ghost use Rattle.ac_replay.specs.Headline.{GaveUp, IsOfCores, IsRunAgain, IsToRunAgain, TellsDisk, TellsUsage};
ghost use Rattle.ac_replay.specs.Words.{IsCall};
ghost use Rattle.program_reading.specs.Failures.{TellsLibrary, TellsSink};
ghost use Rattle.program_reading.specs.Writing.{TookAll, TookSome};

mod answering;
mod doing;
mod law;
mod lines;
mod replaying;
mod running;
mod words;

use ac_base::Status;
use ac_outside::{Disk, Library, Sink};
use answering::replay_files;
pub use law::a_run_is_repeated;
use program_reading::answer;
use std::alloc::Global;
use words::read_pair;

// The line of words that call for nothing.
const USAGE: &str = "usage: ac_again FILE TRACE\n";

/// Runs a trace again. The words are FILE, which has the program, and TRACE, which has the text of a
/// trace of it, as `ac trace` writes one. No thread is started: each core of the compiled program
/// follows its entries in the trace, and the writes that were done are done again, each with as many
/// bytes as its answer tells.
///
/// Where the trace is a run of the program and the files of the program are those from which it began,
/// the report of that run is written, with its status: 4 where a core trapped, else 6 where one was out
/// of steps, else 5 where one is stalled, and else 0. The files then hold what they held after that run.
///
/// The other statuses come with a line, by the first refusal in this order: 1 with the usage line where
/// the words are not two operands; 7, 10, 2 and 3 as for a check of FILE by `ac check`; with the text of
/// TRACE, 7 with `library fault` where a call of the library failed, 10 with `limit: trace` where it is
/// longer than 268,435,456 bytes, and 14 with `trace fault at line L` for its first wrong line; 10 with
/// `limit: steps` where the cores together may go more than 4,000,000 steps; 13 with `no at K` for the
/// first entry that may not come after those before it, or with `no at end` where the end is not that of
/// the run; file by file, 9 with `disk fault` where a call of the disk failed, and 10 with `limit: file
/// K` where file K is longer than 1,048,576 bytes; 19 with `file K differs` for the first file that does
/// not hold what the trace tells; and 9 with `disk fault` where a write failed, after which no other is
/// tried. The status is 8 where the sink failed, which has then taken a front of the text, and 11 where
/// memory was refused: then nothing is written, to the sink or to a file.
pub fn replay_main<L: Library, K: Sink, D: Disk>(
    alloc: Global,
    words: &[String],
    library: &mut L,
    sink: &mut K,
    disk: &mut D,
) -> Status
    // The disk has bound no file, and may be called.
    requires ready { IsTrue (D.told disk.old).is_ready }
    requires none { (D.told disk.old).bound ≡ 0 }

    // But for a failed sink and want of memory, the status and the text that the sink has taken are those
    // due for these words and what the library and the disk did.
    ensures whole { result.number ≢ 8 → result.number ≢ 11 →
        TookAll (IsDue (map string_bytes words.now) (L.told library.old) (L.told library.new) (D.told disk.old) (D.told disk.new))
        result.number (K.told sink.old) (K.told sink.new) }

    // Where the sink failed, it has taken a front of a text that is due, and not the whole.
    ensures part { result.number ≡ 8 →
        TookSome (IsDue (map string_bytes words.now) (L.told library.old) (L.told library.new) (D.told disk.old) (D.told disk.new))
        (K.told sink.old) (K.told sink.new) }

    // Where memory was refused, the words are a call, just its files were opened, and the second only
    // where nothing refuses a check of the first; no file of the program was written, and nothing else.
    ensures memory { result.number ≡ 11 →
        GaveUp (map string_bytes words.now) (L.told library.old) (L.told library.new) (D.told disk.old) (D.told disk.new)
        (K.told sink.old) (K.told sink.new) }

    // Status 1 stands for words that are no call.
    ensures usage { TellsUsage (map string_bytes words.now) result.number }

    // Status 7 stands for a library that failed.
    ensures library { TellsLibrary (L.told library.old) (L.told library.new) result.number }

    // Status 9 stands for a disk that failed.
    ensures disk { TellsDisk (D.told disk.old) (D.told disk.new) result.number }

    // Status 8 stands for a sink that failed.
    ensures sink { TellsSink (K.told sink.old) (K.told sink.new) result.number }

    // A report is written only of a trace that is a run of the program, from the files as they are; it is
    // the report of that run, and its history has made the files what they are then.
    ensures again { IsOfCores result.number → (file trace : List ℕ) → IsCall (map string_bytes words.now) file trace →
        IsRunAgain file trace (L.told library.old) (D.told disk.old) (D.told disk.new) result.number (K.told sink.old) (K.told sink.new) }

    // And a report is written of each such trace, where nothing fails.
    ensures each { (file trace : List ℕ) → IsCall (map string_bytes words.now) file trace →
        IsToRunAgain file trace (L.told library.old) (D.told disk.old) →
        result.number ≢ 7 → result.number ≢ 8 → result.number ≢ 9 → result.number ≢ 11 → IsOfCores result.number }
{
    match read_pair(words) {
        None => answer(sink, Status { number: 1 }, USAGE.as_bytes()),
        Some(pair) => replay_files(alloc, pair.file, pair.trace, library, sink, disk),
    }
}
