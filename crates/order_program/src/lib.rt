//! The top call of the program that tells how the entries of a trace stand to one another.
#![tactic(auto)]

ghost use Rattle.std.specs.Prelude.{◌≡◌, ◌≢◌, map, string_bytes};
ghost use Rattle.program_reading.specs.Failures.{TellsLibrary, TellsSink};
ghost use Rattle.program_reading.specs.Writing.{TookAll, TookSome};
ghost use Rattle.order_program.specs.Headline.{IsDue, GaveUp, TellsUsage};

mod answering;
mod asking;
mod entries;
mod states;
mod told;

use ac_base::Status;
use ac_outside::{Library, Sink};
use answering::answer_files;
use order_words::read_words;
use program_reading::answer;
use std::alloc::Global;

// The line of words that call for nothing.
const USAGE: &str = "usage: ac_order order FILE TRACE I J, ac_order cut FILE TRACE COUNTS\n";

/// Does what the words of a command line ask for, with the program of FILE and the run of it that TRACE
/// tells, which it reads from the library: says how entry I of the run, counted from 0, stands to entry
/// J, `same`, `before`, `after` or `concurrent`; or at the cut that has so many entries of each core, and
/// then of the worker, as COUNTS say, writes for each core the line `NAME: WORD after N steps`, which
/// tells how it ends under its entries of the cut.
///
/// These have status 0. The others come with a line, by the first refusal in this order: 1 with the usage
/// line where the words are not of this form; the refusals of an audit of the two files, with their
/// statuses, 7, 10, 2, 3, 14 and 13; and then of two entries 16 with `no entry N` for the first number
/// that is not below the count of entries, and of a cut 18 with `no such cut` where the counts are not one
/// for each core and the worker, of no more entries than it has, and 17 with `open at E` where an entry of
/// the cut answers one that is not in it, of which E is the first. The status is 8 where the sink failed,
/// which has then taken a front of the text, and 11 where memory was refused, and nothing is written.
pub fn order_main<L: Library, K: Sink>(
    alloc: Global,
    words: &[String],
    library: &mut L,
    sink: &mut K,
) -> Status
    // But for a failed sink and want of memory, the status and the text that the sink has taken are those
    // due for these words and what the library did.
    ensures whole { result.number ≢ 8 → result.number ≢ 11 →
        TookAll (IsDue (map string_bytes words.now) (L.told library.old) (L.told library.new)) result.number
        (K.told sink.old) (K.told sink.new) }

    // Where the sink failed, it has taken a front of a text that is due, and not the whole.
    ensures part { result.number ≡ 8 →
        TookSome (IsDue (map string_bytes words.now) (L.told library.old) (L.told library.new)) (K.told sink.old) (K.told sink.new) }

    // Where memory was refused, the words are a call, just its files were opened, the second only where
    // nothing refuses a check of the first, and nothing is written.
    ensures memory { result.number ≡ 11 →
        GaveUp (map string_bytes words.now) (L.told library.old) (L.told library.new) (K.told sink.old) (K.told sink.new) }

    // Status 1 stands for words that are no call.
    ensures usage { TellsUsage (map string_bytes words.now) result.number }

    // Status 7 stands for a library that failed.
    ensures library { TellsLibrary (L.told library.old) (L.told library.new) result.number }

    // Status 8 stands for a sink that failed.
    ensures sink { TellsSink (K.told sink.old) (K.told sink.new) result.number }
{
    match read_words(words) {
        None => answer(sink, Status { number: 1 }, USAGE.as_bytes()),
        Some(call) => answer_files(alloc, call, library, sink),
    }
}
