//! The top call of the program that merges what several producers send.
#![tactic(auto)]

ghost use Rattle.std.specs.Prelude.{◌≡◌, ◌≢◌, map, string_bytes};
ghost use Rattle.program_reading.specs.Failures.{TellsSink};
ghost use Rattle.program_reading.specs.Writing.{TookAll, TookSome};
ghost use Rattle.merge_program.specs.Headline.{IsDue, GaveUp, TellsUsage};

mod merging;
mod texts;
mod words;

use ac_base::{List, Status};
use ac_outside::Sink;
pub use merging::Merged;
use merging::answer_call;
use program_reading::answer;
use std::alloc::Global;
use std::thread::Threads;
use words::read_words;

// The line of words that call for nothing.
const USAGE: &str = "usage: ac_merge N W\n";

/// Does what the words of a command line ask for: N messages of each of W producers, each on a channel of
/// its own, are merged by a relay into one channel, at whose end they are received, each of these parties
/// on a thread. Producer i sends the numbers `j * W + i` for each j below N. It writes for each i the line
/// `i: N messages, sum S` of what was received of it, and then `total S`, and gives what was received.
///
/// N is 1 to 10,000, and W 1 to 8. Other words have status 1 with the usage line. The status is 8 where the
/// sink failed, which has then taken a front of the text, and 11 where memory was refused, and nothing is
/// written.
pub fn merge_main<K: Sink, R: Threads + Sync>(
    rt: &R,
    alloc: Global,
    words: &[String],
    sink: &mut K,
) -> Merged
    // But for a failed sink and want of memory, the status and the text that the sink has taken are those
    // due for these words and for what was received. That is, of each producer, what it has sent, whole
    // and in order.
    ensures whole { result.status.number ≢ 8 → result.status.number ≢ 11 →
        TookAll (IsDue (map string_bytes words.now) result.received) result.status.number (K.told sink.old) (K.told sink.new) }

    // Where the sink failed, it has taken a front of a text that is due, and not the whole, and what was
    // received is the same.
    ensures part { result.status.number ≡ 8 →
        TookSome (IsDue (map string_bytes words.now) result.received) (K.told sink.old) (K.told sink.new) }

    // Where memory was refused, the words are a call, nothing is written and nothing given.
    ensures memory { result.status.number ≡ 11 →
        GaveUp (map string_bytes words.now) result.received (K.told sink.old) (K.told sink.new) }

    // Status 1 stands for words that are no call.
    ensures usage { TellsUsage (map string_bytes words.now) result.status.number }

    // Status 8 stands for a sink that failed.
    ensures sink { TellsSink (K.told sink.old) (K.told sink.new) result.status.number }
{
    match read_words(words) {
        None => Merged {
            status: answer(sink, Status { number: 1 }, USAGE.as_bytes()),
            received: List::new(alloc),
        },
        Some(call) => answer_call(rt, alloc, call, sink),
    }
}
