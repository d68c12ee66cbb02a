//! A merge that was called for, and what is written of it.

ghost use Rattle.std.specs.Prelude.{IfOk};
ghost use Rattle.merge_program.specs.Words.{MayMerge};
ghost use Rattle.merge_program.specs.inner.Answering.{IsMade, IsAnswered};

use crate::texts::merge_text;
use crate::words::Call;
use ac_base::{Bytes, List, NoMemory, Status};
use ac_choice::Tagged;
use ac_outside::Sink;
use merge_run::merge;
use program_reading::answer;
use std::alloc::Global;
use std::thread::Threads;

// The status where memory was refused.
const NO_MEMORY: u8 = 11;

/// What a merge came to: its status, and what was received.
#[derive(Debug, Drop)]
pub struct Merged {
    pub status: Status,
    pub received: List<Tagged>,
}

// What is received, and what is written of it.
#[derive(Drop)]
struct Made {
    received: List<Tagged>,
    text: Bytes,
}

fn make<R: Threads + Sync>(rt: &R, alloc: Global, call: Call) -> Result<Made, NoMemory>
    requires { MayMerge call.messages call.producers }
    ensures { IfOk result (λ made. IsMade call.messages call.producers made.received made.text) }
{
    let received = merge(rt, alloc, call.messages, call.producers)?;
    let text = merge_text(alloc, call.producers, received.as_slice())?;
    Ok(Made {
        received: List::from_vec(received),
        text,
    })
}

/// Merges, and writes what was received.
pub(crate) fn answer_call<K: Sink, R: Threads + Sync>(
    rt: &R,
    alloc: Global,
    call: Call,
    sink: &mut K,
) -> Merged
    requires { MayMerge call.messages call.producers }
    ensures { IsAnswered call.messages call.producers result.received (K.told sink.old) (K.told sink.new) result.status.number }
{
    match make(rt, alloc, call) {
        Err(NoMemory) => Merged {
            status: Status { number: NO_MEMORY },
            received: List::new(alloc),
        },
        Ok(made) => Merged {
            status: answer(sink, Status { number: 0 }, made.text.as_slice()),
            received: made.received,
        },
    }
}
