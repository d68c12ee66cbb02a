//! The links of the requests are dealt.

ghost use Rattle.std.specs.Prelude.{◌≡◌, ◌+◌, ◌≤◌, Some, length, slice_get, IfOk};
ghost use Rattle.run_ends.specs.Unused.{IsUnused};
ghost use Rattle.run_ends.specs.inner.Hands.{asks_of};
ghost use Rattle.run_ends.specs.inner.Dealing.{AreAllNew, HaveNone};

use crate::hands::{Hand, Hands};
use crate::making::new_requests;
use crate::words::Seats;
use ac_base::{NoMemory, Payload};
use channel_ends::RecvEnd;
use completion_word::Words;
use request_ends::{ReplyEnd, RequestRing};
use std::alloc::Global;

/// The ends of the requests of all cores, by their numbers: those of the cores, and the worker's.
#[derive(Drop)]
pub(crate) struct Requests<'a> {
    pub(crate) hands: Hands<'a>,
    pub(crate) asks: Vec<RecvEnd<'a, Payload, RequestRing>>,
    pub(crate) replies: Vec<ReplyEnd>,
}

/// Makes the ends of the requests of each core and of their replies, of which the first words have this
/// place.
pub(crate) fn deal_requests<'a>(
    alloc: Global,
    words: &'a [Words],
    first: usize,
    seats: Vec<Seats>,
) -> Result<Requests<'a>, NoMemory>
    requires words { first + length seats.items ≡ length words.now }
    requires unused { (k : _) → (w : _) → (s : _) → slice_get words.now (first + k) ≡ Some w
        → slice_get seats.items k ≡ Some s → IsUnused 16 w s }
    ensures count { IfOk result (λ r. (length r.hands ≡ length seats.items) × (length r.asks.items ≡ length seats.items)
        × (length r.replies.items ≡ length seats.items)) }
    ensures none { IfOk result (λ r. HaveNone r.hands) }
    ensures new { IfOk result (λ r. AreAllNew (asks_of r.hands) r.asks.items r.replies.items) }
{
    let mut hands = Hands::new(alloc);
    let mut asks = Vec::new(alloc);
    let mut replies = Vec::new(alloc);
    let mut at = first;
    for pair in seats {
        let (ask, recv, end) = new_requests(alloc, &words[at], pair)?;
        hands.add(Hand::new(alloc, ask))?;
        asks.push(recv)?;
        replies.push(end)?;
        at += 1;
    }
    Ok(Requests {
        hands,
        asks,
        replies,
    })
}
