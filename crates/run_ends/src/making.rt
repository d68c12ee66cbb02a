//! The ends of one link are made.

ghost use Rattle.std.specs.Prelude.{◌≡◌, IfOk};
ghost use Rattle.run_ends.specs.Unused.{IsUnused};
ghost use Rattle.run_ends.specs.inner.NewEnds.{IsNewPair, IsNewChannel, AreNewRequests};

use crate::words::Seats;
use ac_base::{Message, NoMemory, Payload};
use channel_ends::{RecvEnd, SendEnd, pair};
use completion_word::Words;
use end_ports::{RecvAt, SendAt};
use request_ends::{AskEnd, ReplyEnd, RequestRing, replies};
use rtrb::{AnyItems, Protocol};
use std::alloc::Global;

/// The most requests of a core that are not known to be decided.
const REQUESTS: u32 = 16;

fn new_pair<'a, M: Drop, P: Protocol<M>>(
    alloc: Global,
    words: &'a Words,
    seats: Seats,
    capacity: u32,
) -> Result<(SendEnd<'a, M, P>, RecvEnd<'a, M, P>), NoMemory>
    requires { IsUnused capacity words.now seats }
    ensures { IfOk result (λ r. IsNewPair capacity r.0 r.1) }
{
    let Seats { owner, peer } = seats;
    pair(alloc, words, owner, peer, capacity)
}

/// The two ends of a channel, which is the link of this number.
pub(crate) fn new_channel<'a>(
    alloc: Global,
    words: &'a Words,
    seats: Seats,
    capacity: u32,
    link: u32,
) -> Result<(SendAt<'a>, RecvAt<'a>), NoMemory>
    requires { IsUnused capacity words.now seats }
    ensures { IfOk result (λ r. IsNewChannel capacity link r.0 r.1) }
{
    let (send, recv) = new_pair::<Message, AnyItems>(alloc, words, seats, capacity)?;
    Ok((SendAt::new(link, send), RecvAt::new(link, recv)))
}

/// The core's end and the worker's two ends of the requests of a core and of their replies.
pub(crate) fn new_requests<'a>(
    alloc: Global,
    words: &'a Words,
    seats: Seats,
) -> Result<(AskEnd<'a>, RecvEnd<'a, Payload, RequestRing>, ReplyEnd), NoMemory>
    requires { IsUnused 16 words.now seats }
    ensures { IfOk result (λ r. AreNewRequests r.0 r.1 r.2) }
{
    let (send, recv) = new_pair::<Payload, RequestRing>(alloc, words, seats, REQUESTS)?;
    let (end, side) = replies(alloc)?;
    Ok((AskEnd::new(alloc, send, side), recv, end))
}
