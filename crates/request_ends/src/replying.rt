//! The ring by which the replies to the requests of one core come back.

ghost use Rattle.std.specs.Prelude.{◌≡◌, ◌<◌, IfOk};
ghost use Rattle.request_ends.specs.Replying.{IsNewReplies};

use ac_base::{Answer, NoMemory, Payload};
use rtrb::{AnyItems, Consumer, Producer, Protocol, RingBuffer};
use std::alloc::Global;
use std::marker::Model;

/// The most replies that are on their way at once.
const PLACES: usize = 16;

/// A reply on its way: the answer, with the stamp of the entry by which the request was done.
#[derive(Debug, Drop)]
pub struct Reply {
    pub answer: Answer,
    pub of: u64,
}

/// What the ring of a core's requests carries: reads and writes within the limits of files.
pub struct RequestRing;

impl Protocol<Payload> for RequestRing {
    ghost use Rattle.std.specs.Prelude.{◌≡◌, true};
    ghost use Rattle.ac_links.specs.Payloads.{is_request};

    ghost allows = { λ before payload. is_request payload ≡ true };
}

/// The end on which the worker puts its replies. Contracts see all that it has put, and how many free
/// places it knows of.
#[derive(Drop)]
pub struct ReplyEnd {
    pub(crate) ring: Producer<Reply, Global, AnyItems>,
}

impl Model for ReplyEnd {
    ghost use Rattle.request_ends.specs.Replying.{Replying};

    ghost Value = { Replying };

    ghost use Rattle.request_ends.specs.Rings.{replying_of, HasPlaces};

    ghost view = { replying_of };

    ghost invariant = { HasPlaces };
}

/// The end from which the core takes them.
#[derive(Drop)]
pub struct ReplySide {
    pub(crate) ring: Consumer<Reply, Global, AnyItems>,
}

impl Model for ReplySide {
    ghost use Rattle.request_ends.specs.Replying.{ReplyRing};

    ghost Value = { ReplyRing };

    ghost use Rattle.request_ends.specs.Rings.{side_of};

    ghost view = { side_of };
}

/// The two ends of an empty ring for sixteen replies.
pub fn replies(alloc: Global) -> Result<(ReplyEnd, ReplySide), NoMemory>
    ensures { IfOk result (λ r. IsNewReplies r.0 r.1) }
{
    let (producer, consumer) = RingBuffer::with_protocol::<Global, AnyItems>(alloc, PLACES)?;
    Ok((ReplyEnd { ring: producer }, ReplySide { ring: consumer }))
}

impl ReplyEnd {
    ghost use Rattle.request_ends.specs.Replying.{response_of, HasLooked, FindsPlace, Puts};

    /// Whether there is a free place: one that it knew of, or that a look now shows.
    pub fn has_place(&mut self) -> bool
        ensures looked { HasLooked self.old self.new }
        ensures found { FindsPlace self.old result self.new }
    {
        self.ring.cached_slots() > 0 || self.ring.slots() > 0
    }

    /// Puts a reply on the ring.
    ///
    /// Condition: a free place is known.
    pub fn put(&mut self, reply: Reply)
        requires { 0 < self.old.free }
        ensures { Puts self.old (response_of reply) self.new }
    {
        self.ring.push_reserved(reply);
    }
}
