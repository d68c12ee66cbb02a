//! The replies to the requests of a core as they come to it.

ghost use Rattle.std.specs.Prelude.{◌≡◌, ◌<◌, [], ◌++◌, length, map, OnOk, IfErr, Some, None};
ghost use Rattle.request_ends.specs.Replying.{response_of, HasLooked};
ghost use Rattle.request_ends.specs.inner.Coming.{first_of, stamp_of, LooksOnly, PopsNext, MayPop, HasGathered, HasMet};

use crate::replying::{Reply, ReplyEnd, ReplySide};
use ac_base::NoMemory;
use rtrb::{AnyItems, Consumer};
use std::alloc::Global;
use std::collections::VecDeque;
use std::marker::Model;

/// The replies that have come, the oldest first: some were gathered off the ring, and the others are on it.
#[derive(Drop)]
pub(crate) struct Inbox {
    ring: Consumer<Reply, Global, AnyItems>,
    gathered: VecDeque<Reply>,
}

impl Model for Inbox {
    ghost use Rattle.request_ends.specs.inner.Coming.{Coming, coming_of, IsComing};

    ghost Value = { Coming };

    ghost view = { coming_of };

    ghost invariant = { IsComing };
}

impl Inbox {
    pub(crate) fn new(alloc: Global, side: ReplySide) -> Inbox
        requires { side.taken ≡ [] }
        ensures ring { result.ring ≡ side.ring }
        ensures none { (result.had ≡ []) × (result.gathered ≡ []) }
        ensures items { result.items ≡ map response_of side.items }
    {
        let ReplySide { ring } = side;
        Inbox {
            ring,
            gathered: VecDeque::new(alloc),
        }
    }

    /// The stamp of the reply that comes next.
    pub(crate) fn next_stamp(&mut self) -> Option<u64>
        ensures looks { LooksOnly self.old self.new }
        ensures first { result ≡ stamp_of (first_of self.new) }
    {
        if let Some(reply) = self.gathered.front() {
            return Some(reply.of);
        }
        if self.ring.is_empty() {
            return None;
        }
        Some(self.ring.peek_known().of)
    }

    /// The reply that comes next.
    pub(crate) fn pop(&mut self) -> Reply
        requires { MayPop self.old }
        ensures { PopsNext self.old (response_of result) self.new }
    {
        match self.gathered.pop_front() {
            Some(reply) => reply,
            None => self.ring.pop_known(),
        }
    }

    /// Takes the replies off the ring that are known to be there.
    pub(crate) fn gather(&mut self) -> Result<(), NoMemory>
        ensures all { HasGathered self.old self.new }
        ensures ok { OnOk result (self.new.items ≡ []) }
        ensures err { IfErr result (λ _. self.new.gathered ≡ self.old.gathered) }
    {
        self.gathered.reserve(self.ring.cached_slots())?;
        while self.ring.cached_slots() > 0 {
            self.gathered.push_back_reserved(self.ring.pop_known());
        }
        Ok(())
    }

    /// Lets it know of each reply that the other end of the ring has put there, and gathers them; then
    /// lets that end know of each free place. The last look shows that nothing more has come.
    pub(crate) fn meet(&mut self, end: &mut ReplyEnd) -> Result<(), NoMemory>
        requires { end.old.ring ≡ self.old.ring }
        ensures end { HasLooked end.old end.new }
        ensures all { HasMet self.old self.new }
        ensures ok { OnOk result ((self.new.items ≡ []) × (end.new.free ≡ 16)
            × (self.new.had ++ self.new.gathered ≡ end.new.replies)) }
        ensures err { IfErr result (λ _. self.new.gathered ≡ self.old.gathered) }
    {
        self.ring.slots_beside(&mut end.ring);
        self.gather()?;
        end.ring.slots_beside(&mut self.ring);
        self.ring.slots_beside(&mut end.ring);
        Ok(())
    }
}
