//! The ends of the channels on which a core receives.

ghost use Rattle.std.specs.Prelude.{◌≡◌, [], ◌≤◌, length};
ghost use Rattle.end_ports.specs.inner.Arrivals.{arrival_of};
ghost use Rattle.end_ports.specs.Held.{IsSameRecvAt};
ghost use Rattle.end_ports.specs.Held.HeldEnd.{OfRecv};
ghost use Rattle.end_ports.specs.OnLinks.{decisions_on, on_recv};
ghost use Rattle.end_ports.specs.inner.Calls.{PollsOn};

use crate::brought::{Brought, Polled};
use crate::calls::{counted, received};
use ac_base::{Clock, Message};
use channel_ends::RecvEnd;
use rtrb::AnyItems;
use std::marker::Model;

/// The end of a channel on which a core receives. Contracts see the number of its link, the end, and how
/// often it was polled.
#[derive(Drop)]
pub struct RecvAt<'a> {
    link: u32,
    pub(crate) end: RecvEnd<'a, Message, AnyItems>,
    polls: u64,
}

impl<'a> Model for RecvAt<'a> {
    ghost use Rattle.end_ports.specs.Held.{ReceivingAt};

    ghost Value = { ReceivingAt };

    ghost use Rattle.end_ports.specs.RecvFields.{receiving_at_of, IsReceivingAt};

    ghost view = { receiving_at_of };

    ghost invariant = { IsReceivingAt };
}

impl<'a> RecvAt<'a> {
    /// The end of a link.
    ///
    /// Condition: nothing was decided on it, and no settling told of an offer.
    pub fn new(link: u32, end: RecvEnd<'a, Message, AnyItems>) -> RecvAt<'a>
        requires none { (end.peer.decisions ≡ []) × (end.popped ≡ []) }
        requires told { end.peer.told_offers ≡ 0 }
        ensures { result ≡ record { link = link; end = end.entry; polls = 0 } }
    {
        RecvAt {
            link,
            end,
            polls: 0,
        }
    }

    pub(crate) fn link(&self) -> u32
        ensures { result ≡ self.now.link }
    {
        self.link
    }

    pub(crate) fn decided(&self) -> u64
        ensures { result ≡ length (decisions_on self.now) }
    {
        self.end.decided()
    }

    pub(crate) fn poll(&mut self, wants: bool, clock: &mut Clock, into: &mut Brought) -> Polled
        ensures call { PollsOn (OfRecv self.old) self.old.link clock.old wants (arrival_of result into.new) (OfRecv self.new) clock.new }
        ensures same { IsSameRecvAt self.old self.new }
    {
        self.polls = counted(self.polls);
        if !wants {
            return Polled::Nothing;
        }
        received(self.end.take(clock), into)
    }
}
