//! The ends on which a core receives.

ghost use Rattle.std.specs.Prelude.{◌≡◌, ◌<◌, ◌==◌, Some, length, slice_get};
ghost use Rattle.std.specs.List.{position};
ghost use Rattle.end_ports.specs.inner.Arrivals.{arrival_of};
ghost use Rattle.end_ports.specs.Held.{IsSameRecvAt};
ghost use Rattle.end_ports.specs.Held.HeldEnd.{OfRecv};
ghost use Rattle.end_ports.specs.OnLinks.{decisions_on, on_recv};
ghost use Rattle.end_ports.specs.inner.Calls.{PollsOn};
ghost use Rattle.end_ports.specs.inner.Places.{ChangesAt};

use crate::brought::{Brought, Polled};
use crate::recv_at::RecvAt;
use ac_base::Clock;
use std::marker::Model;

/// Ends of channels, each with the number of its link. A place in the list stands for its end.
#[derive(Drop)]
pub(crate) struct Recvs<'a> {
    pub(crate) list: Vec<RecvAt<'a>>,
}

impl<'a> Model for Recvs<'a> {
    ghost use Rattle.std.specs.Prelude.{List};
    ghost use Rattle.end_ports.specs.Held.{ReceivingAt};

    ghost Value = { List ReceivingAt };

    ghost view = { λ it. it.list.items };
}

impl<'a> Recvs<'a> {
    pub(crate) fn new(list: Vec<RecvAt<'a>>) -> Recvs<'a>
        ensures { result ≡ list.entry.items }
    {
        Recvs { list }
    }

    /// The place of the first end of this link.
    pub(crate) fn place(&self, link: u32) -> Option<usize>
        ensures { result ≡ position (λ r. r.link == link) self.now }
    {
        self.list.iter().position(|end| end.link() == link)
    }

    pub(crate) fn decided(&self, at: usize) -> u64
        requires { at < length self.now }
        ensures { (r : _) → slice_get self.now at ≡ Some r → result ≡ length (decisions_on r) }
    {
        self.list[at].decided()
    }

    pub(crate) fn poll(
        &mut self,
        at: usize,
        wants: bool,
        clock: &mut Clock,
        into: &mut Brought,
    ) -> Polled
        requires at { at < length self.old }
        ensures { ChangesAt (λ r t. PollsOn (OfRecv r) r.link clock.old wants (arrival_of result into.new) (OfRecv t) clock.new
            × IsSameRecvAt r t) self.old at self.new }
    {
        self.list[at].poll(wants, clock, into)
    }
}
