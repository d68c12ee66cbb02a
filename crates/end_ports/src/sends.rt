//! The ends on which a core sends.

ghost use Rattle.std.specs.Prelude.{◌≡◌, ◌<◌, ◌==◌, Some, length, slice_get, true};
ghost use Rattle.std.specs.List.{position};
ghost use Rattle.ac_links.specs.Payloads.{is_message};
ghost use Rattle.ac_links.specs.Views.{may_withdraw, owner_lead};
ghost use Rattle.channel_ends.specs.Settled.{AreEnds};
ghost use Rattle.end_ports.specs.inner.Arrivals.{arrival_of};
ghost use Rattle.end_ports.specs.declared.brought.Brought.{Brought};
ghost use Rattle.core_ports.specs.Ends.{IsUpTo};
ghost use Rattle.end_ports.specs.Held.{IsSameSendAt};
ghost use Rattle.end_ports.specs.Held.HeldEnd.{OfSend};
ghost use Rattle.end_ports.specs.OnLinks.{on_send, offers_on};
ghost use Rattle.end_ports.specs.inner.Calls.{OffersOn, WithdrawsOn, PollsOn};
ghost use Rattle.end_ports.specs.inner.Places.{ChangesAt};
ghost use Rattle.end_ports.specs.inner.Pairs.{SettlesAt};

use crate::brought::Polled;
use crate::recvs::Recvs;
use crate::send_at::SendAt;
use ac_base::{Clock, Payload};
use core_channels::{Offering, Withdrawing};
use std::marker::Model;

/// Ends of channels, each with the number of its link. A place in the list stands for its end.
#[derive(Drop)]
pub(crate) struct Sends<'a> {
    list: Vec<SendAt<'a>>,
}

impl<'a> Model for Sends<'a> {
    ghost use Rattle.std.specs.Prelude.{List};
    ghost use Rattle.end_ports.specs.Held.{SendingAt};

    ghost Value = { List SendingAt };

    ghost view = { λ it. it.list.items };
}

impl<'a> Sends<'a> {
    pub(crate) fn new(list: Vec<SendAt<'a>>) -> Sends<'a>
        ensures { result ≡ list.entry.items }
    {
        Sends { list }
    }

    /// The place of the first end of this link.
    pub(crate) fn place(&self, link: u32) -> Option<usize>
        ensures { result ≡ position (λ s. s.link == link) self.now }
    {
        self.list.iter().position(|end| end.link() == link)
    }

    pub(crate) fn offered(&self, at: usize) -> u64
        requires { at < length self.now }
        ensures { (s : _) → slice_get self.now at ≡ Some s → result ≡ length (offers_on s) }
    {
        self.list[at].offered()
    }

    pub(crate) fn known(&self, at: usize) -> u64
        requires { at < length self.now }
        ensures { (s : _) → slice_get self.now at ≡ Some s → result ≡ owner_lead (offers_on s) }
    {
        self.list[at].known()
    }

    pub(crate) fn offer(
        &mut self,
        at: usize,
        payload: Payload,
        clock: &mut Clock,
    ) -> Offering<Payload>
        requires at { at < length self.old }
        requires payload { is_message payload ≡ true }
        requires clock { (s : _) → slice_get self.old at ≡ Some s → IsUpTo clock.old (on_send s).end }
        ensures { ChangesAt (λ s t. OffersOn (OfSend s) s.link clock.old payload result (OfSend t) clock.new × IsSameSendAt s t)
            self.old at self.new }
    {
        self.list[at].offer(payload, clock)
    }

    pub(crate) fn withdraw(&mut self, at: usize, number: u64, clock: &mut Clock) -> Withdrawing
        requires at { at < length self.old }
        requires open { (s : _) → slice_get self.old at ≡ Some s → may_withdraw (slice_get (offers_on s) number) ≡ true }
        requires clock { (s : _) → slice_get self.old at ≡ Some s → IsUpTo clock.old (on_send s).end }
        ensures { ChangesAt (λ s t. WithdrawsOn (OfSend s) s.link clock.old number result (OfSend t) clock.new × IsSameSendAt s t)
            self.old at self.new }
    {
        self.list[at].withdraw(number, clock)
    }

    pub(crate) fn poll(&mut self, at: usize, wants: bool, clock: &mut Clock) -> Polled
        requires at { at < length self.old }
        ensures { ChangesAt (λ s t. ((left : Brought) → PollsOn (OfSend s) s.link clock.old wants (arrival_of result left)
            (OfSend t) clock.new) × IsSameSendAt s t) self.old at self.new }
    {
        self.list[at].poll(wants, clock)
    }

    /// Settles an end with one of the ends of other ports.
    pub(crate) fn settle(&mut self, at: usize, recvs: &mut Recvs<'_>, to: usize)
        requires places { (at < length self.old) × (to < length recvs.old) }
        requires pair { (s : _) → (r : _) → slice_get self.old at ≡ Some s → slice_get recvs.old to ≡ Some r → AreEnds s.end r.end }
        ensures { SettlesAt self.old at recvs.old to self.new recvs.new }
    {
        self.list[at].settle(&mut recvs.list[to]);
    }
}
