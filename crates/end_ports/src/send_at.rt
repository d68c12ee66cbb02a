//! The ends of the channels on which a core sends.

ghost use Rattle.std.specs.Prelude.{◌≡◌, [], length, slice_get, true};
ghost use Rattle.ac_links.specs.Payloads.{is_message};
ghost use Rattle.ac_links.specs.Views.{may_withdraw, owner_lead};
ghost use Rattle.channel_ends.specs.Settled.{AreEnds};
ghost use Rattle.end_ports.specs.inner.Arrivals.{arrival_of};
ghost use Rattle.end_ports.specs.declared.brought.Brought.{Brought};
ghost use Rattle.core_ports.specs.Ends.{IsUpTo};
ghost use Rattle.end_ports.specs.Held.{IsSameSendAt};
ghost use Rattle.end_ports.specs.Held.HeldEnd.{OfSend};
ghost use Rattle.end_ports.specs.OnLinks.{on_send, offers_on};
ghost use Rattle.end_ports.specs.inner.Calls.{OffersOn, WithdrawsOn, PollsOn};
ghost use Rattle.end_ports.specs.inner.Pairs.{SettlesPair};

use crate::brought::Polled;
use crate::calls::{as_payload, counted, learned};
use crate::recv_at::RecvAt;
use ac_base::{Clock, Message, Payload};
use channel_ends::{SendEnd, settle};
use core_channels::{Offering, Withdrawing};
use rtrb::AnyItems;
use std::marker::Model;

/// The end of a channel on which a core sends. Contracts see the number of its link, the end, and how
/// often it was polled and an offer was tried.
#[derive(Drop)]
pub struct SendAt<'a> {
    link: u32,
    end: SendEnd<'a, Message, AnyItems>,
    polls: u64,
    tries: u64,
}

impl<'a> Model for SendAt<'a> {
    ghost use Rattle.end_ports.specs.Held.{SendingAt};

    ghost Value = { SendingAt };

    ghost use Rattle.end_ports.specs.SendFields.{sending_at_of, IsSendingAt};

    ghost view = { sending_at_of };

    ghost invariant = { IsSendingAt };
}

impl<'a> SendAt<'a> {
    /// The end of a link.
    ///
    /// Condition: nothing was offered on it.
    pub fn new(link: u32, end: SendEnd<'a, Message, AnyItems>) -> SendAt<'a>
        requires { (end.notes.offers ≡ []) × (end.notes.heard ≡ []) × (end.payloads ≡ []) }
        ensures { result ≡ record { link = link; end = end.entry; polls = 0; tries = 0 } }
    {
        SendAt {
            link,
            end,
            polls: 0,
            tries: 0,
        }
    }

    pub(crate) fn link(&self) -> u32
        ensures { result ≡ self.now.link }
    {
        self.link
    }

    pub(crate) fn offered(&self) -> u64
        ensures { result ≡ length (offers_on self.now) }
    {
        self.end.offered()
    }

    pub(crate) fn known(&self) -> u64
        ensures { result ≡ owner_lead (offers_on self.now) }
    {
        self.end.known()
    }

    pub(crate) fn offer(&mut self, payload: Payload, clock: &mut Clock) -> Offering<Payload>
        requires payload { is_message payload ≡ true }
        requires clock { IsUpTo clock.old (on_send self.old).end }
        ensures call { OffersOn (OfSend self.old) self.old.link clock.old payload result (OfSend self.new) clock.new }
        ensures same { IsSameSendAt self.old self.new }
    {
        self.tries = counted(self.tries);
        match payload {
            Payload::Int(value) => as_payload(self.end.offer(value, clock)),
            _ => unreachable!(),
        }
    }

    pub(crate) fn withdraw(&mut self, number: u64, clock: &mut Clock) -> Withdrawing
        requires open { may_withdraw (slice_get (offers_on self.old) number) ≡ true }
        requires clock { IsUpTo clock.old (on_send self.old).end }
        ensures call { WithdrawsOn (OfSend self.old) self.old.link clock.old number result (OfSend self.new) clock.new }
        ensures same { IsSameSendAt self.old self.new }
    {
        self.end.withdraw(number, clock)
    }

    pub(crate) fn poll(&mut self, wants: bool, clock: &mut Clock) -> Polled
        ensures call { (left : Brought) → PollsOn (OfSend self.old) self.old.link clock.old wants
            (arrival_of result left) (OfSend self.new) clock.new }
        ensures same { IsSameSendAt self.old self.new }
    {
        let _ = wants;
        self.polls = counted(self.polls);
        learned(self.end.learn(clock))
    }

    /// Settles the two ends of one pair.
    pub(crate) fn settle(&mut self, other: &mut RecvAt<'_>)
        requires { AreEnds self.old.end other.old.end }
        ensures { SettlesPair self.old other.old self.new other.new }
    {
        settle(&mut self.end, &mut other.end);
    }
}
