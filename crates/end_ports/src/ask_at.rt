//! The link of a core's requests.

ghost use Rattle.std.specs.Prelude.{◌≡◌, ◌<◌, ◌≤◌, [], slice_get, true, false, OnOk, IfErr, length};
ghost use Rattle.ac_links.specs.Payloads.{is_request};
ghost use Rattle.ac_links.specs.Views.{may_withdraw, owner_lead};
ghost use Rattle.end_ports.specs.inner.Arrivals.{arrival_of};
ghost use Rattle.core_ports.specs.Ends.{IsUpTo, awaits_reply};
ghost use Rattle.channel_ends.specs.Pairs.{IsSettledSend, IsSettledRecv};
ghost use Rattle.channel_ends.specs.Settled.{AreEnds, AreSettled, MakeALink};
ghost use Rattle.request_ends.specs.Asking.{end_of, requests_of, IsSameAsk};
ghost use Rattle.request_ends.specs.Replying.{HasLooked};
ghost use Rattle.request_ends.specs.Answered.{HasAllReplies};
ghost use Rattle.end_ports.specs.Held.{IsSameAskAt};
ghost use Rattle.end_ports.specs.Held.HeldEnd.{OfAsk};
ghost use Rattle.end_ports.specs.OnLinks.{on_ask};
ghost use Rattle.end_ports.specs.SettledLinks.{IsSettledAsk};
ghost use Rattle.end_ports.specs.inner.Calls.{OffersOn, WithdrawsOn, PollsOn, LooksOn};

use crate::brought::{Brought, Polled};
use crate::calls::{
    counted, enters_learning, enters_offering, enters_reply, enters_withdrawal, is_quiet, learned,
    replied, stays_settled,
};
use ac_base::{Clock, NoMemory, Payload};
use channel_ends::RecvEnd;
use core_channels::{Offering, Withdrawing};
use request_ends::{AskEnd, ReplyEnd, RequestRing};
use std::marker::Model;

/// The end of a core's requests. Contracts see the number of its link, the end, how often it was polled
/// and a request was tried, and whether nothing was entered since the last settling.
#[derive(Drop)]
pub(crate) struct AskAt<'a> {
    link: u32,
    end: AskEnd<'a>,
    polls: u64,
    tries: u64,
    settled: bool,
}

impl<'a> Model for AskAt<'a> {
    ghost use Rattle.end_ports.specs.Held.{AskingAt};

    ghost Value = { AskingAt };

    ghost use Rattle.end_ports.specs.inner.AskFields.{asking_at_of, IsAskingAt};

    ghost view = { asking_at_of };

    ghost invariant = { IsAskingAt };
}

impl<'a> AskAt<'a> {
    pub(crate) fn new(link: u32, end: AskEnd<'a>) -> AskAt<'a>
        requires { (end.send.notes.offers ≡ []) × (end.send.notes.heard ≡ []) × (end.send.payloads ≡ []) }
        ensures { result ≡ record { link = link; end = end.entry; polls = 0; tries = 0; settled = false } }
    {
        AskAt {
            link,
            end,
            polls: 0,
            tries: 0,
            settled: false,
        }
    }

    pub(crate) fn link(&self) -> u32
        ensures { result ≡ self.now.link }
    {
        self.link
    }

    pub(crate) fn offered(&self) -> u64
        ensures { result ≡ length (requests_of self.now.end) }
    {
        self.end.offered()
    }

    pub(crate) fn known(&self) -> u64
        ensures { result ≡ owner_lead (requests_of self.now.end) }
    {
        self.end.known()
    }

    pub(crate) fn awaits(&self) -> bool
        ensures { result ≡ awaits_reply (end_of self.now.end) }
    {
        self.end.awaits()
    }

    pub(crate) fn offer(&mut self, payload: Payload, clock: &mut Clock) -> Offering<Payload>
        requires payload { is_request payload ≡ true }
        requires clock { IsUpTo clock.old (on_ask self.old).end }
        ensures call { OffersOn (OfAsk self.old) self.old.link clock.old payload result (OfAsk self.new) clock.new }
        ensures same { IsSameAskAt self.old self.new }
    {
        self.tries = counted(self.tries);
        let answer = self.end.offer(payload, clock);
        self.settled = stays_settled(self.settled, enters_offering(&answer));
        answer
    }

    pub(crate) fn withdraw(&mut self, number: u64, clock: &mut Clock) -> Withdrawing
        requires open { may_withdraw (slice_get (requests_of self.old.end) number) ≡ true }
        requires clock { IsUpTo clock.old (on_ask self.old).end }
        ensures call { WithdrawsOn (OfAsk self.old) self.old.link clock.old number result (OfAsk self.new) clock.new }
        ensures same { IsSameAskAt self.old self.new }
    {
        let answer = self.end.withdraw(number, clock);
        self.settled = stays_settled(self.settled, enters_withdrawal(answer));
        answer
    }

    pub(crate) fn poll(&mut self, wants: bool, clock: &mut Clock, into: &mut Brought) -> Polled
        ensures call { PollsOn (OfAsk self.old) self.old.link clock.old wants (arrival_of result into.new) (OfAsk self.new) clock.new }
        ensures same { IsSameAskAt self.old self.new }
    {
        self.polls = counted(self.polls);
        let answer = self.end.learn(clock);
        if is_quiet(answer) {
            return self.next_reply(wants, clock, into);
        }
        self.settled = stays_settled(self.settled, enters_learning(answer));
        learned(answer)
    }

    // The next reply, where it is wanted and awaited.
    fn next_reply(&mut self, wants: bool, clock: &mut Clock, into: &mut Brought) -> Polled
        requires { (on_ask self.old).hand.decision ≡ false }
        ensures call { LooksOn self.old clock.old wants (arrival_of result into.new) self.new clock.new }
        ensures same { IsSameAskAt self.old self.new }
    {
        if !wants || !self.end.awaits() {
            return Polled::Nothing;
        }
        let answer = self.end.reply(clock);
        self.settled = stays_settled(self.settled, enters_reply(&answer));
        replied(answer, into)
    }

    /// Settles the requests and the replies of one core.
    pub(crate) fn settle(
        &mut self,
        recv: &mut RecvEnd<'_, Payload, RequestRing>,
        end: &mut ReplyEnd,
    ) -> Result<(), NoMemory>
        requires pair { AreEnds self.old.end.send recv.old }
        requires ring { self.old.end.ring ≡ end.old.ring }
        ensures pair { AreEnds self.new.end.send recv.new }
        ensures send { IsSettledSend self.old.end.send self.new.end.send }
        ensures recv { IsSettledRecv recv.old recv.new }
        ensures list { requests_of self.new.end ≡ requests_of self.old.end }
        ensures same { IsSameAsk self.old.end self.new.end }
        ensures replies { self.new.end.replies ≡ self.old.end.replies }
        ensures end { HasLooked end.old end.new }
        ensures heard { (on_ask self.old).heard ≤ (on_ask self.new).heard }
        ensures calls { (self.new.link ≡ self.old.link) × (self.new.polls ≡ self.old.polls) × (self.new.tries ≡ self.old.tries) }
        ensures settled { OnOk result (AreSettled self.new.end.send recv.new × MakeALink self.new.end.send recv.new) }
        ensures ok { OnOk result (HasAllReplies self.new.end end.new × (0 < self.new.end.places) × IsSettledAsk self.new recv.new end.new) }
        ensures err { IfErr result (λ _. (self.new.end.send ≡ self.old.end.send) × (recv.new ≡ recv.old)
            × ((on_ask self.new).hand ≡ (on_ask self.old).hand)) }
    {
        self.end.settle(recv, end)?;
        self.settled = true;
        Ok(())
    }
}
