//! A core's calls of its ports, each of which is one call of the end of its link.

ghost use Rattle.std.specs.Prelude.{◌≡◌, ◌<◌, ◌||◌, [], IfNone, OnOk, IfErr, length, true, false};
ghost use Rattle.ac_links.specs.Payloads.{is_payload};
ghost use Rattle.ac_links.specs.Views.{may_withdraw, owner_lead};
ghost use Rattle.ac_links.specs.Party.LinkEnd.{Decides};
ghost use Rattle.core_channels.specs.Laws.{told_by_offering, told_by_withdrawing};
ghost use Rattle.core_ports.specs.Answers.{IsOfferAnswer, IsWithdrawalAnswer, IsPollAnswer};
ghost use Rattle.core_ports.specs.Answers.{is_full_offering, is_full_withdrawal, is_full_arrival};
ghost use Rattle.core_ports.specs.Counts.{with_one_more};
ghost use Rattle.core_ports.specs.Ends.{is_owner, is_peer, is_held, awaits_reply, offer_at, offers_of, AreUpTo, IsUpTo};
ghost use Rattle.core_ports.specs.Tells.{told_by_arrival, Tells};
ghost use Rattle.channel_ends.specs.Pairs.{IsSettledSend, IsSettledRecv};
ghost use Rattle.channel_ends.specs.Settled.{AreEnds, AreSettled, MakeALink};
ghost use Rattle.request_ends.specs.Asking.{end_of, requests_of, IsSameAsk};
ghost use Rattle.request_ends.specs.Replying.{HasLooked};
ghost use Rattle.request_ends.specs.Answered.{HasAllReplies};
ghost use Rattle.end_ports.specs.EndCalls.{OffersAt, WithdrawsAt, PollsAt};
ghost use Rattle.end_ports.specs.OnLinks.{end_on, on_ask, on_link};
ghost use Rattle.end_ports.specs.SettledLinks.{HavePair, Settles, IsSettled, SettlesRequests, IsSettledAsk};
ghost use Rattle.end_ports.specs.inner.Calls.{OffersOn, WithdrawsOn, PollsOn};
ghost use Rattle.end_ports.specs.inner.Places.{OnlyOn};

use crate::ask_at::AskAt;
use crate::brought::Brought;
use crate::calls::{is_full_offering, is_full_withdrawal};
use crate::ends::Ends;
use crate::recv_at::RecvAt;
use crate::recvs::Recvs;
use crate::send_at::SendAt;
use crate::sends::Sends;
use ac_base::{Clock, NoMemory, Payload};
use channel_ends::RecvEnd;
use core_channels::{Arrived, Offering, Withdrawing};
use core_ports::Ports;
use request_ends::{AskEnd, ReplyEnd, RequestRing};
use std::marker::Model;

/// The ends of one core: of the channels on which it sends and receives, and of the link of its requests.
/// A number that several of them have stands for the first.
///
/// Contracts see the ends, and whether a call has answered `ClockFull`. What is at hand is what the last
/// settling told of, as far as the entries since then have not used it.
#[derive(Drop)]
pub struct CorePorts<'a> {
    ends: Ends<'a>,
    full: bool,
}

impl<'a> Model for CorePorts<'a> {
    ghost use Rattle.end_ports.specs.Held.{Held};

    ghost Value = { Held };

    ghost use Rattle.end_ports.specs.PortFields.{held_of};

    ghost view = { held_of };
}

impl<'a> CorePorts<'a> {
    /// The ports over these ends, where `asked` is the link of the requests.
    ///
    /// Condition: nothing was asked.
    pub fn new(
        sends: Vec<SendAt<'a>>,
        recvs: Vec<RecvAt<'a>>,
        asked: u32,
        ask: AskEnd<'a>,
    ) -> CorePorts<'a>
        requires { (ask.send.notes.offers ≡ []) × (ask.send.notes.heard ≡ []) × (ask.send.payloads ≡ []) }
        ensures { result ≡ record {
          sends = sends.entry.items;
          recvs = recvs.entry.items;
          ask = record { link = asked; end = ask.entry; polls = 0; tries = 0; settled = false };
          full = false;
        } }
    {
        CorePorts {
            ends: Ends {
                sends: Sends::new(sends),
                recvs: Recvs::new(recvs),
                ask: AskAt::new(asked, ask),
                brought: Brought::new(),
            },
            full: false,
        }
    }

    fn try_offer(&mut self, link: u32, payload: Payload, clock: &mut Clock) -> Offering<Payload>
        requires link { is_owner (on_link self.old link).end ≡ true }
        requires payload { is_payload (on_link self.old link).terms.requests payload ≡ true }
        requires clock { IsUpTo clock.old (on_link self.old link).end }
        ensures call { OffersOn (end_on self.old link) link clock.old payload result (end_on self.new link) clock.new }
        ensures only { OnlyOn self.old link self.new }
    {
        if self.ends.ask.link() == link {
            return self.ends.ask.offer(payload, clock);
        }
        match self.ends.sends.place(link) {
            Some(at) => self.ends.sends.offer(at, payload, clock),
            None => unreachable!(),
        }
    }

    fn try_withdraw(&mut self, link: u32, number: u64, clock: &mut Clock) -> Withdrawing
        requires open { may_withdraw (offer_at (on_link self.old link).end number) ≡ true }
        requires clock { IsUpTo clock.old (on_link self.old link).end }
        ensures call { WithdrawsOn (end_on self.old link) link clock.old number result (end_on self.new link) clock.new }
        ensures only { OnlyOn self.old link self.new }
    {
        if self.ends.ask.link() == link {
            return self.ends.ask.withdraw(number, clock);
        }
        match self.ends.sends.place(link) {
            Some(at) => self.ends.sends.withdraw(at, number, clock),
            None => unreachable!(),
        }
    }
}

// How far the core is on a link. Of one that it does not hold all of it is none.
impl<'a> CorePorts<'a> {
    /// How many offers the core has made on a link.
    pub fn offered(&self, link: u32) -> u64
        ensures { result ≡ length (offers_of (on_link self.now link).end) }
    {
        if self.ends.ask.link() == link {
            return self.ends.ask.offered();
        }
        match self.ends.sends.place(link) {
            Some(at) => self.ends.sends.offered(at),
            None => 0,
        }
    }

    /// How many of them there are before the first that is not known.
    pub fn known(&self, link: u32) -> u64
        ensures { result ≡ owner_lead (offers_of (on_link self.now link).end) }
    {
        if self.ends.ask.link() == link {
            return self.ends.ask.known();
        }
        match self.ends.sends.place(link) {
            Some(at) => self.ends.sends.known(at),
            None => 0,
        }
    }

    /// How many offers the core has decided on a link.
    pub fn decided(&self, link: u32) -> u64
        ensures some { (ds : _) → (on_link self.now link).end ≡ Decides ds → result ≡ length ds }
        ensures none { is_peer (on_link self.now link).end ≡ false → result ≡ 0 }
    {
        if self.ends.ask.link() == link {
            return 0;
        }
        match (self.ends.sends.place(link), self.ends.recvs.place(link)) {
            (None, Some(at)) => self.ends.recvs.decided(at),
            _ => 0,
        }
    }

    /// Whether the core awaits the reply to one of its requests.
    pub fn awaits_reply(&self) -> bool
        ensures { result ≡ awaits_reply (end_of self.now.ask.end) }
    {
        self.ends.ask.awaits()
    }
}

impl<'a> CorePorts<'a> {
    /// Settles the channel of this number, on which these ports send and the other ones receive: each end
    /// knows all that the other has done, and all that there is on the link is at hand. It makes no entry,
    /// and of the other links nothing changes.
    ///
    /// Condition: the two ends of the link are of one pair.
    pub fn settle_with(&mut self, link: u32, other: &mut CorePorts<'_>)
        requires { HavePair self.old other.old link }
        ensures pair { HavePair self.new other.new link }
        ensures mine { Settles self.old link self.new }
        ensures its { Settles other.old link other.new }
        ensures link { IsSettled (on_link self.new link) (on_link other.new link) }
    {
        let Some(at) = self.ends.sends.place(link) else {
            unreachable!()
        };
        let Some(to) = other.ends.recvs.place(link) else {
            unreachable!()
        };
        self.ends.sends.settle(at, &mut other.ends.recvs, to);
    }

    /// Settles the requests and the replies with the worker's ends of them, and gathers the replies. It
    /// makes no entry, and of the other links nothing changes. After want of memory the requests are not
    /// settled, and what is at hand is as it was.
    ///
    /// Condition: the worker's ends are those of this core.
    pub fn settle_requests(
        &mut self,
        recv: &mut RecvEnd<'_, Payload, RequestRing>,
        end: &mut ReplyEnd,
    ) -> Result<(), NoMemory>
        requires pair { AreEnds self.old.ask.end.send recv.old }
        requires ring { self.old.ask.end.ring ≡ end.old.ring }
        ensures pair { AreEnds self.new.ask.end.send recv.new }
        ensures send { IsSettledSend self.old.ask.end.send self.new.ask.end.send }
        ensures recv { IsSettledRecv recv.old recv.new }
        ensures list { requests_of self.new.ask.end ≡ requests_of self.old.ask.end }
        ensures same { IsSameAsk self.old.ask.end self.new.ask.end }
        ensures replies { self.new.ask.end.replies ≡ self.old.ask.end.replies }
        ensures end { HasLooked end.old end.new }
        ensures settled { OnOk result (AreSettled self.new.ask.end.send recv.new × MakeALink self.new.ask.end.send recv.new) }
        ensures ok { OnOk result (HasAllReplies self.new.ask.end end.new × (0 < self.new.ask.end.places)
            × IsSettledAsk self.new.ask recv.new end.new) }
        ensures err { IfErr result (λ _. (self.new.ask.end.send ≡ self.old.ask.end.send) × (recv.new ≡ recv.old)
            × ((on_ask self.new.ask).hand ≡ (on_ask self.old.ask).hand)) }

        // What the ports tell of other links stays.
        ensures ports { SettlesRequests self.old self.new }
    {
        self.ends.ask.settle(recv, end)
    }
}

impl<'a> Ports for CorePorts<'a> {
    ghost use Rattle.end_ports.specs.PortsTold.{told_of, Stays, stays_self, stays_then};

    ghost told = { told_of };

    ghost stays = { Stays };

    fn offer(&mut self, link: u32, payload: Payload, clock: &mut Clock) -> Offering<Payload>
        requires link { is_owner ((told_of self.old).ends link) ≡ true }
        requires payload { is_payload ((told_of self.old).terms link).requests payload ≡ true }
        requires clock { AreUpTo clock.old (told_of self.old).ends }
        ensures answer { IsOfferAnswer ((told_of self.old).terms link) ((told_of self.old).ends link) ((told_of self.old).at_hand link)
            clock.old payload result }
        ensures tells { Tells (told_of self.old).terms (told_of self.old).ends clock.old
            (told_by_offering link payload result) (told_of self.new).ends clock.new }
        ensures hand { IfNone (told_by_offering link payload result) ((told_of self.new).at_hand ≡ (told_of self.old).at_hand) }
        ensures terms { (told_of self.new).terms ≡ (told_of self.old).terms }
        ensures polls { (told_of self.new).polls ≡ (told_of self.old).polls }
        ensures tries { (told_of self.new).tries ≡ with_one_more (told_of self.old).tries link }
        ensures full { (told_of self.new).full ≡ ((told_of self.old).full || is_full_offering result) }
        ensures stays { Stays self.old self.new }

        // It is the answer of the one call of the end.
        ensures exact { OffersAt (end_on self.old link) clock.old payload result (end_on self.new link) }
    {
        let answer = self.try_offer(link, payload, clock);
        self.full |= is_full_offering(&answer);
        answer
    }

    fn withdraw(&mut self, link: u32, number: u64, clock: &mut Clock) -> Withdrawing
        requires open { may_withdraw (offer_at ((told_of self.old).ends link) number) ≡ true }
        requires clock { AreUpTo clock.old (told_of self.old).ends }
        ensures answer { IsWithdrawalAnswer ((told_of self.new).heard link) clock.old result }
        ensures tells { Tells (told_of self.old).terms (told_of self.old).ends clock.old
            (told_by_withdrawing link number result) (told_of self.new).ends clock.new }
        ensures hand { IfNone (told_by_withdrawing link number result) ((told_of self.new).at_hand ≡ (told_of self.old).at_hand) }
        ensures terms { (told_of self.new).terms ≡ (told_of self.old).terms }
        ensures polls { (told_of self.new).polls ≡ (told_of self.old).polls }
        ensures tries { (told_of self.new).tries ≡ (told_of self.old).tries }
        ensures full { (told_of self.new).full ≡ ((told_of self.old).full || is_full_withdrawal result) }
        ensures stays { Stays self.old self.new }

        // It is the answer of the one call of the end.
        ensures exact { WithdrawsAt (end_on self.old link) number clock.old result (end_on self.new link) }
    {
        let answer = self.try_withdraw(link, number, clock);
        self.full |= is_full_withdrawal(answer);
        answer
    }

    fn poll(&mut self, link: u32, wants: bool, clock: &mut Clock) -> Arrived
        requires link { is_held ((told_of self.old).ends link) ≡ true }
        ensures answer { IsPollAnswer ((told_of self.old).terms link) ((told_of self.old).ends link) ((told_of self.old).at_hand link) wants
            ((told_of self.new).heard link) clock.old result }
        ensures tells { Tells (told_of self.old).terms (told_of self.old).ends clock.old
            (told_by_arrival link result) (told_of self.new).ends clock.new }
        ensures hand { IfNone (told_by_arrival link result) ((told_of self.new).at_hand ≡ (told_of self.old).at_hand) }
        ensures terms { (told_of self.new).terms ≡ (told_of self.old).terms }
        ensures polls { (told_of self.new).polls ≡ with_one_more (told_of self.old).polls link }
        ensures tries { (told_of self.new).tries ≡ (told_of self.old).tries }
        ensures full { (told_of self.new).full ≡ ((told_of self.old).full || is_full_arrival result) }
        ensures stays { Stays self.old self.new }

        // It is what the end was asked in this call: to learn, or to take, or after that for a reply.
        ensures exact { PollsAt (end_on self.old link) clock.old wants result (end_on self.new link) }
    {
        let answer = self.ends.look(link, wants, clock);
        self.ends.brought.arrived(answer, &mut self.full)
    }

    ghost stays_self = { stays_self };

    ghost stays_then = { stays_then };
}
