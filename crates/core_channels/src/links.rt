//! All links of a run.

ghost use Rattle.std.specs.Prelude.{◌≡◌, ◌≤◌, ◌<◌, true, false, length, slice_get, OnOk, IfOk};
ghost use Rattle.std.specs.List.{All};
ghost use Rattle.ac_links.specs.Payloads.{is_payload};
ghost use Rattle.ac_links.specs.Views.{may_withdraw};
ghost use Rattle.ac_links.specs.Noted.{offer_stamp};
ghost use Rattle.core_channels.specs.LinkViews.{IsLink, link_at, with_link, with_call, SameButSpares, SameTerms, AreNew};
ghost use Rattle.core_channels.specs.Offers.{offering, after_offering, offering_clock};
ghost use Rattle.core_channels.specs.Learns.{learning, after_learning, learning_clock};
ghost use Rattle.core_channels.specs.Withdraws.{withdrawing, after_withdrawing, withdrawing_clock};
ghost use Rattle.core_channels.specs.Takes.{receiving, after_receiving, receiving_clock};
ghost use Rattle.ac_links.specs.Replies.{least_open};
ghost use Rattle.core_channels.specs.Requests.{fronting, is_withdrawn, may_do, did_stamp, after_doing};
ghost use Rattle.core_channels.specs.Requests.{pass_stamp, after_passing, ReplyIsNext, after_reply};

use crate::answers::{Front, Learning, Offering, Receiving, Withdrawing};
use crate::counts::Call;
use crate::kept_link::KeptLink;
use ac_base::{Answer, Clock, List, Message, NoMemory, Payload};
use ac_links::Terms;
use std::alloc::Global;
use std::marker::Model;

/// The links of a run with all that was offered and decided on each.
///
/// Contracts see of each link its terms, what its owner has offered and knows, what its peer has
/// decided, its spare, which is the number of further offers for which it has a place, and the counts
/// of the calls that were counted. Only `new`, `reserve` and `front` take memory.
#[derive(Drop)]
pub struct Links {
    links: Vec<KeptLink>,
}

impl Model for Links {
    ghost use Rattle.std.specs.Prelude.{List};
    ghost use Rattle.std.specs.List.{All};
    ghost use Rattle.core_channels.specs.LinkViews.{LinkViews, IsLink};

    ghost Value = { List LinkViews };

    ghost view = { λ it. it.links.items };

    ghost invariant = { λ it. All IsLink it.links.items };
}

impl Links {
    /// Links of these capacities, on which nothing was offered. The first `channels` of them carry
    /// messages, and the others requests.
    pub fn new(alloc: Global, capacities: &List<u32>, channels: u32) -> Result<Links, NoMemory>
        ensures { IfOk result (AreNew channels capacities.now) }
    {
        let mut links = Vec::new(alloc);
        let mut number = 0u64;
        for capacity in capacities.as_slice() {
            let terms = Terms {
                capacity: *capacity,
                requests: u64::from(channels) <= number,
            };
            links.push(KeptLink::new(alloc, terms))?;
            number += 1;
        }
        Ok(Links { links })
    }

    /// Makes the spare of each link at least n. After want of memory all but the spares is as before.
    pub fn reserve(&mut self, n: u32) -> Result<(), NoMemory>
        ensures same { SameButSpares self.old self.new }
        ensures ok { OnOk result (All (λ v. n ≤ v.spare) self.new) }
    {
        for link in 0..self.links.len() {
            self.links[link].reserve(n)?;
        }
        Ok(())
    }

    /// The number of links. The two views of each agree, and each carries what was offered on it.
    pub fn len(&self) -> u64
        ensures count { result ≡ length self.now }
        ensures links { All IsLink self.now }
    {
        self.links.len() as u64
    }

    /// Counts one more call of this kind on the link.
    ///
    /// Condition: the link is in range.
    pub fn count(&mut self, link: u32, call: Call)
        requires { link < length self.old }
        ensures links { self.new ≡ with_link self.old link (with_call (link_at self.old link) call) }
        ensures terms { SameTerms self.old self.new }
    {
        self.links[link as usize].count(call);
    }

    /// Offers the payload on the link. It takes one from the link's spare.
    ///
    /// Condition: the link is in range, and carries such a payload.
    pub fn offer(&mut self, link: u32, payload: Payload, clock: &mut Clock) -> Offering<Payload>
        requires link { link < length self.old }
        requires payload { is_payload (link_at self.old link).terms.requests payload ≡ true }
        ensures answer { result ≡ offering (link_at self.old link) payload clock.old }
        ensures links { self.new ≡ with_link self.old link (after_offering (link_at self.old link) payload result) }
        ensures clock { clock.new ≡ offering_clock clock.old result }
        ensures terms { SameTerms self.old self.new }
    {
        self.links[link as usize].offer(payload, clock)
    }

    /// Withdraws the offer of this number, unless it was decided before.
    ///
    /// Condition: the link is in range, the owner has made the offer, has not withdrawn it and knows
    /// of no decision of it, and the clock's last stamp is at least that of the offer.
    pub fn withdraw(&mut self, link: u32, number: u64, clock: &mut Clock) -> Withdrawing
        requires link { link < length self.old }
        requires open { may_withdraw (slice_get (link_at self.old link).offers number) ≡ true }
        requires later { offer_stamp (slice_get (link_at self.old link).offers number) ≤ clock.old }
        ensures answer { result ≡ withdrawing (link_at self.old link) number clock.old }
        ensures links { self.new ≡ with_link self.old link (after_withdrawing (link_at self.old link) number result) }
        ensures clock { clock.new ≡ withdrawing_clock clock.old result }
        ensures terms { SameTerms self.old self.new }
    {
        self.links[link as usize].withdraw(number, clock)
    }

    /// Lets the owner know of the decision of the first of its offers that it does not know of.
    ///
    /// Condition: the link is in range.
    pub fn learn(&mut self, link: u32, clock: &mut Clock) -> Learning
        requires link { link < length self.old }
        ensures answer { result ≡ learning (link_at self.old link) clock.old }
        ensures links { self.new ≡ with_link self.old link (after_learning (link_at self.old link) result) }
        ensures clock { clock.new ≡ learning_clock clock.old result }
        ensures terms { SameTerms self.old self.new }
    {
        self.links[link as usize].learn(clock)
    }

    /// Lets the peer take the first offer that is not decided, or pass over it.
    ///
    /// Condition: the link is in range, and carries messages.
    pub fn take(&mut self, link: u32, clock: &mut Clock) -> Receiving<Message>
        requires link { link < length self.old }
        requires channel { (link_at self.old link).terms.requests ≡ false }
        ensures answer { result ≡ receiving (link_at self.old link) clock.old }
        ensures links { self.new ≡ with_link self.old link (after_receiving (link_at self.old link) result) }
        ensures clock { clock.new ≡ receiving_clock clock.old result }
        ensures terms { SameTerms self.old self.new }
    {
        self.links[link as usize].take(clock)
    }

    /// The first offer of a link of requests that is not decided, as its peer finds it. It is
    /// `ClockFull` where the clock has no stamp for an entry that decides it. The two views of the link
    /// agree.
    ///
    /// Condition: the link is in range.
    pub fn front(&self, alloc: Global, link: u32, clock: &Clock) -> Result<Front, NoMemory>
        requires { link < length self.now }
        ensures front { IfOk result (λ front. front ≡ fronting (link_at self.now link) clock.now) }
        ensures link { IsLink (link_at self.now link) }
    {
        self.links[link as usize].front(alloc, clock)
    }

    /// The peer has done the request at the front, with this answer. Gives the stamp of the entry.
    /// It takes no memory.
    ///
    /// Condition: the link is in range, its front is a request, and the answer fits it.
    pub fn done(&mut self, link: u32, answer: Answer, clock: &mut Clock) -> u64
        requires link { link < length self.old }
        requires open { may_do (fronting (link_at self.old link) clock.old) answer ≡ true }
        ensures stamp { result ≡ did_stamp (link_at self.old link) clock.old }
        ensures links { self.new ≡ with_link self.old link (after_doing (link_at self.old link) answer clock.old) }
        ensures clock { clock.new ≡ result }
        ensures terms { SameTerms self.old self.new }
    {
        self.links[link as usize].done(answer, clock)
    }

    /// The peer passes over the request at the front, which was withdrawn. Gives the stamp of the
    /// entry. It takes no memory.
    ///
    /// Condition: the link is in range, and its front is withdrawn.
    pub fn pass_request(&mut self, link: u32, clock: &mut Clock) -> u64
        requires link { link < length self.old }
        requires front { is_withdrawn (fronting (link_at self.old link) clock.old) ≡ true }
        ensures stamp { result ≡ pass_stamp (link_at self.old link) clock.old }
        ensures links { self.new ≡ with_link self.old link (after_passing (link_at self.old link) clock.old) }
        ensures clock { clock.new ≡ result }
        ensures terms { SameTerms self.old self.new }
    {
        self.links[link as usize].pass_request(clock)
    }

    /// Lets the owner note the answer that has come back, of an entry of this stamp, at its least
    /// request that is neither withdrawn nor replied. Gives the number of that request. It takes no
    /// memory.
    ///
    /// Condition: the link is in range and carries requests, and of the answers that the owner has
    /// not had this is the first.
    pub fn reply(&mut self, link: u32, answer: Answer, of: u64) -> u64
        requires link { link < length self.old }
        requires requests { (link_at self.old link).terms.requests ≡ true }
        requires next { ReplyIsNext (link_at self.old link) answer of }
        ensures number { result ≡ least_open (link_at self.old link).offers }
        ensures links { self.new ≡ with_link self.old link (after_reply (link_at self.old link) answer of) }
        ensures terms { SameTerms self.old self.new }
    {
        self.links[link as usize].reply(answer, of)
    }
}
