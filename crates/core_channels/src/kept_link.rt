//! One link, as both of its sides know it.

ghost use Rattle.std.specs.Prelude.{◌≡◌, ◌≤◌, OnOk, IfOk, Some, true, false, nat_lt, slice_get};
ghost use Rattle.std.specs.Prelude.{length, ◌<◌, ◌^◌, [], ◌∷◌, ◌++◌, vec_len, vec_capacity};
ghost use Rattle.ac_links.specs.Payloads.{is_payload};
ghost use Rattle.ac_links.specs.Views.{owner_lead, may_withdraw, altered, known_at, withdrawn_at, replied_with};
ghost use Rattle.ac_links.specs.Replies.{least_open};
ghost use Rattle.ac_base.specs.Stamps.{next_stamp};
ghost use Rattle.core_channels.specs.LinkViews.{IsLink, AreViews, without_spare, new_link, with_call};
ghost use Rattle.core_channels.specs.Offers.{has_room, offering, after_offering, offering_clock};
ghost use Rattle.ac_links.specs.Noted.{decision_stamp, offer_stamp};
ghost use Rattle.core_channels.specs.Learns.{with_known, learning, after_learning, learning_clock};
ghost use Rattle.core_channels.specs.Withdraws.{withdrawing, after_withdrawing, withdrawing_clock};
ghost use Rattle.core_channels.specs.Takes.{message_of, with_decision, receiving, after_receiving, receiving_clock};
ghost use Rattle.core_channels.specs.Requests.{next_offer, withdrawn_front, request_front, front_by, fronting, is_withdrawn, may_do};
ghost use Rattle.core_channels.specs.Requests.{did_stamp, after_doing, pass_stamp, after_passing, ReplyIsNext, after_reply};

use crate::answers::{Front, Learning, Offering, Receiving, Withdrawing};
use crate::counts::{Call, Counts};
use crate::decision::Decision;
use crate::offer::Offer;
use ac_base::{Answer, Clock, Message, NoMemory, Payload};
use ac_links::Terms;
use std::alloc::Global;
use std::marker::Model;

// How many offers there are before the first that is not known, of which these are known.
fn lead_from(offers: &[Offer], from: usize) -> usize
    requires { from ≤ owner_lead offers.now }
    ensures { result ≡ owner_lead offers.now }
{
    let mut n = from;
    while n < offers.len() && offers[n].is_known() {
        n += 1;
    }
    n
}

// How many offers there are before the first to which a reply may come, of which these are there.
fn open_from(offers: &[Offer], from: usize) -> usize
    requires { from ≤ least_open offers.now }
    ensures { result ≡ least_open offers.now }
{
    let mut n = from;
    while n < offers.len() && offers[n].is_closed() {
        n += 1;
    }
    n
}

// The stamp of an entry that answers one of this stamp.
fn stamp_of(clock: &Clock, seen: u64) -> u64
    requires { next_stamp clock.now seen < 2 ^ 60 }
    ensures { result ≡ next_stamp clock.now seen }
{
    clock.last().max(seen) + 1
}

// Notes at the offer of this number that its decision, of this stamp, is known.
#[tactic(auto, using(crate::proofs::Keeping::set_is_altered))]
fn note_known(offers: &mut Vec<Offer>, number: usize, stamp: u64)
    requires { number < length offers.old.items }
    ensures offers { offers.new.items ≡ altered offers.old.items number (known_at stamp) }
    ensures len { vec_len offers.new ≡ vec_len offers.old }
    ensures capacity { vec_capacity offers.new ≡ vec_capacity offers.old }
{
    offers[number].know(stamp);
}

// Notes at the offer of this number that it was withdrawn by an entry of this stamp.
#[tactic(auto, using(crate::proofs::Keeping::set_is_altered))]
fn note_withdrawn(offers: &mut Vec<Offer>, number: usize, stamp: u64)
    requires { number < length offers.old.items }
    ensures offers { offers.new.items ≡ altered offers.old.items number (withdrawn_at stamp) }
    ensures len { vec_len offers.new ≡ vec_len offers.old }
    ensures capacity { vec_capacity offers.new ≡ vec_capacity offers.old }
{
    offers[number].withdraw(stamp);
}

// Notes at the offer of this number the answer that came, of an entry of this stamp.
#[tactic(auto, using(crate::proofs::Keeping::set_is_altered))]
fn note_reply(offers: &mut Vec<Offer>, number: usize, answer: Answer, of: u64)
    requires { number < length offers.old.items }
    ensures offers { offers.new.items ≡ altered offers.old.items number (replied_with answer of) }
    ensures len { vec_len offers.new ≡ vec_len offers.old }
    ensures capacity { vec_capacity offers.new ≡ vec_capacity offers.old }
{
    offers[number].reply(answer, of);
}

fn message_of(payload: &Payload) -> Message
    ensures { result ≡ message_of payload.now }
{
    match payload {
        Payload::Int(value) => *value,
        Payload::Read { .. } => Message::of(0),
        Payload::Write { .. } => Message::of(0),
    }
}

// What a withdrawn offer is to the peer, where this is the stamp of the entry by which it is passed.
fn withdrawn_front(number: u64, stamp: Option<u64>) -> Front
    ensures { result ≡ withdrawn_front number stamp }
{
    match stamp {
        Some(_) => Front::Withdrawn { number },
        None => Front::ClockFull,
    }
}

// What a standing offer is to the peer, where this is the stamp of the entry by which it is done.
fn request_front(
    alloc: Global,
    number: u64,
    payload: &Payload,
    stamp: Option<u64>,
) -> Result<Front, NoMemory>
    ensures { IfOk result (λ front. front ≡ request_front number payload.now stamp) }
{
    match stamp {
        Some(_) => Ok(Front::Request {
            number,
            payload: payload.copy(alloc)?,
        }),
        None => Ok(Front::ClockFull),
    }
}

// What the offer of this number is to a peer that comes to it.
fn offer_front(alloc: Global, number: u64, offer: &Offer, clock: &Clock) -> Result<Front, NoMemory>
    ensures { IfOk result (λ front. front ≡ front_by clock.now number offer.now offer.now.withdrawn) }
{
    match offer.withdrawn() {
        Some(withdrawn) => Ok(withdrawn_front(number, clock.after(withdrawn))),
        None => request_front(alloc, number, offer.payload(), clock.after(offer.stamp())),
    }
}

/// A link with all its offers and decisions.
#[derive(Drop)]
pub struct KeptLink {
    terms: Terms,
    offers: Vec<Offer>,
    decisions: Vec<Decision>,
    /// How many offers there are before the first that is not known.
    lead: usize,
    /// Of so many offers at the front each is withdrawn or replied.
    open: usize,
    counts: Counts,
}

impl Model for KeptLink {
    ghost use Rattle.std.specs.Prelude.{◌-◌, min, vec_len, vec_capacity};
    ghost use Rattle.core_channels.specs.LinkViews.{LinkViews};

    ghost Value = { LinkViews };

    ghost use Rattle.core_channels.specs.inner.Keeping.{IsKept};

    ghost view = { λ it. record {
      terms = it.terms;
      offers = it.offers.items;
      decisions = it.decisions.items;
      spare = min (vec_capacity it.offers) (vec_capacity it.decisions) - vec_len it.offers;
      counts = it.counts;
    } };

    ghost invariant = { IsKept };
}

impl KeptLink {
    pub fn new(alloc: Global, terms: Terms) -> KeptLink
        ensures state { without_spare result ≡ new_link terms }
        ensures link { IsLink result }
    {
        KeptLink {
            terms,
            offers: Vec::new(alloc),
            decisions: Vec::new(alloc),
            lead: 0,
            open: 0,
            counts: Counts::none(),
        }
    }

    /// Makes the spare at least n.
    #[tactic(auto, using(crate::proofs::Keeping::decided_within))]
    pub fn reserve(&mut self, n: u32) -> Result<(), NoMemory>
        ensures same { without_spare self.new ≡ without_spare self.old }
        ensures ok { OnOk result (n ≤ self.new.spare) }
        ensures link { IsLink self.new }
    {
        let n = n as usize;
        self.offers.reserve(n)?;
        self.decisions
            .reserve(self.offers.len() - self.decisions.len() + n)?;
        Ok(())
    }

    /// Counts one more call of this kind.
    pub fn count(&mut self, call: Call)
        ensures views { self.new ≡ with_call self.old call }
        ensures link { IsLink self.new }
    {
        self.counts.count(call);
    }

    #[tactic(auto, using(crate::proofs::Leads::lead_within))]
    fn has_room(&self) -> bool
        ensures { result ≡ has_room self.now }
    {
        self.offers.len() - self.lead < self.terms.capacity as usize
    }

    fn has_spare(&self) -> bool
        ensures { result ≡ nat_lt 0 self.now.spare }
    {
        self.offers.len() < self.offers.capacity().min(self.decisions.capacity())
    }

    pub fn offer(&mut self, payload: Payload, clock: &mut Clock) -> Offering<Payload>
        requires { is_payload self.old.terms.requests payload ≡ true }
        ensures answer { result ≡ offering self.old payload clock.old }
        ensures views { self.new ≡ after_offering self.old payload result }
        ensures clock { clock.new ≡ offering_clock clock.old result }
        ensures link { IsLink self.new }
    {
        if !self.has_room() {
            return Offering::NoRoom(payload);
        }
        let Some(stamp) = clock.after(0) else {
            return Offering::ClockFull(payload);
        };
        if !self.has_spare() {
            return Offering::NotYet(payload);
        }
        clock.set(stamp);
        let number = self.offers.len() as u64;
        self.offers.push_reserved(Offer::new(payload, stamp));
        Offering::Offered { number, stamp }
    }

    // The decision of the offer of this number is known from now on.
    #[tactic(auto, using(crate::proofs::Leads::lead_known, crate::proofs::Keeping::decided_within))]
    fn know(&mut self, number: usize, stamp: u64)
        requires stamp { decision_stamp (slice_get self.old.decisions number) ≡ stamp }
        requires decided { number < length self.old.decisions }
        ensures views { self.new ≡ with_known self.old number }
        ensures link { IsLink self.new }
    {
        note_known(&mut self.offers, number, stamp);
        self.lead = lead_from(self.offers.as_slice(), self.lead);
    }

    #[tactic(auto, using(crate::proofs::Leads::lead_within))]
    pub fn learn(&mut self, clock: &mut Clock) -> Learning
        ensures answer { result ≡ learning self.old clock.old }
        ensures views { self.new ≡ after_learning self.old result }
        ensures clock { clock.new ≡ learning_clock clock.old result }
        ensures link { IsLink self.new }
    {
        let number = self.lead;
        let Some(offer) = self.offers.get(number) else {
            return Learning::AllKnown;
        };
        let Some(decision) = self.decisions.get(number) else {
            return Learning::Undecided;
        };
        let withdrawn = offer.withdrawn().is_some();
        let decided = decision.stamp();
        let Some(stamp) = clock.after(decided) else {
            return Learning::ClockFull;
        };
        clock.set(stamp);
        self.know(number, decided);
        let number = number as u64;
        if withdrawn {
            Learning::Room { number, stamp }
        } else {
            Learning::Know { number, stamp }
        }
    }

    pub fn withdraw(&mut self, number: u64, clock: &mut Clock) -> Withdrawing
        requires open { may_withdraw (slice_get self.old.offers number) ≡ true }
        requires later { offer_stamp (slice_get self.old.offers number) ≤ clock.old }
        ensures answer { result ≡ withdrawing self.old number clock.old }
        ensures views { self.new ≡ after_withdrawing self.old number result }
        ensures clock { clock.new ≡ withdrawing_clock clock.old result }
        ensures link { IsLink self.new }
    {
        let number = number as usize;
        let Some(decision) = self.decisions.get(number) else {
            let Some(stamp) = clock.after(0) else {
                return Withdrawing::ClockFull;
            };
            clock.set(stamp);
            note_withdrawn(&mut self.offers, number, stamp);
            return Withdrawing::Withdrawn { stamp };
        };
        let decided = decision.stamp();
        let Some(stamp) = clock.after(decided) else {
            return Withdrawing::ClockFull;
        };
        clock.set(stamp);
        self.know(number, decided);
        Withdrawing::Taken { stamp }
    }

    // The first offer that is not decided is decided so.
    fn decide(&mut self, decision: Decision)
        requires place { length self.old.decisions < length self.old.offers }
        requires fits { AreViews self.old.terms.requests self.old.offers (self.old.decisions ++ decision ∷ []) }
        ensures views { self.new ≡ with_decision self.old decision }
        ensures link { IsLink self.new }
    {
        self.decisions.push_reserved(decision);
    }

    pub fn take(&mut self, clock: &mut Clock) -> Receiving<Message>
        requires { self.old.terms.requests ≡ false }
        ensures answer { result ≡ receiving self.old clock.old }
        ensures views { self.new ≡ after_receiving self.old result }
        ensures clock { clock.new ≡ receiving_clock clock.old result }
        ensures link { IsLink self.new }
    {
        let number = self.decisions.len();
        let Some(offer) = self.offers.get(number) else {
            return Receiving::Nothing;
        };
        let number = number as u64;
        if let Some(withdrawn) = offer.withdrawn() {
            let Some(stamp) = clock.after(withdrawn) else {
                return Receiving::ClockFull;
            };
            clock.set(stamp);
            self.decide(Decision::passed(stamp, withdrawn));
            return Receiving::Passed { number, stamp };
        }
        let offered = offer.stamp();
        let value = message_of(offer.payload());
        let Some(stamp) = clock.after(offered) else {
            return Receiving::ClockFull;
        };
        clock.set(stamp);
        self.decide(Decision::took(value, stamp, offered));
        Receiving::Took {
            number,
            value,
            stamp,
        }
    }

    /// The first offer that is not decided.
    #[tactic(auto, using(crate::proofs::Answering::read_at, crate::proofs::Fronts::front_is))]
    pub fn front(&self, alloc: Global, clock: &Clock) -> Result<Front, NoMemory>
        ensures front { IfOk result (λ front. front ≡ fronting self.now clock.now) }
        ensures link { IsLink self.now }
    {
        let number = self.decisions.len();
        match self.offers.get(number) {
            None => Ok(Front::Nothing),
            Some(offer) => offer_front(alloc, number as u64, offer, clock),
        }
    }

    // The first offer that is not decided, where there is one.
    fn next(&self) -> &Offer
        requires { length self.now.decisions < length self.now.offers }
        ensures there { next_offer self.now ≡ Some result.now }
        ensures link { IsLink self.now }
    {
        &self.offers[self.decisions.len()]
    }

    pub fn done(&mut self, answer: Answer, clock: &mut Clock) -> u64
        requires { may_do (fronting self.old clock.old) answer ≡ true }
        ensures stamp { result ≡ did_stamp self.old clock.old }
        ensures views { self.new ≡ after_doing self.old answer clock.old }
        ensures clock { clock.new ≡ result }
        ensures link { IsLink self.new }
    {
        let offered = self.next().stamp();
        let stamp = stamp_of(clock, offered);
        clock.set(stamp);
        self.decide(Decision::did(answer, stamp, offered));
        stamp
    }

    pub fn pass_request(&mut self, clock: &mut Clock) -> u64
        requires { is_withdrawn (fronting self.old clock.old) ≡ true }
        ensures stamp { result ≡ pass_stamp self.old clock.old }
        ensures views { self.new ≡ after_passing self.old clock.old }
        ensures clock { clock.new ≡ result }
        ensures link { IsLink self.new }
    {
        let since = self.next().withdrawal();
        let stamp = stamp_of(clock, since);
        clock.set(stamp);
        self.decide(Decision::passed(stamp, since));
        stamp
    }

    pub fn reply(&mut self, answer: Answer, of: u64) -> u64
        requires requests { self.old.terms.requests ≡ true }
        requires next { ReplyIsNext self.old answer of }
        ensures number { result ≡ least_open self.old.offers }
        ensures views { self.new ≡ after_reply self.old answer of }
        ensures link { IsLink self.new }
    {
        let number = open_from(self.offers.as_slice(), self.open);
        self.open = number;
        note_reply(&mut self.offers, number, answer, of);
        number as u64
    }
}
