//! One link: its offers in order, which entries fit after them, and what an entry makes of them.

ghost use Rattle.std.specs.Prelude.{◌≡◌, ◌≤◌, ◌||◌, length, IfOk, OnErr, slice_get, Some, None, MatchOption, [], false, min};
ghost use Rattle.std.specs.List.{list_any};
ghost use Rattle.ac_links.specs.AtRest.{has_front, has_room, is_news, is_unreplied};
ghost use Rattle.ac_links.specs.Payloads.Taking.{Message as Carries, Done};
ghost use Rattle.ac_links.specs.Link.{front_of, known_lead, can_offer, can_take, can_know, can_withdraw, can_pass, can_free, can_reply};
ghost use Rattle.ac_links.specs.Link.{link_fits, answered, standing_stamp, offered_payload, link_after, number_of};
ghost use Rattle.ac_links.specs.inner.Counting.{gives_standing, is_learned};
ghost use Rattle.ac_links.specs.Link.{changed, stands, taken_with, now_known, now_replied, new_offer};

use crate::events::number_of;
use crate::offer::{LinkOffer, Standing};
use crate::payloads::{Terms, answer_fits, has_answer, is_payload, message_fits};
use ac_base::{Answer, Event, Message, NoMemory, Payload};
use std::alloc::Global;
use std::marker::Model;

/// The number of the least offer that is not decided, sought from one on.
fn front_from(offers: &[LinkOffer], from: usize) -> usize
    requires { from ≤ front_of offers.now }
    ensures { result ≡ front_of offers.now }
{
    let mut n = from;
    while n < offers.len() && offers[n].standing.is_decided() {
        n += 1;
    }
    n
}

/// How many leading offers are known, sought from one on.
fn lead_from(offers: &[LinkOffer], from: usize) -> usize
    requires { from ≤ known_lead offers.now }
    ensures { result ≡ known_lead offers.now }
{
    let mut n = from;
    while n < offers.len() && offers[n].known {
        n += 1;
    }
    n
}

fn gives_standing(event: &Event) -> bool
    ensures { result ≡ gives_standing event.now }
{
    !matches!(
        event,
        Event::Know { .. } | Event::Room { .. } | Event::Reply { .. }
    )
}

fn is_learned(event: &Event) -> bool
    ensures { result ≡ is_learned event.now }
{
    matches!(event, Event::Know { .. } | Event::Room { .. })
}

// The front after an event that made these offers. A late reply to one far back is no reason to go
// over the offers since.
fn front_after(offers: &[LinkOffer], front: usize, event: &Event) -> usize
    requires least { min front (number_of event.now) ≤ front_of offers.now }
    requires same { gives_standing event.now ≡ false → front_of offers.now ≡ front }
    ensures { result ≡ front_of offers.now }
{
    if gives_standing(event) {
        front_from(offers, front.min(number_of(event) as usize))
    } else {
        front
    }
}

fn lead_after(offers: &[LinkOffer], lead: usize, event: &Event) -> usize
    requires least { min lead (number_of event.now) ≤ known_lead offers.now }
    requires same { is_learned event.now ≡ false → known_lead offers.now ≡ lead }
    ensures { result ≡ known_lead offers.now }
{
    if is_learned(event) {
        lead_from(offers, lead.min(number_of(event) as usize))
    } else {
        lead
    }
}

// Gives the offer of that number a standing.
fn stand(offers: &mut Vec<LinkOffer>, number: u64, standing: Standing, stamp: u64)
    ensures { offers.new.items ≡ changed offers.old.items number (stands standing stamp) (slice_get offers.old.items number) }
{
    if let Some(offer) = offers.get_mut(number as usize) {
        offer.standing = standing;
        offer.stamp = stamp;
    }
}

// Takes the offer of that number, a request with its answer.
fn take(offers: &mut Vec<LinkOffer>, number: u64, answer: Option<Answer>, stamp: u64)
    ensures { offers.new.items ≡ changed offers.old.items number (taken_with answer stamp) (slice_get offers.old.items number) }
{
    if let Some(offer) = offers.get_mut(number as usize) {
        offer.standing = Standing::Taken;
        offer.stamp = stamp;
        offer.answer = answer;
    }
}

fn know(offers: &mut Vec<LinkOffer>, number: u64)
    ensures { offers.new.items ≡ changed offers.old.items number now_known (slice_get offers.old.items number) }
{
    if let Some(offer) = offers.get_mut(number as usize) {
        offer.known = true;
    }
}

fn reply(offers: &mut Vec<LinkOffer>, number: u64)
    ensures { offers.new.items ≡ changed offers.old.items number now_replied (slice_get offers.old.items number) }
{
    if let Some(offer) = offers.get_mut(number as usize) {
        offer.replied = true;
    }
}

fn new_offer(alloc: Global, payload: &Payload, stamp: u64) -> Result<LinkOffer, NoMemory>
    ensures { IfOk result (λ it. it ≡ new_offer payload.now stamp) }
{
    Ok(LinkOffer {
        payload: payload.copy(alloc)?,
        standing: Standing::Offered,
        stamp,
        known: false,
        answer: None,
        replied: false,
    })
}

// What the entry makes of the offers.
fn change(
    alloc: Global,
    offers: &mut Vec<LinkOffer>,
    stamp: u64,
    event: &Event,
) -> Result<(), NoMemory>
    ensures ok { IfOk result (λ _. offers.new.items ≡ link_after offers.old.items stamp event.now) }
    ensures err { OnErr result (offers.new.items ≡ offers.old.items) }
{
    match event {
        Event::Offer { payload, .. } => offers.push(new_offer(alloc, payload, stamp)?)?,
        Event::Withdraw { number, .. } => stand(offers, *number, Standing::Withdrawn, stamp),
        Event::Know { number, .. } => know(offers, *number),
        Event::Room { number, .. } => know(offers, *number),
        Event::Got { number, .. } => take(offers, *number, None, stamp),
        Event::Pass { number, .. } => stand(offers, *number, Standing::Passed, stamp),
        Event::Did { number, answer, .. } => {
            let answer = answer.copy(alloc)?;
            take(offers, *number, Some(answer), stamp);
        }
        Event::Reply { number, .. } => reply(offers, *number),
    }
    Ok(())
}

// What the entry makes of the offers, and the front that they have then.
#[tactic(auto, using(crate::proofs::Leading::front_after, crate::proofs::Leading::front_stays))]
fn change_and_front(
    alloc: Global,
    offers: &mut Vec<LinkOffer>,
    front: usize,
    stamp: u64,
    event: &Event,
) -> Result<usize, NoMemory>
    requires { front ≡ front_of offers.old.items }
    ensures ok { IfOk result (λ _. offers.new.items ≡ link_after offers.old.items stamp event.now) }
    ensures front { IfOk result (λ it. it ≡ front_of offers.new.items) }
    ensures err { OnErr result (offers.new.items ≡ offers.old.items) }
{
    change(alloc, offers, stamp, event)?;
    Ok(front_after(offers.as_slice(), front, event))
}

/// The offers of one link.
#[derive(Debug, Drop)]
pub struct Link {
    offers: Vec<LinkOffer>,
    /// The number of the least offer that is not decided.
    front: usize,
    /// How many leading offers are known.
    lead: usize,
}

impl Model for Link {
    ghost use Rattle.std.specs.Prelude.{List};
    ghost use Rattle.ac_links.specs.declared.offer.LinkOffer.{LinkOffer};
    ghost use Rattle.std.specs.Prelude.{◌≡◌};
    ghost use Rattle.ac_links.specs.Link.{front_of, known_lead};

    ghost Value = { List LinkOffer };

    ghost view = { λ it. it.offers.items };

    ghost invariant = { λ it. (it.front ≡ front_of it.offers.items) × (it.lead ≡ known_lead it.offers.items) };
}

impl Link {
    /// A link on which nothing has been offered.
    pub fn new(alloc: Global) -> Link
        ensures { result ≡ [] }
    {
        Link {
            offers: Vec::new(alloc),
            front: 0,
            lead: 0,
        }
    }

    /// Whether some offer is not decided.
    pub fn has_front(&self) -> bool
        ensures { result ≡ has_front self.now }
    {
        self.front < self.offers.len()
    }

    /// Whether there is room for one offer more.
    #[tactic(auto, using(crate::proofs::Leading::lead_within))]
    pub fn has_room(&self, terms: Terms) -> bool
        ensures { result ≡ has_room terms self.now }
    {
        self.offers.len() - self.lead < terms.capacity as usize
    }

    /// Whether something has become of an offer that its owner has not had.
    pub fn has_news(&self) -> bool
        ensures { result ≡ list_any (λ o. is_news o || is_unreplied o) self.now }
    {
        self.offers
            .iter()
            .any(|offer| offer.is_news() || offer.is_unreplied())
    }

    fn can_offer(&self, terms: Terms, number: u64, payload: &Payload) -> bool
        ensures { result ≡ can_offer terms self.now number payload.now }
    {
        number == self.offers.len() as u64
            && self.has_room(terms)
            && is_payload(terms.requests, payload)
    }

    fn can_take(&self, number: u64, value: &Message) -> bool
        ensures { result ≡ can_take self.now number (Carries value.now) }
    {
        if number != self.front as u64 {
            return false;
        }
        match self.offers.get(number as usize) {
            Some(offer) => offer.standing.is_offered() && message_fits(&offer.payload, value),
            None => false,
        }
    }

    fn can_do(&self, number: u64, answer: &Answer) -> bool
        ensures { result ≡ can_take self.now number (Done answer.now) }
    {
        if number != self.front as u64 {
            return false;
        }
        match self.offers.get(number as usize) {
            Some(offer) => offer.standing.is_offered() && answer_fits(&offer.payload, answer),
            None => false,
        }
    }

    fn can_reply(&self, number: u64, answer: &Answer) -> bool
        ensures { result ≡ can_reply self.now number answer.now }
    {
        match self.offers.get(number as usize) {
            Some(offer) => has_answer(&offer.answer, answer) && !offer.replied,
            None => false,
        }
    }

    fn can_know(&self, number: u64) -> bool
        ensures { result ≡ can_know self.now number }
    {
        match self.offers.get(number as usize) {
            Some(offer) => offer.standing.is_taken() && !offer.known,
            None => false,
        }
    }

    fn can_withdraw(&self, number: u64) -> bool
        ensures { result ≡ can_withdraw self.now number }
    {
        match self.offers.get(number as usize) {
            Some(offer) => offer.standing.is_offered(),
            None => false,
        }
    }

    fn can_pass(&self, number: u64) -> bool
        ensures { result ≡ can_pass self.now number }
    {
        if number != self.front as u64 {
            return false;
        }
        match self.offers.get(number as usize) {
            Some(offer) => offer.standing.is_withdrawn(),
            None => false,
        }
    }

    fn can_free(&self, number: u64) -> bool
        ensures { result ≡ can_free self.now number }
    {
        match self.offers.get(number as usize) {
            Some(offer) => offer.standing.is_passed() && !offer.known,
            None => false,
        }
    }

    /// Whether the entry is one that the link allows now.
    pub fn fits(&self, terms: Terms, event: &Event) -> bool
        ensures { result ≡ link_fits terms self.now event.now }
    {
        match event {
            Event::Offer {
                number,
                payload,
                ..
            } => self.can_offer(terms, *number, payload),
            Event::Got { number, value, .. } => self.can_take(*number, value),
            Event::Know { number, .. } => self.can_know(*number),
            Event::Withdraw { number, .. } => self.can_withdraw(*number),
            Event::Pass { number, .. } => self.can_pass(*number),
            Event::Room { number, .. } => self.can_free(*number),
            Event::Did { number, answer, .. } => self.can_do(*number, answer),
            Event::Reply { number, answer, .. } => self.can_reply(*number, answer),
        }
    }

    /// What was offered under the number.
    pub fn payload(&self, number: u64) -> Option<&Payload>
        ensures { MatchOption result (offered_payload (slice_get self.now number) ≡ None)
            (λ it. offered_payload (slice_get self.now number) ≡ Some it.now) }
    {
        match self.offers.get(number as usize) {
            Some(offer) => Some(&offer.payload),
            None => None,
        }
    }

    fn stamp_of(&self, number: u64) -> u64
        ensures { result ≡ standing_stamp (slice_get self.now number) }
    {
        match self.offers.get(number as usize) {
            Some(offer) => offer.stamp,
            None => 0,
        }
    }

    /// The stamp of the entry that this one answers, or 0.
    pub fn answered(&self, event: &Event) -> u64
        ensures { result ≡ answered self.now event.now }
    {
        match event {
            Event::Got { number, .. } => self.stamp_of(*number),
            Event::Know { number, .. } => self.stamp_of(*number),
            Event::Pass { number, .. } => self.stamp_of(*number),
            Event::Room { number, .. } => self.stamp_of(*number),
            Event::Did { number, .. } => self.stamp_of(*number),
            Event::Reply { number, .. } => self.stamp_of(*number),
            Event::Offer { .. } => 0,
            Event::Withdraw { .. } => 0,
        }
    }

    /// What the entry makes of the link.
    #[tactic(auto, using(crate::proofs::Leading::lead_after, crate::proofs::Leading::lead_stays))]
    pub fn add(&mut self, alloc: Global, stamp: u64, event: &Event) -> Result<(), NoMemory>
        ensures ok { IfOk result (λ _. self.new ≡ link_after self.old stamp event.now) }
        ensures err { OnErr result (self.new ≡ self.old) }
    {
        self.front = change_and_front(alloc, &mut self.offers, self.front, stamp, event)?;
        self.lead = lead_after(self.offers.as_slice(), self.lead, event);
        Ok(())
    }
}
