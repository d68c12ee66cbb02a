//! A relay that merges the messages of several channels into one.

ghost use Rattle.std.specs.Prelude.{◌≡◌, ◌<◌, ◌≤◌, ◌^◌, length, slice_get, Some, None};
ghost use Rattle.channel_ends.specs.Sending.{AreWithin, known_lead};
ghost use Rattle.channel_ends.specs.Settled.{AreEnds};
ghost use Rattle.ac_choice.specs.Relaying.{Carries};
ghost use Rattle.ac_choice.specs.Steps.{Steps, OffersAsTold, IsSameRelay, is_full};
ghost use Rattle.ac_choice.specs.Settling.{HaveDecidedNone, HasOfferedNone, new_relay, SettlesEnd, SettlesOut};
ghost use Rattle.ac_choice.specs.Inside.{IsRelay};
ghost use Rattle.ac_choice.specs.inner.Offering.{Puts, Fetches, relay_of};

use crate::answers::{Any, Relayed, Tagged};
use crate::choosing::{end_after, take_any};
use ac_base::Clock;
use channel_ends::{RecvEnd, SendEnd, settle};
use core_channels::{Learning, Offering};
use rtrb::AnyItems;
use std::marker::Model;

/// Takes the messages of several channels and offers each on another one, with the number of the end at
/// which it was taken. It is the one party of all these ends, and holds at most one message.
///
/// Contracts see its ends, the message that it holds, which end it asks first, and the stamp of its last
/// entry. None of its calls waits or takes memory.
#[derive(Drop)]
pub struct Relay<'a> {
    ins: Vec<RecvEnd<'a, i64, AnyItems>>,
    out: SendEnd<'a, Tagged, AnyItems>,
    held: Option<Tagged>,
    first: u32,
    clock: Clock,
}

impl<'a> Model for Relay<'a> {
    ghost use Rattle.ac_choice.specs.Relaying.{Relaying};

    ghost Value = { Relaying };

    ghost use Rattle.ac_choice.specs.Inside.{relaying_of, IsRelaying};

    ghost view = { relaying_of };

    ghost invariant = { IsRelaying };
}

// Whether all stamps are used.
fn is_full(answer: Learning) -> bool
    ensures { result ≡ is_full answer }
{
    matches!(answer, Learning::ClockFull)
}

// Offers a message, and gives it back where it was not offered.
fn offer_one(
    out: &mut SendEnd<'_, Tagged, AnyItems>,
    message: Tagged,
    clock: &mut Clock,
) -> (Relayed, Option<Tagged>)
    requires { AreWithin clock.old out.old.notes.offers }
    ensures { Puts out.old message clock.old result.0 result.1 out.new clock.new }
{
    match out.offer(message, clock) {
        Offering::Offered { .. } => (Relayed::Moved { end: message.end }, None),
        Offering::NoRoom(back) => (Relayed::NoRoom, Some(back)),
        Offering::NotYet(back) => (Relayed::NotYet, Some(back)),
        Offering::ClockFull(back) => (Relayed::ClockFull, Some(back)),
    }
}

// Takes a message from the first of the ends in turn that has one to give, and offers it.
fn fetch_one(
    ins: &mut [RecvEnd<'_, i64, AnyItems>],
    first: &mut u32,
    out: &mut SendEnd<'_, Tagged, AnyItems>,
    clock: &mut Clock,
) -> (Relayed, Option<Tagged>)
    requires { IsRelay (relay_of ins.old out.old None first.old clock.old) }
    ensures { Fetches (relay_of ins.old out.old None first.old clock.old) result.0
        (relay_of ins.new out.new result.1 first.new clock.new) }
{
    let count = ins.len() as u32;
    match take_any(ins, *first, clock) {
        Any::Took { end, value, .. } => {
            *first = end_after(count, end);
            offer_one(out, Tagged { end, value }, clock)
        }
        Any::Passed { end, .. } => {
            *first = end_after(count, end);
            (Relayed::Passed, None)
        }
        Any::Nothing => (Relayed::Nothing, None),
        Any::NotYet { .. } => (Relayed::NotYet, None),
        Any::ClockFull => (Relayed::ClockFull, None),
    }
}

impl<'a> Relay<'a> {
    /// A relay between these ends, with a new clock.
    ///
    /// Conditions: there is at least one end to take at, there are fewer than 2^32, and no end has made an
    /// entry.
    pub fn new(
        ins: Vec<RecvEnd<'a, i64, AnyItems>>,
        out: SendEnd<'a, Tagged, AnyItems>,
    ) -> Relay<'a>
        requires some { 0 < length ins.items }
        requires few { length ins.items < 2 ^ 32 }
        requires undecided { HaveDecidedNone ins.items }
        requires unoffered { HasOfferedNone out }
        ensures { result ≡ new_relay ins.entry.items out.entry }
    {
        Relay {
            ins,
            out,
            held: None,
            first: 0,
            clock: Clock::new(0),
        }
    }

    /// Learns at the end on which it offers, and then offers the message that it holds, or takes one, from
    /// the first end in turn that has one to give, and offers that. What it could not offer it holds. The
    /// end after the one that took or passed is the first to be asked from then on.
    ///
    /// `Moved` comes exactly where an offer of this call was made; `Passed` and `Nothing` only where it
    /// held no message, and its ends answered so; `NoRoom` only where its offer was answered so; `NotYet`
    /// and `ClockFull` only where an offer, the ends or, for `ClockFull`, the learning was.
    pub fn step(&mut self) -> Relayed
        ensures step { Steps self.old result self.new }

        // At any moment what it has offered and then what it holds is, of each end, what it has taken there.
        ensures carries { Carries self.new }
        ensures offers { OffersAsTold self.old.out.payloads result self.new.out.payloads }
        ensures rises { self.old.clock ≤ self.new.clock }
        ensures same { IsSameRelay self.old self.new }
    {
        if is_full(self.out.learn(&mut self.clock)) {
            return Relayed::ClockFull;
        }
        match self.held {
            Some(message) => {
                let (answer, held) = offer_one(&mut self.out, message, &mut self.clock);
                self.held = held;
                answer
            }
            None => {
                let (answer, held) = fetch_one(
                    self.ins.as_mut_slice(),
                    &mut self.first,
                    &mut self.out,
                    &mut self.clock,
                );
                self.held = held;
                answer
            }
        }
    }

    /// Lets the end of this number, and the end that sends to it, know all that the other has done.
    ///
    /// Condition: the two are of one pair.
    pub fn settle_end(&mut self, end: u32, send: &mut SendEnd<'_, i64, AnyItems>)
        requires end { end < length self.old.ins }
        requires pair { (r : _) → slice_get self.old.ins end ≡ Some r → AreEnds send.old r }
        ensures { SettlesEnd self.old end send.old send.new self.new }
    {
        settle(send, &mut self.ins[end as usize]);
    }

    /// Lets the end on which it offers, and the one that receives from it, know all that the other has
    /// done.
    ///
    /// Condition: the two are of one pair.
    pub fn settle_out(&mut self, recv: &mut RecvEnd<'_, Tagged, AnyItems>)
        requires { AreEnds self.old.out recv.old }
        ensures { SettlesOut self.old recv.old recv.new self.new }
    {
        settle(&mut self.out, recv);
    }

    /// How many ends it takes at.
    pub fn ends(&self) -> u32
        ensures { result ≡ length self.now.ins }
    {
        self.ins.len() as u32
    }

    /// How many offers are decided at the end of this number.
    pub fn decided(&self, end: u32) -> u64
        requires { end < length self.now.ins }
        ensures { (r : _) → slice_get self.now.ins end ≡ Some r → result ≡ length r.peer.decisions }
    {
        self.ins[end as usize].decided()
    }

    /// How many messages it has offered.
    pub fn offered(&self) -> u64
        ensures { result ≡ length self.now.out.notes.offers }
    {
        self.out.offered()
    }

    /// How many of its offers there are before the first that is not known.
    pub fn known(&self) -> u64
        ensures { result ≡ known_lead self.now.out.notes.offers }
    {
        self.out.known()
    }

    /// The stamp of its last entry. At any moment nothing that it has taken is lost or made twice.
    pub fn last(&self) -> u64
        ensures same { result ≡ self.now.clock }
        ensures bound { result < 2 ^ 60 }
        ensures carries { Carries self.now }
    {
        self.clock.last()
    }
}
