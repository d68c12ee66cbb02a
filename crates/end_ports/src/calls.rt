//! What the calls on each kind of end have in common.

ghost use Rattle.std.specs.Prelude.{◌≡◌, ◌&&◌, not};
ghost use Rattle.core_channels.specs.Counts.{counted};
ghost use Rattle.core_ports.specs.Answers.{is_full_offering, is_full_withdrawal};
ghost use Rattle.end_ports.specs.inner.Arrivals.{arrival_of};
ghost use Rattle.end_ports.specs.declared.brought.Brought.{Brought};
ghost use Rattle.end_ports.specs.Answers.{as_payload, learned_as, received_as, replied_as, is_quiet};
ghost use Rattle.end_ports.specs.inner.Entered.{enters_offering, enters_withdrawal, enters_learning, enters_reply};

use crate::brought::{Brought, Polled};
use ac_base::{Message, Payload};
use core_channels::{Learning, Offering, Receiving, Withdrawing};
use request_ends::Replied;

/// One more; a count that has reached its last value stays there.
pub(crate) fn counted(n: u64) -> u64
    ensures { result ≡ counted n }
{
    if n < u64::MAX { n + 1 } else { n }
}

/// What was not offered is handed back as the payload that it was.
pub(crate) fn as_payload(answer: Offering<Message>) -> Offering<Payload>
    ensures { result ≡ as_payload answer }
{
    match answer {
        Offering::Offered { number, stamp } => Offering::Offered { number, stamp },
        Offering::NoRoom(value) => Offering::NoRoom(Payload::Int(value)),
        Offering::NotYet(value) => Offering::NotYet(Payload::Int(value)),
        Offering::ClockFull(value) => Offering::ClockFull(Payload::Int(value)),
    }
}

pub(crate) fn learned(answer: Learning) -> Polled
    ensures { (left : Brought) → arrival_of result left ≡ learned_as answer }
{
    match answer {
        Learning::Know { number, stamp } => Polled::Know { number, stamp },
        Learning::Room { number, stamp } => Polled::Room { number, stamp },
        Learning::Undecided | Learning::AllKnown => Polled::Nothing,
        Learning::ClockFull => Polled::ClockFull,
    }
}

/// The message that was taken is left in `into`.
pub(crate) fn received(answer: Receiving<Message>, into: &mut Brought) -> Polled
    ensures answer { arrival_of result into.new ≡ received_as answer }
{
    match answer {
        Receiving::Took {
            number,
            value,
            stamp,
        } => {
            into.message = value;
            Polled::Got { number, stamp }
        }
        Receiving::Passed { number, stamp } => Polled::Pass { number, stamp },
        Receiving::Nothing => Polled::Nothing,
        Receiving::NotYet => Polled::NotYet,
        Receiving::ClockFull => Polled::ClockFull,
    }
}

/// Whether the answer tells that all stamps are used.
pub(crate) fn is_full_offering(answer: &Offering<Payload>) -> bool
    ensures { result ≡ is_full_offering answer.now }
{
    matches!(answer, Offering::ClockFull(_))
}

pub(crate) fn is_full_withdrawal(answer: Withdrawing) -> bool
    ensures { result ≡ is_full_withdrawal answer }
{
    matches!(answer, Withdrawing::ClockFull)
}

/// The answer of the worker that has come is left in `into`.
pub(crate) fn replied(answer: Replied, into: &mut Brought) -> Polled
    ensures answer { arrival_of result into.new ≡ replied_as answer }
{
    match answer {
        Replied::Reply {
            number,
            answer,
            stamp,
        } => {
            into.answer = answer;
            Polled::Reply { number, stamp }
        }
        Replied::Nothing => Polled::Nothing,
        Replied::ClockFull => Polled::ClockFull,
    }
}

/// Whether the answer tells of an entry.
pub(crate) fn enters_offering(answer: &Offering<Payload>) -> bool
    ensures { result ≡ enters_offering answer.now }
{
    matches!(answer, Offering::Offered { .. })
}

pub(crate) fn enters_withdrawal(answer: Withdrawing) -> bool
    ensures { result ≡ enters_withdrawal answer }
{
    !matches!(answer, Withdrawing::ClockFull)
}

pub(crate) fn enters_learning(answer: Learning) -> bool
    ensures { result ≡ enters_learning answer }
{
    matches!(answer, Learning::Know { .. } | Learning::Room { .. })
}

pub(crate) fn enters_reply(answer: &Replied) -> bool
    ensures { result ≡ enters_reply answer.now }
{
    matches!(answer, Replied::Reply { .. })
}

/// Whether there is no decision to be learned.
pub(crate) fn is_quiet(answer: Learning) -> bool
    ensures { result ≡ is_quiet answer }
{
    matches!(answer, Learning::Undecided | Learning::AllKnown)
}

/// Whether nothing was entered since a settling, where this answer may tell of an entry.
pub(crate) fn stays_settled(settled: bool, entered: bool) -> bool
    ensures { result ≡ (settled && not entered) }
{
    settled && !entered
}
