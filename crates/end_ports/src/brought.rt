//! What a poll of an end answers, and what it leaves beside that.

ghost use Rattle.std.specs.Prelude.{◌≡◌, ◌||◌, pos, [], ◌∷◌};
ghost use Rattle.ac_base.specs.declared.entry.Answer.TheVariants.{Count};
ghost use Rattle.core_ports.specs.Answers.{is_full_arrival};
ghost use Rattle.end_ports.specs.inner.Arrivals.{arrival_of};

use ac_base::{Answer, Message};
use core_channels::Arrived;
use std::mem;

/// What has come on a link, where the message or the answer of the worker stands beside it: so it is
/// small, and a poll that finds nothing hands on a word.
#[derive(Clone, Copy, Debug)]
pub(crate) enum Polled {
    Know { number: u64, stamp: u64 },
    Room { number: u64, stamp: u64 },
    Got { number: u64, stamp: u64 },
    Pass { number: u64, stamp: u64 },
    Reply { number: u64, stamp: u64 },
    Nothing,
    NotYet,
    ClockFull,
}

/// The message, and the answer of the worker, that polls have left last.
#[derive(Debug, Drop)]
pub(crate) struct Brought {
    pub(crate) message: Message,
    pub(crate) answer: Answer,
}

impl Brought {
    /// What there is before the first poll: a message of one int, which is 0, and a count of 0.
    pub(crate) fn new() -> Brought
        ensures { result ≡ record { message = pos 0 ∷ []; answer = Count 0 } }
    {
        Brought {
            message: Message::of(0),
            answer: Answer::Count(0),
        }
    }

    // Takes the reply out, and leaves a count of 0.
    fn take_answer(&mut self) -> Answer
        ensures { result ≡ self.old.answer }
    {
        mem::replace(&mut self.answer, Answer::Count(0))
    }

    /// What has come, by an answer that has left this, and whether an answer has told that all stamps are
    /// used. It is inlined, for the same reason as a look is not.
    #[inline(always)]
    pub(crate) fn arrived(&mut self, answer: Polled, full: &mut bool) -> Arrived
        ensures answer { result ≡ arrival_of answer self.old }
        ensures full { full.new ≡ (full.old || is_full_arrival (arrival_of answer self.old)) }
    {
        match answer {
            Polled::Know { number, stamp } => Arrived::Know { number, stamp },
            Polled::Room { number, stamp } => Arrived::Room { number, stamp },
            Polled::Got { number, stamp } => Arrived::Got {
                number,
                value: self.message,
                stamp,
            },
            Polled::Pass { number, stamp } => Arrived::Pass { number, stamp },
            Polled::Reply { number, stamp } => Arrived::Reply {
                number,
                answer: self.take_answer(),
                stamp,
            },
            Polled::Nothing => Arrived::Nothing,
            Polled::NotYet => Arrived::NotYet,
            Polled::ClockFull => {
                *full = true;
                Arrived::ClockFull
            }
        }
    }
}
