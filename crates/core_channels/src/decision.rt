//! A decision of a link, as its peer knows it.

ghost use Rattle.std.specs.Prelude.{◌≡◌};
ghost use Rattle.core_channels.specs.Takes.{taken_decision, passed_decision};
ghost use Rattle.core_channels.specs.Requests.{did_decision};

use ac_base::{Answer, Message};
use std::marker::Model;

/// A message that was taken, or the answer to a request that was done.
#[derive(Drop)]
pub enum Taken {
    Message(Message),
    Done(Answer),
}

/// What was taken, or nothing where the offer was passed, with the stamp of the decision and that
/// of the offer or withdrawal that it answers.
#[derive(Drop)]
pub struct Decision {
    value: Option<Taken>,
    stamp: u64,
    answers: u64,
}

impl Model for Decision {
    ghost use Rattle.ac_links.specs.Views.{PeerDecision};
    ghost use Rattle.core_channels.specs.inner.Takings.{taking_of};

    ghost Value = { PeerDecision };

    ghost view = { λ it. record { value = taking_of it.value; stamp = it.stamp; answers = it.answers } };
}

impl Decision {
    /// A message was taken.
    pub fn took(value: Message, stamp: u64, answers: u64) -> Decision
        ensures { result ≡ taken_decision value stamp answers }
    {
        Decision {
            value: Some(Taken::Message(value)),
            stamp,
            answers,
        }
    }

    /// A request was done, with this answer.
    pub fn did(answer: Answer, stamp: u64, answers: u64) -> Decision
        ensures { result ≡ did_decision answer stamp answers }
    {
        Decision {
            value: Some(Taken::Done(answer)),
            stamp,
            answers,
        }
    }

    /// A withdrawn offer was passed.
    pub fn passed(stamp: u64, answers: u64) -> Decision
        ensures { result ≡ passed_decision stamp answers }
    {
        Decision {
            value: None,
            stamp,
            answers,
        }
    }

    pub fn stamp(&self) -> u64
        ensures { result ≡ self.now.stamp }
    {
        self.stamp
    }
}
