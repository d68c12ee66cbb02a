//! Equal values of entries and of what they are made of.

ghost use Rattle.std.specs.Prelude.{◌≡◌, IfOk};

use crate::entry::{Answer, Entry, Event, Payload};
use crate::memory::NoMemory;
use std::alloc::Global;

impl Payload {
    /// An equal payload.
    pub fn copy(&self, alloc: Global) -> Result<Payload, NoMemory>
        ensures { IfOk result (λ it. it ≡ self.now) }
    {
        match self {
            Payload::Int(value) => Ok(Payload::Int(*value)),
            Payload::Read { file, from, len } => Ok(Payload::Read {
                file: *file,
                from: *from,
                len: *len,
            }),
            Payload::Write { file, from, bytes } => Ok(Payload::Write {
                file: *file,
                from: *from,
                bytes: bytes.copy(alloc)?,
            }),
        }
    }
}

impl Answer {
    /// An equal answer.
    pub fn copy(&self, alloc: Global) -> Result<Answer, NoMemory>
        ensures { IfOk result (λ it. it ≡ self.now) }
    {
        match self {
            Answer::Bytes(bytes) => Ok(Answer::Bytes(bytes.copy(alloc)?)),
            Answer::Count(count) => Ok(Answer::Count(*count)),
            Answer::Fault(count) => Ok(Answer::Fault(*count)),
        }
    }
}

impl Event {
    /// An equal event.
    pub fn copy(&self, alloc: Global) -> Result<Event, NoMemory>
        ensures { IfOk result (λ it. it ≡ self.now) }
    {
        match *self {
            Event::Offer {
                link,
                number,
                ref payload,
            } => Ok(Event::Offer {
                link,
                number,
                payload: payload.copy(alloc)?,
            }),
            Event::Withdraw { link, number } => Ok(Event::Withdraw { link, number }),
            Event::Know { link, number } => Ok(Event::Know { link, number }),
            Event::Room { link, number } => Ok(Event::Room { link, number }),
            Event::Got {
                link,
                number,
                value,
            } => Ok(Event::Got {
                link,
                number,
                value,
            }),
            Event::Pass { link, number } => Ok(Event::Pass { link, number }),
            Event::Did {
                link,
                number,
                ref answer,
            } => Ok(Event::Did {
                link,
                number,
                answer: answer.copy(alloc)?,
            }),
            Event::Reply {
                link,
                number,
                ref answer,
            } => Ok(Event::Reply {
                link,
                number,
                answer: answer.copy(alloc)?,
            }),
        }
    }
}

impl Entry {
    /// An equal entry.
    pub fn copy(&self, alloc: Global) -> Result<Entry, NoMemory>
        ensures { IfOk result (λ it. it ≡ self.now) }
    {
        Ok(Entry {
            stamp: self.stamp,
            turn: self.turn,
            event: self.event.copy(alloc)?,
        })
    }
}
