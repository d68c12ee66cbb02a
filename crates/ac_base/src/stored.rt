//! Entries as a journal stores them: the ints of their messages after the first stand in a list beside them.

ghost use Rattle.std.specs.Prelude.{◌≡◌, ◌+◌, ◌≤◌, ◌++◌, ℤ, List, IfOk};
ghost use Rattle.ac_base.specs.declared.entry.Event.TheVariants.{Offer};
ghost use Rattle.ac_base.specs.Done.{is_done_on};
ghost use Rattle.ac_base.specs.Stored.{event_of, ints_of, HasInts, IsWhole};

use crate::draft::Draft;
use crate::entry::{Answer, Event, Payload};
use crate::list::Bytes;
use crate::memory::NoMemory;
use crate::message::{MOST_INTS, Message};
use std::alloc::Global;

/// The most ints of a message after its first.
pub const MOST_FURTHER: u64 = MOST_INTS as u64 - 1;

/// The ints of a message: the first, and where the further ones stand.
#[derive(Clone, Copy, Debug)]
pub struct StoredMessage {
    first: i64,
    start: u64,
    count: u32,
}

/// An event, in which an offer has three forms for what it carries.
#[derive(Debug, Drop)]
pub enum StoredEvent {
    Send {
        link: u32,
        number: u64,
        message: StoredMessage,
    },
    Read {
        link: u32,
        number: u64,
        file: u32,
        from: u32,
        len: u32,
    },
    Write {
        link: u32,
        number: u64,
        file: u32,
        from: u32,
        bytes: Bytes,
    },
    Withdraw {
        link: u32,
        number: u64,
    },
    Know {
        link: u32,
        number: u64,
    },
    Room {
        link: u32,
        number: u64,
    },
    Got {
        link: u32,
        number: u64,
        message: StoredMessage,
    },
    Pass {
        link: u32,
        number: u64,
    },
    Did {
        link: u32,
        number: u64,
        answer: Answer,
    },
    Reply {
        link: u32,
        number: u64,
        answer: Answer,
    },
}

/// An entry with its event in that form.
#[derive(Debug, Drop)]
pub struct StoredEntry {
    pub stamp: u64,
    pub turn: u64,
    pub event: StoredEvent,
}

impl StoredMessage {
    // Its further ints come to the end of those of the journal.
    fn of(message: &Message, further: &mut Draft<i64>) -> StoredMessage
        requires { 15 ≤ further.old.1 }
        ensures ints { ints_of further.new.0 result ≡ message.now }
        ensures whole { IsWhole further.new.0 result }
        ensures grows { (more : List ℤ) × (further.new.0 ≡ further.old.0 ++ more) }
        ensures spare { further.old.1 ≤ further.new.1 + 15 }
    {
        let ints = message.as_slice();
        let start = further.len();
        further.append(&ints[1..]);
        StoredMessage {
            first: ints[0],
            start,
            count: message.len() - 1,
        }
    }

    fn message(&self, further: &Draft<i64>) -> Message
        requires { IsWhole further.now.0 self.now }
        ensures { result ≡ ints_of further.now.0 self.now }
    {
        let ints = further.as_slice();
        let mut message = Message::of(self.first);
        for index in 0..self.count {
            message.push(ints[self.start as usize + index as usize]);
        }
        message
    }
}

impl StoredEvent {
    fn of_offer(link: u32, number: u64, payload: Payload, further: &mut Draft<i64>) -> StoredEvent
        requires { 15 ≤ further.old.1 }
        ensures event { event_of further.new.0 result ≡ Offer link number payload }
        ensures ints { HasInts further.new.0 result }
        ensures grows { (more : List ℤ) × (further.new.0 ≡ further.old.0 ++ more) }
        ensures spare { further.old.1 ≤ further.new.1 + 15 }
    {
        match payload {
            Payload::Int(message) => StoredEvent::Send {
                link,
                number,
                message: StoredMessage::of(&message, further),
            },
            Payload::Read { file, from, len } => StoredEvent::Read {
                link,
                number,
                file,
                from,
                len,
            },
            Payload::Write { file, from, bytes } => StoredEvent::Write {
                link,
                number,
                file,
                from,
                bytes,
            },
        }
    }

    /// The event in this form; the further ints of its message come to the end of those of the journal.
    pub fn of(event: Event, further: &mut Draft<i64>) -> StoredEvent
        requires { 15 ≤ further.old.1 }
        ensures event { event_of further.new.0 result ≡ event }
        ensures ints { HasInts further.new.0 result }
        ensures grows { (more : List ℤ) × (further.new.0 ≡ further.old.0 ++ more) }
        ensures spare { further.old.1 ≤ further.new.1 + 15 }
    {
        match event {
            Event::Offer {
                link,
                number,
                payload,
            } => StoredEvent::of_offer(link, number, payload, further),
            Event::Withdraw { link, number } => StoredEvent::Withdraw { link, number },
            Event::Know { link, number } => StoredEvent::Know { link, number },
            Event::Room { link, number } => StoredEvent::Room { link, number },
            Event::Got {
                link,
                number,
                value,
            } => StoredEvent::Got {
                link,
                number,
                message: StoredMessage::of(&value, further),
            },
            Event::Pass { link, number } => StoredEvent::Pass { link, number },
            Event::Did {
                link,
                number,
                answer,
            } => StoredEvent::Did {
                link,
                number,
                answer,
            },
            Event::Reply {
                link,
                number,
                answer,
            } => StoredEvent::Reply {
                link,
                number,
                answer,
            },
        }
    }

    /// The event, with a copy of its bytes.
    pub fn event(&self, alloc: Global, further: &Draft<i64>) -> Result<Event, NoMemory>
        requires { HasInts further.now.0 self.now }
        ensures { IfOk result (λ it. it ≡ event_of further.now.0 self.now) }
    {
        match *self {
            StoredEvent::Send {
                link,
                number,
                ref message,
            } => Ok(Event::Offer {
                link,
                number,
                payload: Payload::Int(message.message(further)),
            }),
            StoredEvent::Read {
                link,
                number,
                file,
                from,
                len,
            } => Ok(Event::Offer {
                link,
                number,
                payload: Payload::Read { file, from, len },
            }),
            StoredEvent::Write {
                link,
                number,
                file,
                from,
                ref bytes,
            } => Ok(Event::Offer {
                link,
                number,
                payload: Payload::Write {
                    file,
                    from,
                    bytes: bytes.copy(alloc)?,
                },
            }),
            StoredEvent::Withdraw { link, number } => Ok(Event::Withdraw { link, number }),
            StoredEvent::Know { link, number } => Ok(Event::Know { link, number }),
            StoredEvent::Room { link, number } => Ok(Event::Room { link, number }),
            StoredEvent::Got {
                link,
                number,
                ref message,
            } => Ok(Event::Got {
                link,
                number,
                value: message.message(further),
            }),
            StoredEvent::Pass { link, number } => Ok(Event::Pass { link, number }),
            StoredEvent::Did {
                link,
                number,
                ref answer,
            } => Ok(Event::Did {
                link,
                number,
                answer: answer.copy(alloc)?,
            }),
            StoredEvent::Reply {
                link,
                number,
                ref answer,
            } => Ok(Event::Reply {
                link,
                number,
                answer: answer.copy(alloc)?,
            }),
        }
    }

    /// Whether it says that a request of this link was done.
    pub fn is_done_on(&self, link: u32) -> bool
        ensures { (further : List ℤ) → result ≡ is_done_on link (event_of further self.now) }
    {
        match self {
            StoredEvent::Did { link: on, .. } => *on == link,
            _ => false,
        }
    }
}
