//! The events of a run.

use crate::list::Bytes;
use crate::message::Message;

/// What an offer carries: a message of a channel, or a request to the file worker. Places and
/// lengths are in bytes.
#[derive(Debug, Drop)]
pub enum Payload {
    Int(Message),
    Read { file: u32, from: u32, len: u32 },
    Write { file: u32, from: u32, bytes: Bytes },
}

/// What the file worker answers: the bytes read, the count of bytes written, or that the disk
/// failed after so many bytes of a write.
#[derive(Debug, Drop)]
pub enum Answer {
    Bytes(Bytes),
    Count(u32),
    Fault(u32),
}

/// What one entry of a journal says has happened to the offer of that number on that link.
#[derive(Debug, Drop)]
pub enum Event {
    Offer {
        link: u32,
        number: u64,
        payload: Payload,
    },
    Withdraw {
        link: u32,
        number: u64,
    },
    Know {
        link: u32,
        number: u64,
    },
    Room {
        link: u32,
        number: u64,
    },
    Got {
        link: u32,
        number: u64,
        value: Message,
    },
    Pass {
        link: u32,
        number: u64,
    },
    Did {
        link: u32,
        number: u64,
        answer: Answer,
    },
    Reply {
        link: u32,
        number: u64,
        answer: Answer,
    },
}

/// An event with its Lamport stamp and the turn of its core.
#[derive(Debug, Drop)]
pub struct Entry {
    pub stamp: u64,
    pub turn: u64,
    pub event: Event,
}

/// An entry and the party that made it: a core by its number, or the worker after the last core.
#[derive(Debug, Drop)]
pub struct Stamped {
    pub party: u32,
    pub entry: Entry,
}
