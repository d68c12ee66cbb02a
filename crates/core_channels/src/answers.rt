//! What the calls on links answer. A stamp in an answer is that of the new entry.

use ac_base::{Answer, Message, Payload};

/// The answer to an offer. What was not offered is handed back.
#[derive(Debug, Drop)]
pub enum Offering<M> {
    /// It was offered under this number.
    Offered { number: u64, stamp: u64 },
    /// The owner knows of no room on the link.
    NoRoom(M),
    /// There is room, but as yet no place for it.
    NotYet(M),
    /// All stamps are used.
    ClockFull(M),
}

/// The answer to a withdrawal.
#[derive(Clone, Copy, Debug, PartialEq, Eq)]
pub enum Withdrawing {
    /// It is withdrawn.
    Withdrawn { stamp: u64 },
    /// It had been taken before, and is now known to be.
    Taken { stamp: u64 },
    /// All stamps are used.
    ClockFull,
}

/// What the owner of a link learns.
#[derive(Clone, Copy, Debug, PartialEq, Eq)]
pub enum Learning {
    /// The first offer that was not known has been taken.
    Know { number: u64, stamp: u64 },
    /// The first offer that was not known had been withdrawn, and has been passed.
    Room { number: u64, stamp: u64 },
    /// The first offer that is not known is not decided.
    Undecided,
    /// Every offer is known.
    AllKnown,
    /// All stamps are used.
    ClockFull,
}

/// What the peer of a link receives.
#[derive(Debug, Drop)]
pub enum Receiving<M> {
    /// It took the first offer that was not decided.
    Took { number: u64, value: M, stamp: u64 },
    /// It passed over the first offer that was not decided, since it was withdrawn.
    Passed { number: u64, stamp: u64 },
    /// Every offer is decided.
    Nothing,
    /// There is one, but as yet it cannot be had.
    NotYet,
    /// All stamps are used.
    ClockFull,
}

/// What the peer of a link of requests finds: the first offer that is not decided.
#[derive(Debug, Drop)]
pub enum Front {
    /// Every offer is decided.
    Nothing,
    /// It is withdrawn.
    Withdrawn { number: u64 },
    /// It stands, and this is a copy of its request.
    Request { number: u64, payload: Payload },
    /// All stamps are used.
    ClockFull,
}

/// What has come to a core on one of its links.
#[derive(Debug, Drop)]
pub enum Arrived {
    /// Its offer of this number was taken.
    Know {
        number: u64,
        stamp: u64,
    },
    /// Its offer of this number was withdrawn and has been passed.
    Room {
        number: u64,
        stamp: u64,
    },
    /// It took the offer of this number.
    Got {
        number: u64,
        value: Message,
        stamp: u64,
    },
    /// It passed over the offer of this number, which was withdrawn.
    Pass {
        number: u64,
        stamp: u64,
    },
    /// Its request of this number has its answer.
    Reply {
        number: u64,
        answer: Answer,
        stamp: u64,
    },
    /// Nothing has come.
    Nothing,
    /// Something is there, but as yet it cannot be had.
    NotYet,
    /// All stamps are used.
    ClockFull,
}
