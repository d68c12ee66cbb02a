//! What the calls of this crate answer.

/// The answer of several receiving ends. A stamp is that of the new entry.
#[derive(Debug, Drop)]
pub enum Any<M> {
    /// This end took its first offer that was not decided.
    Took {
        end: u32,
        number: u64,
        value: M,
        stamp: u64,
    },
    /// This end passed over its first offer that was not decided, since it was withdrawn.
    Passed {
        end: u32,
        number: u64,
        stamp: u64,
    },
    /// No end saw an offer.
    Nothing,
    /// This end, and no end before it in turn, saw an offer, which as yet cannot be had.
    NotYet {
        end: u32,
    },
    /// All stamps are used.
    ClockFull,
}

/// A message, with the number of the end at which it was taken.
#[derive(Clone, Copy, Debug, PartialEq, Eq)]
pub struct Tagged {
    pub end: u32,
    pub value: i64,
}

/// What a relay has done.
#[derive(Clone, Copy, Debug, PartialEq, Eq)]
pub enum Relayed {
    /// It offered a message that it took at this end.
    Moved { end: u32 },
    /// One of its ends passed over an offer that was withdrawn.
    Passed,
    /// It holds no message, and none of its ends saw an offer.
    Nothing,
    /// One of its ends saw an offer, which as yet cannot be had; or there is room for the message that it
    /// holds, but as yet no place.
    NotYet,
    /// It knows of no room for the message that it holds.
    NoRoom,
    /// All stamps are used.
    ClockFull,
}
