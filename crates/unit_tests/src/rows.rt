//! What is done on one channel of two cores, on which the one offers and the other takes, with what has to be
//! answered.

use ac_base::Message;
use core_channels::{Learning, Offering, Receiving, Withdrawing};

/// What is done.
#[derive(Clone, Copy)]
pub enum Step {
    /// The sender offers a message of this int.
    Offer(i64),
    /// It offers it, and withdraws it at once.
    CallOff(i64),
    /// It offers it, and withdraws it once the receiver has taken it.
    CallOffLate(i64),
    /// The sender learns.
    Learn,
    /// The receiver takes.
    Take,
    /// Each side is told of the other.
    Settle,
}

/// What is answered.
#[derive(Clone, Copy, PartialEq, Eq)]
pub enum Said {
    Offered { number: u64, stamp: u64 },
    NoRoom,
    Withdrawn { stamp: u64 },
    Taken { stamp: u64 },
    Known { number: u64, stamp: u64 },
    Room { number: u64, stamp: u64 },
    Undecided,
    AllKnown,
    Took { number: u64, value: i64, stamp: u64 },
    Passed { number: u64, stamp: u64 },
    Nothing,
    ClockFull,
    Settled,
    /// What no row has.
    Other,
}

pub fn of_offering<M: Drop>(answer: Offering<M>) -> Said {
    match answer {
        Offering::Offered { number, stamp } => Said::Offered { number, stamp },
        Offering::NoRoom(_) => Said::NoRoom,
        Offering::ClockFull(_) => Said::ClockFull,
        Offering::NotYet(_) => Said::Other,
    }
}

pub fn of_withdrawing(answer: Withdrawing) -> Said {
    match answer {
        Withdrawing::Withdrawn { stamp } => Said::Withdrawn { stamp },
        Withdrawing::Taken { stamp } => Said::Taken { stamp },
        Withdrawing::ClockFull => Said::ClockFull,
    }
}

pub fn of_learning(answer: Learning) -> Said {
    match answer {
        Learning::Know { number, stamp } => Said::Known { number, stamp },
        Learning::Room { number, stamp } => Said::Room { number, stamp },
        Learning::Undecided => Said::Undecided,
        Learning::AllKnown => Said::AllKnown,
        Learning::ClockFull => Said::ClockFull,
    }
}

// Its one int; a message of more is no row's.
fn only(message: &Message) -> i64 {
    match message.as_slice() {
        [value] => *value,
        _ => -1,
    }
}

pub fn of_receiving(answer: Receiving<Message>) -> Said {
    match answer {
        Receiving::Took {
            number,
            value,
            stamp,
        } => Said::Took {
            number,
            value: only(&value),
            stamp,
        },
        Receiving::Passed { number, stamp } => Said::Passed { number, stamp },
        Receiving::Nothing => Said::Nothing,
        Receiving::ClockFull => Said::ClockFull,
        Receiving::NotYet => Said::Other,
    }
}

pub type Row = (Step, Said);

// With room for one: a withdrawal that comes too late tells of the taking, and answers it.
pub const LATE: [Row; 2] = [
    (Step::CallOffLate(5), Said::Taken { stamp: 3 }),
    (Step::Learn, Said::AllKnown),
];

// With room for two the next message is offered behind a withdrawn one, which is passed first. The
// two entries of stamp 3 answer neither the other.
pub const PASSED: [Row; 5] = [
    (Step::CallOff(5), Said::Withdrawn { stamp: 2 }),
    (
        Step::Offer(6),
        Said::Offered {
            number: 1,
            stamp: 3,
        },
    ),
    (
        Step::Take,
        Said::Passed {
            number: 0,
            stamp: 3,
        },
    ),
    (
        Step::Take,
        Said::Took {
            number: 1,
            value: 6,
            stamp: 4,
        },
    ),
    (Step::Take, Said::Nothing),
];

// With room for one a withdrawn message holds its room until it is passed and this is known.
pub const HOLDS: [Row; 9] = [
    (Step::CallOff(5), Said::Withdrawn { stamp: 2 }),
    (Step::Offer(6), Said::NoRoom),
    (Step::Learn, Said::Undecided),
    (
        Step::Take,
        Said::Passed {
            number: 0,
            stamp: 3,
        },
    ),
    (
        Step::Learn,
        Said::Room {
            number: 0,
            stamp: 4,
        },
    ),
    (
        Step::Offer(6),
        Said::Offered {
            number: 1,
            stamp: 5,
        },
    ),
    (
        Step::Take,
        Said::Took {
            number: 1,
            value: 6,
            stamp: 6,
        },
    ),
    (
        Step::Learn,
        Said::Known {
            number: 1,
            stamp: 7,
        },
    ),
    (Step::Learn, Said::AllKnown),
];
