//! What the calls answer. Every stamp is one that the call found in a word, never one that it was given.

/// What a load told the owner of its first offer that is not learned.
#[derive(Clone, Copy, Debug, PartialEq, Eq)]
pub enum Learnt {
    /// The peer took it, with this stamp.
    Taken { stamp: u64 },
    /// The peer passed it by, with this stamp.
    Passed { stamp: u64 },
    /// The load saw no decision.
    Undecided,
}

/// What a look showed the peer of the first offer that it has not decided.
#[derive(Clone, Copy, Debug, PartialEq, Eq)]
pub enum Look {
    /// It stands offered, with this stamp.
    Offered { stamp: u64 },
    /// The owner has withdrawn it, with this stamp.
    Withdrawn { stamp: u64 },
    /// The look saw its word neither offered nor withdrawn.
    Nothing,
}

/// How a taking ended.
#[derive(Clone, Copy, Debug, PartialEq, Eq)]
pub enum Taking {
    /// The offer is taken, with the stamp that the peer gave.
    Won,
    /// The owner has withdrawn the offer, with this stamp.
    Withdrawn { stamp: u64 },
}

/// How a withdrawal ended.
#[derive(Clone, Copy, Debug, PartialEq, Eq)]
pub enum Withdrawal {
    /// The offer is withdrawn, with the stamp that the owner gave.
    Withdrawn,
    /// The peer has taken the offer, with this stamp.
    Taken { stamp: u64 },
}

/// How many offers were posted, decided and learned on a link.
#[derive(Clone, Copy, Debug, PartialEq, Eq)]
pub struct Closed {
    /// How many offers the owner has posted.
    pub offered: u64,
    /// How many of them, from the first on, the peer has decided.
    pub decided: u64,
    /// How many of these, from the first on, the owner has learned.
    pub learned: u64,
}
