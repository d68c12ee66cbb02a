//! What the owner and the peer of a link know. No value of these types is ever made: they stand in clauses and proofs alone.

use crate::answers::Look;
use crate::standing::Standing;
use std::collections::LinkedList;

/// An offer as its owner knows it.
pub struct Offer {
    /// The stamp that it was posted with.
    pub stamp: u64,
    /// The stamp of its withdrawal, if it is withdrawn.
    pub withdrawn: Option<u64>,
    /// The stamp of its taking, if a withdrawal came too late and found it taken.
    pub found_taken: Option<u64>,
}

/// How an offer was decided, with the stamp of the decision.
pub enum DecisionKind {
    /// The peer took it.
    Taken { stamp: u64 },
    /// The peer passed it by, after its owner had withdrawn it.
    Passed { stamp: u64 },
}

/// A decision of the peer.
pub struct Decision {
    /// How the offer was decided.
    pub outcome: DecisionKind,
    /// The stamp that it answers: that of the offer which it takes, or of the withdrawal of the
    /// offer which it passes by.
    pub answers: u64,
}

/// What a look showed, and the number of the offer that it was a look at.
pub struct Sighting {
    /// The number of the offer.
    pub number: u64,
    /// What the look showed.
    pub look: Look,
}

/// The owner's view of a link.
pub struct Owner {
    /// The offers posted, by their numbers, which count from 0.
    pub offers: LinkedList<Offer>,
    /// How the leading offers were decided, as far as it has learned.
    pub learned: LinkedList<DecisionKind>,
    /// The stamp of its last post or of its last withdrawal that was not lost, whichever came
    /// later, and 0 at first.
    pub last: u64,
    /// How often `learn` has loaded a word.
    pub loads: u64,
    /// What the last of these loads saw.
    pub saw: Standing,
    /// The leading decisions that it was told of.
    pub told: LinkedList<Decision>,
    /// The look of the peer that it was told of, if any.
    pub told_look: Option<Sighting>,
}

/// The peer's view of a link.
pub struct Peer {
    /// Its decisions, by the numbers of the offers.
    pub decisions: LinkedList<Decision>,
    /// How often `look` has loaded a word.
    pub looks: u64,
    /// What the last of these loads saw.
    pub saw: Standing,
    /// The last look at the first offer that is not decided, if there was one. A taking that came
    /// too late is such a look too.
    pub look: Option<Look>,
    /// How many offers it was told of.
    pub told_offers: u64,
}

/// A note of the owner: what the peer may be told of it.
pub struct OwnerNote {
    /// How many offers it had posted.
    pub offered: u64,
    /// The least count of leading offers among which are all that it had learned, found taken or
    /// was told of.
    pub known: u64,
}

/// A note of the peer: what the owner may be told of it.
pub struct PeerNote {
    /// The decisions that it had made.
    pub decisions: LinkedList<Decision>,
    /// Its last look at the next offer, if there was one.
    pub look: Option<Sighting>,
    /// How many offers it was told of.
    pub told_offers: u64,
}

/// What a seat knows: one side's view, a note of the other side, or both views once the link is
/// closed. A seat that is spent knows nothing.
pub struct View {
    /// The owner's view.
    pub owner: Option<Owner>,
    /// The peer's view.
    pub peer: Option<Peer>,
    /// A note of the owner.
    pub owner_note: Option<OwnerNote>,
    /// A note of the peer.
    pub peer_note: Option<PeerNote>,
}
