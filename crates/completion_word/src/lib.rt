//! The completion words of one link: each offer is decided once, by one exchange on its word, whoever looks.
#![tactic(auto)]

mod answers;
mod law;
mod rule;
mod seats;
mod standing;
mod views;
mod words;

pub use answers::{Closed, Learnt, Look, Taking, Withdrawal};
pub use law::{rule_in_force, rule_is_kept, rule_means, steps_tell};
pub use seats::{OwnerSeat, PeerSeat};
pub use standing::Standing;
pub use views::{Decision, DecisionKind, Offer, Owner, OwnerNote, Peer, PeerNote, Sighting, View};
pub use words::Words;
