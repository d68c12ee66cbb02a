//! The links of a run in one thread: what was offered and decided on each.
#![tactic(auto)]

mod answers;
mod counts;
mod decision;
mod kept_link;
mod law;
mod links;
mod offer;

pub use answers::{Arrived, Front, Learning, Offering, Receiving, Withdrawing};
pub use counts::Call;
pub use law::{owner_may_enter, owner_may_enter_replies, peer_may_enter, worker_may_enter};
pub use links::Links;
