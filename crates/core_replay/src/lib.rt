//! A core under a journal that is given: it goes on from entry to entry, and refuses the first with which it has no run.
#![tactic(auto)]

mod arrivals;
mod outcomes;
mod own_offers;
mod prospects;
mod replay;
mod search;

pub use replay::{Followed, Replay};
