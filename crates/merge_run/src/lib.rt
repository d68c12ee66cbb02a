//! Producers, a relay that merges what they send, and a consumer, each on a thread.
#![tactic(auto)]

mod consumer;
mod making;
mod party;
mod producer;
mod running;

pub use running::merge;
