//! Taking from any of several receiving ends, and a relay that merges channels into one.
#![tactic(auto)]

mod answers;
mod choosing;
mod relay;

pub use answers::{Any, Relayed, Tagged};
pub use choosing::take_any;
pub use relay::Relay;
