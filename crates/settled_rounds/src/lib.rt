//! Parties with ends of their own, which go on side by side and are settled, until none can go on.
#![tactic(auto)]

mod choosing;
mod party;
mod running;
mod settling;

pub use party::{Party, Way};
pub use running::run;
