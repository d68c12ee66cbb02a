//! What a core meets outside itself: the links on which it sends and receives.
#![tactic(auto)]

mod law;
mod ports;
mod side;

pub use law::{a_core_goes_on, clock_is_up_to_all};
pub use ports::Ports;
pub use side::{Side, side_of};
