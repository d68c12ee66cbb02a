//! The driver of a core: it runs the core's machine, and looks at its links at each dispatch point.
#![tactic(auto)]

mod driver;
mod links;
mod looks;
mod pause;
mod rounds;
mod seen;

pub use driver::Driver;
pub use pause::Pause;
