//! What cores and a worker that agree with their links have made together: laws.
#![tactic(auto)]

mod law;

pub use law::{
    cores_are_legal, cores_are_quiet, cores_are_served, cores_make_a_run, no_clock_is_full,
};
