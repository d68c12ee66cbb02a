//! What a disk is asked for a request and what it answers, how its calls are counted by what was done, and what the worker decides.
#![tactic(auto)]

mod law;

pub use law::{files_are_done, requests_are_counted};
