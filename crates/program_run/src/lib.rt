//! What a run of a program is: its journals are one legal history, each core comes to its end, and the disk is left as it says.
#![tactic(auto)]

mod ended;
mod law;

pub use ended::Ended;
pub use law::{runs_name_files, tried_is_done_or_never_happens};
