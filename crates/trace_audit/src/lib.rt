//! Whether a trace is a run of a program.
#![tactic(auto)]

mod auditing;
mod ends;
mod law;
mod parties;
mod replays;
mod tracing;
mod verdict;

pub use auditing::audit;
pub use law::{a_run_is_traced, a_trace_is_of_a_run};
pub use tracing::trace_of;
pub use verdict::Verdict;
