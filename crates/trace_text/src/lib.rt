//! The text of a trace: written from the trace, and read back exactly where it spells one.
#![tactic(auto)]

mod cursor;
mod events;
mod faults;
mod law;
mod messages;
mod reader;
mod so_far;
mod trace;
mod version;
mod writer;

pub use faults::{TraceFault, WriteFault};
pub use law::the_first_version_stays;
pub use reader::read_trace;
pub use trace::{Trace, TraceEnd};
pub use writer::write_trace;
