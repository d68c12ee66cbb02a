//! From the name of a file in the library to the program that its text spells, and where one is asked for
//! the trace of a second file, or to the line of what refuses them; and a text to the sink.
#![tactic(auto)]

mod both;
mod building;
mod front;
mod halt;
mod reading;
mod refusal;
mod writing;

pub use both::{Both, read_both};
pub use building::{MOST_STEPS, build};
pub use halt::{BothFault, Halt, LIBRARY_FAULT};
pub use reading::{ReadFault, SOURCE_LIMIT, TRACE_LIMIT, read_text};
pub use refusal::{BrokenRule, LIMIT_SOURCE, LIMIT_STEPS, LIMIT_TRACE, Refusal, Stop, place_line};
pub use writing::{answer, answer_halt, answer_refusal};
