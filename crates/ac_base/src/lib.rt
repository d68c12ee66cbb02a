//! The types that every layer speaks of: lists, boxes, journals, ends of cores, and the report.
#![tactic(auto)]

mod boxed;
mod clock;
mod copies;
mod draft;
mod ends;
mod entry;
mod hexadecimal;
mod journal;
mod list;
mod memory;
mod message;
mod span;
mod stored;
mod texts;

pub use boxed::Boxed;
pub use clock::Clock;
pub use draft::Draft;
pub use ends::{CoreEnd, EndWord, MachineEnd, Phase, Status, Trap, Waiting};
pub use entry::{Answer, Entry, Event, Payload, Stamped};
pub use hexadecimal::hex;
pub use journal::Journal;
pub use list::{Bytes, List, Name};
pub use memory::NoMemory;
pub use message::{MOST_INTS, Message};
pub use span::Span;
pub use texts::{decimal, end_word, report, status};
