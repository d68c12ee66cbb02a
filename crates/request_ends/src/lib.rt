//! The two ends of a core's requests: they are offered over the words of a link, and the replies come back over a ring.
#![tactic(auto)]

mod asking;
mod inbox;
mod law;
mod marks;
mod replying;

pub use asking::{AskEnd, Replied};
pub use law::requests_are_views;
pub use replying::{Reply, ReplyEnd, ReplySide, RequestRing, replies};
