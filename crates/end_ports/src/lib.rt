//! The ports of a core over the ends of its links.
#![tactic(auto)]

mod ask_at;
mod brought;
mod calls;
mod ends;
mod ports;
mod recv_at;
mod recvs;
mod send_at;
mod sends;

pub use ports::CorePorts;
pub use recv_at::RecvAt;
pub use send_at::SendAt;
