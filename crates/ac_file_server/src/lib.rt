//! The text of the file server: a program of four cores, of which three are clients that write bytes
//! and read them back.
#![tactic(auto)]

mod text;

pub use text::load_text;
