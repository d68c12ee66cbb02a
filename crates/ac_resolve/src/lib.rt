//! A program without its names: each variable by its slot, and each function, channel, file, core and text by its number.
#![tactic(auto)]

mod expressions;
mod items;
mod names;
mod statements;
mod walk;

pub use items::resolve;
