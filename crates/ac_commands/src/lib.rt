//! The types of a program without its names: each variable by its slot, and each function, channel, file, core and text by its number.
#![tactic(auto)]

mod command;
mod program;
mod value;

pub use command::{Command, Target};
pub use program::{Channel, Core, Function, Resolved, Start};
pub use value::{Action, Array, Place, Value, ValueLink};
