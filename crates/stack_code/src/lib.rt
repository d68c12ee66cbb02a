//! Stack code: its instructions, and the codes that are valid.
#![tactic(auto)]

mod bodies;
mod code;
mod effect;
mod instr;
mod lists;
mod operands;
mod parts;
mod shape;
mod sketch;
mod stack;
mod texts;
mod uses;
mod ways;
mod work;

pub use code::Code;
pub use instr::Instr;
pub use parts::{ChannelEnds, Entered, Start};
pub use shape::{Body, CellKind, Home, OpenBlock, Shape};
pub use stack::Stack;
