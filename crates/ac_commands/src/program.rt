//! The top level.

use crate::command::Command;
use ac_base::{Bytes, List, Name};

/// A function.
#[derive(Drop)]
pub struct Function {
    pub name: Name,
    pub is_async: bool,
    pub gives_int: bool,
    /// Whether each parameter is an array. They have the first slots of the frame, one each.
    pub params: List<bool>,
    /// How many slots its frame has.
    pub slots: u32,
    pub body: List<Command>,
}

/// A channel between two cores, how many messages it holds, and how many ints a message has.
#[derive(Clone, Copy, Debug, PartialEq, Eq)]
pub struct Channel {
    pub from: u32,
    pub to: u32,
    pub capacity: u32,
    pub width: u32,
}

/// A core, and the function that it enters.
#[derive(Drop)]
pub struct Core {
    pub name: Name,
    pub entry: u32,
}

/// What an int global holds at the start, where that is not 0.
#[derive(Clone, Copy, Debug, PartialEq, Eq)]
pub struct Start {
    pub slot: u32,
    pub value: i64,
}

/// A program without its names.
///
/// Functions, channels, files, cores and texts stand at their numbers, which are given in the order of the text.
#[derive(Drop)]
pub struct Resolved {
    pub cores: List<Core>,
    pub functions: List<Function>,
    pub channels: List<Channel>,
    /// The path of each file.
    pub files: List<Bytes>,
    /// How many slots the globals have.
    pub slots: u32,
    /// Where globals start with something else than 0, by slot.
    pub starts: List<Start>,
    /// The formats that are printed.
    pub texts: List<Bytes>,
}
