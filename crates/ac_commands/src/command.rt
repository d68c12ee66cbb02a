//! What a statement does.

use crate::value::{Array, Place, Value};
use ac_base::List;

/// Where an int is put.
#[derive(Drop)]
pub enum Target {
    /// An int variable.
    Variable(Place),
    /// An element of an array.
    Element { array: Array, index: Value },
}

/// A statement. Slots are those of the frame in which it runs, unless a level is given.
///
/// A block of the source is the statements in it, and the first part of a `for` stands before it.
#[derive(Drop)]
pub enum Command {
    /// An empty statement.
    Nothing,
    /// Puts an int into a target: an assignment, or the declaration of an int.
    Set {
        target: Target,
        value: Value,
    },
    /// Sets so many slots to 0: the declaration of an array.
    Clear {
        slot: u32,
        len: u32,
    },
    /// A call or an operation, whose value is dropped.
    Run(Value),
    /// Prints the text of that number with its arguments.
    Print {
        text: u32,
        args: List<Value>,
    },
    /// An `if`, with what stands after its `else`.
    If {
        test: Value,
        body: List<Command>,
        other: Option<List<Command>>,
    },
    /// A `while`, before its test.
    While {
        test: Value,
        body: List<Command>,
    },
    /// A `for`, before its test; `next` is its third part.
    For {
        test: Option<Value>,
        next: List<Command>,
        body: List<Command>,
    },
    /// Leaves the innermost loop.
    Break,
    /// Goes on with the innermost loop.
    Continue,
    /// Ends the function with a value, or with 0.
    Return(Option<Value>),
    /// A `do`, whose block is kept in that slot.
    Do {
        slot: u32,
        body: List<Command>,
    },
    /// An async body, whose frame has so many slots.
    Async {
        slots: u32,
        body: List<Command>,
    },
    /// Cancels the block in that slot of the frame that is so many levels up.
    Cancel {
        level: u32,
        slot: u32,
    },
    /// Yields.
    Yield,
}
