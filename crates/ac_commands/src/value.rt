//! Expressions.

use ac_base::{Boxed, List};
use ac_tree::{BinaryOp, UnaryOp};

/// Where an int is. A level is the number of async bodies between a use and the declaration.
#[derive(Clone, Copy, Debug, PartialEq, Eq)]
pub enum Place {
    /// In that slot of the globals.
    Global { slot: u32 },
    /// In that slot of the frame that is so many levels up.
    Local { level: u32, slot: u32 },
}

/// Where an array is. Lengths count elements.
#[derive(Clone, Copy, Debug, PartialEq, Eq)]
pub enum Array {
    /// In the globals from that slot on.
    Global { slot: u32, len: u32 },
    /// From that slot on of the frame that is so many levels up.
    Local { level: u32, slot: u32, len: u32 },
    /// Where the reference says that stands in that slot of the function's frame, which is so many levels up.
    Param { level: u32, slot: u32 },
}

/// What is done with operands, so that the thread may have to wait for the value.
#[derive(Clone, Copy, Debug, PartialEq, Eq)]
pub enum Action {
    /// Calls a function with its arguments.
    Call { function: u32 },
    /// Sends an int, or the elements of an array, on a channel.
    Send { channel: u32 },
    /// Receives from a channel into the ints that are referred to.
    Recv { channel: u32 },
    /// Reads from a place of a file on, so many bytes, into an array.
    Read { file: u32 },
    /// Writes to a file from a place on, so many elements, of an array.
    Write { file: u32 },
}

/// An expression: an int, or a reference to an array or to a part of one.
#[cycle(value)]
#[derive(Drop)]
pub enum Value {
    /// A number, or what a named result stands for.
    Number(i64),
    /// The int at a place.
    Variable(Place),
    /// A reference to an array.
    Reference(Array),
    /// An element of an array.
    Element {
        array: Array,
        index: Boxed<Value>,
    },
    /// A reference to the one element of an array that has this index.
    Part {
        array: Array,
        index: Boxed<Value>,
    },
    /// An operator with one operand.
    Unary {
        op: UnaryOp,
        operand: Boxed<Value>,
    },
    /// Operators of one level with their operands, which group to the left.
    Chain {
        first: Boxed<Value>,
        rest: List<ValueLink>,
    },
    /// A call or an operation, and its operands from left to right.
    Act {
        action: Action,
        operands: List<Value>,
    },
}

/// An operator of a chain, and its right operand.
#[cycle(value)]
#[derive(Drop)]
pub struct ValueLink {
    pub op: BinaryOp,
    pub operand: Value,
}
