//! What is known at an address that is reached.

use crate::stack::Stack;

/// The kind of an operand.
#[derive(Clone, Copy, Debug, PartialEq, Eq)]
pub enum CellKind {
    Int,
    /// A reference to an array, and how many elements it has, where that is known.
    Reference { len: Option<u32> },
}

/// Whose body it is.
#[derive(Clone, Copy, Debug, PartialEq, Eq)]
pub enum Home {
    /// That of the function with that number.
    Function { number: u32 },
    /// That of the `Async` at that address.
    Async { at: u32 },
}

/// A body round an address, and how many slots its frame has.
#[derive(Clone, Copy, Debug, PartialEq, Eq)]
pub struct Body {
    pub home: Home,
    pub slots: u32,
}

/// A block that is entered: how many bodies are round its `Enter`, and its slot in the innermost
/// of them.
#[derive(Clone, Copy, Debug, PartialEq, Eq)]
pub struct OpenBlock {
    pub bodies: u64,
    pub slot: u32,
}

/// What is known at an address, whatever way leads to it: the bodies round it, the blocks that are
/// entered there, and the kinds of the operands. Contracts see the innermost body, the innermost
/// block and the topmost operand first; the last body is that of the function.
#[derive(Debug, Drop)]
pub struct Shape {
    pub bodies: Stack<Body>,
    pub blocks: Stack<OpenBlock>,
    pub operands: Stack<CellKind>,
}

/// The addresses to which an instruction may go on, each with its shape there.
#[derive(Debug, Drop)]
pub enum Leads {
    Stop,
    One {
        to: u32,
        shape: Shape,
    },
    Two {
        next: u32,
        shape: Shape,
        to: u32,
        other: Shape,
    },
}

/// What an instruction asks of an operand: to be an int, a reference, a reference to so many elements,
/// or a message of so many ints, which is an int where it has one, or a reference to as many elements.
/// `Any` asks nothing.
#[derive(Clone, Copy, Debug, PartialEq, Eq)]
pub enum Want {
    Int,
    Reference,
    Elements(u32),
    Message(u32),
    Any,
}
