//! The instructions.

/// One instruction. A thread has a list of operands, the last one on top; an operand is an int or a
/// reference to an array.
///
/// Levels count frames outwards from that of the thread, slots and lengths count cells, and
/// addresses count instructions.
#[derive(Clone, Copy, Debug, PartialEq, Eq)]
pub enum Instr {
    /// Uses one step; where all are used, the core is out of steps.
    Step,
    /// Pushes the number.
    Push(i64),
    /// Pushes what that slot holds.
    Load { level: u32, slot: u32 },
    /// Pushes what that global holds.
    LoadG { slot: u32 },
    /// Pops into that slot.
    Store { level: u32, slot: u32 },
    /// Pops into that global.
    StoreG { slot: u32 },
    /// Pushes the reference to that many slots from that one on.
    Arr { level: u32, slot: u32, len: u32 },
    /// Pushes the reference to that many globals from that one on.
    ArrG { slot: u32, len: u32 },
    /// Pops an index, then a reference; pushes that element.
    Elem,
    /// Pops an index, a reference and a value; puts the value into that element.
    SetElem,
    /// Pops an index, then a reference; pushes the reference to just that element.
    Place,
    /// Sets that many slots of the own frame to 0.
    Clear { slot: u32, len: u32 },
    /// Pops, and pushes what is left of 0 when it is taken away.
    Neg,
    /// Pops, and pushes 1 for 0, and else 0.
    Not,
    /// Pops, and pushes it with each bit turned.
    Flip,
    /// Pops, and pushes 0 for 0, and else 1.
    Bool,
    /// This and those down to `MoreEq` pop right, then left, and push the result of the operator.
    Add,
    Sub,
    Mul,
    Div,
    Rem,
    Shl,
    Shr,
    BitAnd,
    BitXor,
    BitOr,
    Eq,
    Ne,
    Less,
    LessEq,
    More,
    MoreEq,
    /// Pops.
    Drop,
    /// Goes to that address.
    Jump { to: u32 },
    /// Pops, and goes to that address where it is 0.
    Jz { to: u32 },
    /// Pops, and goes to that address where it is not 0.
    Jnz { to: u32 },
    /// Pops so many arguments, and prints that text with them.
    Print { text: u32, count: u32 },
    /// Pops so many arguments into the first slots of a new frame of that function, and goes to it.
    Call { function: u32, count: u32 },
    /// Pops the value, gives the frame back and pushes the value for the caller; without a caller
    /// the thread ends.
    Ret,
    /// Makes a block, keeps it in that slot and makes it the innermost.
    Enter { slot: u32 },
    /// Arrives at the finish of the block in that slot.
    Finish { slot: u32 },
    /// Makes a thread with a frame of so many slots that runs from the next address; its creator
    /// goes on at that address.
    Async { slots: u32, to: u32 },
    /// Gives the frame of an async body back, and the thread ends.
    End,
    /// Cancels the block in that slot.
    Cancel { level: u32, slot: u32 },
    /// Yields.
    Yield,
    /// Pops what is sent and starts the send on that channel: an int where a message of the channel has
    /// one, or a reference to as many elements as the message has ints, of which all are sent as they are
    /// now.
    Send { channel: u32 },
    /// Pops a reference to as many elements as a message of that channel has ints, and starts the
    /// receive from it.
    Recv { channel: u32 },
    /// Pops the array, the length and the place in that file, and starts the read.
    Read { file: u32 },
    /// Pops the array, the length and the place in that file, and starts the write.
    Write { file: u32 },
}
