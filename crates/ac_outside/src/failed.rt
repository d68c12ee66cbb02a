//! The faults of objects outside.

/// A call of an object outside failed, and the object has counted it.
#[derive(Clone, Copy, Debug, PartialEq, Eq)]
pub struct Failed;

/// A write to a disk failed once so many of its bytes had gone in, and the disk has counted it.
#[derive(Clone, Copy, Debug, PartialEq, Eq)]
pub struct Torn {
    pub taken: u32,
}

/// A file was not bound: the call failed, and the disk has counted it, or memory was refused.
#[derive(Clone, Copy, Debug, PartialEq, Eq)]
pub enum BindFault {
    Failed,
    NoMemory,
}
