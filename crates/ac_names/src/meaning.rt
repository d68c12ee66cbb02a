//! What a name can mean.

/// What a name means.
///
/// Functions, channels, files and cores are numbered from 0 in the order of the text, and so are the slots of the globals
/// and of each frame. A depth is the number of async bodies of the function round a declaration. Lengths count elements.
#[derive(Clone, Copy, Debug, PartialEq, Eq)]
pub enum Meaning {
    Core(u32),
    Function(u32),
    Channel(u32),
    File(u32),
    /// An int global.
    Global(u32),
    /// An array among the globals.
    GlobalArray { slot: u32, len: u32 },
    /// An int variable in the frame of that depth.
    Local { depth: u32, slot: u32 },
    /// An array in the frame of that depth.
    LocalArray { depth: u32, slot: u32, len: u32 },
    /// An array that is a parameter.
    ArrayParam(u32),
    /// The label of a `do`, whose block has that slot.
    Label { depth: u32, slot: u32 },
}
