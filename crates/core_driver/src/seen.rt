//! What came of a part of a run.

/// What came of a part of a run.
#[derive(Clone, Copy, Debug, PartialEq, Eq)]
pub enum Seen {
    /// The core has gone on, or an entry has come in.
    WentOn,
    /// The core is idle, and a look at each of its links has brought nothing.
    Nothing,
    /// All stamps are used.
    Full,
}
