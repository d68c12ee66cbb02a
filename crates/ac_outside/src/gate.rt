//! The gate that the parties of a run pass.

/// What each party of a run passes as it goes on. A gate may hold back who calls it, and so bring about an
/// order in which the parties go on. It has no meaning: no contract speaks of it.
pub trait Gate {
    /// The party at this place has made so many entries.
    fn pass(&self, party: u32, entries: u64);
}
