//! Graphs.

/// The ways on from a point: at most two, each to the point with that number. The points of a
/// graph are numbered from 0.
#[derive(Clone, Copy, Debug, PartialEq, Eq)]
pub struct Ways {
    pub one: Option<u32>,
    pub other: Option<u32>,
}
