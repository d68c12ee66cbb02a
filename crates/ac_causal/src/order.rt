//! How two entries of a run stand to each other.

/// How an entry stands to another: it is the same one; it came before the other in every schedule of
/// the run, or after it; or neither had to come first.
#[derive(Clone, Copy, Debug, PartialEq, Eq)]
pub enum Order {
    Same,
    Before,
    After,
    Concurrent,
}
