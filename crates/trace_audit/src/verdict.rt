//! What an audit says.

/// What an audit says of a trace: it is a run; the entry of this place is the first that does not
/// fit; or all entries fit, and the end does not.
#[derive(Clone, Copy, Debug, PartialEq, Eq)]
pub enum Verdict {
    Yes,
    NoAt { entry: u64 },
    NoAtEnd,
}
