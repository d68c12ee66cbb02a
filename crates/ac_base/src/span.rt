//! Places in a source text.

/// The bytes of a source text from `at` up to `end`, counted from 0.
#[derive(Clone, Copy, Debug, PartialEq, Eq)]
pub struct Span {
    pub at: u32,
    pub end: u32,
}
