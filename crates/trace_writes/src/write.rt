//! One write.

use ac_base::Bytes;

/// Bytes that went into a file at a place, counted from 0.
#[derive(Debug, Drop)]
pub struct FileWrite {
    pub file: u32,
    pub from: u32,
    pub bytes: Bytes,
}
