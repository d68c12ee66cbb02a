//! The values of operations that have ended.

/// It is done.
pub const OK: i64 = 0;

/// It never happens.
pub const CANCELLED: i64 = -1;
