//! A walk over a program.

use ac_base::{Bytes, List};
use ac_names::Names;

/// The names at the place where a walk is, and the texts before it.
#[derive(Drop)]
pub struct Walk {
    pub names: Names,
    pub texts: List<Bytes>,
}
