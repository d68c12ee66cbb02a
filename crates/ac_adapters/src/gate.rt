//! The gate of the program.

use ac_outside::Gate;

/// A gate that holds nobody back.
#[derive(Clone, Copy, Debug, PartialEq, Eq)]
pub struct OpenGate;

impl OpenGate {
    pub fn new() -> OpenGate {
        OpenGate
    }
}

impl Gate for OpenGate {
    fn pass(&self, party: u32, entries: u64) {
        let _ = (party, entries);
    }
}
