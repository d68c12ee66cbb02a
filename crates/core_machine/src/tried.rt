//! The offer on which a cancel waits.

ghost use Rattle.std.specs.Prelude.{◌≡◌, Some};
ghost use Rattle.core_machine.specs.Tried.{tried_in};

use cancel_scope::{Operation, Progress};

/// An offer for which a core asks for an outcome: the one of that number on that link.
#[derive(Clone, Copy, Debug, PartialEq, Eq)]
pub struct Tried {
    pub link: u32,
    pub number: u64,
}

/// The offer of an operation that is tried, where it was offered.
pub fn tried_in(operation: &Operation) -> Option<Tried>
    ensures { result ≡ tried_in (Some operation.now) }
{
    match operation.progress {
        Progress::Offered { number } => Some(Tried {
            link: operation.link,
            number,
        }),
        Progress::Waiting | Progress::Started { .. } => None,
    }
}
