//! Why a journal has no replay.

ghost use Rattle.std.specs.Prelude.{◌≡◌};
ghost use Rattle.ac_reference.specs.declared.fault.ReplayFault.TheVariants as f;

use ac_base::NoMemory;
use thiserror::Error;

/// Why there is no replay.
#[derive(Clone, Copy, Debug, PartialEq, Eq, Error)]
pub enum ReplayFault {
    /// The place of the first entry that does not fit, counted from 0.
    #[error("misfit at {place}")]
    Misfit { place: u64 },
    /// Memory was refused.
    #[error("no memory")]
    NoMemory,
}

impl From<NoMemory> for ReplayFault {
    ghost from_gives = { λ _ e. e ≡ f.NoMemory };

    fn from(_: NoMemory) -> ReplayFault {
        ReplayFault::NoMemory
    }
}
