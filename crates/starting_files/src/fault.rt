//! Why files are not ready.

ghost use Rattle.std.specs.Prelude.{◌≡◌};
ghost use Rattle.starting_files.specs.declared.fault.StartFault.TheVariants as s;

use ac_base::NoMemory;
use ac_outside::Failed;
use std::alloc::AllocError;

/// Why a file was not bound and read whole.
#[derive(Clone, Copy, Debug, PartialEq, Eq)]
pub enum StartFault {
    /// A call of the disk failed.
    Failed,
    /// The file of this number has more than 1,048,576 bytes.
    TooLong { file: u32 },
    /// Memory was refused.
    NoMemory,
}

impl From<Failed> for StartFault {
    ghost from_gives = { λ _ e. e ≡ s.Failed };

    fn from(_: Failed) -> StartFault {
        StartFault::Failed
    }
}

impl From<AllocError> for StartFault {
    ghost from_gives = { λ _ e. e ≡ s.NoMemory };

    fn from(_: AllocError) -> StartFault {
        StartFault::NoMemory
    }
}

impl From<NoMemory> for StartFault {
    ghost from_gives = { λ _ e. e ≡ s.NoMemory };

    fn from(_: NoMemory) -> StartFault {
        StartFault::NoMemory
    }
}
