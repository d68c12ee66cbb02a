//! Why a driver has come back.

ghost use Rattle.std.specs.Prelude.{◌≡◌};
ghost use Rattle.core_driver.specs.Pauses.{pause_of, is_clock_full};

use ac_base::Trap;
use core_machine::Ending;

/// Why `advance` has come back.
#[derive(Clone, Copy, Debug, PartialEq, Eq)]
pub enum Pause {
    /// The core's first thread has ended.
    Finished,
    /// A step stopped the core for good.
    Trapped(Trap),
    /// All steps are used, and the running thread has a next one; or all turns are used.
    OutOfSteps,
    /// No thread runs and none is ready, and so many dispatch points in a row have brought nothing.
    Idle,
    /// All stamps are used.
    ClockFull,
}

impl Pause {
    /// Whether it has come back because all stamps are used.
    pub fn is_clock_full(self) -> bool
        ensures { result ≡ is_clock_full self }
    {
        match self {
            Pause::ClockFull => true,
            Pause::Finished | Pause::Trapped(_) | Pause::OutOfSteps | Pause::Idle => false,
        }
    }
}

/// Why it has come back where the core has ended so.
pub fn pause_of(ending: Ending) -> Pause
    ensures { result ≡ pause_of ending }
{
    match ending {
        Ending::Finished => Pause::Finished,
        Ending::Trapped(trap) => Pause::Trapped(trap),
        Ending::OutOfSteps => Pause::OutOfSteps,
    }
}
