//! The cores of a code and the worker on links that they share, and the one history that they make.

ghost use Rattle.run_laws.specs.Laws.{CoresAreLegal, NoClockIsFull, CoresAreQuiet, CoresAreServed, CoresMakeARun};

/// Cores and a worker that agree with their links make a legal history.
pub fn cores_are_legal()
    ensures { CoresAreLegal }
{}

/// None of them has used all stamps, where no stamp of the history is great.
pub fn no_clock_is_full()
    ensures { NoClockIsFull }
{}

/// Where each of them is at rest, the history is quiet.
pub fn cores_are_quiet()
    ensures { CoresAreQuiet }
{}

/// What was done in that history is what the worker's journal says, and a disk that has served the
/// worker has served the history.
pub fn cores_are_served()
    ensures { CoresAreServed }
{}

/// Where each of them is done, they have made a run of every program whose code theirs is.
pub fn cores_make_a_run()
    ensures { CoresMakeARun }
{}
