//! Cores and a worker, each with its own ends of the links, and the one run that they have made.

ghost use Rattle.settled_run.specs.Laws.{SettledEndsMakeARun, SettledEndsLeaveTheDisk};

/// Where their ends are settled and each of them is done, they have made a run of every program whose
/// code theirs is.
pub fn settled_ends_make_a_run()
    ensures { SettledEndsMakeARun }
{}

/// And a disk that was called for just what the worker has done is left as the history of that run says.
pub fn settled_ends_leave_the_disk()
    ensures { SettledEndsLeaveTheDisk }
{}
