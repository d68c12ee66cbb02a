//! What follows for every run whose trace is run again.

ghost use Rattle.ac_replay.specs.Laws.{RunsAreRepeated};

/// Under its trace each core of a run comes to the end to which it came in the run, in as many
/// instructions, and to no other; so the report is the same, byte for byte. And the requests that are
/// done are the same, so the files are.
pub fn a_run_is_repeated()
    ensures { RunsAreRepeated }
{}
