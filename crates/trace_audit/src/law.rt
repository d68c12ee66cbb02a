//! The runs of a program are just what its traces tell.

ghost use Rattle.trace_audit.specs.Laws.{RunsAreTraced, TracesAreRuns};

/// The trace of each run of a program, whose reads a disk has served, is a run.
pub fn a_run_is_traced()
    ensures { RunsAreTraced }
{}

/// Each trace that is a run of a program is the trace of such a run.
pub fn a_trace_is_of_a_run()
    ensures { TracesAreRuns }
{}
