//! What follows for every run of a program.

ghost use Rattle.program_run.specs.Naming.{RunsNameFiles};
ghost use Rattle.program_run.specs.Outcomes.{TriedIsDoneOrNeverHappens};

/// In a run of a program, an operation that a cancel tries is taken, or it never happens: where it
/// never happens nothing of it is taken in the whole run, and where it is taken that is once.
pub fn tried_is_done_or_never_happens()
    ensures { TriedIsDoneOrNeverHappens }
{}

/// In a run of a program each request that is done is of a file that its code names.
pub fn runs_name_files()
    ensures { RunsNameFiles }
{}
