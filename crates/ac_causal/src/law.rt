//! What holds of the causal order of each history, and which histories a trace may tell.

ghost use Rattle.ac_causal.specs.Laws.{BeforeIsEarlier, StampsRise, RunsAreLegal, ClosedCutsAreLegal};

/// What is before an entry stands before it in the history, and has a lesser stamp.
pub fn stamps_rise()
    ensures places { BeforeIsEarlier }
    ensures stamps { StampsRise }
{}

/// The entries of each trace that is a run of a program are a legal history of its code.
pub fn runs_are_legal()
    ensures { RunsAreLegal }
{}

/// The entries of a closed cut of a run, merged, are a legal history of the program's code.
pub fn closed_cuts_are_legal()
    ensures { ClosedCutsAreLegal }
{}
