//! Bounds on the journals and the stamps of a run, by the steps that its cores may take.

ghost use Rattle.journal_bounds.specs.Laws.{EntriesAreFew, HistoriesAreShort, StampsAreSmall, ActionsAreFew};

/// A core that comes to an end has taken in at most three entries for each operation that it may have
/// started, beside those that pass over an offer, and with each step it starts no more operations than
/// one statement has.
pub fn entries_are_few()
    ensures { EntriesAreFew }
{}

/// So a legal history has at most four entries for each operation that its cores may have started,
/// whatever the worker enters, and no stamp of it is above the number of its entries.
pub fn histories_are_short()
    ensures { HistoriesAreShort }
{}

/// So no stamp of a legal history is above a bound by the steps of the cores, whatever the worker
/// enters: a clock that counts further is never full.
pub fn stamps_are_small()
    ensures { StampsAreSmall }
{}

/// A statement has no more calls and operations than the code of its program has instructions.
pub fn actions_are_few()
    ensures { ActionsAreFew }
{}
