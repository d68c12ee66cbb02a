//! What the worker's ends are to the law on links, and how calls follow one another.

ghost use Rattle.file_worker.specs.Laws.{CallsGoOn, DecisionsAreViews, SettlingsGoOn, StartsCounted, StartsServed};

/// The decisions of the worker with its replies are those of its end of a link, which the end of the
/// core makes a legal one; and what they give to be answered is what stands on the ring.
pub fn decisions_are_views()
    ensures { DecisionsAreViews }
{}

/// What the calls of a worker keep, several of them keep one after another, rounds and settlings.
pub fn workers_go_on()
    ensures calls { CallsGoOn }
    ensures settlings { SettlingsGoOn }
{}

/// A worker that has done nothing is counted, and its disk has served it.
pub fn workers_start()
    ensures counted { StartsCounted }
    ensures served { StartsServed }
{}
