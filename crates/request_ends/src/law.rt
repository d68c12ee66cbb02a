//! What the lists of the two ends of a core's requests are to the law on links.

ghost use Rattle.request_ends.specs.Laws.{RequestsAreViews};

/// Where the requests of a core and the worker's decisions are those of one legal link, and the replies that
/// the core has had are the first of the answers, in order, they are so with these replies too; and the
/// other answers are on the ring.
pub fn requests_are_views()
    ensures { RequestsAreViews }
{}
