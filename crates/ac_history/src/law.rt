//! From the ends of links and the journals of parties to the one history of a run.

ghost use Rattle.ac_history.specs.Laws.{MergedIsLegal, NetworkIsLegal, PartiesAreANetwork, StampsAreFew, DeedsAreTheWorkers};
ghost use Rattle.ac_history.specs.Laws.{NetworkIsServed, NetworkIsAHistory, HistoryIsLegalAndServed, LegalAndServedIsAHistory};
ghost use Rattle.ac_history.specs.Laws.{FilesAreTheContents, TheWorkerGoesOn, PartiesAtRestAreQuiet};
ghost use Rattle.ac_history.specs.Outcomes.{OffersEndOnce, WhatIsKnownWasTaken};

/// Where the entries of each link are right by themselves, and the stamps and makers of each
/// journal, the merged history is legal.
pub fn merged_is_legal()
    ensures { MergedIsLegal }
{}

/// Where the two ends of each link agree and each journal has its stamps, the merged history is
/// legal: a fact of lists, in whatever order the parties ran.
pub fn network_is_legal()
    ensures { NetworkIsLegal }
{}

/// Parties that agree with their journals, on links whose ends agree, are such a network.
pub fn parties_are_a_network()
    ensures { PartiesAreANetwork }
{}

/// In a legal history no stamp is above the number of entries.
pub fn stamps_are_few()
    ensures { StampsAreFew }
{}

/// In a legal history no offer is both withdrawn and taken, and neither of them happens to it twice;
/// and what its owner knows to be taken was taken.
pub fn offers_end_once()
    ensures once { OffersEndOnce }
    ensures known { WhatIsKnownWasTaken }
{}

/// Where each party rests by what the two ends of its links know, the run is quiet.
pub fn parties_at_rest_are_quiet()
    ensures { PartiesAtRestAreQuiet }
{}

/// What was done in the merged history is what the worker's journal says, in its order, of the
/// requests that their owners offered.
pub fn deeds_are_the_workers()
    ensures { DeedsAreTheWorkers }
{}

/// Where a disk served the worker's journal, it served the merged history, and what it holds are
/// that history's contents.
pub fn network_is_served()
    ensures { NetworkIsServed }
{}

/// Where the ends agree and the disk served the worker, `Legal::step` takes the merged history
/// entry by entry, and then has the files that the disk holds.
pub fn network_is_a_history()
    ensures { NetworkIsAHistory }
{}

/// What `Legal::step` takes entry by entry is what is legal and served, and its files are the
/// history's contents.
pub fn histories_are_legal_and_served()
    ensures legal { HistoryIsLegalAndServed }
    ensures history { LegalAndServedIsAHistory }
    ensures files { FilesAreTheContents }
{}

/// The worker does the next request of a link, and its journal, its ends, the rings of the replies
/// and the disk go on agreeing.
pub fn the_worker_goes_on()
    ensures { TheWorkerGoesOn }
{}
