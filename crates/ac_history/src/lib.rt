//! The history of a run: the journals of its parties merged, and which histories are legal.
#![tactic(auto)]

mod files;
mod law;
mod legal;
mod links;
mod merging;
mod quiet;

pub use law::{
    deeds_are_the_workers, histories_are_legal_and_served, merged_is_legal, network_is_a_history,
    network_is_legal, network_is_served, parties_are_a_network, parties_at_rest_are_quiet,
    stamps_are_few, the_worker_goes_on,
};
pub use legal::Legal;
pub use merging::merge;
pub use quiet::LinkParties;
