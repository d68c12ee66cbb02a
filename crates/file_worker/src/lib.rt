//! The file worker over the ends of its cores' requests: it does the requests of each core on a disk, and puts the replies on rings.
#![tactic(auto)]

mod asking;
mod desk;
mod law;
mod turns;
mod worker;

pub use law::{decisions_are_views, workers_go_on, workers_start};
pub use turns::Round;
pub use worker::Worker;
