//! A rank for each point of a graph, such that ranks fall along every way; or the answer that some
//! way leads back to where it begins.
#![tactic(auto)]

mod graph;
mod ranking;
mod search;

pub use graph::Ways;
pub use ranking::ranks;
