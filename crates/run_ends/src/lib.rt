//! The ends of all links of a code, made in pairs and dealt out to its cores and its worker.
#![tactic(auto)]

mod channels;
mod dealing;
mod hands;
mod making;
mod requests;
mod words;

pub use dealing::{Dealt, deal};
pub use words::{AllSeats, Seats, make_words};
