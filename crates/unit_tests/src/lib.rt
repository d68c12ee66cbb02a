//! Calls of the crates that know no program, with values that were worked out by hand.
#![tactic(auto)]

#[cfg(test)]
mod adapters;
#[cfg(test)]
mod channels;
#[cfg(test)]
mod codes;
#[cfg(test)]
mod ends;
#[cfg(test)]
mod links;
#[cfg(test)]
mod rows;
#[cfg(test)]
mod server_text;
#[cfg(test)]
mod two_ends;
