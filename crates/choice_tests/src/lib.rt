//! Calls of several receiving ends and of a relay, with values that were worked out by hand.
#![tactic(auto)]

#[cfg(test)]
mod ends;
#[cfg(test)]
mod relays;
