//! Laws of reading a list of tokens from left to right: what a part reads, what spells it, and where reading stops.
#![tactic(auto)]
