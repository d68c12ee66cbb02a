//! Calls from the text of a program to its run of which no text in `tests/` can show what they give.
#![tactic(auto)]

#[cfg(test)]
mod failing;
#[cfg(test)]
mod gates;
#[cfg(test)]
mod holding;
#[cfg(test)]
mod main_calls;
#[cfg(test)]
mod reference;
