//! What the source and the code of a core have in common: moves to an end, and the shared state.
#![tactic(auto)]
