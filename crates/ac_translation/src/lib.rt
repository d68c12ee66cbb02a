//! The code of a program, as a definition, and the proof that it has the same runs as its source.
#![tactic(auto)]
