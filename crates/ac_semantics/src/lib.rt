//! What a program does: evaluation, steps and replay, as definitions.
#![tactic(auto)]
