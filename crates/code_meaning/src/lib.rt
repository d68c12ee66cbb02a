//! What stack code does: the flat machine and the runs of a core, as definitions.
#![tactic(auto)]
