//! A core that runs valid code is never stuck, comes to one end, names nothing that is gone, and uses channels only at its own ends:
//! definitions and laws.
#![tactic(auto)]
