//! A core under a journal that is given, entry by entry: which entry comes in next, and when no run goes on with it. Definitions and laws.
#![tactic(auto)]
