//! No code: what an update of module 3's accumulator of events means and keeps.
#![tactic(auto)]
