//! No code: what an update of module 4's accumulator means and keeps.
#![tactic(auto)]
