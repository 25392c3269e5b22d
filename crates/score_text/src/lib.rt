//! The tables that score prints: frames, truth ids, and refusals by name.
#![tactic(auto)]

pub mod frames;
pub mod lives;
pub mod reasons;
