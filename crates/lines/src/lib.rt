//! Lines of words over standard input and output: a reader of words, and a writer.
#![tactic(auto)]

pub mod input;
pub mod output;
pub mod session;
pub mod tables;
#[cfg(test)]
mod tests;
