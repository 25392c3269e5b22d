// Numbers as text: what the digits of a word say.
#![tactic(auto)]

pub mod digits;
