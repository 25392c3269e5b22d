//! No code: document 01's sixteen marked examples in one table, proved of the definitions that the public calls promise.
#![tactic(auto)]
