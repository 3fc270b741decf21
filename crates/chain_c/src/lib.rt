// A run of parts in a row under a name for programs in C, which time it.
#![tactic(auto)]

pub mod timed;
