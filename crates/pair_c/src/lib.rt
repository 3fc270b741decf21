// A run of two parts side by side under a name for programs in C, which time it.
#![tactic(auto)]

pub mod timed;
