// The chip by value: its state and that state's test, the resets, and what an accepted sample gives.
#![tactic(auto)]

pub mod advance;
pub mod answer;
pub mod enables;
pub mod quiet;
pub mod reset;
pub mod state;
