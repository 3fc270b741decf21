// The model over a lent memory: one sample.
#![tactic(auto)]

pub mod memory;
pub mod outcome;
pub mod sample;
