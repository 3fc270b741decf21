// The two sides of the chip, each worked out from the state before the sample.
#![tactic(auto)]

pub mod clocks;
pub mod read;
pub mod write;
