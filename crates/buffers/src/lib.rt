// What C hands in: the memory as bytes, and the verdict on part, lengths, state and record.
#![tactic(auto)]

pub mod memory;
pub mod verdict;
pub mod wide;
