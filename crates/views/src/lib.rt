// What the two sides are made of: their view of each other's count, of a retransmit, and of how many words there are.
#![tactic(auto)]

pub mod flags;
pub mod retransmit;
pub mod stages;
pub mod tables;
