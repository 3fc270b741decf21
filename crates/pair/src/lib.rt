// Two parts side by side over two lent memories: one sample.
#![tactic(auto)]

pub mod sample;
