// What a run notes of each sample, whichever model it works.
#![tactic(auto)]

pub mod answers;
pub mod number;
