// A state in lent bytes.
#![tactic(auto)]

pub mod state;
