// Both runs under C names, from a state that is handed in as bytes: for the tests.
#![tactic(auto)]

pub mod handed;
