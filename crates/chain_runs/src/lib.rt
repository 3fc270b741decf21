// Parts in a row (paper 02, order 4), by value: 1, 13, 2 and 3, and then one sample or a whole trace.
#![tactic(auto)]

pub mod run;
pub mod sample;
pub mod testing;
