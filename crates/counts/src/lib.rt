// The two counts, round their width, the two parts, and a choice between two values.
#![tactic(auto)]

pub mod choice;
pub mod part;
pub mod round;
