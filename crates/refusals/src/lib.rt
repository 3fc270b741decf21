// What is turned away of a sample's pins: 5 to 10, and 12.
#![tactic(auto)]

pub mod refuse;
