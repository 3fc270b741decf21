// What the trace programs print: a line for each record, and a last one. Which model the answers are of is not known here.
#![tactic(auto)]

pub mod flags;
pub mod records;
pub mod tally;
