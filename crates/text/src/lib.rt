// Text put into a room that the caller lends, from a place on.
#![tactic(auto)]

pub mod bytes;
pub mod digits;
