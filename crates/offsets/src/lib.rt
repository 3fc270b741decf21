// Offsets: everything about n and m but their effect on the flags.
#![tactic(auto)]

pub mod loading;
pub mod reading;
pub mod registers;
