// Parts in a row (paper 02, order 4), on bytes: the records of a trace, and the work on them.
#![tactic(auto)]

pub mod records;
pub mod work;
