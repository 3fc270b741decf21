// Two parts side by side over the bytes of a trace: its samples, and the work on them.
#![tactic(auto)]

pub mod samples;
pub mod work;
