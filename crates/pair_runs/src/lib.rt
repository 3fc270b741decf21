// Two parts side by side over a whole trace: a run, strict or lenient.
#![tactic(auto)]

pub mod run;
