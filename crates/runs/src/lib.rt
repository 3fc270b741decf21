// The model over a whole trace: a run, strict or lenient.
#![tactic(auto)]

pub mod run;
