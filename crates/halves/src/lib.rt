// Two parts side by side with shared clocks: their state and its test, and what each half makes of its record.
#![tactic(auto)]

pub mod state;
pub mod tried;
