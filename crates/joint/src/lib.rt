// Two parts side by side as one: what they show together, and what is turned away of both. Numbers and records alone, no part's state.
#![tactic(auto)]

pub mod composite;
pub mod refuse;
