// The model for C: one sample on numbers and byte buffers.
#![tactic(auto)]

pub mod call;
