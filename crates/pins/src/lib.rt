// Trace sample: the record of 32 bits taken apart, the answer of 24 bits put together, and records read from bytes.
#![tactic(auto)]

pub mod answer;
pub mod record;
pub mod trace;
