// Parts in a row (paper 02, order 4): the chain record, what each part sees at its pins, and what is turned away of the record as a whole.
#![tactic(auto)]

pub mod record;
pub mod refuse;
pub mod wire;
