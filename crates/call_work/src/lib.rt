// One record on a state, a memory and an answer room of bytes, once a verdict lets it be worked.
#![tactic(auto)]

pub mod work;
