// The calls of the crate `fifo_c` under their C names, as a static library.
#![tactic(auto)]

pub mod exported;
