// What a trace program is given: the words that it is asked with, a part number, which asks for a memory, and a trace.
#![tactic(auto)]

pub mod chunks;
pub mod header;
pub mod manner;
pub mod memory;
