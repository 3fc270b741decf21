// What the bytes of a state and of a memory are made of: numbers in lent bytes, and levels and enums as digits.
#![tactic(auto)]

pub mod bytes;
pub mod digits;
