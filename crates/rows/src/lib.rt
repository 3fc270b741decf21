// Parts in a row (paper 02, order 4), by value: up to eight states, how they are judged, and how one of them moves.
#![tactic(auto)]

pub mod judging;
pub mod moving;
pub mod row;
