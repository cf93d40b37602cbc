//! Linear functions of variables that are 0 or 1: a multiple of what a solution costs, plus
//! something else, with the least value at hand.
#![tactic(auto)]

pub mod bounds;
mod terms;
