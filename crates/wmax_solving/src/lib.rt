//! The command `solve` of the program `wmax`: its search, and what it is given.
#![tactic(auto)]

mod searching;
pub mod solving;
