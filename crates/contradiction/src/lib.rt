//! Why there is no solution: a few hard clauses that contradict each other.
#![tactic(auto)]

pub mod finding;
mod trials;
mod used;
