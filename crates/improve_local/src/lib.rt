//! A local search: a solution becomes cheaper by flips of its bits.
#![tactic(auto)]

mod best;
mod checked;
mod clauses;
mod draws;
mod group;
pub mod kinds;
pub mod polishing;
mod scores;
mod steps;
pub mod walking;
