//! Fresh variables for pairs of literals that occur together in many clauses, by extended
//! resolution: bounded variable addition, for pairs alone.
#![tactic(auto)]

mod frequencies;
mod meeting_rows;
mod pair_table;
pub mod pairs;
mod runs;
mod sketch;
mod standing;
