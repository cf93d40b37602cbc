//! The formulas of an instance: its hard clauses, and what says that a solution costs less than a
//! bound; and their text.
#![tactic(auto)]

mod cells;
mod comparators;
mod dimacs;
pub mod encoding;
pub mod formulas;
mod hard;
mod kept_clauses;
mod relaxing;
mod repeats;
pub mod weighted;
