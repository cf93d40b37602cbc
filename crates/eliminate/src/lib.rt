//! Preprocessing before the search: units, subsumption and self-subsuming resolution, bounded
//! variable elimination, and fresh variables for pairs of literals. `elimination` is what other
//! crates call, and the subset tests by `signatures` are handed on.
#![tactic(auto)]

pub use eliminate_tables::signatures;

pub mod elimination;
mod ending;
mod resolving;
mod rounds;
mod simplifier;
mod subsuming;
mod units;
mod variables;
