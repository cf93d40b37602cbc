//! The solver of the search by forms and cuts: it works on a log to which clauses come from
//! outside, those of counts and cuts.
#![tactic(auto)]

pub mod solver;
