//! Result texts of solvers, in the lines of the MaxSAT Evaluation 2022: what such a text says, read
//! line by line.
#![tactic(auto)]

pub mod report;
pub mod result;
mod words;
