//! The run of the solver on a reader and two writers.
#![tactic(auto)]

pub mod by_cuts;
pub mod running;
pub mod solving;

pub use report_text::{best, fault, finding, printing, status, told};
