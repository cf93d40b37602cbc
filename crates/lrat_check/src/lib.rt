//! The certificate checker.
#![tactic(auto)]

pub mod certificate;
pub mod checking;
pub mod cuts;
mod lines;
pub mod lower;
pub mod pieces;
mod streams;
pub mod verdicts;
