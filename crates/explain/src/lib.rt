//! What a solution gives up, clause by clause: for a person who asks why a plan costs what it does.
#![tactic(auto)]

pub mod clause_lines;
pub mod contradicting;
pub mod explaining;
pub mod falsified;
pub mod judging;
mod names;
pub mod putting;
pub mod summary;
