//! The lines of a certificate, judged one after another against the live clauses.
#![tactic(auto)]

mod additions;
mod ahead;
mod assumed;
mod deletions;
mod hints;
pub mod machine;
mod rat;
pub mod rup;
mod state;
pub mod verdicts;
