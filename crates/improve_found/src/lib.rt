//! What a search for an optimum finds, and who is told of it while it runs.
#![tactic(auto)]

pub mod found;
pub mod progress;
pub mod solutions;
pub mod watch;
