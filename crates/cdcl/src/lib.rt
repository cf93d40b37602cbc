//! Conflict-driven clause learning (CDCL) under a budget.
#![tactic(auto)]

pub use cdcl_order::{budget, watch};
pub use cdcl_search::{assumptions, given, guide};

pub mod answers;
pub mod core_finding;
pub mod guided;
pub mod outcome;
pub mod solver;
mod tally;
mod undirected;
pub mod whole;
