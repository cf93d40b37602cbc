//! Unit propagation over the clauses of a store.
//!
//! `engine` is what other crates call, and `engine/queue.rt` the hot loop. It reads the trail of
//! `propagate_trail`, and the rows and the table of `propagate_watches`.
#![tactic(auto)]

pub use propagate_watches::{pool, table};

pub mod engine;
mod not_false;
