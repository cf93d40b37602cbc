//! Clauses in flat memory, under references of four bytes.
#![tactic(auto)]

mod compaction;
mod heads;
pub mod moved;
pub mod store;
pub mod words;
