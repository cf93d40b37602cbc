//! The solver's log: lines over names, the sinks that take them, and their text as an LRAT
//! certificate.
#![tactic(auto)]

mod heads;
mod hints;
pub mod lines;
pub mod log;
mod packed;
pub mod packed_name;
pub mod rebase;
pub mod sink;
mod spelling;
