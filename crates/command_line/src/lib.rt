//! The command line of `wmax`: its commands, what each takes, and its help.
#![tactic(auto)]

mod help;
pub mod making;
mod notes;
mod options;
pub mod words;
