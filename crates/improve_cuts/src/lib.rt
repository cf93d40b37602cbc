//! The search for an optimum by forms and cuts.
#![tactic(auto)]

pub mod by_cuts;
mod parts;
mod running;
mod session;
mod walks;
