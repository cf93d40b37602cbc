//! What a run of `wmax solve` begins with: which files it reads and writes, in which order, where
//! its search begins, and why there is none.
#![tactic(auto)]

pub mod inputs;
pub mod outputs;
pub mod refusals;
pub mod resuming;
