//! Reconstruction: the variables that were eliminated, with the clauses that went with them, and
//! how they get values back that satisfy these clauses (Järvisalo and Biere, Reconstructing
//! Solutions after Blocked Clause Elimination, SAT 2010).
#![tactic(auto)]

pub mod removals;
pub mod stack;
