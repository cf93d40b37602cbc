//! The literals that are true, in the order in which they became so, each with its level, its
//! position and its reason.
//!
//! `trail` is what the crate above calls, and `truth` and `vardata` are the tables that it reads. A
//! reason is no more than the reference of a clause here: that the clause left no choice is the
//! business of the caller.
#![tactic(auto)]

pub mod trail;
mod truth;
mod vardata;
