//! The live clauses of an LRAT certificate under their ids: those of the formula, and those that
//! were added, in memory that grows with what is live.
#![tactic(auto)]

mod added;
mod append;
mod counts;
mod entries;
pub mod live;
mod near;
mod pages;
mod places;
mod reclaim;
mod spans;
mod window;
