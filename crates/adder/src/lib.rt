//! The adder network of an instance: it adds up the weights of the soft clauses that are given up.
#![tactic(auto)]

pub mod building;
pub mod cells;
mod columns;
pub mod networks;
pub mod profiles;
pub mod relaxations;
