//! Forms and cuts: linear lower bounds of the cost, and the clauses that follow from them.
#![tactic(auto)]

mod citing;
pub mod faults;
mod groups;
mod growing;
mod known;
mod numbered;
mod sizes;
pub mod state;
pub mod table;
pub mod types;
mod worth;
