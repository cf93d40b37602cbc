//! Linear relaxations of clauses and counts: lower bounds of a cost, by a first-order method in
//! floats.
//!
//! A row says how many of its literals are true at least, and each variable may be anything from 0
//! to 1. `rows::Rows` has the rows and the cost, `relaxation::Relaxation` what the present values
//! leave open of them, and solves it from a `point::Point` on. Nothing of it is proved except that
//! it ends and reads no place that is not there: multipliers are advice, and whoever makes a form
//! of them has it judged in whole numbers.
#![tactic(auto)]

pub mod limits;
mod measured;
mod open;
pub mod point;
pub mod relaxation;
pub mod rows;
mod run;
mod starts;
mod steps;
mod tables;
pub mod values;
mod work;
