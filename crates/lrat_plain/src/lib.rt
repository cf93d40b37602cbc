//! Certificates of forms and cuts for checkers from elsewhere: the formula with all clauses that
//! the lines make, and the additions and deletions as plain LRAT over it.
#![tactic(auto)]

pub mod faults;
pub mod law;
mod names;
pub mod plain;
mod spelling;
pub mod streams;
