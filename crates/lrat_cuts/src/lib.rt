//! Certificates of forms and cuts: LRAT whose additions are RUP alone, with lines that bring linear
//! lower bounds of the cost and the clauses that follow from them.
#![tactic(auto)]

mod base;
pub mod last_form;
pub mod law;
pub mod machine;
pub mod pieces;
pub mod streams;
mod table;
pub mod verdicts;
