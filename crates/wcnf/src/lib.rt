//! The reader of WCNF texts. It hands on what an instance is made of (`cnf`), and what a text is
//! made of (`text`).
#![tactic(auto)]

pub use cnf::{clause_list, judging, limits, marks, types};
pub use text::{cutting, digits, output, pieces};

pub mod faults;
mod gathering;
mod header;
mod parser;
pub mod reading;
mod rows;
pub mod whole;
