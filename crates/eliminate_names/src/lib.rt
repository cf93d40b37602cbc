//! The clauses of a store under the names that a log gives them: each clause that comes or goes
//! does so with its line.
#![tactic(auto)]

mod name_list;
pub mod names;
