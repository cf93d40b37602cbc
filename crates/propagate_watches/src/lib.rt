//! Watch lists: which clauses watch a literal, and what each clause watches, by rows of entries in
//! one block of memory, and a table by reference.
//!
//! A row and an entry of it are named by numbers from 0, as a clause is by its reference. What
//! keeps rows and table together, that the entries of a clause stand just in the rows of the two
//! literals that it watches, is the business of the caller.
#![tactic(auto)]

pub mod doomed;
pub mod moved;
pub mod pool;
pub mod table;
