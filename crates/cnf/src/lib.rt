//! Literals, clauses, formulas and instances: the values that every other crate speaks of, with
//! their limits, and marks of literals.
#![tactic(auto)]

pub mod clause_list;
pub mod fresh;
pub mod judging;
pub mod limits;
pub mod marks;
pub mod tautologies;
pub mod types;
