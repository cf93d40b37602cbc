//! Tables of preprocessing that know nothing of a log: in which clauses each literal occurs, which
//! clauses others are compared with, which variables are worth a try, and resolvents against marks.
//! Clauses that others make needless are found by `signatures`, eight at a time, and by `against`,
//! literals against marks.
#![tactic(auto)]

pub mod against;
pub mod bins;
pub mod resolvents;
pub mod rows;
pub mod schedule;
pub mod signatures;
pub mod worthwhile;
