//! Totalizers that grow by stages: counts of true literals, whose output number k is a literal that
//! is true where at least k inputs are.
#![tactic(auto)]

mod stages;
pub mod totalizer;
