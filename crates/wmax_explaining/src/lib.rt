//! The command `wmax explain`: what there is of an instance, what a result comes to, and what a
//! certificate proves and holds.
#![tactic(auto)]

pub mod explaining;
