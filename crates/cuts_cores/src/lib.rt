//! Lower bounds by cores, for a search by forms and cuts: cores of assumptions with their counts,
//! the form that they come to, and what is too dear beside it. The desk is what the parts of the
//! search ask for.
#![tactic(auto)]

mod citing;
pub mod cores;
mod counting;
pub mod desk;
mod items;
mod ordering;
mod resuming;
mod shortening;
pub mod tables;
