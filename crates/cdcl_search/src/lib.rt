//! The state of a conflict-driven search (CDCL), and its moves: it starts, takes a clause that was
//! given or comes from outside the log, propagates, decides, learns, notes what is true at level 0,
//! deletes and says which assumptions clash. Each move keeps the log right. What to do next is up
//! to a guide, which the loop of `cdcl` asks.
#![tactic(auto)]

pub mod assumptions;
pub mod axioms;
mod compacting;
pub mod cores;
pub mod given;
pub mod giving;
pub mod guide;
mod hints;
pub mod input;
pub mod learning;
mod levelling;
pub mod noting;
pub mod reducing;
pub mod search;
pub mod starting;
pub mod subsets;
mod tables;
mod writing;
