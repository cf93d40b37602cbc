//! Lines of a certificate by linear relaxations: forms of multipliers, and cuts under them.
//!
//! `facts::Facts` has the rows with the facts that they are, and the cost in whole numbers, and
//! `groups::Groups` finds groups for it.
//! `line::Line` makes a form of the multipliers of a relaxation, and a cut of what is false.
//! `branching::BranchGuide` leads a search by them, and `diving::DiveGuide` to solutions. Lines are
//! judged where they are proposed, so nothing is promised of them here.
#![tactic(auto)]

pub mod branching;
pub mod diving;
pub mod facts;
pub mod groups;
pub mod line;
pub mod node;
mod tables;
