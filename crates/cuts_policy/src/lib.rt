//! What the search by forms and cuts does next: lower bounds by cores and by linear relaxations,
//! and solutions below the best one, in turns, with walks between them. Nothing that is promised of
//! the search rests on it.
#![tactic(auto)]

mod bounding;
mod linear_bounds;
mod root;
pub mod rounds;
mod walks;
