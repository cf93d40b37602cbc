//! A block of memory in which every place holds a value, and rows of values in one block.
#![tactic(auto)]

mod block;
mod places;
pub mod rows;

pub use block::FlatBlock;
#[doc(hidden)]
pub use places::{Deed, Places};
