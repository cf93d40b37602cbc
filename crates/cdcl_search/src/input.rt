// What a solver was given. A search does not change it.
use crate::given::GivenClauses;
use reconstruction::stack::Stack;

/// The clauses given, and their reconstruction from what elimination left. Much of a search is
/// handed it and reads none of it: contracts speak of it. A ghost value would do for that, but a
/// generic function that has one leaves its proof no names for what it requires.
#[derive(Drop)]
pub struct Input {
    /// The reconstruction stack: the variables that were eliminated, each with the clauses that its
    /// value has to satisfy.
    pub stack: Stack,
    /// By variable, that of 1 first: whether clauses that come later may have it, so that it is not
    /// eliminated; as many as the formula has variables.
    pub frozen: Vec<bool>,
    /// How many of the clauses given are those of the formula: the first ones.
    pub first: usize,
    /// The clauses given, in their order.
    pub given: GivenClauses,
}
