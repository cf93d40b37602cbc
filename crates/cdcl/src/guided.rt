// The loop of a search (Handbook of Satisfiability, chapter on conflict-driven clause learning):
// propagate, then learn from a conflict or ask the guide what to decide. It restarts where its
// policy says so, which is only after a clause was learned since it last did. Clauses may come from
// outside the log while it runs, as the guide hands them out and the sink takes them. Each of them
// costs a unit of the budget, as a learned one does. So a search is bounded by its budget and the
// variables without a value, whatever the guide says. The watch can end it, as it waives what is
// left of the budget.

mod advising;
mod apart;
mod cutting;
mod turns;

pub use crate::guided::apart::{are_apart, make_room};
pub use crate::guided::turns::Course;

/// How a search ended.
#[derive(Clone, Copy, Debug, PartialEq, Eq, Drop)]
pub enum GuidedEnd {
    /// Each variable has a value, and no clause is false. The guide was asked with all values
    /// there, and neither stopped the search nor brought a clause that was taken.
    Satisfied,
    /// The empty clause was added, or came from outside.
    Refuted,
    /// The guide stopped it. The trail stands as it was, and no clause is false or unit.
    Stopped,
    /// Nothing is left of the budget.
    Spent,
}
