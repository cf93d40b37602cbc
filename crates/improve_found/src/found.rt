// What the search finds.
use crate::solutions::Solution;
use lrat_log::log::Log;

/// What the budget was spent on. Each line that was learned cost a unit, and none adds the empty
/// clause.
#[derive(Drop)]
pub struct Work {
    /// The log over the hard clauses.
    pub hard: Log,
    /// The log over the formula for 'cheaper than the best solution'; without lines where none was
    /// met.
    pub bound: Log,
}

/// The end of a search. A cost is the sum of the weights of the soft clauses that the bits falsify,
/// below 2^62. There are as many bits as the instance has variables, and the first is the value of
/// variable 1.
#[derive(Drop)]
pub enum Found {
    /// The bits are a solution of this cost, and none is cheaper. The log refutes the formula for
    /// 'cheaper than that', which has `clauses` clauses, fewer than 2^28.
    Optimum {
        cost: u64,
        bits: Vec<bool>,
        log: Log,
        clauses: u64,
    },
    /// There is no solution. The log refutes the formula of the hard clauses, which has `clauses`
    /// clauses, fewer than 2^28.
    Unsat {
        log: Log,
        clauses: u64,
    },
    /// The budget is spent. The bits are a solution of this cost, the cheapest that was met.
    Best {
        cost: u64,
        bits: Vec<bool>,
        work: Work,
    },
    /// The budget is spent, and no solution was met.
    Nothing {
        work: Work,
    },
}

/// The end of a search by forms and cuts, whose log is where its lines went.
#[derive(Drop)]
pub struct CutsFound {
    /// The cheapest solution that was met, if any was: its cost was told last.
    pub best: Option<Solution>,
    /// Whether nothing is cheaper than that one; without one, whether there is none at all. If not,
    /// the budget is spent.
    pub is_proved: bool,
}

/// Why a search ended without an answer. Only the costs told remain of it.
#[derive(Clone, Copy, Debug, PartialEq, Eq, Drop)]
pub enum ImproveFault {
    /// Memory was refused.
    Memory,
    /// A cost could not be told.
    Progress,
}
