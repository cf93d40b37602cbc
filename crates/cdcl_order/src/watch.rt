// What a search reports while it runs.
ghost use Rattle.std.specs.Prelude.{◌≡◌, ◌+◌, ◌≤◌, ℕ, List, Option, None};
ghost use Rattle.cdcl_order.specs.Budgets.{WaivesAs};
ghost use Rattle.cdcl_order.specs.Watch.{Sight};

use crate::budget::Budget;

/// How far a search has come.
#[derive(Clone, Copy, Debug, PartialEq, Eq, Drop)]
pub struct SearchReport {
    /// How many conflicts were paid from the budget so far; each taught a clause.
    pub conflicts: u64,
    /// How many literals were propagated or decided, up to 2^64 - 1, except for those that still
    /// stand on the trail.
    pub propagations: u64,
    /// How many learned clauses of more than two literals are live.
    pub learned: usize,
    /// How often this solver has restarted, in all its searches.
    pub restarts: u64,
}

/// Which form shows a lower bound of the cost.
#[derive(Clone, Copy, Debug, PartialEq, Eq, Drop)]
pub enum Way {
    /// That of the cores: the cost less the facts of their counts.
    Cores,
    /// One of the linear relaxation.
    Relaxation,
    /// The cost itself, under what was learned.
    Cost,
}

/// Is told how far a search has come, each time that it has learned a clause. It can ask for the
/// end: then it waives the effort that is left. Beside that, what the search answers, and what it
/// writes, does not depend on it.
pub trait SearchWatch {
    /// The solutions and ends that it was shown, one after another, where that is known; None where
    /// it is not, as of one that writes them to a file.
    ghost seen: { Self → Option (List Sight) };

    /// How many units of effort it has waived.
    ghost waived: { Self → ℕ };

    /// The search has learned a clause.
    fn learned(&mut self, report: &SearchReport)
        ensures same_seen { seen self.new ≡ seen self.old }
        ensures same_waived { waived self.new ≡ waived self.old };

    /// How many of the units that are left it waives: all of them to end the search.
    fn waives(&mut self, left: u64) -> u64
        ensures within { result ≤ left }
        ensures waives { waived self.new ≡ waived self.old + result }
        ensures same_seen { seen self.new ≡ seen self.old };
}

/// Takes from the budget what the watch waives.
pub fn heed<W: SearchWatch>(budget: &mut Budget, watch: &mut W)
    ensures budget { budget.new ≡ record budget.old { waived = budget.new.waived } }
    ensures more { budget.old.waived ≤ budget.new.waived }
    ensures waives { WaivesAs budget.old budget.new (W.waived watch.old) (W.waived watch.new) }
    ensures same_seen { W.seen watch.new ≡ W.seen watch.old }
{
    let units = watch.waives(budget.left());
    budget.waive(units);
}

/// Looks at nothing, and waives nothing.
#[derive(Drop)]
pub struct Unwatched;

impl SearchWatch for Unwatched {
    ghost seen = { λ _. None };

    ghost waived = { λ _. 0 };

    fn learned(&mut self, _report: &SearchReport) {}

    fn waives(&mut self, _left: u64) -> u64 {
        0
    }
}
