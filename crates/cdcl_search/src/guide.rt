// What leads a search: a guide says what comes next, wherever no clause is false or unit. Nothing
// rests on its answers but how long the search takes: what it may not have is passed over.
ghost use Rattle.std.specs.Prelude.{◌≡◌, Ok, ⊤};
ghost use Rattle.cdcl_search.specs.Running.{IsReady};

use crate::search::Search;
use cnf::types::Lit;
use std::alloc::AllocError;

/// What comes next. Where an answer is passed over, the policy decides.
#[derive(Clone, Copy, Debug, PartialEq, Eq, Drop)]
pub enum Advice {
    /// Decide this literal. It is passed over if it has a value, or its variable is not there.
    Decide(Lit),
    /// Take the clause that `Guide::cut` hands out, from outside the log. It is passed over unless
    /// its literals are of different variables that are there, and the sink takes it. With an LBD
    /// the policy may delete it later, as a learned clause that has it; without one it stays.
    Cut(Option<u32>),
    /// Tell `Guide::explained` why this literal is false, and ask again. It is passed over if the
    /// literal is not false, or its variable is not there, and where as many were explained at this
    /// fixpoint as there are variables.
    Explain(Lit),
    /// Nothing: the policy decides.
    Free,
    /// Stop here.
    Stop,
}

/// Leads a search, which asks it at each fixpoint, and tells it what happens between. A guide that
/// does not say otherwise takes no notice of that.
pub trait Guide: Drop {
    /// Whether the second came from the first by calls of a search alone. A caller of the search
    /// learns by it what the guide keeps.
    ghost follows: { Self → Self → Type 0 };

    /// Whether it may stop a search.
    ghost may_stop: { Type 0 } = { ⊤ };

    /// What comes next. No clause is false or unit, and each literal of level 0 stands in a clause
    /// of its own.
    ///
    /// # Errors
    ///
    /// `AllocError` where memory was refused: the search cannot go on.
    fn advise(&mut self, search: &Search) -> Result<Advice, AllocError>
        requires { IsReady search.now }
        ensures stops { result ≡ Ok Advice.Stop → may_stop }
        ensures follows { (first : Self) → follows first self.old → follows first self.new };

    /// The clause of its last answer, where that was `Advice::Cut`.
    fn cut(&self) -> &[Lit] {
        &[]
    }

    /// The clause of its last answer was passed over.
    fn refused(&mut self)
        ensures follows { (first : Self) → follows first self.old → follows first self.new }
    {}

    /// The literal of its last answer is false as this clause says: its negation, and negations of
    /// decisions. At level 0, and where its negation was decided, that stands alone.
    ///
    /// # Errors
    ///
    /// `AllocError` where memory was refused: the search cannot go on.
    fn explained(&mut self, _falsified: Lit, _clause: &[Lit]) -> Result<(), AllocError>
        ensures follows { (first : Self) → follows first self.old → follows first self.new }
    {
        Ok(())
    }

    /// The search went back: the trail keeps its first `_assigned` literals, and those behind them
    /// are undone. It is told so before the trail grows again.
    fn went_back(&mut self, _assigned: usize)
        ensures follows { (first : Self) → follows first self.old → follows first self.new }
    {}

    /// The search has learned a clause from a conflict.
    fn learned(&mut self)
        ensures follows { (first : Self) → follows first self.old → follows first self.new }
    {}

    /// How many levels stay where the search restarts.
    fn kept_levels(&self) -> usize {
        0
    }

    /// Whether the policy may delete clauses now.
    fn may_delete(&self) -> bool {
        true
    }
}
