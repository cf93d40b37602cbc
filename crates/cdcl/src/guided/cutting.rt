// A clause that comes from outside the log, as the guide hands it out.
ghost use Rattle.std.specs.Prelude.{◌≡◌, ◌<◌, ◌≤◌, length, Ok, Some};
ghost use Rattle.propagate.specs.Trail.{literals_of};
ghost use Rattle.analyze.specs.Analyzer.{IsFixpoint};
ghost use Rattle.cdcl_order.specs.Budgets.{left_of};
ghost use Rattle.cdcl_search.specs.Invariant.{zero_of};
ghost use Rattle.cdcl_search.specs.Running.{Runs};
ghost use Rattle.cdcl.specs.Courses.{HoldsSame};
ghost use Rattle.cdcl.specs.Guiding.{GuidedTurns, TakesCut};
ghost use Rattle.cdcl.specs.declared.guided.GuidedEnd.TheVariants.{Stopped};

use super::GuidedEnd;
use crate::guided::apart::{are_apart, make_room};
use crate::guided::turns::Course;
use cdcl_search::axioms::take_axiom;
use cdcl_search::guide::Guide;
use cnf::types::Lit;
use lrat_log::sink::Sink;
use std::alloc::AllocError;

/// What became of a clause from outside.
#[derive(Clone, Copy, Debug, PartialEq, Eq, Drop)]
pub(crate) enum Taking {
    /// It was passed over.
    Refused,
    /// The search goes on with it.
    Taken,
    /// It is empty, and the log ends with it.
    Ended,
}

impl<'q, 'i, 's, 'b, 'm, S: Sink> Course<'q, 'i, 's, 'b, 'm, S> {
    /// Takes the clause that the guide hands out, or does what the policy says.
    pub(super) fn cut<G: Guide>(
        &mut self,
        guide: &mut G,
        lbd: Option<u32>,
    ) -> Result<Option<GuidedEnd>, AllocError>
        requires runs { Runs self.old.search.now self.old.input.now (S.lines self.old.sink.now) }
        requires fixpoint { IsFixpoint self.old.search.now.store.slots
            (literals_of self.old.search.now.engine.trail) }
        requires noted { length (zero_of self.old.search.now.engine.trail)
            ≤ self.old.search.now.noted }
        requires left { 0 < left_of self.old.budget.now }
        ensures same { HoldsSame self.old self.new }
        ensures turns { GuidedTurns result self.old.search.now self.new.search.now
            self.old.input.now (S.lines self.old.sink.now) (S.lines self.new.sink.now)
            self.old.budget.now self.new.budget.now }
        ensures stops { result ≡ Ok (Some Stopped) → G.may_stop }
        ensures kept { self.new.budget.now.waived ≡ self.old.budget.now.waived }
        ensures follows { (first : G) → G.follows first guide.old → G.follows first guide.new }
        ensures sink_follows { (first : S) → S.follows first self.old.sink.now
            → S.follows first self.new.sink.now }
    {
        let taking = self.take_cut(guide.cut(), lbd)?;
        match taking {
            Taking::Refused => {
                guide.refused();
                self.branch(guide)
            }
            Taking::Taken => {
                guide.went_back(self.search.engine.assigned());
                Ok(None)
            }
            Taking::Ended => Ok(Some(GuidedEnd::Refuted)),
        }
    }

    /// Takes the clause, if its literals are of different variables that are there, and the sink
    /// takes it.
    fn take_cut(&mut self, lits: &[Lit], lbd: Option<u32>) -> Result<Taking, AllocError>
        requires runs { Runs self.old.search.now self.old.input.now (S.lines self.old.sink.now) }
        requires left { 0 < left_of self.old.budget.now }
        ensures same { HoldsSame self.old self.new }
        ensures taking { TakesCut result self.old.search.now self.new.search.now
            self.old.input.now (S.lines self.old.sink.now) (S.lines self.new.sink.now)
            self.old.budget.now self.new.budget.now }
        ensures sink_follows { (first : S) → S.follows first self.old.sink.now
            → S.follows first self.new.sink.now }
    {
        let variables = self.search.engine.variables();
        make_room(self.marks, variables)?;
        if !are_apart(self.marks, variables, lits) {
            return Ok(Taking::Refused);
        }
        let taken = self.sink.cut(lits)?;
        if !taken {
            return Ok(Taking::Refused);
        }
        self.budget.count_learned();
        if lits.is_empty() {
            return Ok(Taking::Ended);
        }
        self.sink.is_short();
        take_axiom(self.search, lits, lbd)?;
        Ok(Taking::Taken)
    }
}
