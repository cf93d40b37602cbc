// The turns of a search that a guide leads: after each propagation it learns from a conflict,
// restarts, or asks the guide.
ghost use Rattle.std.specs.Prelude.{◌≡◌, ◌+◌, ◌<◌, ◌≤◌, Ok, IfOk, Some};
ghost use Rattle.propagate.specs.Trail.{literals_of, depth_of};
ghost use Rattle.propagate.specs.Fits.{IsFalseClause};
ghost use Rattle.analyze.specs.Analyzer.{IsFixpoint};
ghost use Rattle.cdcl_order.specs.Budgets.{WaivesAs, left_of};
ghost use Rattle.cdcl_search.specs.Running.{Runs};
ghost use Rattle.cdcl.specs.Courses.{HoldsSame};
ghost use Rattle.cdcl.specs.Guiding.{GuidedEnds, GuidedTurns, IsRefutedAtOnce};
ghost use Rattle.cdcl.specs.declared.guided.GuidedEnd.TheVariants.{Refuted, Stopped};

use super::GuidedEnd;
use crate::budget::Budget;
use crate::watch::SearchWatch;
use cdcl_order::watch::heed;
use cdcl_search::guide::Guide;
use cdcl_search::input::Input;
use cdcl_search::learning::learn;
use cdcl_search::noting::{note_level, write_empty};
use cdcl_search::search::Search;
use clauses::store::CRef;
use cnf::marks::Marks;
use lrat_log::sink::Sink;
use std::alloc::AllocError;

/// What a search that a guide leads works on. Each reference has a lifetime of its own.
#[derive(Drop)]
pub struct Course<'q, 'i, 's, 'b, 'm, S: Sink> {
    /// The search itself.
    pub search: &'q mut Search,
    /// What it was given.
    pub input: &'i Input,
    /// What its lines go to.
    pub sink: &'s mut S,
    /// What it may spend.
    pub budget: &'b mut Budget,
    /// By which it sees whether the literals of a clause from outside are of different variables.
    pub marks: &'m mut Marks,
}

impl<'q, 'i, 's, 'b, 'm, S: Sink> Course<'q, 'i, 's, 'b, 'm, S> {
    /// Searches from level 0, led by the guide, until it has an answer or the budget is spent.
    ///
    /// # Errors
    ///
    /// `AllocError` where memory was refused, here or by the guide or the sink: the search cannot
    /// go on. The log stays open.
    pub fn run<G: Guide, W: SearchWatch>(
        &mut self,
        guide: &mut G,
        watch: &mut W,
    ) -> Result<GuidedEnd, AllocError>
        requires runs { Runs self.old.search.now self.old.input.now (S.lines self.old.sink.now) }
        ensures same { HoldsSame self.old self.new }
        ensures search { GuidedEnds result self.new.search.now self.old.input.now
            (S.lines self.old.sink.now) (S.lines self.new.sink.now)
            self.old.budget.now self.new.budget.now }
        ensures at_once { IfOk result (λ end.
            IsRefutedAtOnce self.old.input.now (S.lines self.old.sink.now) → end ≡ Refuted) }
        ensures stops { result ≡ Ok Stopped → G.may_stop }
        ensures follows { (first : G) → G.follows first guide.old → G.follows first guide.new }
        ensures sink_follows { (first : S) → S.follows first self.old.sink.now
            → S.follows first self.new.sink.now }
        ensures same_seen { W.seen watch.new ≡ W.seen watch.old }
        ensures waives { WaivesAs self.old.budget.now self.new.budget.now
            (W.waived watch.old) (W.waived watch.new) }
    {
        heed(self.budget, watch);
        self.search.begin();
        guide.went_back(self.search.engine.assigned());
        'rounds: loop {
            match self.round(guide, watch)? {
                Some(end) => return Ok(end),
                None => {}
            }
        }
    }

    /// Propagates, and then learns, restarts or does what the guide says; it answers how the search
    /// ended, if it did.
    fn round<G: Guide, W: SearchWatch>(
        &mut self,
        guide: &mut G,
        watch: &mut W,
    ) -> Result<Option<GuidedEnd>, AllocError>
        requires runs { Runs self.old.search.now self.old.input.now (S.lines self.old.sink.now) }
        ensures same { HoldsSame self.old self.new }
        ensures turns { GuidedTurns result self.old.search.now self.new.search.now
            self.old.input.now (S.lines self.old.sink.now) (S.lines self.new.sink.now)
            self.old.budget.now self.new.budget.now }
        ensures at_once { depth_of self.old.search.now.engine.trail ≡ 0 → IfOk result (λ next.
            IsRefutedAtOnce self.old.input.now (S.lines self.old.sink.now)
            → next ≡ Some Refuted) }
        ensures stops { result ≡ Ok (Some Stopped) → G.may_stop }
        ensures follows { (first : G) → G.follows first guide.old → G.follows first guide.new }
        ensures sink_follows { (first : S) → S.follows first self.old.sink.now
            → S.follows first self.new.sink.now }
        ensures same_seen { W.seen watch.new ≡ W.seen watch.old }
        ensures waives { WaivesAs self.old.budget.now self.new.budget.now
            (W.waived watch.old) (W.waived watch.new) }
    {
        match self.search.propagate()? {
            Some(conflict) => self.on_conflict(guide, watch, conflict),
            None => self.on_fixpoint(guide),
        }
    }

    /// Learns from a conflict, if it is above level 0 and something is left of the budget.
    fn on_conflict<G: Guide, W: SearchWatch>(
        &mut self,
        guide: &mut G,
        watch: &mut W,
        conflict: CRef,
    ) -> Result<Option<GuidedEnd>, AllocError>
        requires runs { Runs self.old.search.now self.old.input.now (S.lines self.old.sink.now) }
        requires conflict { IsFalseClause self.old.search.now.store.slots
            self.old.search.now.engine conflict }
        ensures same { HoldsSame self.old self.new }
        ensures turns { GuidedTurns result self.old.search.now self.new.search.now
            self.old.input.now (S.lines self.old.sink.now) (S.lines self.new.sink.now)
            self.old.budget.now self.new.budget.now }
        ensures flat { depth_of self.old.search.now.engine.trail ≡ 0
            → IfOk result (λ next. next ≡ Some Refuted) }
        ensures stops { result ≡ Ok (Some Stopped) → G.may_stop }
        ensures follows { (first : G) → G.follows first guide.old → G.follows first guide.new }
        ensures sink_follows { (first : S) → S.follows first self.old.sink.now
            → S.follows first self.new.sink.now }
        ensures same_seen { W.seen watch.new ≡ W.seen watch.old }
        ensures waives { WaivesAs self.old.budget.now self.new.budget.now
            (W.waived watch.old) (W.waived watch.new) }
    {
        if self.search.engine.depth() == 0 {
            write_empty(self.search, self.input, self.sink, conflict)?;
            return Ok(Some(GuidedEnd::Refuted));
        }
        if self.budget.left() == 0 {
            return Ok(Some(GuidedEnd::Spent));
        }
        learn(self.search, self.input, self.sink, conflict)?;
        pay_learned(self.search, self.budget, watch);
        guide.went_back(self.search.engine.assigned());
        guide.learned();
        Ok(None)
    }

    /// Restarts, or does what the guide says, if something is left of the budget.
    fn on_fixpoint<G: Guide>(&mut self, guide: &mut G) -> Result<Option<GuidedEnd>, AllocError>
        requires runs { Runs self.old.search.now self.old.input.now (S.lines self.old.sink.now) }
        requires fixpoint { IsFixpoint self.old.search.now.store.slots
            (literals_of self.old.search.now.engine.trail) }
        ensures same { HoldsSame self.old self.new }
        ensures turns { GuidedTurns result self.old.search.now self.new.search.now
            self.old.input.now (S.lines self.old.sink.now) (S.lines self.new.sink.now)
            self.old.budget.now self.new.budget.now }
        ensures stops { result ≡ Ok (Some Stopped) → G.may_stop }
        ensures kept { self.new.budget.now.waived ≡ self.old.budget.now.waived }
        ensures follows { (first : G) → G.follows first guide.old → G.follows first guide.new }
        ensures sink_follows { (first : S) → S.follows first self.old.sink.now
            → S.follows first self.new.sink.now }
    {
        if self.budget.left() == 0 {
            return Ok(Some(GuidedEnd::Spent));
        }
        if self.search.policy.is_restart_due() {
            self.search.restart(guide.kept_levels());
            guide.went_back(self.search.engine.assigned());
            return Ok(None);
        }
        note_level(self.search, self.input, self.sink)?;
        self.go_on(guide)
    }
}

/// Counts a clause that was learned, shows the watch how far the search has come, and takes from
/// the budget what it waives.
fn pay_learned<W: SearchWatch>(search: &Search, budget: &mut Budget, watch: &mut W)
    requires { 0 < left_of budget.old }
    ensures pays { budget.new ≡ record budget.old {
      learned = budget.old.learned + 1;
      waived = budget.new.waived;
    } }
    ensures more { budget.old.waived ≤ budget.new.waived }
    ensures same_seen { W.seen watch.new ≡ W.seen watch.old }
    ensures waives { WaivesAs budget.old budget.new (W.waived watch.old) (W.waived watch.new) }
{
    budget.count_learned();
    watch.learned(&search.policy.report(budget));
    heed(budget, watch);
}
