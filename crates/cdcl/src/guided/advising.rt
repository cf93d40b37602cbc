// What the guide says is done: a literal is decided, or a clause taken.
ghost use Rattle.std.specs.Prelude.{◌≡◌, ◌+◌, ◌<◌, ◌≤◌, true, false, length, Ok, Some};
ghost use Rattle.propagate.specs.Trail.{literals_of};
ghost use Rattle.analyze.specs.Analyzer.{IsFixpoint};
ghost use Rattle.cdcl_order.specs.Budgets.{left_of};
ghost use Rattle.cdcl_search.specs.Invariant.{zero_of};
ghost use Rattle.cdcl_search.specs.Running.{Runs, IsReady, CanDecide, KeepsRunning, EngineMoves};
ghost use Rattle.cdcl_search.specs.Parts.{LearnsNothing, Reduces};
ghost use Rattle.cdcl.specs.Courses.{HoldsSame};
ghost use Rattle.cdcl.specs.Guiding.{GuidedTurns};
ghost use Rattle.cdcl.specs.declared.guided.GuidedEnd.TheVariants.{Stopped};

use super::GuidedEnd;
use crate::guided::turns::Course;
use cdcl_search::guide::{Advice, Guide};
use cdcl_search::input::Input;
use cdcl_search::reducing::reduce;
use cdcl_search::search::Search;
use cnf::types::Lit;
use lrat_log::sink::Sink;
use std::alloc::AllocError;

impl<'q, 'i, 's, 'b, 'm, S: Sink> Course<'q, 'i, 's, 'b, 'm, S> {
    /// Asks the guide, and does as it says.
    pub(super) fn go_on<G: Guide>(&mut self, guide: &mut G) -> Result<Option<GuidedEnd>, AllocError>
        requires runs { Runs self.old.search.now self.old.input.now (S.lines self.old.sink.now) }
        requires fixpoint { IsFixpoint self.old.search.now.store.slots
            (literals_of self.old.search.now.engine.trail) }
        requires noted { length (zero_of self.old.search.now.engine.trail)
            ≤ self.old.search.now.noted }
        requires left { 0 < left_of self.old.budget.now }
        ensures same { HoldsSame self.old self.new }
        ensures turns { GuidedTurns result self.old.search.now self.new.search.now
            self.old.input.now (S.lines self.old.sink.now) (S.lines self.new.sink.now)
            self.old.budget.now self.new.budget.now }
        ensures stops { result ≡ Ok (Some Stopped) → G.may_stop }
        ensures kept { self.new.budget.now.waived ≡ self.old.budget.now.waived }
        ensures follows { (first : G) → G.follows first guide.old → G.follows first guide.new }
        ensures sink_follows { (first : S) → S.follows first self.old.sink.now
            → S.follows first self.new.sink.now }
    {
        let advice = ask(self.search, guide)?;
        match advice {
            Advice::Decide(lit) => self.decide(guide, lit),
            Advice::Cut(lbd) => self.cut(guide, lbd),
            Advice::Explain(_) | Advice::Free => self.branch(guide),
            Advice::Stop => Ok(Some(GuidedEnd::Stopped)),
        }
    }

    /// Decides the literal, or what the policy says where that has a value or is not there.
    fn decide<G: Guide>(&mut self, guide: &G, lit: Lit) -> Result<Option<GuidedEnd>, AllocError>
        requires runs { Runs self.old.search.now self.old.input.now (S.lines self.old.sink.now) }
        requires fixpoint { IsFixpoint self.old.search.now.store.slots
            (literals_of self.old.search.now.engine.trail) }
        requires noted { length (zero_of self.old.search.now.engine.trail)
            ≤ self.old.search.now.noted }
        requires left { 0 < left_of self.old.budget.now }
        ensures same { HoldsSame self.old self.new }
        ensures turns { GuidedTurns result self.old.search.now self.new.search.now
            self.old.input.now (S.lines self.old.sink.now) (S.lines self.new.sink.now)
            self.old.budget.now self.new.budget.now }
        ensures stops { result ≡ Ok (Some Stopped) → G.may_stop }
        ensures kept { self.new.budget.now ≡ self.old.budget.now }
        ensures sink_follows { (first : S) → S.follows first self.old.sink.now
            → S.follows first self.new.sink.now }
    {
        if !decide_open(self.search, lit) {
            return self.branch(guide);
        }
        thin_out(self.search, self.input, self.sink, guide)?;
        Ok(None)
    }

    /// Decides what the policy says, unless each variable has a value.
    pub(super) fn branch<G: Guide>(&mut self, guide: &G) -> Result<Option<GuidedEnd>, AllocError>
        requires runs { Runs self.old.search.now self.old.input.now (S.lines self.old.sink.now) }
        requires fixpoint { IsFixpoint self.old.search.now.store.slots
            (literals_of self.old.search.now.engine.trail) }
        requires noted { length (zero_of self.old.search.now.engine.trail)
            ≤ self.old.search.now.noted }
        requires left { 0 < left_of self.old.budget.now }
        ensures same { HoldsSame self.old self.new }
        ensures turns { GuidedTurns result self.old.search.now self.new.search.now
            self.old.input.now (S.lines self.old.sink.now) (S.lines self.new.sink.now)
            self.old.budget.now self.new.budget.now }
        ensures stops { result ≡ Ok (Some Stopped) → G.may_stop }
        ensures kept { self.new.budget.now ≡ self.old.budget.now }
        ensures sink_follows { (first : S) → S.follows first self.old.sink.now
            → S.follows first self.new.sink.now }
    {
        if !self.search.branch() {
            return Ok(Some(GuidedEnd::Satisfied));
        }
        thin_out(self.search, self.input, self.sink, guide)?;
        Ok(None)
    }
}

/// Asks the guide, and explains to it what it wants to have explained, until it says something
/// else.
fn ask<G: Guide>(search: &mut Search, guide: &mut G) -> Result<Advice, AllocError>
    requires ready { IsReady search.old }
    ensures unchanged { search.new ≡ search.old }
    ensures stops { result ≡ Ok Advice.Stop → G.may_stop }
    ensures follows { (first : G) → G.follows first guide.old → G.follows first guide.new }
{
    for _ in 0..search.engine.variables() {
        match guide.advise(search)? {
            Advice::Explain(lit) => {
                if !explain(search, guide, lit)? {
                    return Ok(Advice::Free);
                }
            }
            advice => return Ok(advice),
        }
    }
    guide.advise(search)
}

/// Tells the guide why the literal is false, if it is.
fn explain<G: Guide>(search: &mut Search, guide: &mut G, lit: Lit) -> Result<bool, AllocError>
    requires ready { IsReady search.old }
    ensures unchanged { search.new ≡ search.old }
    ensures follows { (first : G) → G.follows first guide.old → G.follows first guide.new }
{
    if lit.variable() > search.engine.variables() {
        return Ok(false);
    }
    if search.engine.value(lit) != Some(false) {
        return Ok(false);
    }
    match search.explain_false(lit)? {
        Some(clause) => guide.explained(lit, clause.lits.as_slice())?,
        None => guide.explained(lit, &[lit.negation()])?,
    }
    Ok(true)
}

/// Decides the literal, unless it has a value or is not there; it answers whether it did.
fn decide_open(search: &mut Search, lit: Lit) -> bool
    requires can { CanDecide search.old }
    ensures runs { KeepsRunning search.old search.new }
    ensures longer { result ≡ true
        → length search.new.engine.trail ≡ length search.old.engine.trail + 1 }
    ensures within { length search.old.engine.trail ≤ search.old.engine.variables }
    ensures stays { result ≡ false → search.new ≡ search.old }
    ensures engine { EngineMoves search.old search.new }
{
    // There are at most as many literals as variables.
    let _ = search.engine.assigned();
    if lit.variable() > search.engine.variables() {
        return false;
    }
    if search
        .engine
        .value(Lit::new(lit.variable(), false))
        .is_some()
    {
        return false;
    }
    search.decide(lit);
    true
}

/// Deletes clauses where the guide allows it. This comes after a decision: by then what was learned
/// has been propagated, and each level below is at a fixpoint.
fn thin_out<S: Sink, G: Guide>(
    search: &mut Search,
    input: &Input,
    sink: &mut S,
    guide: &G,
) -> Result<(), AllocError>
    requires runs { Runs search.old input.now (S.lines sink.old) }
    ensures reduces { LearnsNothing result
        (Reduces search.old search.new input.now (S.lines sink.new)) input.now
        (S.lines sink.old) (S.lines sink.new) }
    ensures sink_follows { (first : S) → S.follows first sink.old → S.follows first sink.new }
{
    if !guide.may_delete() {
        return Ok(());
    }
    reduce(search, input, sink)
}
