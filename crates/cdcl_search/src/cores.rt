// Cores: which assumptions cannot hold together, from one that is false where nothing else was
// decided (Eén and Sörensson 2003, final conflict analysis). The clause of their negations becomes
// a line of the log, unless a live clause has no other literals.
//
// Whether one has, the rows of the clauses that watch its literals tell (`subsets`). So a core
// takes the time of its analysis, of the assumptions and of these rows, and none by the number of
// variables or of clauses.
ghost use Rattle.std.specs.Prelude.{◌≡◌, ◌<◌, ◌≤◌, true, false, map, length, All, Contains};
ghost use Rattle.std.specs.Prelude.{IfOk, IfSome, IfNone, OnOk, OnErr, Some};
ghost use Rattle.cnf.specs.Literal.{negation};
ghost use Rattle.propagate.specs.Trail.{value_in, depth_of};
ghost use Rattle.analyze.specs.Analyzer.{IsFalsified};
ghost use Rattle.cdcl_search.specs.Invariant.{NotesUnits, zero_of};
ghost use Rattle.cdcl_search.specs.Running.{IsReady, Runs};
ghost use Rattle.cdcl_search.specs.Cores.{IsCoreClause, IsRefusal};
ghost use Rattle.cdcl_search.specs.Cores.{IsWhyFalse, RestsOnNothing, LearnsCore};

use crate::input::Input;
use crate::search::Search;
use analyze::analyzer::FinalClause;
use clauses::store::CRef;
use cnf::types::Lit;
use lrat_log::lines::Kind;
use lrat_log::sink::Sink;
use std::alloc::{AllocError, Global};

/// Where the assumptions led that are true as far as the search has come.
#[derive(Drop)]
pub enum Refusal {
    /// These cannot hold together, as a live clause shows.
    Shown(Vec<Lit>),
    /// These cannot hold together, as this clause shows once it is learned.
    Follows(Vec<Lit>, FinalClause),
    /// Not all that was decided was assumed.
    Unknown,
}

/// The negations of these literals.
fn negations(alloc: Global, lits: &[Lit]) -> Result<Vec<Lit>, AllocError>
    ensures { IfOk result (λ v. v.items ≡ map negation lits.now) }
{
    let mut negated = Vec::with_capacity(alloc, lits.len())?;
    for lit in lits {
        negated.push(lit.negation())?;
    }
    Ok(negated)
}

/// A place from this one on at which the literal stands.
fn place_of(lits: &[Lit], from: usize, sought: Lit) -> Option<usize>
    ensures { IfSome result (λ p. Contains lits.now sought) }
{
    for place in from..lits.len() {
        if lits[place] == sought {
            return Some(place);
        }
    }
    None
}

/// Whether the negations of these literals stand among the assumptions, in this order.
fn are_assumed(lits: &[Lit], assumptions: &[Lit]) -> bool
    ensures { result ≡ true → All (λ l. Contains assumptions.now (negation l)) lits.now }
{
    let mut from = 0;
    for lit in lits {
        match place_of(assumptions, from, lit.negation()) {
            Some(place) => from = place,
            None => return false,
        }
    }
    true
}

impl Search {
    /// What an assumption that is false at a level above 0 rests on.
    fn explain(
        &mut self,
        assumptions: &[Lit],
        falsified: Lit,
        reason: CRef,
    ) -> Result<Refusal, AllocError>
        requires ready { IsReady self.old }
        requires assumed { Contains assumptions.now falsified }
        requires small { falsified.variable ≤ self.old.engine.variables }
        requires falsified { IsFalsified self.old.engine.trail falsified reason }
        ensures refusal { IfOk result (IsRefusal self.old assumptions.now) }
        ensures unchanged { self.new ≡ self.old }
    {
        let clause = self
            .analyzer
            .analyze_final(&self.engine, &self.store, falsified, reason)?;
        let lits = clause.lits.as_slice();
        if !are_assumed(&lits[1..], assumptions) {
            return Ok(Refusal::Unknown);
        }
        let core = negations(self.store.allocator(), lits)?;
        if self.subsets.find(&self.engine, &self.store, lits)? {
            return Ok(Refusal::Shown(core));
        }
        Ok(Refusal::Follows(core, clause))
    }

    /// Why a literal is false, as a clause: its negation, and negations of decisions. None at level
    /// 0, and where its negation was decided.
    ///
    /// # Errors
    ///
    /// `AllocError` where memory was refused: nothing has changed.
    pub fn explain_false(&mut self, falsified: Lit) -> Result<Option<FinalClause>, AllocError>
        requires ready { IsReady self.old }
        requires small { falsified.variable ≤ self.old.engine.variables }
        requires falsified { value_in self.old.engine.trail falsified ≡ Some false }
        ensures explained { IfOk result (λ found. IfSome found (IsWhyFalse self.old falsified)) }
        ensures none { IfOk result
            (λ found. IfNone found (RestsOnNothing self.old.engine.trail falsified)) }
        ensures unchanged { self.new ≡ self.old }
    {
        if self.engine.level(falsified.variable()) == Some(0) {
            return Ok(None);
        }
        let Some(reason) = self.engine.reason(falsified.variable()) else {
            return Ok(None);
        };
        let clause = self
            .analyzer
            .analyze_final(&self.engine, &self.store, falsified, reason)?;
        Ok(Some(clause))
    }

    /// What an assumption that is false rests on.
    pub fn refuse(&mut self, assumptions: &[Lit], falsified: Lit) -> Result<Refusal, AllocError>
        requires ready { IsReady self.old }
        requires units { NotesUnits self.old.store.slots (zero_of self.old.engine.trail)
            (depth_of self.old.engine.trail) self.old.units.items self.old.noted }
        requires noted { length (zero_of self.old.engine.trail) ≤ self.old.noted }
        requires assumed { Contains assumptions.now falsified }
        requires small { falsified.variable ≤ self.old.engine.variables }
        requires falsified { value_in self.old.engine.trail falsified ≡ Some false }
        ensures refusal { IfOk result (IsRefusal self.old assumptions.now) }
        ensures unchanged { self.new ≡ self.old }
    {
        if self.engine.level(falsified.variable()) == Some(0) {
            let mut core = Vec::new(self.store.allocator());
            core.push(falsified)?;
            return Ok(Refusal::Shown(core));
        }
        match self.engine.reason(falsified.variable()) {
            Some(reason) => self.explain(assumptions, falsified, reason),
            None => Ok(Refusal::Unknown),
        }
    }
}

/// Learns the clause of a core, at level 0.
pub fn learn_core<S: Sink>(
    search: &mut Search,
    input: &Input,
    sink: &mut S,
    clause: &FinalClause,
) -> Result<(), AllocError>
    requires runs { Runs search.old input.now (S.lines sink.old) }
    requires noted { length (zero_of search.old.engine.trail) ≤ search.old.noted }
    requires lesson { IsCoreClause search.old clause.now }
    ensures learns { OnOk result (LearnsCore search.old search.new input.now (S.lines sink.old)
        (S.lines sink.new) clause.now.lits.items) }
    ensures err { OnErr result (S.lines sink.new ≡ S.lines sink.old) }
    ensures follows { (first : S) → S.follows first sink.old → S.follows first sink.new }
{
    let hints = search.hints_of(clause.hints.as_slice())?;
    search.backtrack(0);
    let lits = clause.lits.as_slice();
    let reference = search.add_line(sink, Kind::Learned, lits, &hints)?;
    search.policy.note_learned(
        reference,
        lits.len(),
        lits.len().min(u32::MAX as usize) as u32,
    );
    Ok(())
}
