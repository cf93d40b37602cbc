// The clause database is reduced: learned clauses are deleted from time to time, so that
// propagation has fewer to look at.
ghost use Rattle.std.specs.Prelude.{◌≡◌, ◌≤◌, true, false, Some, All, length, IfOk, OnOk, OnErr};
ghost use Rattle.propagate.specs.Trail.{reason_in};
ghost use Rattle.cdcl_search.specs.Invariant.{is_kept_name};
ghost use Rattle.cdcl_search.specs.Running.{IsReady, Runs};
ghost use Rattle.cdcl_search.specs.Moves.{MayBeDeleted};
ghost use Rattle.cdcl_search.specs.Deletions.{AreMarked, IsDeleting};
ghost use Rattle.cdcl_search.specs.Parts.{LearnsNothing, Deletes, Reduces};

use crate::input::Input;
use crate::search::Search;
use cdcl_order::deletions::Candidate;
use clauses::store::CRef;
use cnf::types::Lit;
use lrat_log::lines::{Hint, Kind, Name};
use lrat_log::sink::Sink;
use propagate::engine::Engine;
use std::alloc::AllocError;

/// Deletes a clause that is detached, where it is marked and live, and writes that down.
fn delete<S: Sink>(
    search: &mut Search,
    input: &Input,
    sink: &mut S,
    doomed: &[bool],
    reference: CRef,
) -> Result<(), AllocError>
    requires deleting { IsDeleting search.old input.now (S.lines sink.old) doomed.now }
    ensures deletes { OnOk result (Deletes search.old search.new input.now (S.lines sink.old)
        (S.lines sink.new) doomed.now reference) }
    ensures err { OnErr result (S.lines sink.new ≡ S.lines sink.old) }
    ensures follows { (first : S) → S.follows first sink.old → S.follows first sink.new }
{
    if !search.store.is_live(reference) {
        return Ok(());
    }
    if !doomed[reference.index()] {
        return Ok(());
    }
    let hint = Hint::Plain(search.names[reference.index()].name());
    sink.append(Kind::Delete, &[], &[hint])?;
    search.store.delete(reference);
    search.policy.count_deleted();
    Ok(())
}

impl Search {
    /// The learned clauses that may be deleted, the older first.
    fn candidates(&self) -> Result<Vec<Candidate>, AllocError>
        requires { IsReady self.now }
    {
        let mut candidates = Vec::new(self.store.allocator());
        for place in 0..self.store.places() {
            if let Some(reference) = self.store.live_at(place)
                && self.may_delete(reference)
            {
                candidates.push(Candidate {
                    length: self.store.lits(reference).len(),
                    reference,
                })?;
            }
        }
        Ok(candidates)
    }

    /// Marks those of these clauses that may be deleted, by their references' places.
    fn mark(&self, chosen: &[CRef]) -> Result<Vec<bool>, AllocError>
        requires { IsReady self.now }
        ensures { IfOk result
            (λ doomed. AreMarked self.now chosen.now (length chosen.now) doomed.items) }
    {
        let mut doomed = Vec::from_elem(self.store.allocator(), false, self.store.places())?;
        for reference in chosen {
            if self.may_delete(*reference) {
                doomed[reference.index()] = true;
            }
        }
        Ok(doomed)
    }

    /// Whether the clause is live, was learned, has more than two literals and is no reason.
    fn may_delete(&self, reference: CRef) -> bool
        requires { IsReady self.now }
        ensures { result ≡ true → MayBeDeleted self.now reference }
    {
        if !self.store.is_live(reference) {
            return false;
        }
        let lits = self.store.lits(reference);
        lits.len() > 2
            && !is_kept(self.names[reference.index()].name(), self.kept)
            && !is_reason(&self.engine, lits, reference)
    }
}

/// Whether the clause was given, or added by elimination.
fn is_kept(name: Name, kept: u64) -> bool
    ensures { result ≡ is_kept_name kept name }
{
    match name {
        Name::Formula(_) => true,
        Name::Added(number) => number.get() <= kept,
    }
}

/// Whether this clause is the reason of one of its literals.
fn is_reason(engine: &Engine, lits: &[Lit], reference: CRef) -> bool
    requires { All (λ l. l.variable ≤ engine.now.variables) lits.now }
    ensures { result ≡ false
        → All (λ l. reason_in engine.now.trail l.variable ≡ Some reference → ⊥) lits.now }
{
    for lit in lits {
        if engine.reason(lit.variable()) == Some(reference) {
            return true;
        }
    }
    false
}

/// Deletes the learned clauses that the policy chooses, where it says that it is time for that.
pub fn reduce<S: Sink>(search: &mut Search, input: &Input, sink: &mut S) -> Result<(), AllocError>
    requires runs { Runs search.old input.now (S.lines sink.old) }
    ensures reduces { LearnsNothing result
        (Reduces search.old search.new input.now (S.lines sink.new)) input.now
        (S.lines sink.old) (S.lines sink.new) }
    ensures follows { (first : S) → S.follows first sink.old → S.follows first sink.new }
{
    if !search.policy.is_deletion_due() {
        return Ok(());
    }
    let candidates = search.candidates()?;
    let alloc = search.store.allocator();
    let chosen = search.policy.choose(alloc, &candidates)?;
    delete_all(search, input, sink, &chosen)?;
    if search.is_sparse() {
        search.compact()?;
    }
    Ok(())
}

/// Deletes those of these clauses that may be deleted. One pass over what is attached detaches them
/// all.
fn delete_all<S: Sink>(
    search: &mut Search,
    input: &Input,
    sink: &mut S,
    chosen: &[CRef],
) -> Result<(), AllocError>
    requires runs { Runs search.old input.now (S.lines sink.old) }
    ensures reduces { LearnsNothing result
        (Reduces search.old search.new input.now (S.lines sink.new)) input.now
        (S.lines sink.old) (S.lines sink.new) }
    ensures follows { (first : S) → S.follows first sink.old → S.follows first sink.new }
{
    let doomed = search.mark(chosen)?;
    search.engine.detach_all(&doomed);
    for reference in chosen {
        delete(search, input, sink, &doomed, *reference)?;
    }
    Ok(())
}
