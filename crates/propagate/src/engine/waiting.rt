// The clauses that have no watches yet.
//
// A clause that was attached without two literals that are not false waits until the next
// propagation, which may find it unit or false. Where two are not false by then it watches these.
// Else the literal that is left is made true, and the clause goes on to wait until it finds a
// second watch, a literal of the current level, or is dropped as satisfied at level 0.
ghost use Rattle.std.specs.Prelude.{◌≡◌, ◌<◌, ◌≤◌, Some, true, length, filter, slice_get};
ghost use Rattle.std.specs.Prelude.{IfOk, IfSome, IfNone, OnOk, OnErr};
ghost use Rattle.cnf.specs.Clause.{contains_literal};
ghost use Rattle.clauses.specs.Slots.{clause_at};
ghost use Rattle.propagate_watches.specs.Table.{attachment_in};
ghost use Rattle.propagate_watches.specs.declared.table.Rest.{Rest};
ghost use Rattle.propagate_trail.specs.Trail.{literals_of};
ghost use Rattle.propagate.specs.Watches.{IsVariable, is_attached};
ghost use Rattle.propagate.specs.Fits.{Fits, IsRest};
ghost use Rattle.propagate.specs.Steps.{GoesOn, AreTrueWaiting, FindsConflict, WaitSays};
ghost use Rattle.propagate.specs.Steps.{IsMadeTrue, is_waiting, watched, with_attachment};

use super::Engine;
use crate::not_false::{find_not_false, find_other_not_false, find_other_of_level, gather_rest};
use clauses::store::{CRef, Store};
use cnf::types::Lit;
use propagate_watches::pool::WatchEntry;
use propagate_watches::table::{Attachment, Table};
use std::alloc::AllocError;

/// Whether the clause is to be looked at.
fn waits(table: &Table, reference: CRef) -> bool
    ensures { result ≡ is_waiting (attachment_in table.now reference) }
{
    matches!(table.get(reference.index()), Attachment::Waiting)
}

/// Keeps the clauses that are to be looked at.
fn keep_waiting(waiting: &mut Vec<CRef>, table: &Table)
    ensures { waiting.new.items ≡ filter (λ r. is_waiting (attachment_in table.now r))
        waiting.old.items }
{
    waiting.retain(|r| waits(table, *r));
}

impl Engine {
    /// Looks at each clause without watches. Those that go on to wait are true.
    pub(super) fn look_at_waiting(&mut self, store: &Store) -> Result<Option<CRef>, AllocError>
        requires { Fits self.old store.now.slots }
        ensures goes_on { GoesOn store.now.slots self.old self.new }
        ensures conflict { IfOk result (FindsConflict store.now.slots self.new) }
        ensures waiting { IfOk result (λ found. IfNone found
            (AreTrueWaiting store.now.slots self.new)) }
    {
        for at in 0..self.waiting_len() {
            let reference = self.waiting_at(at);
            if !self.look_at_reference(store, reference)? {
                return Ok(Some(reference));
            }
        }
        self.prune_waiting();
        Ok(None)
    }

    /// How many clauses wait, with those that need it no more.
    pub(super) fn waiting_len(&self) -> usize
        ensures { result ≡ length self.now.watches.waiting }
    {
        self.waiting.len()
    }

    /// The clause at a place among these.
    pub(super) fn waiting_at(&self, at: usize) -> CRef
        requires { at < length self.now.watches.waiting }
        ensures { slice_get self.now.watches.waiting at ≡ Some result }
    {
        self.waiting[at]
    }

    /// Takes the clauses that wait no longer from the list of those that do.
    fn prune_waiting(&mut self)
        ensures { self.new ≡ record self.old {
          watches =
              record self.old.watches {
                waiting =
                    filter (λ r. is_waiting (attachment_in self.old.watches.table r))
                    self.old.watches.waiting;
              };
        } }
    {
        keep_waiting(&mut self.waiting, &self.table);
    }

    /// Looks at a clause where it waits. False where the clause is.
    fn look_at_reference(&mut self, store: &Store, reference: CRef) -> Result<bool, AllocError>
        requires { Fits self.old store.now.slots }
        ensures goes_on { GoesOn store.now.slots self.old self.new }
        ensures list { self.new.watches.waiting ≡ self.old.watches.waiting }
        ensures done { IfOk result (WaitSays store.now.slots self.new reference) }
    {
        match self.attachment(reference) {
            Attachment::Waiting => self.look_at_clause(store, reference),
            Attachment::Detached => Ok(true),
            Attachment::Satisfied => Ok(true),
            Attachment::Watching(_, _, _) => Ok(true),
        }
    }

    /// Makes the clause true where that is left, and finds watches where it can. False where all
    /// its literals are.
    fn look_at_clause(&mut self, store: &Store, reference: CRef) -> Result<bool, AllocError>
        requires fits { Fits self.old store.now.slots }
        requires waits { attachment_in self.old.watches.table reference ≡ Attachment.Waiting }
        ensures goes_on { GoesOn store.now.slots self.old self.new }
        ensures list { self.new.watches.waiting ≡ self.old.watches.waiting }
        ensures done { IfOk result (WaitSays store.now.slots self.new reference) }
    {
        let lits = store.lits(reference);
        let Some(one) = find_not_false(&self.trail, lits) else {
            return Ok(false);
        };
        if let Some(other) = find_other_not_false(&self.trail, lits, one) {
            self.watch(reference, lits, one, other)?;
            return Ok(true);
        }
        self.make_true(one, reference);
        self.watch_satisfied(store, reference, one)?;
        Ok(true)
    }

    /// Makes the literal true by the clause, where it is open.
    fn make_true(&mut self, lit: Lit, reference: CRef)
        requires { lit.variable ≤ self.old.variables }
        ensures { IsMadeTrue self.old self.new lit reference }
    {
        if self.trail.value(lit).is_none() {
            self.imply(lit, reference);
        }
    }

    /// Finds watches for a clause of which this literal is true, or drops it as satisfied at level
    /// 0, where it can.
    fn watch_satisfied(
        &mut self,
        store: &Store,
        reference: CRef,
        one: Lit,
    ) -> Result<(), AllocError>
        requires fits { Fits self.old store.now.slots }
        requires waits { attachment_in self.old.watches.table reference ≡ Attachment.Waiting }
        requires member { IfSome (clause_at store.now.slots reference)
            (λ c. contains_literal one c ≡ true) }
        requires is_true { contains_literal one (literals_of self.old.trail) ≡ true }
        ensures goes_on { GoesOn store.now.slots self.old self.new }
        ensures list { self.new.watches.waiting ≡ self.old.watches.waiting }
        ensures trail { self.new.trail ≡ self.old.trail }
    {
        let lits = store.lits(reference);
        let depth = self.trail.depth();
        if let Some(other) = find_other_of_level(&self.trail, lits, one, depth) {
            self.watch(reference, lits, one, other)?;
            return Ok(());
        }
        if depth == 0 {
            self.set_satisfied(reference);
        }
        Ok(())
    }

    /// A clause that waits needs no watches where it is true at level 0, and that is the current
    /// level: as the units that a search notes are.
    pub(super) fn drop_satisfied(&mut self, store: &Store, reference: CRef)
        requires fits { Fits self.old store.now.slots }
        requires waits { attachment_in self.old.watches.table reference ≡ Attachment.Waiting }
        ensures goes_on { GoesOn store.now.slots self.old self.new }
        ensures trail { self.new.trail ≡ self.old.trail }
    {
        if self.trail.depth() > 0 {
            return;
        }
        let lits = store.lits(reference);
        let Some(one) = find_not_false(&self.trail, lits) else {
            return;
        };
        if self.trail.is_true(one) {
            self.set_satisfied(reference);
        }
    }

    /// The clause needs no watches from now on.
    fn set_satisfied(&mut self, reference: CRef)
        requires { is_attached self.old reference ≡ true }
        ensures { self.new ≡ with_attachment self.old reference Attachment.Satisfied }
    {
        self.table.set(reference.index(), Attachment::Satisfied);
    }

    /// A clause without watches watches these two literals from now on. A refused growth changes
    /// nothing.
    pub(super) fn watch(
        &mut self,
        reference: CRef,
        lits: &[Lit],
        one: Lit,
        other: Lit,
    ) -> Result<(), AllocError>
        requires place { reference < length self.old.watches.table }
        requires one { IsVariable self.old.variables one }
        requires other { IsVariable self.old.variables other }
        ensures ok { OnOk result ((rest : Rest) × IsRest lits.now one other rest
            × (self.new ≡ watched self.old reference one other rest)) }
        ensures err { OnErr result (self.new ≡ self.old) }
    {
        let first = WatchEntry {
            reference,
            blocker: other,
        };
        let second = WatchEntry {
            reference,
            blocker: one,
        };
        let len = self.pool.len(one.index());
        self.pool.push(one.index(), first)?;
        if self.pool.push(other.index(), second).is_err() {
            self.pool.truncate(one.index(), len);
            return Err(AllocError);
        }
        let rest = gather_rest(lits, one, other);
        self.table
            .set(reference.index(), Attachment::Watching(one, other, rest));
        Ok(())
    }
}
