// A clause that is attached: it watches two of its literals, or waits to be looked at.
ghost use Rattle.std.specs.Prelude.{◌≡◌, false, true, OnOk, OnErr, IfSome};
ghost use Rattle.clauses.specs.Slots.{IsLive, clause_at};
ghost use Rattle.propagate_watches.specs.declared.table.Rest.{Rest};
ghost use Rattle.propagate.specs.Watches.{is_attached, SetsAttached, SameFrame, IsVariable};
ghost use Rattle.propagate.specs.Steps.{enlisted, with_room, watched};
ghost use Rattle.propagate.specs.Fits.{Fits, IsWithin, IsRest};

use super::Engine;
use crate::not_false::{find_not_false, find_other_not_false};
use clauses::store::{CRef, Store};
use cnf::types::Lit;
use propagate_watches::table::Attachment;
use std::alloc::AllocError;

impl Engine {
    /// The clause watches two of its literals that are not false, or is to be looked at where there
    /// are none. It needs neither where it is true for good, as the units that a search notes are.
    /// A refused growth changes nothing.
    pub(super) fn take_in(&mut self, store: &Store, reference: CRef) -> Result<(), AllocError>
        requires fits { Fits self.old store.now.slots }
        requires live { IsLive store.now.slots reference }
        requires small { IfSome (clause_at store.now.slots reference)
            (IsWithin self.old.variables) }
        requires once { is_attached self.old reference ≡ false }
        ensures attached { OnOk result (SetsAttached self.old self.new reference true) }
        ensures trail { OnOk result (self.new.trail ≡ self.old.trail) }
        ensures frame { OnOk result (SameFrame self.old self.new) }
        ensures fits { OnOk result (Fits self.new store.now.slots) }
        ensures err { OnErr result (self.new ≡ self.old) }
    {
        let lits = store.lits(reference);
        if let Some(one) = find_not_false(&self.trail, lits) {
            if let Some(other) = find_other_not_false(&self.trail, lits, one) {
                self.watch_new(reference, lits, one, other)?;
                return Ok(());
            }
        }
        self.enlist(reference)?;
        self.drop_satisfied(store, reference);
        Ok(())
    }

    /// A clause that is not attached watches these two literals from now on. A refused growth
    /// changes nothing.
    fn watch_new(
        &mut self,
        reference: CRef,
        lits: &[Lit],
        one: Lit,
        other: Lit,
    ) -> Result<(), AllocError>
        requires one { IsVariable self.old.variables one }
        requires other { IsVariable self.old.variables other }
        ensures ok { OnOk result ((rest : Rest) × IsRest lits.now one other rest
            × (self.new ≡ watched (with_room self.old reference) reference one other rest)) }
        ensures err { OnErr result (self.new ≡ self.old) }
    {
        let len = self.table.len();
        self.table.make_room(reference)?;
        if self.watch(reference, lits, one, other).is_err() {
            self.table.truncate(len);
            return Err(AllocError);
        }
        Ok(())
    }

    /// The clause is to be looked at. A refused growth changes nothing.
    fn enlist(&mut self, reference: CRef) -> Result<(), AllocError>
        ensures ok { OnOk result (self.new ≡ enlisted self.old reference) }
        ensures err { OnErr result (self.new ≡ self.old) }
    {
        let len = self.table.len();
        self.table.make_room(reference)?;
        if self.waiting.push(reference).is_err() {
            self.table.truncate(len);
            return Err(AllocError);
        }
        self.table.set(reference.index(), Attachment::Waiting);
        Ok(())
    }
}
