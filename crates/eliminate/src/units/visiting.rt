// The queue of propagation: each clause in which a literal became false is visited, and looked at
// once all of its literals but one may be false.
ghost use Rattle.std.specs.Prelude.{◌≡◌, ◌+◌, ◌<◌, length, IfSome};
ghost use Rattle.clauses.specs.Slots.{IsLive};
ghost use Rattle.eliminate.specs.Units.{IsPropagating, Moves};

use super::Units;
use crate::simplifier::Simplifier;
use clauses::store::{CRef, Store};
use cnf::types::Lit;
use lrat_log::sink::Sink;
use std::alloc::{AllocError, Global};

/// How far the queue of propagation has come.
#[derive(Drop)]
pub(super) struct Visits {
    // The place on the trail of the first literal whose clauses were not visited.
    qhead: usize,
    // By reference, how many literals of the clause were not met as false.
    unmet: Vec<u32>,
}

impl Visits {
    /// No literal was visited.
    pub(super) fn new(alloc: Global, store: &Store) -> Result<Self, AllocError> {
        let mut unmet = Vec::new(alloc);
        for place in 0..store.places() {
            unmet.push(match store.live_at(place) {
                Some(reference) => count(store.lits(reference)),
                None => 0,
            })?;
        }
        Ok(Visits { qhead: 0, unmet })
    }

    /// Counts the literal as false in the clause at this place among those in which it occurs. The
    /// answer is that clause, where it is live and all its literals but one may be false now.
    fn meet_false(
        &mut self,
        simplifier: &Simplifier,
        store: &Store,
        lit: Lit,
        at: usize,
    ) -> Option<CRef>
        ensures same_head { self.new.qhead ≡ self.old.qhead }
        ensures live { IfSome result (λ r. IsLive store.now.slots r) }
    {
        let reference = simplifier.occurrence(store, lit, at)?;
        if is_due(&mut self.unmet, reference) {
            Some(reference)
        } else {
            None
        }
    }
}

/// Counts a literal of a clause as false. The answer is whether all but one may be so now.
fn is_due(unmet: &mut [u32], reference: CRef) -> bool {
    match unmet.get_mut(reference.index()) {
        Some(unmet) => {
            *unmet = unmet.saturating_sub(1);
            *unmet <= 1
        }
        None => false,
    }
}

/// How many literals there are, up to the greatest number that a count takes.
fn count(lits: &[Lit]) -> u32 {
    u32::try_from(lits.len()).unwrap_or(u32::MAX)
}

impl Units {
    /// Visits the clauses in which the negation of the next literal in the queue occurs.
    fn visit<S: Sink>(
        &mut self,
        visits: &mut Visits,
        simplifier: &mut Simplifier,
        store: &mut Store,
        sink: &mut S,
    ) -> Result<(), AllocError>
        requires queued { visits.old.qhead < length self.old.trail.items }
        requires propagating { IsPropagating self.old simplifier.old store.old.slots
            (S.lines sink.old) }
        ensures next { visits.new.qhead ≡ visits.old.qhead + 1 }
        ensures moves { Moves result self.old simplifier.old store.old.slots (S.lines sink.old)
            self.new simplifier.new store.new.slots (S.lines sink.new) }
    {
        let lit = self.trail[visits.qhead].negation();
        visits.qhead += 1;
        for at in 0..simplifier.occurrence_count(lit) {
            let Some(reference) = visits.meet_false(simplifier, store, lit, at) else {
                continue;
            };
            self.meet(simplifier, store, sink, reference)?;
            if simplifier.is_refuted {
                return Ok(());
            }
        }
        Ok(())
    }

    /// Visits the clauses of the literals on the trail that were not visited, and of those that
    /// become true on the way.
    pub(super) fn follow<S: Sink>(
        &mut self,
        visits: &mut Visits,
        simplifier: &mut Simplifier,
        store: &mut Store,
        sink: &mut S,
    ) -> Result<(), AllocError>
        requires { IsPropagating self.old simplifier.old store.old.slots (S.lines sink.old) }
        ensures { Moves result self.old simplifier.old store.old.slots (S.lines sink.old)
            self.new simplifier.new store.new.slots (S.lines sink.new) }
    {
        while visits.qhead < self.trail.len() {
            self.visit(visits, simplifier, store, sink)?;
            if simplifier.is_refuted {
                return Ok(());
            }
        }
        Ok(())
    }
}
