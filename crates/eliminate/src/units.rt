// Unit propagation to a fixpoint before the search. Sweeps over all clauses alternate with a queue
// of literals that became true: the queue visits the clauses in which they are false, and looks at
// a clause only once a count says that at most one of its literals may be open, so that all visits
// together are linear in the literals of the formula. Nothing rests on the counts: the last sweep
// finds no clause that is false or unit.
ghost use Rattle.std.specs.Prelude.{◌≡◌, ◌<◌, ◌∷◌, [], true, false, List, length, replicate, Some};
ghost use Rattle.std.specs.Prelude.{None, IfOk, OnOk};
ghost use Rattle.cnf.specs.Literal.{Literal, negation};
ghost use Rattle.cnf.specs.Clause.{contains_literal};
ghost use Rattle.cnf.specs.Refute.{IsRefutedByHints};
ghost use Rattle.clauses.specs.Slots.{Slots, IsLive, clause_at, live_clauses};
ghost use Rattle.cnf.specs.Marks.{HasPlace};
ghost use Rattle.eliminate_names.specs.Work.{AreClauses};
ghost use Rattle.eliminate.specs.Simplifier.{IsOpen, Passes, Grows};
ghost use Rattle.eliminate.specs.Units.{HasStateAt, AreUnits, AreSettled, unit_hints, open_count};
ghost use Rattle.eliminate.specs.Units.{MakesTrue, IsPropagating, Moves, MakesProgress};
ghost use Rattle.eliminate.specs.Units.{AsksNothing};

mod visiting;

use crate::simplifier::Simplifier;
use crate::units::visiting::Visits;
use clauses::store::{CRef, MaybeCRef, Store};
use cnf::marks::Marks;
use cnf::types::Lit;
use eliminate_names::names::Names;
use lrat_log::lines::{Hint, Kind};
use lrat_log::sink::Sink;
use std::alloc::{AllocError, Global};

/// The literals that are true, each by a clause of one literal.
#[derive(Drop)]
pub(crate) struct Units {
    // The true literals are marked.
    values: Marks,
    // By variable, the clause of one literal that made it true or false.
    clauses: Vec<MaybeCRef>,
    // The true literals, in the order in which they became so.
    trail: Vec<Lit>,
}

/// What the true literals make of a clause.
#[derive(Clone, Copy, Debug, PartialEq, Eq, Drop)]
pub(crate) enum ClauseState {
    /// It has a true literal, or two that are open.
    Settled,
    /// All its literals but this one are false, and this one is open.
    Unit(Lit),
    /// All its literals are false.
    Falsified,
}

/// A literal that a clause makes true, since all its other literals are false.
#[derive(Drop)]
struct Implied {
    lit: Lit,
    by: CRef,
}

impl Units {
    /// Nothing is true.
    fn new(alloc: Global, vars: u32) -> Result<Self, AllocError>
        ensures units { IfOk result (λ u. (slots : Slots) → AreUnits u slots) }
        ensures rows { IfOk result (λ u. length u.clauses.items ≡ vars) }
    {
        let values = Marks::new(alloc, vars)?;
        let clauses = no_clauses(alloc, vars as usize)?;
        let trail = Vec::new(alloc);
        Ok(Units {
            values,
            clauses,
            trail,
        })
    }

    /// What the true literals make of a clause of the store.
    fn state(&self, store: &Store, reference: CRef) -> ClauseState
        requires units { AreUnits self.now store.now.slots }
        requires clauses { AreClauses (length self.now.clauses.items) store.now.slots }
        requires live { IsLive store.now.slots reference }
        ensures { HasStateAt self.now store.now.slots reference result }
    {
        let mut found = ClauseState::Falsified;
        for lit in store.lits(reference) {
            if self.values.is_marked(*lit) {
                return ClauseState::Settled;
            }
            if !self.values.is_marked(lit.negation()) {
                match found {
                    ClauseState::Falsified => found = ClauseState::Unit(*lit),
                    ClauseState::Unit(_) => return ClauseState::Settled,
                    ClauseState::Settled => unreachable!(),
                }
            }
        }
        found
    }

    /// The names of the clauses by which literals of the clause are false, and then the clause's.
    fn hints(&self, names: &Names, store: &Store, reference: CRef) -> Result<Vec<Hint>, AllocError>
        requires units { AreUnits self.now store.now.slots }
        requires clauses { AreClauses (length self.now.clauses.items) store.now.slots }
        requires live { IsLive store.now.slots reference }
        requires named { length names.now.names ≡ length store.now.slots }
        ensures { IfOk result (λ hints. (c : List Literal)
            → clause_at store.now.slots reference ≡ Some c
            → hints.items ≡ unit_hints self.now names.now.names c reference) }
    {
        let mut hints = Vec::new(store.allocator());
        for lit in store.lits(reference) {
            if self.values.is_marked(lit.negation()) {
                match self.clauses[lit.variable() as usize - 1].get() {
                    Some(unit) => hints.push(Hint::Plain(names.get(unit)))?,
                    None => unreachable!(),
                }
            }
        }
        hints.push(Hint::Plain(names.get(reference)))?;
        Ok(hints)
    }

    /// The clause that has just the implied literal: the one that implies it, where that has no
    /// other literal, or one that is added.
    fn unit_clause<S: Sink>(
        &self,
        simplifier: &mut Simplifier,
        store: &mut Store,
        sink: &mut S,
        implied: &Implied,
    ) -> Result<CRef, AllocError>
        requires propagating { IsPropagating self.now simplifier.old store.old.slots
            (S.lines sink.old) }
        requires live { IsLive store.old.slots implied.now.by }
        requires unit { HasStateAt self.now store.old.slots implied.now.by
            (ClauseState.Unit implied.now.lit) }
        ensures alone { IfOk result (λ r.
            clause_at store.new.slots r ≡ Some (implied.now.lit ∷ [])) }
        ensures grows { IfOk result (λ _. Grows store.old.slots store.new.slots) }
        ensures passes { Passes result simplifier.old store.old.slots (S.lines sink.old)
            simplifier.new store.new.slots (S.lines sink.new) }
        ensures going { OnOk result (simplifier.new.is_refuted ≡ false) }
        ensures vars { OnOk result (simplifier.new.vars ≡ simplifier.old.vars) }
    {
        if store.lits(implied.by).len() == 1 {
            return Ok(implied.by);
        }
        let hints = self.hints(&simplifier.names, store, implied.by)?;
        simplifier.clause.clear();
        simplifier.clause.push(implied.lit)?;
        let unit = simplifier.add(store, sink, Kind::Unit, &hints)?;
        Ok(unit)
    }

    /// Adds the empty clause, where all literals of a clause are false.
    fn add_empty<S: Sink>(
        &self,
        simplifier: &mut Simplifier,
        store: &mut Store,
        sink: &mut S,
        reference: CRef,
    ) -> Result<(), AllocError>
        requires propagating { IsPropagating self.now simplifier.old store.old.slots
            (S.lines sink.old) }
        requires live { IsLive store.old.slots reference }
        requires falsified { HasStateAt self.now store.old.slots reference ClauseState.Falsified }
        ensures passes { Passes result simplifier.old store.old.slots (S.lines sink.old)
            simplifier.new store.new.slots (S.lines sink.new) }
        ensures refuted { OnOk result (simplifier.new.is_refuted ≡ true) }
        ensures vars { OnOk result (simplifier.new.vars ≡ simplifier.old.vars) }
    {
        let hints = self.hints(&simplifier.names, store, reference)?;
        simplifier.clause.clear();
        simplifier.add(store, sink, Kind::Empty, &hints)?;
        Ok(())
    }

    /// Makes a literal true, by a clause that has it alone. Only the contract reads `store`.
    fn assign(&mut self, store: &Store, lit: Lit, unit: CRef) -> Result<(), AllocError>
        requires units { AreUnits self.old store.now.slots }
        requires place { HasPlace (length self.old.values) lit }
        requires not_true { contains_literal lit self.old.trail.items ≡ false }
        requires not_false { contains_literal (negation lit) self.old.trail.items ≡ false }
        requires alone { clause_at store.now.slots unit ≡ Some (lit ∷ []) }
        ensures units { IfOk result (λ _.
            MakesTrue self.old store.now.slots self.new store.now.slots) }
        ensures progress { IfOk result (λ _. open_count self.new < open_count self.old) }
    {
        self.trail.push(lit)?;
        self.clauses[lit.variable() as usize - 1] = MaybeCRef::new(Some(unit));
        self.values.mark(lit);
        Ok(())
    }

    /// Does what a clause asks for: a literal becomes true, or the empty clause is added. The
    /// answer is whether it was so.
    fn meet<S: Sink>(
        &mut self,
        simplifier: &mut Simplifier,
        store: &mut Store,
        sink: &mut S,
        reference: CRef,
    ) -> Result<bool, AllocError>
        requires propagating { IsPropagating self.old simplifier.old store.old.slots
            (S.lines sink.old) }
        requires live { IsLive store.old.slots reference }
        ensures moves { Moves result self.old simplifier.old store.old.slots (S.lines sink.old)
            self.new simplifier.new store.new.slots (S.lines sink.new) }
        ensures settled { IfOk result (λ found. found ≡ false
            → AsksNothing self.old store.old.slots reference self.new simplifier.new
            store.new.slots) }
        ensures progress { IfOk result (MakesProgress self.old simplifier.new self.new) }
    {
        match self.state(store, reference) {
            ClauseState::Settled => Ok(false),
            ClauseState::Unit(lit) => {
                let implied = Implied { lit, by: reference };
                let unit = self.unit_clause(simplifier, store, sink, &implied)?;
                self.assign(store, lit, unit)?;
                Ok(true)
            }
            ClauseState::Falsified => {
                self.add_empty(simplifier, store, sink, reference)?;
                Ok(true)
            }
        }
    }
}

impl Units {
    /// Meets the clause at a place, where there is one. The answer is whether it asked for
    /// something.
    fn meet_at<S: Sink>(
        &mut self,
        simplifier: &mut Simplifier,
        store: &mut Store,
        sink: &mut S,
        place: usize,
    ) -> Result<bool, AllocError>
        requires { IsPropagating self.old simplifier.old store.old.slots (S.lines sink.old) }
        ensures moves { Moves result self.old simplifier.old store.old.slots (S.lines sink.old)
            self.new simplifier.new store.new.slots (S.lines sink.new) }
        ensures settled { IfOk result (λ found. found ≡ false
            → AsksNothing self.old store.old.slots place self.new simplifier.new store.new.slots) }
        ensures progress { IfOk result (MakesProgress self.old simplifier.new self.new) }
    {
        match store.live_at(place) {
            Some(reference) => {
                let found = self.meet(simplifier, store, sink, reference)?;
                Ok(found)
            }
            None => Ok(false),
        }
    }

    /// Meets each clause of the store. The answer is whether one asked for something.
    fn sweep<S: Sink>(
        &mut self,
        simplifier: &mut Simplifier,
        store: &mut Store,
        sink: &mut S,
    ) -> Result<bool, AllocError>
        requires { IsPropagating self.old simplifier.old store.old.slots (S.lines sink.old) }
        ensures moves { Moves result self.old simplifier.old store.old.slots (S.lines sink.old)
            self.new simplifier.new store.new.slots (S.lines sink.new) }
        ensures settled { IfOk result (λ found. found ≡ false → (simplifier.new.is_refuted ≡ false)
            × AreSettled self.old.trail.items store.old.slots) }
        ensures progress { IfOk result (MakesProgress self.old simplifier.new self.new) }
    {
        let mut found = false;
        for place in 0..store.places() {
            let asked = self.meet_at(simplifier, store, sink, place)?;
            if simplifier.is_refuted {
                return Ok(true);
            }
            if asked {
                found = true;
            }
        }
        Ok(found)
    }

    /// Sweeps, and follows what became true, until a sweep finds nothing or the empty clause is
    /// added.
    fn propagate<S: Sink>(
        &mut self,
        visits: &mut Visits,
        simplifier: &mut Simplifier,
        store: &mut Store,
        sink: &mut S,
    ) -> Result<(), AllocError>
        requires { IsPropagating self.old simplifier.old store.old.slots (S.lines sink.old) }
        ensures passes { Passes result simplifier.old store.old.slots (S.lines sink.old)
            simplifier.new store.new.slots (S.lines sink.new) }
        ensures refuted { IfOk result (λ _. simplifier.new.is_refuted ≡ false
            → IsRefutedByHints (live_clauses store.old.slots) → ⊥) }
    {
        'sweeps: loop {
            let found = self.sweep(simplifier, store, sink)?;
            if simplifier.is_refuted {
                return Ok(());
            }
            if !found {
                return Ok(());
            }
            self.follow(visits, simplifier, store, sink)?;
            if simplifier.is_refuted {
                return Ok(());
            }
        }
    }
}

/// Propagates the clauses of one literal to the end. Either the empty clause is added then, or no
/// hints refute the clauses before.
pub(crate) fn propagate_units<S: Sink>(
    simplifier: &mut Simplifier,
    store: &mut Store,
    sink: &mut S,
) -> Result<(), AllocError>
    requires { IsOpen simplifier.old store.old.slots (S.lines sink.old) }
    ensures passes { Passes result simplifier.old store.old.slots (S.lines sink.old)
        simplifier.new store.new.slots (S.lines sink.new) }
    ensures refuted { IfOk result (λ _. simplifier.new.is_refuted ≡ false
        → IsRefutedByHints (live_clauses store.old.slots) → ⊥) }
{
    let alloc = store.allocator();
    let mut visits = Visits::new(alloc, store)?;
    let mut units = Units::new(alloc, simplifier.vars)?;
    units.propagate(&mut visits, simplifier, store, sink)
}

/// No clause for each of `count` variables.
fn no_clauses(alloc: Global, count: usize) -> Result<Vec<MaybeCRef>, AllocError>
    ensures { IfOk result (λ clauses. clauses.items ≡ replicate count None) }
{
    Vec::from_elem(alloc, MaybeCRef::new(None), count)
}
