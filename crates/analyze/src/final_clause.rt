// Why a literal is false, in terms of decisions.
//
// The reason of its negation is marked, and then each literal that is marked before that negation
// is resolved by its reason, the last first, until decisions are left. What comes out is what a
// conflict would teach on the trail on which the literal had been decided in place of its negation,
// which its reason would then contradict.
ghost use Rattle.std.specs.Prelude.{◌≤◌, IfOk};
ghost use Rattle.propagate.specs.Fits.{Fits};
ghost use Rattle.analyze.specs.Analyzer.{IsFalsified, IsFinal};
ghost use Rattle.analyze.specs.Marks.{IsBefore, ReducesBefore};
ghost use Rattle.analyze.specs.Met.{IsMarking, HasNoMarks, ListsMarked};

use crate::analyzer::FinalClause;
use crate::collect::{Derivation, collect};
use crate::marks::{Mark, Marking, mark_clause, resolve_one};
use crate::minimise::variable_of;
use crate::ordering::put_in_order;
use clauses::store::{CRef, Store};
use cnf::types::Lit;
use propagate::engine::Engine;
use std::alloc::AllocError;

/// Resolves the marked variables before the literal's, the last first, by their reasons.
fn resolve_before(engine: &Engine, store: &Store, falsified: Lit, marking: &mut Marking)
    requires fits { Fits engine.now store.now.slots }
    requires small { falsified.variable ≤ engine.now.variables }
    requires before { IsBefore engine.now.trail falsified marking.old.marks.items }
    requires marking { IsMarking engine.now marking.old }
    ensures reduces { ReducesBefore store.now.slots engine.now.trail falsified
        marking.old.marks.items marking.new.marks.items }
    ensures marking { IsMarking engine.now marking.new }
{
    let mut place = engine.position(falsified.variable()).unwrap_or(0);
    while let Some(position) = marking.marked.before(place) {
        place = position;
        let variable = variable_of(engine, position);
        if marking.mark_of(variable) == Mark::Kept
            && variable != falsified.variable()
            && let Some(reason) = engine.reason(variable)
        {
            let _ = resolve_one(engine, store, variable, reason, marking);
        }
    }
}

/// Learns a clause, with a clear mark for each variable, and lists what it marks.
pub(crate) fn learn_final(
    engine: &Engine,
    store: &Store,
    falsified: Lit,
    reason: CRef,
    marking: &mut Marking,
) -> Result<FinalClause, AllocError>
    requires fits { Fits engine.now store.now.slots }
    requires small { falsified.variable ≤ engine.now.variables }
    requires falsified { IsFalsified engine.now.trail falsified reason }
    requires unmarked { HasNoMarks engine.now marking.old }
    ensures learns { IfOk result (IsFinal store.now.slots engine.now.trail falsified reason) }
    ensures lists { ListsMarked engine.now.trail marking.old marking.new }
{
    let _ = mark_clause(engine, store.lits(reason), marking);
    resolve_before(engine, store, falsified, marking);
    put_in_order(engine, marking);
    let alloc = store.allocator();
    let mut lits = Vec::new(alloc);
    // Room for all at once, so that they do not grow step by step.
    let mut hints = Vec::with_capacity(alloc, marking.met.len() + 1)?;
    let derivation = Derivation {
        conflict: reason,
        asserting: falsified,
    };
    collect(engine, &derivation, marking, &mut lits, &mut hints)?;
    Ok(FinalClause { lits, hints })
}
