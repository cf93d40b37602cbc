// Bounded variable elimination (Davis and Putnam 1960; Eén and Biere 2005): the clauses with a
// variable are replaced by their resolvents on it, where these are no more and none is long.
// Variables are tried in the order in which their clauses changed.
ghost use Rattle.std.specs.Prelude.{◌≡◌, ℕ, ◌*◌, ◌<◌, true, false, length, All, IfOk, OnErr};
ghost use Rattle.cnf.specs.Literal.{negation, positive};
ghost use Rattle.lrat_log.specs.Log.{IsLine};
ghost use Rattle.cnf.specs.Marks.{HasPlace};
ghost use Rattle.reconstruction.specs.Stack.{IsFree};
ghost use Rattle.eliminate_tables.specs.Rows.{AreRows};
ghost use Rattle.lrat_log.specs.Steps.{added_count};
ghost use Rattle.eliminate_names.specs.Work.{name_at, delete_line};
ghost use Rattle.eliminate.specs.Simplifier.{IsOpen, KeepsForm, Passes};
ghost use Rattle.eliminate_tables.specs.Bins.{ArePlaced};
ghost use Rattle.eliminate.specs.Variables.{IsOpenOver, PassesOver, IsWith};
ghost use Rattle.eliminate.specs.Variables.{AreThoseWith, GrowsWithout, IsPairResolved};
ghost use Rattle.eliminate.specs.Variables.{ArePairsResolved, LeavesOut, KeepsWork, KeepsLog};

use crate::resolving::{Clash, add_resolvent};
use crate::simplifier::Simplifier;
use clauses::store::{CRef, Store};
use cnf::types::Lit;
use eliminate_names::names::{Names, delete};
use eliminate_tables::schedule::Schedule;
use eliminate_tables::worthwhile::{is_candidate, is_worthwhile};
use lrat_log::sink::Sink;
use std::alloc::AllocError;

/// The most tries in one pass, per variable on average.
const MOST_TRIES: usize = 10;

/// A literal with the live clauses that have it, and those that have its negation.
#[derive(Drop)]
struct Parents {
    // The literal: it is not negated.
    pivot: Lit,
    // Those with the literal, each once.
    positive: Vec<CRef>,
    // Those with its negation, each once.
    negative: Vec<CRef>,
}

/// Eliminates variables that are not frozen, as long as clauses of some variable changed since it
/// was tried. The answer is whether a variable went.
pub(crate) fn eliminate_variables<S: Sink>(
    simplifier: &mut Simplifier,
    store: &mut Store,
    frozen: &[bool],
    sink: &mut S,
) -> Result<bool, AllocError>
    requires { IsOpenOver frozen.now simplifier.old store.old.slots (S.lines sink.old) }
    ensures { PassesOver frozen.now result simplifier.old store.old.slots (S.lines sink.old)
        simplifier.new store.new.slots (S.lines sink.new) }
{
    let alloc = store.allocator();
    let mut parents = Parents {
        pivot: Lit::new(1, false),
        positive: Vec::new(alloc),
        negative: Vec::new(alloc),
    };
    let mut is_changed = false;
    for _try in 0..frozen.len().saturating_mul(MOST_TRIES) {
        let Some(variable) = simplifier.schedule.pop() else {
            return Ok(is_changed);
        };
        if is_free(variable, frozen) {
            parents.pivot = Lit::new(variable, false);
            let is_gone = try_variable(simplifier, store, sink, frozen, &mut parents)?;
            is_changed = is_changed || is_gone;
            if simplifier.is_refuted {
                return Ok(true);
            }
        }
    }
    Ok(is_changed)
}

/// Whether the variable is one of the formula's and not frozen.
fn is_free(variable: u32, frozen: &[bool]) -> bool
    ensures { result ≡ true → IsFree frozen.now variable }
{
    if variable == 0 {
        return false;
    }
    match frozen.get(variable as usize - 1) {
        Some(is_frozen) => !*is_frozen,
        None => false,
    }
}

/// Eliminates the variable of the pivot where that does not make the formula larger. The answer is
/// whether it went.
fn try_variable<S: Sink>(
    simplifier: &mut Simplifier,
    store: &mut Store,
    sink: &mut S,
    frozen: &[bool],
    parents: &mut Parents,
) -> Result<bool, AllocError>
    requires is_open { IsOpenOver frozen.now simplifier.old store.old.slots (S.lines sink.old) }
    requires free { IsFree frozen.now parents.old.pivot.variable }
    requires plain { parents.old.pivot ≡ positive parents.old.pivot.variable }
    ensures { PassesOver frozen.now result simplifier.old store.old.slots (S.lines sink.old)
        simplifier.new store.new.slots (S.lines sink.new) }
{
    if !find_parents(simplifier, store, parents)? {
        return Ok(false);
    }
    add_resolvents(simplifier, store, sink, parents)?;
    if simplifier.is_refuted {
        return Ok(false);
    }
    remove_variable(simplifier, store, sink, frozen, parents)?;
    Ok(true)
}

/// Finds the clauses with the variable of the pivot. The answer is whether these should go.
fn find_parents(
    simplifier: &mut Simplifier,
    store: &Store,
    parents: &mut Parents,
) -> Result<bool, AllocError>
    requires place { HasPlace (length simplifier.old.occurrences.rows) parents.old.pivot }
    requires rows { AreRows simplifier.old.occurrences.rows store.now.slots }
    requires placed { ArePlaced (length simplifier.old.marks) store.now.slots }
    ensures form { KeepsForm simplifier.old simplifier.new store.now.slots }
    ensures pivot { parents.new.pivot ≡ parents.old.pivot }
    ensures positive { IfOk result (λ good. good ≡ true
        → AreThoseWith parents.new.pivot store.now.slots parents.new.positive.items) }
    ensures negative { IfOk result (λ good. good ≡ true
        → AreThoseWith (negation parents.new.pivot) store.now.slots parents.new.negative.items) }
{
    let pivot = parents.pivot;
    if !is_candidate(&simplifier.schedule, pivot) {
        return Ok(false);
    }
    gather(simplifier, store, pivot, &mut parents.positive)?;
    gather(simplifier, store, pivot.negation(), &mut parents.negative)?;
    let is_worthwhile = is_worthwhile(
        &mut simplifier.marks,
        store,
        pivot,
        &parents.positive,
        &parents.negative,
    );
    Ok(is_worthwhile)
}

/// The live clauses with the literal.
fn gather(
    simplifier: &mut Simplifier,
    store: &Store,
    lit: Lit,
    references: &mut Vec<CRef>,
) -> Result<(), AllocError>
    requires place { HasPlace (length simplifier.old.occurrences.rows) lit }
    requires rows { AreRows simplifier.old.occurrences.rows store.now.slots }
    ensures gathered { IfOk result (λ _. AreThoseWith lit store.now.slots references.new.items) }
    ensures rows { AreRows simplifier.new.occurrences.rows store.now.slots }
    ensures form { KeepsForm simplifier.old simplifier.new store.now.slots }
    ensures marks { length simplifier.new.marks ≡ length simplifier.old.marks }
    ensures places { length simplifier.new.occurrences.rows
        ≡ length simplifier.old.occurrences.rows }
{
    let row = lit.index();
    simplifier.occurrences.clean(row, store);
    references.clear();
    simplifier.occurrences.collect(row, references)?;
    Ok(())
}

/// Adds the resolvents of all pairs that have no complementary literals. It stops at the empty
/// clause.
fn add_resolvents<S: Sink>(
    simplifier: &mut Simplifier,
    store: &mut Store,
    sink: &mut S,
    parents: &Parents,
) -> Result<(), AllocError>
    requires is_open { IsOpen simplifier.old store.old.slots (S.lines sink.old) }
    requires firsts { All (IsWith parents.now.pivot store.old.slots) parents.now.positive.items }
    requires seconds { All (IsWith (negation parents.now.pivot) store.old.slots)
        parents.now.negative.items }
    ensures passes { Passes result simplifier.old store.old.slots (S.lines sink.old)
        simplifier.new store.new.slots (S.lines sink.new) }
    ensures grows { IfOk result (λ _.
        GrowsWithout parents.now.pivot store.old.slots store.new.slots) }
    ensures resolved { IfOk result (λ _. simplifier.new.is_refuted ≡ false
        → ArePairsResolved parents.now.pivot store.old.slots store.new.slots
        parents.now.positive.items parents.now.negative.items) }
{
    for first in &parents.positive {
        add_resolvents_of(simplifier, store, sink, *first, parents)?;
        if simplifier.is_refuted {
            return Ok(());
        }
    }
    Ok(())
}

/// Adds the resolvents of one clause that has the pivot.
fn add_resolvents_of<S: Sink>(
    simplifier: &mut Simplifier,
    store: &mut Store,
    sink: &mut S,
    first: CRef,
    parents: &Parents,
) -> Result<(), AllocError>
    requires is_open { IsOpen simplifier.old store.old.slots (S.lines sink.old) }
    requires first { IsWith parents.now.pivot store.old.slots first }
    requires seconds { All (IsWith (negation parents.now.pivot) store.old.slots)
        parents.now.negative.items }
    ensures passes { Passes result simplifier.old store.old.slots (S.lines sink.old)
        simplifier.new store.new.slots (S.lines sink.new) }
    ensures grows { IfOk result (λ _.
        GrowsWithout parents.now.pivot store.old.slots store.new.slots) }
    ensures resolved { IfOk result (λ _. simplifier.new.is_refuted ≡ false
        → All (IsPairResolved parents.now.pivot store.old.slots store.new.slots first)
        parents.now.negative.items) }
{
    for second in &parents.negative {
        let clash = Clash {
            pivot: parents.pivot,
            first,
            second: *second,
        };
        add_resolvent(simplifier, store, sink, &clash)?;
        if simplifier.is_refuted {
            return Ok(());
        }
    }
    Ok(())
}

/// Takes the variable of the pivot out, whose resolvents are all there: its clauses are kept for
/// reconstruction, and deleted. Only the contract reads `frozen`.
fn remove_variable<S: Sink>(
    simplifier: &mut Simplifier,
    store: &mut Store,
    sink: &mut S,
    frozen: &[bool],
    parents: &Parents,
) -> Result<(), AllocError>
    requires is_open { IsOpenOver frozen.now simplifier.old store.old.slots (S.lines sink.old) }
    requires free { IsFree frozen.now parents.now.pivot.variable }
    requires plain { parents.now.pivot ≡ positive parents.now.pivot.variable }
    requires firsts { AreThoseWith parents.now.pivot store.old.slots parents.now.positive.items }
    requires seconds { AreThoseWith (negation parents.now.pivot) store.old.slots
        parents.now.negative.items }
    requires resolved { ArePairsResolved parents.now.pivot store.old.slots store.old.slots
        parents.now.positive.items parents.now.negative.items }
    ensures { PassesOver frozen.now result simplifier.old store.old.slots (S.lines sink.old)
        simplifier.new store.new.slots (S.lines sink.new) }
{
    let variable = parents.pivot.variable();
    let firsts: &[CRef] = &parents.positive;
    let seconds: &[CRef] = &parents.negative;
    simplifier.removals.push(variable, firsts, store)?;
    let names = &simplifier.names;
    let schedule = &mut simplifier.schedule;
    delete_all(names, schedule, store, sink, firsts)?;
    delete_all(names, schedule, store, sink, seconds)?;
    Ok(())
}

/// Deletes the clauses, with a line for each.
fn delete_all<S: Sink>(
    names: &Names,
    schedule: &mut Schedule,
    store: &mut Store,
    sink: &mut S,
    references: &[CRef],
) -> Result<(), AllocError>
    requires named { length names.now.names ≡ length store.old.slots }
    requires lines { (r : ℕ) → IsLine (delete_line (name_at names.now.names r)) }
    ensures work { IfOk result (λ _.
        KeepsWork names.now.names store.old.slots (S.lines sink.old) store.new.slots
        (S.lines sink.new)) }
    ensures counted { IfOk result (λ _.
        added_count (S.lines sink.new) ≡ added_count (S.lines sink.old)) }
    ensures left { IfOk result (λ _. LeavesOut references.now store.old.slots store.new.slots) }
    ensures err { OnErr result (KeepsLog names.now.names store.old.slots (S.lines sink.old)
        (S.lines sink.new)) }
{
    for reference in references {
        if store.is_live(*reference) {
            schedule.leave(store.lits(*reference))?;
            delete(store, names, sink, *reference)?;
        }
    }
    Ok(())
}
