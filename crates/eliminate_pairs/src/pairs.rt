// Fresh variables for pairs of literals that occur together in many clauses (extended resolution as
// bounded variable addition, Manthey, Heule and Biere 2012). The pair l1, l2 gets a variable z with
// 'not z, or l1 or l2', 'z or not l1' and 'z or not l2', and each clause with the pair becomes one
// with z. Which pairs are worthwhile is found by counting and may be wrong: each clause is looked
// at again before it changes. A pair whose count has fallen to less than half since it was counted
// is left to the next round. Each clause that changes leaves a dead one behind, so after a round
// the clauses move together. In a large store a further round looks only at the clauses that the
// round before it made: a pair that was left comes again only where it occurs in enough of these.
ghost use Rattle.std.specs.Prelude.{◌≡◌, ◌+◌, ◌<◌, ◌≤◌, List, length};
ghost use Rattle.std.specs.Prelude.{IfOk, OnOk, OnErr, Some, All};
ghost use Rattle.cnf.specs.declared.limits.TheConstants.{VARIABLE_LIMIT};
ghost use Rattle.cnf.specs.Literal.{Literal};
ghost use Rattle.cnf.specs.Lrat.{IsId};
ghost use Rattle.clauses.specs.Slots.{IsLive, clause_at};
ghost use Rattle.lrat_log.specs.Log.{number_in};
ghost use Rattle.lrat_log.specs.declared.lines.Hint.TheVariants.{Plain};
ghost use Rattle.lrat_log.specs.Steps.{added_count};
ghost use Rattle.eliminate_names.specs.Work.{name_at};
ghost use Rattle.eliminate_pairs.specs.Pairs.{whole_clause, side_line, replaced, stage_of};
ghost use Rattle.eliminate_pairs.specs.Pairs.{StandOften, HasPairOf};
ghost use Rattle.eliminate_pairs.specs.Pairs.{IsDefined, AddsLine, FitNames, Moves, Passes};

use crate::frequencies::first_looked_at;
use crate::pair_table::PairTable;
use crate::standing::{NextPair, has_pair, stand_often};
use clauses::store::{CRef, Store};
use cnf::types::Lit;
use eliminate_names::names::{Addition, Names, add, delete, move_together};
use lrat_log::lines::{Hint, Kind};
use lrat_log::sink::Sink;
use std::alloc::{AllocError, Global};

/// Clauses with fresh variables have further pairs, for which the counting starts again so often.
const MOST_ROUNDS: u32 = 6;

/// A fresh variable that means 'left or right', and the three clauses that say so.
#[derive(Drop)]
pub(crate) struct PairDefinition {
    /// Above the variables of all clauses before it, below 2^27.
    pub(crate) variable: u32,
    /// The literal of the pair with the lower index.
    pub(crate) left: Lit,
    /// The other one.
    pub(crate) right: Lit,
    // 'not the variable, or left or right'
    whole: CRef,
    // 'the variable, or not left'
    left_side: CRef,
    // 'the variable, or not right'
    right_side: CRef,
}

/// The numbers that fresh variables may get: those above `after`, up to `most`.
#[derive(Drop)]
struct FreshRange {
    // The last variable of the clauses.
    after: u32,
    // At least `after`, and below 2^27.
    most: u32,
}

/// What one of the clauses 'the variable, or not the literal' is made from.
#[derive(Drop)]
struct Side {
    variable: u32,
    lit: Lit,
    // The clause with the variable's negation, which comes first.
    whole: CRef,
}

/// Replaces pairs that stand in many clauses by fresh variables, the first of which is `vars + 1`;
/// the answer is the last variable, which is at most `most`. A pair gets one only where it stands
/// together in four or more clauses of three or more literals.
pub fn define_pairs<S: Sink>(
    store: &mut Store,
    names: &mut Names,
    sink: &mut S,
    vars: u32,
    most: u32,
) -> Result<u32, AllocError>
    requires room { vars ≤ most }
    requires most { most < VARIABLE_LIMIT }
    requires fit { FitNames names.old store.old.slots (S.lines sink.old) }
    ensures { Passes result (stage_of vars store.old.slots names.old (S.lines sink.old))
        most store.new.slots names.new (S.lines sink.new) }
{
    let mut last = vars;
    let mut first = 0;
    for _round in 0..MOST_ROUNDS {
        let before = last;
        let places = store.places();
        let range = FreshRange {
            after: before,
            most,
        };
        last = define_counted(store, names, sink, first, &range)?;
        if last == before {
            return Ok(last);
        }
        let new = count_live(store, places);
        move_together(store, names);
        first = first_looked_at(store, new);
    }
    Ok(last)
}

/// How many live clauses stand from a place on.
fn count_live(store: &Store, from: usize) -> usize {
    (from..store.places())
        .filter(|place| store.live_at(*place).is_some())
        .count()
}

/// Counts the pairs of the clauses from the place `first` on, and replaces those that stand in
/// many.
fn define_counted<S: Sink>(
    store: &mut Store,
    names: &mut Names,
    sink: &mut S,
    first: usize,
    range: &FreshRange,
) -> Result<u32, AllocError>
    requires room { range.now.after ≤ range.now.most }
    requires most { range.now.most < VARIABLE_LIMIT }
    requires fit { FitNames names.old store.old.slots (S.lines sink.old) }
    ensures { Passes result (stage_of range.now.after store.old.slots names.old (S.lines sink.old))
        range.now.most store.new.slots names.new (S.lines sink.new) }
{
    let mut table = PairTable::new(store, first, range.after)?;
    let mut last = range.after;
    for k in 0..table.len() {
        if last >= range.most {
            break;
        }
        if let Some(candidate) = table.candidate(k) {
            table.find(store, &candidate)?;
            if table.found().len() >= candidate.fewest() {
                let pair = NextPair {
                    vars: last,
                    left: candidate.left,
                    right: candidate.right,
                };
                last = define_found(store, names, sink, &pair, &mut table)?;
            }
        }
    }
    Ok(last)
}

/// Defines a fresh variable for a pair that still stands together in `FEWEST` clauses, and puts it
/// into the clauses that were found.
fn define_found<S: Sink>(
    store: &mut Store,
    names: &mut Names,
    sink: &mut S,
    pair: &NextPair,
    table: &mut PairTable,
) -> Result<u32, AllocError>
    requires room { pair.now.vars + 1 < VARIABLE_LIMIT }
    requires fit { FitNames names.old store.old.slots (S.lines sink.old) }
    ensures often { IfOk result (λ v. pair.now.vars < v
        → StandOften store.old.slots pair.now.left pair.now.right) }
    ensures passes { Passes result
        (stage_of pair.now.vars store.old.slots names.old (S.lines sink.old))
        (pair.now.vars + 1) store.new.slots names.new (S.lines sink.new) }
{
    if !stand_often(store, pair, table.found()) {
        return Ok(pair.vars);
    }
    let definition = define(store, names, sink, pair)?;
    for k in 0..table.found().len() {
        if let Some(reference) = table.found_at(k, store) {
            if has_pair(store.lits(reference), &definition) {
                let new = replace(store, names, sink, &definition, reference)?;
                table.note(k, new);
            }
        }
    }
    Ok(pair.vars + 1)
}

/// Adds the three clauses that define a fresh variable as 'left or right'.
fn define<S: Sink>(
    store: &mut Store,
    names: &mut Names,
    sink: &mut S,
    pair: &NextPair,
) -> Result<PairDefinition, AllocError>
    requires room { pair.now.vars + 1 < VARIABLE_LIMIT }
    requires often { StandOften store.old.slots pair.now.left pair.now.right }
    requires fit { FitNames names.old store.old.slots (S.lines sink.old) }
    ensures variable { IfOk result (λ d. d.variable ≡ pair.now.vars + 1) }
    ensures defined { IfOk result (λ d. IsDefined store.new.slots d) }
    ensures fit { OnOk result (FitNames names.new store.new.slots (S.lines sink.new)) }
    ensures moves { Moves result
        (stage_of pair.now.vars store.old.slots names.old (S.lines sink.old))
        (stage_of (pair.now.vars + 1) store.new.slots names.new (S.lines sink.new)) }
{
    sink.is_short();
    let variable = pair.vars + 1;
    let lits = whole_lits(variable, pair.left, pair.right);
    let addition = Addition {
        kind: Kind::Definition,
        lits: &lits,
        hints: &[],
    };
    let whole = add(store, names, sink, &addition)?;
    let side = Side {
        variable,
        lit: pair.left,
        whole,
    };
    let left_side = add_side(store, names, sink, &side)?;
    let side = Side {
        variable,
        lit: pair.right,
        whole,
    };
    let right_side = add_side(store, names, sink, &side)?;
    Ok(PairDefinition {
        variable,
        left: pair.left,
        right: pair.right,
        whole,
        left_side,
        right_side,
    })
}

/// The literals of 'not the variable, or left or right'.
fn whole_lits(variable: u32, left: Lit, right: Lit) -> [Lit; 3]
    requires from_one { 0 < variable }
    requires small { variable < VARIABLE_LIMIT }
    ensures clause { result ≡ whole_clause variable left right }
    ensures named { All (λ k. IsId k.variable) result }
{
    [Lit::new(variable, false).negation(), left, right]
}

/// Adds the clause 'the variable, or not the literal', after the clause with the variable's
/// negation.
fn add_side<S: Sink>(
    store: &mut Store,
    names: &mut Names,
    sink: &mut S,
    side: &Side,
) -> Result<CRef, AllocError>
    requires from_one { 0 < side.now.variable }
    requires small { side.now.variable < VARIABLE_LIMIT }
    requires named { side.now.whole < length names.old.names }
    requires counted { names.old.additions ≡ added_count (S.lines sink.old) }
    ensures adds { IfOk result (λ r. AddsLine
        (side_line side.now.variable side.now.lit (name_at names.old.names side.now.whole))
        store.old.slots names.old (S.lines sink.old) r
        store.new.slots names.new (S.lines sink.new)) }
    ensures err { OnErr result (S.lines sink.new ≡ S.lines sink.old) }
{
    let lits = [Lit::new(side.variable, false), side.lit.negation()];
    let hint = Hint::Group(names.get(side.whole));
    let addition = Addition {
        kind: Kind::Definition,
        lits: &lits,
        hints: &[hint],
    };
    add(store, names, sink, &addition)
}

/// Puts the variable of a definition into a clause in the place of its pair: a clause with the
/// variable is added, and the clause is deleted.
fn replace<S: Sink>(
    store: &mut Store,
    names: &mut Names,
    sink: &mut S,
    definition: &PairDefinition,
    reference: CRef,
) -> Result<CRef, AllocError>
    requires from_one { 0 < definition.now.variable }
    requires small { definition.now.variable < VARIABLE_LIMIT }
    requires defined { IsDefined store.old.slots definition.now }
    requires live { IsLive store.old.slots reference }
    requires pair { (c : List Literal) → clause_at store.old.slots reference ≡ Some c
        → HasPairOf definition.now.variable definition.now.left definition.now.right c }
    requires fit { FitNames names.old store.old.slots (S.lines sink.old) }
    ensures defined { OnOk result (IsDefined store.new.slots definition.now) }
    ensures fit { OnOk result (FitNames names.new store.new.slots (S.lines sink.new)) }
    ensures moves { Moves result
        (stage_of definition.now.variable store.old.slots names.old (S.lines sink.old))
        (stage_of definition.now.variable store.new.slots names.new (S.lines sink.new)) }
{
    sink.is_short();
    let lits = replaced_lits(store.allocator(), store.lits(reference), definition)?;
    let left_side = plain(names, definition.left_side);
    let right_side = plain(names, definition.right_side);
    let clause = plain(names, reference);
    let addition = Addition {
        kind: Kind::Resolvent,
        lits: &lits,
        hints: &[left_side, right_side, clause],
    };
    let new = add(store, names, sink, &addition)?;
    delete(store, names, sink, reference)?;
    Ok(new)
}

/// The clause as a hint.
fn plain(names: &Names, reference: CRef) -> Hint
    requires { reference < length names.now.names }
    ensures hint { result ≡ Plain (name_at names.now.names reference) }
    ensures id { IsId (number_in (name_at names.now.names reference)) }
{
    Hint::Plain(names.get(reference))
}

/// The variable, and then the literals without the pair.
fn replaced_lits(
    alloc: Global,
    lits: &[Lit],
    definition: &PairDefinition,
) -> Result<Vec<Lit>, AllocError>
    requires from_one { 0 < definition.now.variable }
    requires small { definition.now.variable < VARIABLE_LIMIT }
    ensures { IfOk result (λ v. v.items
        ≡ replaced definition.now.variable definition.now.left definition.now.right lits.now) }
{
    let mut left = Vec::with_capacity(alloc, lits.len())?;
    left.push(Lit::new(definition.variable, false))?;
    for lit in lits {
        if *lit != definition.left && *lit != definition.right {
            left.push(*lit)?;
        }
    }
    Ok(left)
}
