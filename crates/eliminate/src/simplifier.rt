// What preprocessing keeps besides the store and the log. Its proof rests on names, occurrences and
// removals; the schedule only says where work may be worthwhile.
ghost use Rattle.std.specs.Prelude.{◌≡◌, ◌*◌, ◌<◌, List, [], Bool, false, length, All};
ghost use Rattle.std.specs.Prelude.{IfOk, OnOk, IfSome, OnErr};
ghost use Rattle.cnf.specs.Formula.{IsFormula};
ghost use Rattle.cnf.specs.Marks.{HasPlace};
ghost use Rattle.clauses.specs.Slots.{IsLive, live_clauses};
ghost use Rattle.cnf.specs.Clause.{is_empty_clause};
ghost use Rattle.eliminate_tables.specs.Rows.{AreRows};
ghost use Rattle.eliminate_tables.specs.declared.against.Against.TheVariants.{Within};
ghost use Rattle.eliminate.specs.Simplifier.{IsSimplified, IsOpen, IsAddable};
ghost use Rattle.eliminate.specs.Simplifier.{AddsBuilt, Deletes, Passes};
ghost use Rattle.eliminate.specs.Subsuming.{IsFoundBeside};

use clauses::store::{CRef, Store};
use cnf::marks::Marks;
use cnf::types::Lit;
use eliminate_names::names::{Addition, Names, add, delete};
use eliminate_tables::bins::Bins;
use eliminate_tables::rows::Rows;
use eliminate_tables::schedule::Schedule;
use lrat_log::lines::{Hint, Kind};
use lrat_log::sink::Sink;
use reconstruction::removals::Removals;
use std::alloc::{AllocError, Global};

/// The tables of preprocessing, which all passes share.
#[derive(Drop)]
pub(crate) struct Simplifier {
    // The number of variables, with the fresh ones.
    pub(crate) vars: u32,
    // By reference, the name of each clause.
    pub(crate) names: Names,
    // By literal, the clauses in which it occurs, and some that were deleted since.
    pub(crate) occurrences: Rows,
    // The eliminated variables with their clauses, in the order of elimination.
    pub(crate) removals: Removals,
    // By literal, those of the clause in hand; between two passes they mean nothing.
    pub(crate) marks: Marks,
    // A clause that is being built.
    pub(crate) clause: Vec<Lit>,
    // Where work may be worthwhile.
    pub(crate) schedule: Schedule,
    // The clauses against which others are held.
    pub(crate) bins: Bins,
    // Whether the empty clause was added: then nothing more is.
    pub(crate) is_refuted: bool,
}

impl Simplifier {
    /// The tables for a store whose i-th live clause is the clause i of a formula.
    pub(crate) fn new(alloc: Global, store: &Store, vars: u32) -> Result<Self, AllocError>
        requires { IsFormula (record { variables = vars; clauses = live_clauses store.now.slots }) }
        ensures simplified { IfOk result (λ s. (frozen : List Bool) → length frozen ≡ vars
            → IsSimplified (record {
              clauses = live_clauses store.now.slots;
              frozen = frozen;
            }) s store.now.slots []) }
        ensures going { IfOk result (λ s. s.is_refuted ≡ false) }
    {
        // What has many fields comes last of what may fail: few exits have to drop it.
        let marks = Marks::new(alloc, vars)?;
        let names = Names::of(alloc, store)?;
        let bins = Bins::new(alloc, vars)?;
        let (schedule, occurrences) = match tables_of(alloc, store, vars) {
            Ok(tables) => tables,
            Err(AllocError) => {
                // By calls: that is proved once, and not field by field here.
                drop(bins);
                drop(names);
                drop(marks);
                return Err(AllocError);
            }
        };
        Ok(Simplifier {
            vars,
            names,
            occurrences,
            removals: Removals::new(alloc),
            marks,
            clause: Vec::new(alloc),
            schedule,
            bins,
            is_refuted: false,
        })
    }

    /// The names and the removals; the other tables are dropped.
    pub(crate) fn into_left(self) -> (Names, Removals)
        ensures names { result.0 ≡ self.names }
        ensures removals { result.1 ≡ self.removals }
    {
        (self.names, self.removals)
    }

    /// In how many clauses, deleted ones too, a literal occurs.
    pub(crate) fn occurrence_count(&self, lit: Lit) -> usize {
        if lit.index() < self.occurrences.count() {
            self.occurrences.len(lit.index())
        } else {
            0
        }
    }

    /// The clause at this place among those in which a literal occurs, where there is one that is
    /// live.
    pub(crate) fn occurrence(&self, store: &Store, lit: Lit, at: usize) -> Option<CRef>
        ensures { IfSome result (λ r. IsLive store.now.slots r) }
    {
        let row = lit.index();
        if row >= self.occurrences.count() {
            return None;
        }
        if at >= self.occurrences.len(row) {
            return None;
        }
        let reference = self.occurrences.get(row, at);
        if store.is_live(reference) {
            Some(reference)
        } else {
            None
        }
    }

    /// Adds the clause that was built, under a reference above all others, with its line.
    pub(crate) fn add<S: Sink>(
        &mut self,
        store: &mut Store,
        sink: &mut S,
        kind: Kind,
        hints: &[Hint],
    ) -> Result<CRef, AllocError>
        requires is_open { IsOpen self.old store.old.slots (S.lines sink.old) }
        requires line { IsAddable self.old store.old.slots (S.lines sink.old) (record {
          kind = kind;
          clause = self.old.clause.items;
          hints = hints.now;
        }) }
        ensures adds { IfOk result (AddsBuilt self.old store.old.slots self.new store.new.slots) }
        ensures passes { Passes result self.old store.old.slots (S.lines sink.old)
            self.new store.new.slots (S.lines sink.new) }
    {
        sink.is_short();
        let addition = Addition {
            kind,
            lits: &self.clause,
            hints,
        };
        let reference = add(store, &mut self.names, sink, &addition)?;
        self.occurrences.add(&self.clause, reference)?;
        self.schedule.enter(&self.clause)?;
        self.is_refuted = is_empty_clause(&self.clause);
        make_space(&mut self.occurrences, store, &self.clause, reference)?;
        Ok(reference)
    }

    /// Deletes a clause that another one of the store subsumes. Only the contract reads `by`, the
    /// other one.
    pub(crate) fn delete_subsumed<S: Sink>(
        &mut self,
        store: &mut Store,
        sink: &mut S,
        reference: CRef,
        by: CRef,
    ) -> Result<(), AllocError>
        requires is_open { IsOpen self.old store.old.slots (S.lines sink.old) }
        requires live { IsLive store.old.slots reference }
        requires subsumed { IsFoundBeside store.old.slots reference (record {
          by = by;
          against = Within;
        }) }
        ensures deletes { OnOk result
            (Deletes self.old store.old.slots self.new store.new.slots reference) }
        ensures passes { Passes result self.old store.old.slots (S.lines sink.old)
            self.new store.new.slots (S.lines sink.new) }
        ensures err { OnErr result (S.lines sink.new ≡ S.lines sink.old) }
    {
        self.schedule.leave(store.lits(reference))?;
        delete(store, &self.names, sink, reference)?;
        Ok(())
    }
}

/// Where work may be worthwhile, and by literal the clauses of the store in which it occurs.
fn tables_of(alloc: Global, store: &Store, vars: u32) -> Result<(Schedule, Rows), AllocError>
    requires { IsFormula (record { variables = vars; clauses = live_clauses store.now.slots }) }
    ensures rows { IfOk result (λ t. AreRows (t.1).rows store.now.slots) }
    ensures places { IfOk result (λ t. length (t.1).rows ≡ 2 * vars) }
{
    let schedule = schedule_of(alloc, store, vars)?;
    match rows_of(alloc, store, vars, &schedule) {
        Ok(rows) => Ok((schedule, rows)),
        Err(AllocError) => {
            // By a call: that is proved once, and not field by field here.
            drop(schedule);
            Err(AllocError)
        }
    }
}

/// Where work may be worthwhile: each clause of the store has entered.
fn schedule_of(alloc: Global, store: &Store, vars: u32) -> Result<Schedule, AllocError> {
    let mut schedule = Schedule::new(alloc, vars)?;
    for place in 0..store.places() {
        if let Some(reference) = store.live_at(place) {
            schedule.enter(store.lits(reference))?;
        }
    }
    Ok(schedule)
}

/// By literal, the clauses of the store in which it occurs.
fn rows_of(alloc: Global, store: &Store, vars: u32, schedule: &Schedule) -> Result<Rows, AllocError>
    requires { IsFormula (record { variables = vars; clauses = live_clauses store.now.slots }) }
    ensures rows { IfOk result (λ r. AreRows r.rows store.now.slots) }
    ensures places { IfOk result (λ r. length r.rows ≡ 2 * vars) }
{
    let mut rows = Rows::new(alloc, 2 * vars as usize)?;
    enter_all(&mut rows, store, schedule)?;
    Ok(rows)
}

/// Enters each clause of the store into the rows of its literals.
fn enter_all(rows: &mut Rows, store: &Store, schedule: &Schedule) -> Result<(), AllocError>
    requires empty { AreRows rows.old.rows [] }
    requires places { All (All (HasPlace (length rows.old.rows))) (live_clauses store.now.slots) }
    ensures rows { OnOk result (AreRows rows.new.rows store.now.slots) }
    ensures places { OnOk result (length rows.new.rows ≡ length rows.old.rows) }
{
    make_rooms(rows, store, schedule)?;
    for place in 0..store.places() {
        match store.live_at(place) {
            Some(reference) => rows.add(store.lits(reference), reference)?,
            None => {}
        }
    }
    Ok(())
}

/// Gives each row the room that the clauses of the store need, and an eighth more for resolvents: a
/// row is cleaned when it becomes full, so few move.
fn make_rooms(rows: &mut Rows, store: &Store, schedule: &Schedule) -> Result<(), AllocError>
    ensures { rows.new.rows ≡ rows.old.rows }
{
    let Some(reference) = (0..store.places()).find_map(|place| store.live_at(place)) else {
        return Ok(());
    };
    let mut rooms = Vec::with_capacity(store.allocator(), schedule.counts().len())?;
    for count in schedule.counts() {
        rooms.push(count.saturating_add(1 + *count / 8))?;
    }
    rows.make_rooms(&rooms, reference)
}

/// Makes space in the rows of these literals that are full.
fn make_space(rows: &mut Rows, store: &Store, lits: &[Lit], fill: CRef) -> Result<(), AllocError>
    ensures rows { AreRows rows.old.rows store.now.slots
        → AreRows rows.new.rows store.now.slots }
    ensures places { length rows.new.rows ≡ length rows.old.rows }
{
    for lit in lits {
        let row = lit.index();
        if row < rows.count() {
            rows.make_space(row, store, fill)?;
        }
    }
    Ok(())
}

/// Whether it has no literals.
fn is_empty_clause(lits: &[Lit]) -> bool
    ensures { result ≡ is_empty_clause lits.now }
{
    lits.is_empty()
}
