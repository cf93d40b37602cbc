// First unique implication point.
ghost use Rattle.std.specs.Prelude.{◌≡◌, ◌+◌, ◌<◌, ◌≤◌, length, All, IfOk};
ghost use Rattle.std.specs.Prelude.{IfSome};
ghost use Rattle.analyze.specs.Met.{AreVariables, HasNoMarks, ListsMarked};
ghost use Rattle.clauses.specs.Slots.{IsLive, clause_at};
ghost use Rattle.propagate.specs.Trail.{depth_of};
ghost use Rattle.propagate.specs.Fits.{Fits};
ghost use Rattle.analyze.specs.Analyzer.{IsAsserting, IsConflict, IsInTrailOrder, IsRefutedBy};
ghost use Rattle.analyze.specs.Analyzer.{CanLearn, Learns, IsFalsified, IsFinal};

use crate::collect::{Derivation, collect, greatest};
use crate::final_clause::learn_final;
use crate::marks::{Marking, clear, mark_clause, resolve};
use crate::minimise::Minimiser;
use crate::ordering::put_in_order;
use clauses::store::{CRef, Store};
use cnf::types::Lit;
use propagate::engine::Engine;
use std::alloc::{AllocError, Global};
use std::marker::Model;

/// A clause that follows, and what shows it.
#[derive(Drop)]
pub struct Learned {
    /// The first is the asserting literal, the only one of the current level. The others are of
    /// lower levels above 0.
    pub lits: Vec<Lit>,
    /// The level to backtrack to: the greatest of the other literals, or 0.
    pub back_level: u32,
    /// Clauses that are unit in turn where all these literals are false and those of level 0 hold,
    /// in the order of the trail, and last one that is false then.
    pub hints: Vec<CRef>,
}

/// A clause that follows where a literal is false, and what shows it.
#[derive(Drop)]
pub struct FinalClause {
    /// The first is the negation of the literal, which is true. The others are false, and of levels
    /// above 0: the negations of the decisions on which it rests.
    pub lits: Vec<Lit>,
    /// Clauses that are unit in turn where all these literals are false and those of level 0 hold,
    /// in the order of the trail, and last the reason of the first, which is false then.
    pub hints: Vec<CRef>,
}

/// Learns clauses, with memory that it keeps between calls: by the first unique implication point,
/// and then without the literals that follow from the others (Handbook of Satisfiability, chapter
/// 4; Sörensson and Biere 2009).
#[derive(Drop)]
pub struct Analyzer {
    // What was marked; between calls nothing is.
    marking: Marking,
    // What drops redundant literals.
    minimiser: Minimiser,
}

impl Model for Analyzer {
    ghost use Rattle.std.specs.Prelude.{ℕ, length, vec_capacity};
    ghost use Rattle.analyze.specs.Met.{IsAtRest};

    ghost Value = { ℕ };

    ghost view = { λ a. length a.marking.marks.items };

    ghost invariant = { λ a. IsAtRest a.marking };
}

impl Analyzer {
    /// One for engines of at most `variables` variables.
    ///
    /// # Errors
    ///
    /// `AllocError` where memory was refused.
    pub fn new(alloc: Global, variables: u32) -> Result<Self, AllocError>
        ensures { IfOk result (λ a. a ≡ variables + 1) }
    {
        let marking = Marking::new(alloc, variables)?;
        let minimiser = Minimiser::new(alloc, variables as usize + 1)?;
        Ok(Analyzer { marking, minimiser })
    }

    /// Learns a clause from one that is false and has a literal of the current level. Beside the
    /// clause and its hints it takes no memory. Its time is that of the clauses that it reads, and
    /// a step for each 4096 variables.
    ///
    /// # Errors
    ///
    /// `AllocError` where memory was refused. Nothing has changed then.
    pub fn analyze(
        &mut self,
        engine: &Engine,
        store: &Store,
        conflict: CRef,
    ) -> Result<Learned, AllocError>
        requires fits { Fits engine.now store.now.slots }
        requires live { IsLive store.now.slots conflict }
        requires falsified { IfSome (clause_at store.now.slots conflict)
            (IsConflict engine.now.trail) }
        requires deep { 0 < depth_of engine.now.trail }
        requires room { engine.now.variables < self.old }
        ensures asserting { IfOk result (λ learned.
            IsAsserting engine.now.trail learned.lits.items learned.back_level) }
        ensures hints { IfOk result (λ learned. IsRefutedBy store.now.slots engine.now.trail
            learned.lits.items learned.hints.items) }
        ensures order { IfOk result (λ learned.
            IsInTrailOrder engine.now.trail conflict learned.hints.items) }
        ensures unchanged { self.new ≡ self.old }
    {
        self.marking.met.clear();
        let learned = learn(
            engine,
            store,
            conflict,
            &mut self.marking,
            &mut self.minimiser,
        );
        clear(engine, &mut self.marking.marks, &mut self.marking.met);
        learned
    }

    /// Why a literal is false: a clause of its negation and the negations of the decisions on which
    /// that rests (Eén and Sörensson 2003, final conflict analysis). `reason` is that of the
    /// negation. Its memory and its time are those of `analyze`.
    ///
    /// # Errors
    ///
    /// `AllocError` where memory was refused. Nothing has changed then.
    pub fn analyze_final(
        &mut self,
        engine: &Engine,
        store: &Store,
        falsified: Lit,
        reason: CRef,
    ) -> Result<FinalClause, AllocError>
        requires fits { Fits engine.now store.now.slots }
        requires small { falsified.variable ≤ engine.now.variables }
        requires falsified { IsFalsified engine.now.trail falsified reason }
        requires room { engine.now.variables < self.old }
        ensures learns { IfOk result (IsFinal store.now.slots engine.now.trail falsified reason) }
        ensures unchanged { self.new ≡ self.old }
    {
        self.marking.met.clear();
        let learned = learn_final(engine, store, falsified, reason, &mut self.marking);
        clear(engine, &mut self.marking.marks, &mut self.marking.met);
        self.marking.list.clear();
        learned
    }

    /// The variables that the last analysis met.
    pub fn met(&self) -> &[u32]
        ensures { All (λ v. (0 < v) × (v < self.now)) result.now }
    {
        &self.marking.met
    }

    /// The variables of the reasons of what was learned last that its analysis did not meet, each
    /// once.
    pub fn beside(&self) -> &[u32]
        ensures { All (λ v. (0 < v) × (v < self.now)) result.now }
    {
        &self.marking.list
    }
}

/// Learns one clause, as [`Analyzer::analyze`] does, with memory of its own for each variable.
///
/// # Errors
///
/// `AllocError` where memory was refused.
pub fn analyze(engine: &Engine, store: &Store, conflict: CRef) -> Result<Learned, AllocError>
    requires { CanLearn engine.now store.now.slots conflict }
    ensures { IfOk result (Learns store.now.slots engine.now.trail conflict) }
{
    let mut analyzer = Analyzer::new(store.allocator(), engine.variables())?;
    analyzer.analyze(engine, store, conflict)
}

/// Learns a clause, with a clear mark for each variable, and lists what it marks.
fn learn(
    engine: &Engine,
    store: &Store,
    conflict: CRef,
    marking: &mut Marking,
    minimiser: &mut Minimiser,
) -> Result<Learned, AllocError>
    requires can { CanLearn engine.now store.now.slots conflict }
    requires unmarked { HasNoMarks engine.now marking.old }
    ensures learns { IfOk result (Learns store.now.slots engine.now.trail conflict) }
    ensures lists { ListsMarked engine.now.trail marking.old marking.new }
    ensures beside { AreVariables marking.new.marks.items marking.new.list.items }
{
    let count = mark_clause(engine, store.lits(conflict), marking);
    let asserting = resolve(engine, store, count, marking);
    minimiser.minimise(engine, store, asserting, marking);
    put_in_order(engine, marking);
    marking.list.clear();
    let alloc = store.allocator();
    let mut lits = Vec::new(alloc);
    // Room for all at once, so that they do not grow step by step.
    let mut hints = Vec::with_capacity(alloc, marking.met.len() + 1)?;
    let derivation = Derivation {
        conflict,
        asserting,
    };
    collect(engine, &derivation, marking, &mut lits, &mut hints)?;
    let back_level = greatest(engine, &lits.as_slice()[1..]);
    minimiser.meet_reasons(engine, store, lits.as_slice(), marking);
    Ok(Learned {
        lits,
        back_level,
        hints,
    })
}
