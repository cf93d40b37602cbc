// The solver.
ghost use Rattle.std.specs.Prelude.{◌≡◌, true, false, [], ◌++◌, length, Ok, Err, All, IfOk, OnOk};
ghost use Rattle.std.specs.Prelude.{OnErr, IsErr, ◌↔◌, ◌⊎◌, ◌<◌};
ghost use Rattle.cnf.specs.Clause.{has_repeat, is_tautology};
ghost use Rattle.lrat_log.specs.Steps.{IsLogOver, learned_count, IsShortLine};
ghost use Rattle.cdcl_order.specs.Budgets.{WaivesAs};
ghost use Rattle.cdcl.specs.declared.guided.GuidedEnd.TheVariants.{Refuted, Stopped};
ghost use Rattle.cdcl.specs.declared.outcome.Outcome.TheVariants.{Unsat};
ghost use Rattle.cdcl_search.specs.Running.{Runs, IsInput, StaysOpen};
ghost use Rattle.cdcl.specs.Guiding.{GuidedEnds, IsRefutedAtOnce};
ghost use Rattle.cdcl.specs.Outcomes.{IsAnswer, PaysFor};
ghost use Rattle.cdcl.specs.Solving.{Solves, given_to, SameGiven, GivesMore};
ghost use Rattle.cdcl.specs.Solving.{lines_since};
ghost use Rattle.cdcl_search.specs.Giving.{IsFreshName, IsFrozen};

use crate::answers::bits;
use crate::budget::Budget;
use crate::guided::{Course, GuidedEnd};
use crate::outcome::{Outcome, SolveFault};
use crate::tally::Tally;
use crate::undirected::Undirected;
use crate::watch::{SearchWatch, Unwatched};
use cdcl_search::given::GivenClauses;
use cdcl_search::giving::{ask_variables, give};
use cdcl_search::input::Input;
use cdcl_search::search::Search;
use cdcl_search::starting::{start, store_of};
use cnf::marks::Marks;
use cnf::types::{Formula, Lit};
use eliminate::elimination::eliminate;
use lrat_log::lines::Name;
use lrat_log::sink::Sink;
use std::alloc::AllocError;
use std::marker::Model;
use std::mem::replace;

/// Decides whether clauses can be satisfied together, and writes down why not as lines of a log.
/// Clauses may be added between two searches, and each search goes on with what was learned before.
#[derive(Drop)]
pub struct Solver<S: Sink> {
    // What it works on; once the empty clause was added, or after `failed`, it is not used.
    search: Search,
    // What it was given.
    input: Input,
    // What its lines go to.
    tally: Tally<S>,
    // Whether memory was refused, or the search was given back. It stays so.
    failed: bool,
}

impl<S: Sink> Model for Solver<S> {
    ghost use Rattle.std.specs.Prelude.{map, take, drop, length};
    ghost use Rattle.cdcl.specs.Solving.{SolverState};
    ghost use Rattle.cdcl.specs.Outcomes.{IsSolver};

    ghost Value = { SolverState S };

    ghost view = { λ s. record {
      formula = record {
        variables = length s.input.frozen.items;
        clauses = map (λ g. g.1) (take s.input.first s.input.given);
      };
      added = drop s.input.first s.input.given;
      frozen = s.input.frozen.items;
      sink = s.tally.sink;
      failed = s.failed;
    } };

    ghost invariant = { λ s. IsSolver s.search s.input (S.lines s.tally.sink) s.failed };
}

impl<S: Sink> Solver<S> {
    /// A solver for the formula, whose variables may be eliminated but for the frozen ones, by
    /// variable from 1. Clauses that come later have frozen variables alone. It copies both; `of`
    /// takes them.
    ///
    /// # Errors
    ///
    /// `AllocError` where memory was refused.
    pub fn new(formula: &Formula, frozen: &[bool], sink: S) -> Result<Self, AllocError>
        requires frozen { length frozen.now ≡ formula.now.variables }
        requires empty { S.lines sink ≡ [] }
        ensures given { IfOk result (λ s.
            (s.formula ≡ formula.now) × (s.added ≡ []) × (s.frozen ≡ frozen.now)) }
        ensures works { IfOk result (λ s. s.failed ≡ false) }
        ensures lines { IfOk result (λ s. IsLogOver (given_to s) (S.lines s.sink)) }
        ensures none_learned { IfOk result (λ s. learned_count (S.lines s.sink) ≡ 0) }
    {
        let copy = formula.try_clone()?;
        let frozen = Vec::from_slice(formula.allocator(), frozen)?;
        Solver::of(copy, frozen, sink)
    }

    /// As `new`, of a formula and frozen variables that are the solver's from then on.
    ///
    /// # Errors
    ///
    /// `AllocError` where memory was refused.
    pub fn of(formula: Formula, frozen: Vec<bool>, sink: S) -> Result<Self, AllocError>
        requires frozen { length frozen.items ≡ formula.variables }
        requires empty { S.lines sink ≡ [] }
        ensures given { IfOk result (λ s.
            (s.formula ≡ formula) × (s.added ≡ []) × (s.frozen ≡ frozen.items)) }
        ensures works { IfOk result (λ s. s.failed ≡ false) }
        ensures lines { IfOk result (λ s. IsLogOver (given_to s) (S.lines s.sink)) }
        ensures none_learned { IfOk result (λ s. learned_count (S.lines s.sink) ≡ 0) }
    {
        formula.limits();
        let clauses = formula.into_clauses();
        let mut store = store_of(&clauses)?;
        let given = GivenClauses::of(clauses)?;
        let first = given.len();
        let mut tally = Tally {
            sink,
            additions: 0,
            refuted: false,
        };
        let mut stack = eliminate(&mut store, &frozen, &mut tally)?;
        tally.is_short();
        let search = start(store, &mut stack, tally.additions)?;
        Ok(Solver {
            search,
            input: Input {
                stack,
                frozen,
                first,
                given,
            },
            tally,
            failed: false,
        })
    }

    /// The clauses given so far, in their order.
    pub fn given(&self) -> &GivenClauses
        ensures { result.now ≡ given_to self.now }
    {
        &self.input.given
    }

    /// The lines written so far.
    pub fn sink(&self) -> &S
        ensures { result.now ≡ self.now.sink }
    {
        &self.tally.sink
    }

    /// The lines, once the solver is done with.
    pub fn into_sink(self) -> S
        ensures { result ≡ self.sink }
    {
        // A call of `drop` is proved once for each type, and the end of a scope field by field.
        drop(self.search);
        drop(self.input);
        self.tally.sink
    }

    /// Gives back the memory of the search, for whoever needs only the lines and the clauses from
    /// now on: as after a failure no clause can be given, and nothing is solved. Where memory is
    /// refused it keeps its own.
    pub fn retire(&mut self)
        ensures { self.new ≡ record self.old { failed = true } }
    {
        self.failed = true;
        if let Ok(search) = Search::empty(self.search.store.allocator()) {
            drop(replace(&mut self.search, search));
        }
    }

    /// Gives one more clause, under a name that none has.
    ///
    /// # Errors
    ///
    /// `Memory` where memory was refused: the clause may have been given. `Failed` after that.
    pub fn add_clause(&mut self, name: Name, lits: &[Lit]) -> Result<(), SolveFault>
        requires fresh { IsFreshName (given_to self.old) name }
        requires frozen { All (IsFrozen self.old.frozen) lits.now }
        requires no_repeat { has_repeat lits.now ≡ false }
        requires no_tautology { is_tautology lits.now ≡ false }
        ensures ok { OnOk result (GivesMore self.old self.new name lits.now) }
        ensures memory { result ≡ Err SolveFault.Memory
            → SameGiven self.old self.new ⊎ GivesMore self.old self.new name lits.now }
        ensures unchanged { result ≡ Err SolveFault.Failed → SameGiven self.old self.new }
        ensures failed { (result ≡ Err SolveFault.Failed) ↔ (self.old.failed ≡ true) }
        ensures fails { IsErr result ↔ (self.new.failed ≡ true) }

        // The lines.
        ensures grows { S.lines self.new.sink
            ≡ S.lines self.old.sink ++ lines_since (S.lines self.old.sink) (S.lines self.new.sink) }
        ensures lines { IsLogOver (given_to self.new) (S.lines self.new.sink) }
        ensures none_learned { learned_count
            (lines_since (S.lines self.old.sink) (S.lines self.new.sink)) ≡ 0 }
        ensures short { All IsShortLine
            (lines_since (S.lines self.old.sink) (S.lines self.new.sink)) }
    {
        if self.failed {
            return Err(SolveFault::Failed);
        }
        let number = match name {
            Name::Formula(number) => number.get(),
            Name::Added(_) => unreachable!(),
        };
        ask_variables(lits);
        match give(
            &mut self.search,
            &mut self.input,
            self.tally.refuted,
            number,
            lits,
        ) {
            Ok(()) => Ok(()),
            Err(_) => {
                self.failed = true;
                Err(SolveFault::Memory)
            }
        }
    }

    /// A hint for the order of decisions, on which no answer depends: the literal's variable starts
    /// at the share that its weight has of the greatest weight so far.
    pub fn weigh(&mut self, lit: Lit, weight: u64)
        ensures same_view { self.new ≡ self.old }
    {
        self.search.policy.weigh(lit.variable(), weight);
    }

    /// A hint for the values of decisions, on which no answer depends: these are tried first, by
    /// variable from 1, each until its variable has another. Variables without one keep theirs,
    /// and values of no variable are ignored.
    pub fn suggest(&mut self, values: &[bool])
        ensures same_view { self.new ≡ self.old }
    {
        if self.failed || self.tally.refuted {
            return;
        }
        self.search.suggest(values);
    }

    /// Searches until it has an answer or the budget is spent. Each call begins at level 0, with
    /// what was learned before.
    ///
    /// # Errors
    ///
    /// `Memory` where memory was refused: the lines are steps also then. `Failed` after that.
    pub fn solve(&mut self, budget: &mut Budget) -> Result<Outcome, SolveFault>
        ensures solves { Solves result self.old self.new (S.lines self.old.sink)
            (S.lines self.new.sink) budget.old budget.new }
        ensures same_waived { budget.new.waived ≡ budget.old.waived }
    {
        self.solve_watched(budget, &mut Unwatched)
    }

    /// As `solve`. The watch is told how far the search has come, each time that it has learned a
    /// clause. The search ends also where it waives what is left of the budget.
    ///
    /// # Errors
    ///
    /// `Memory` where memory was refused: the lines are steps also then. `Failed` after that.
    pub fn solve_watched<W: SearchWatch>(
        &mut self,
        budget: &mut Budget,
        watch: &mut W,
    ) -> Result<Outcome, SolveFault>
        ensures solves { Solves result self.old self.new (S.lines self.old.sink)
            (S.lines self.new.sink) budget.old budget.new }
        ensures same_seen { W.seen watch.new ≡ W.seen watch.old }
        ensures waives { WaivesAs budget.old budget.new (W.waived watch.old)
            (W.waived watch.new) }
    {
        if self.failed {
            return Err(SolveFault::Failed);
        }
        if self.tally.refuted {
            return Ok(Outcome::Unsat);
        }
        match answer(
            &mut self.search,
            &self.input,
            &mut self.tally,
            budget,
            watch,
        ) {
            Ok(outcome) => Ok(outcome),
            Err(_) => {
                self.failed = true;
                Err(SolveFault::Memory)
            }
        }
    }
}

/// Searches, and reads the bits off the trail.
fn answer<S: Sink, W: SearchWatch>(
    search: &mut Search,
    input: &Input,
    tally: &mut Tally<S>,
    budget: &mut Budget,
    watch: &mut W,
) -> Result<Outcome, AllocError>
    requires runs { Runs search.old input.now (S.lines tally.old.sink) }
    requires input { IsInput input.now }
    ensures answers { IfOk result
        (IsAnswer search.new input.now (S.lines tally.new.sink) budget.new) }
    ensures at_once { IfOk result (λ o.
        IsRefutedAtOnce input.now (S.lines tally.old.sink) → o ≡ Unsat) }
    ensures pays { PaysFor result input.now.given (S.lines tally.old.sink)
        (S.lines tally.new.sink) budget.old budget.new }
    ensures err { OnErr result (StaysOpen input.now (S.lines tally.new.sink)) }
    ensures same_seen { W.seen watch.new ≡ W.seen watch.old }
    ensures waives { WaivesAs budget.old budget.new (W.waived watch.old) (W.waived watch.new) }
{
    let end = search_undirected(search, input, tally, budget, watch)?;
    match end {
        GuidedEnd::Satisfied => {
            let bits = bits(search, input)?;
            budget.count_answer();
            Ok(Outcome::Sat(bits))
        }
        GuidedEnd::Refuted => Ok(Outcome::Unsat),
        GuidedEnd::Spent => Ok(Outcome::Limit),
        GuidedEnd::Stopped => unreachable!(),
    }
}

/// Searches from level 0 until it has an answer or the budget is spent.
fn search_undirected<S: Sink, W: SearchWatch>(
    search: &mut Search,
    input: &Input,
    sink: &mut S,
    budget: &mut Budget,
    watch: &mut W,
) -> Result<GuidedEnd, AllocError>
    requires runs { Runs search.old input.now (S.lines sink.old) }
    ensures search { GuidedEnds result search.new input.now (S.lines sink.old) (S.lines sink.new)
        budget.old budget.new }
    ensures at_once { IfOk result (λ end.
        IsRefutedAtOnce input.now (S.lines sink.old) → end ≡ Refuted) }
    ensures stops { result ≡ Ok Stopped → ⊥ }
    ensures sink_follows { (first : S) → S.follows first sink.old → S.follows first sink.new }
    ensures same_seen { W.seen watch.new ≡ W.seen watch.old }
    ensures waives { WaivesAs budget.old budget.new (W.waived watch.old) (W.waived watch.new) }
{
    let mut marks = Marks::empty(search.store.allocator());
    let mut course = Course {
        search,
        input,
        sink,
        budget,
        marks: &mut marks,
    };
    course.run(&mut Undirected, watch)
}
