// One incremental solver over all bounds. The formula is given once, without a bound; the clauses
// of each bound are added to those of the bounds before, so learned clauses are kept. The
// certificate's formula has only the clauses of the last bound: at the end the log is rewritten as
// one over that formula.
ghost use Rattle.std.specs.Prelude.{◌≡◌, ◌+◌, ◌<◌, ◌≤◌, [], ◌∷◌, ◌++◌, ℕ, false, List, length, All};
ghost use Rattle.std.specs.Prelude.{IfOk, OnOk};
ghost use Rattle.cnf.specs.declared.limits.TheConstants.{MOST_PLACES, NUMBER_LIMIT};
ghost use Rattle.cnf.specs.Literal.{Literal};
ghost use Rattle.cnf.specs.Clause.{has_repeat, is_tautology};
ghost use Rattle.lrat_log.specs.Log.{clauses_in};
ghost use Rattle.lrat_log.specs.Steps.{learned_count};
ghost use Rattle.lrat_log.specs.Rebase.{weaker_list};
ghost use Rattle.adder.specs.Network.{adders_as};
ghost use Rattle.bound.specs.Bound.{bound_as};
ghost use Rattle.cdcl.specs.Solving.{IsFrozen};
ghost use Rattle.improve.specs.Bounds.{IsUsable, Gives, GivesAll, IsOver, IsOverFixed, HasNoBound};
ghost use Rattle.improve.specs.Bounds.{IsNext, BoundLog};
ghost use Rattle.improve_found.specs.Progress.{AreFalling, EndsWith};
ghost use Rattle.improve.specs.Weaker.{weaker_among};
ghost use Rattle.cdcl_order.specs.Budgets.{WaivesAs};

use crate::frozen::freeze_outputs;
use crate::weaker::pair_with_subsets;
use adder::building::network_as;
use adder::networks::Network;
use adder::profiles::Profile;
use adder::relaxations::{Relaxation, Relaxations};
use bound::formulas::{comparator, formula_as};
use cdcl::budget::Budget;
use cdcl::given::GivenClauses;
use cdcl::outcome::Outcome;
use cdcl::solver::Solver;
use cdcl::watch::SearchWatch;
use cnf::limits::NUMBER_LIMIT;
use cnf::types::{Clause, Instance, Lit};
use improve_found::solutions::{Solution, price};
use lrat_log::lines::{Name, Number};
use lrat_log::log::Log;
use lrat_log::rebase::rebase;
use lrat_log::sink::Sink;
use std::alloc::{AllocError, Global};

/// No cost reaches this, as all weights sum to less; so it has no comparator clause.
const NO_BOUND: u64 = NUMBER_LIMIT;

/// The bounds so far, each lower than those before, and the solver that was given them. After an
/// `AllocError` they are not used again: part of a bound may have been given.
#[derive(Drop)]
pub struct Bounds {
    /// It was given the formula without a bound, then the comparator clauses of each bound, all
    /// under the numbers from 1 on.
    pub solver: Solver<Log>,
    /// What adds up the weights. The variables of its outputs are frozen: comparators name them.
    pub network: Network,
    /// How soft clauses are relaxed.
    pub profile: Profile,
    /// The bounds in the order in which they were given, each at most 2^62.
    pub costs: Vec<u64>,
    /// How many clauses come before those of the first bound, fewer than 2^28.
    pub fixed: usize,
    /// How many clauses the last bound has; 0 before the first.
    pub last: usize,
}

/// What the search below the last bound led to.
#[derive(Drop)]
pub enum Next {
    /// A cheaper solution.
    Cheaper(Solution),
    /// No solution is cheaper.
    Refuted,
    /// The budget is spent.
    Spent,
}

/// How the search below the bounds ends.
#[derive(Clone, Copy, Drop)]
pub enum BoundsEnd {
    /// No solution is below the last bound.
    Refuted,
    /// The budget is spent.
    Spent,
}

impl Bounds {
    /// A solver that was given no bound.
    pub fn new(instance: &Instance, profile: Profile) -> Result<Self, AllocError>
        ensures over { IfOk result (λ b. IsOver instance.now b) }
        ensures profile { IfOk result (λ b. b.profile ≡ profile) }
        ensures none { IfOk result HasNoBound }
    {
        instance.limits();
        let relaxations = Relaxations::of(instance, profile)?;
        let network = network_as(instance, profile)?;
        // The solver comes last of what may fail, so no exit has to drop it.
        let mut solver = make_solver(instance, profile, &network)?;
        weigh(&mut solver, &relaxations.each);
        let fixed = solver.given().len();
        Ok(Bounds {
            solver,
            network,
            profile,
            costs: Vec::new(instance.allocator()),
            fixed,
            last: 0,
        })
    }

    /// Gives the clauses of a further bound: the cost has to be below it.
    pub fn add(&mut self, instance: &Instance, cost: u64) -> Result<(), AllocError>
        requires over { IsOver instance.now self.old }
        requires small { cost ≤ NUMBER_LIMIT }
        ensures over { OnOk result (IsOver instance.now self.new) }
        ensures costs { OnOk result (self.new.costs.items ≡ self.old.costs.items ++ cost ∷ []) }
        ensures profile { OnOk result (self.new.profile ≡ self.old.profile) }
        ensures learned { OnOk result
            (learned_count self.new.solver.sink ≡ learned_count self.old.solver.sink) }
    {
        instance.limits();
        let clauses = comparator(&self.network, cost)?;
        give_all(&mut self.solver, &clauses)?;
        self.last = clauses.len();
        self.costs.push(cost)?;
        Ok(())
    }

    /// The values of a solution, by variable from 1, are tried first from now on.
    pub fn suggest(&mut self, bits: &[bool])
        ensures same_view { self.new ≡ self.old }
    {
        self.solver.suggest(bits);
    }

    /// Looks for a solution below the last bound.
    pub fn solve<W: SearchWatch>(
        &mut self,
        instance: &Instance,
        budget: &mut Budget,
        watch: &mut W,
    ) -> Result<Next, AllocError>
        requires over { IsOver instance.now self.old }
        requires bounded { (c : ℕ) × EndsWith self.old.costs.items c }
        ensures over { OnOk result (IsOver instance.now self.new) }
        ensures costs { self.new.costs ≡ self.old.costs }
        ensures profile { self.new.profile ≡ self.old.profile }
        ensures next { IfOk result (IsNext instance.now self.new budget.old budget.new) }

        // The effort.
        ensures learned { budget.new.learned + learned_count self.old.solver.sink
            ≡ budget.old.learned + learned_count self.new.solver.sink }
        ensures limit { budget.new.limit ≡ budget.old.limit }
        ensures same_seen { W.seen watch.new ≡ W.seen watch.old }
        ensures waives { WaivesAs budget.old budget.new (W.waived watch.old)
            (W.waived watch.new) }
    {
        let Ok(outcome) = self.solver.solve_watched(budget, watch) else {
            return Err(AllocError);
        };
        match outcome {
            Outcome::Sat(bits) => Ok(Next::Cheaper(price(instance, bits))),
            Outcome::Unsat => Ok(Next::Refuted),
            Outcome::Limit => Ok(Next::Spent),
        }
    }

    /// How many clauses the formula for the last bound has.
    pub fn count_clauses(&self, instance: &Instance) -> u64
        requires over { IsOver instance.now self.now }
        requires bounded { (c : ℕ) × EndsWith self.now.costs.items c }
        ensures { (before : List ℕ) (c : ℕ) → self.now.costs.items ≡ before ++ c ∷ []
            → result ≡ length (bound_as self.now.profile instance.now c).clauses }
    {
        instance.limits();
        self.fixed as u64 + self.last as u64
    }

    /// The log as one over the formula for the last bound: a line for each clause of the bounds
    /// before, and then the lines of the solver's log. It is the last that is asked of the bounds:
    /// the memory of the search goes to the copy of the log.
    pub fn rebase_log(&mut self, instance: &Instance) -> Result<Log, AllocError>
        requires over { IsOver instance.now self.old }
        requires bounded { (c : ℕ) × EndsWith self.old.costs.items c }
        requires falling { AreFalling self.old.costs.items }
        ensures { IfOk result (λ log. BoundLog instance.now self.old log) }
    {
        instance.limits();
        self.solver.retire();
        let sink = self.solver.sink();
        sink.is_short();
        let given = self.solver.given();
        let weaker = collect_weaker(instance.allocator(), given, self.fixed, self.last)?;
        rebase(sink, self.fixed as u64, &weaker)
    }
}

/// A solver of the formula without a bound.
fn make_solver(
    instance: &Instance,
    profile: Profile,
    network: &Network,
) -> Result<Solver<Log>, AllocError>
    requires { network.now ≡ adders_as profile instance.now }
    ensures { IfOk result (IsOverFixed profile instance.now) }
{
    instance.limits();
    let formula = formula_as(instance, NO_BOUND, profile)?;
    let alloc = instance.allocator();
    let frozen = freeze_outputs(alloc, network.outputs(), formula.vars())?;
    Solver::of(formula, frozen, Log::new(alloc))
}

/// Tells the solver what each relaxation literal costs: a search that decides what costs most first
/// meets cheap solutions sooner.
fn weigh(solver: &mut Solver<Log>, relaxations: &[Relaxation])
    ensures { solver.new ≡ solver.old }
{
    for relaxation in relaxations {
        solver.weigh(relaxation.lit, relaxation.weight);
    }
}

/// The clauses between the fixed ones and those of the last bound, each with the number of a clause
/// of the last one.
fn collect_weaker(
    alloc: Global,
    given: &GivenClauses,
    fixed: usize,
    last: usize,
) -> Result<Vec<(Vec<Lit>, u64)>, AllocError>
    requires { fixed + last ≤ length given.now }
    ensures few { length given.now ≤ MOST_PLACES }
    ensures weaker { IfOk result (λ weaker. (a b c : List (List Literal))
        → clauses_in given.now ≡ a ++ (b ++ c) → length a ≡ fixed → length c ≡ last
        → weaker_list weaker.items ≡ weaker_among (fixed + 1) c b) }
{
    let end = given.len() - last;
    pair_with_subsets(alloc, given, fixed, end, fixed as u64 + 1)
}

/// Gives the clauses, in their order.
#[tactic(auto, using(crate::proofs::Numbering::gives_none, crate::proofs::Numbering::gives_on))]
fn give_all(solver: &mut Solver<Log>, clauses: &[Clause]) -> Result<(), AllocError>
    requires usable { IsUsable solver.old }
    requires frozen { All (λ c. All (IsFrozen solver.old.frozen) c) clauses.now }
    requires no_tautology { All (λ c. is_tautology c ≡ false) clauses.now }
    ensures { OnOk result (GivesAll solver.old clauses.now solver.new) }
{
    for clause in clauses {
        give(solver, clause.lits())?;
    }
    Ok(())
}

/// Gives the clause, under the number after those of the clauses before.
fn give(solver: &mut Solver<Log>, lits: &[Lit]) -> Result<(), AllocError>
    requires usable { IsUsable solver.old }
    requires frozen { All (IsFrozen solver.old.frozen) lits.now }
    requires no_repeat { has_repeat lits.now ≡ false }
    requires no_tautology { is_tautology lits.now ≡ false }
    ensures { OnOk result (Gives solver.old lits.now solver.new) }
{
    let count = solver.given().len();
    let name = Name::Formula(Number::new(count as u64 + 1));
    match solver.add_clause(name, lits) {
        Ok(()) => Ok(()),
        Err(_) => Err(AllocError),
    }
}
