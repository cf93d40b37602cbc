//! The improving search: each solution bounds the cost of the next (Handbook of Satisfiability,
//! chapter MaxSAT, linear search from satisfiable to unsatisfiable).
ghost use Rattle.std.specs.Prelude.{◌≡◌, IfOk};
ghost use Rattle.lrat_log.specs.Steps.{learned_count};
ghost use Rattle.cdcl_order.specs.Budgets.{BudgetState, WaivesAs};
ghost use Rattle.improve.specs.Improving.{Improves, IsHardLog, PaysForHard};
ghost use Rattle.improve_found.specs.Solutions.{IsSolution, AreFeasible};
ghost use Rattle.improve_found.specs.Progress.{CanFail};
ghost use Rattle.improve.specs.Bounds.{IsOverHard};
ghost use Rattle.improve.specs.Standing.{Ends, starting_with};
ghost use Rattle.improve_found.specs.Watch.{AreShown};

mod concluding;
mod descending;

use crate::bounds::Bounds;
use crate::frozen::freeze_none;
use crate::search::concluding::{conclude_nothing, conclude_zero};
use crate::search::descending::{Descent, tighten};
use adder::profiles::Profile;
use bound::formulas::hard_formula;
use cdcl::budget::Budget;
use cdcl::outcome::Outcome;
use cdcl::solver::Solver;
use cdcl::watch::Unwatched;
use cnf::types::Instance;
use improve_found::found::{Found, ImproveFault};
use improve_found::progress::Progress;
use improve_found::solutions::{Solution, price_polished};
use improve_found::watch::{Watch, tell};
use lrat_log::log::Log;
use std::alloc::AllocError;

/// Looks for an optimum: first for a solution of the hard clauses, and then for cheaper ones until
/// there is none or the budget is spent. The cost of each is told to `progress` as soon as it is
/// known. Each clause that is learned and each solution costs one unit, and nothing else does.
///
/// # Errors
///
/// `Memory` where memory was refused, `Progress` where a cost could not be told.
pub fn improve<T: Progress>(
    instance: &Instance,
    budget: &mut Budget,
    progress: &mut T,
) -> Result<Found, ImproveFault>
    requires { CanFail (T.state progress.old) }
    ensures follows { (first : T) → T.follows first progress.old → T.follows first progress.new }
    ensures improves { Improves Profile.One instance.now result
        (T.state progress.old) (T.state progress.new)
        budget.old budget.new }
    ensures same_waived { budget.new.waived ≡ budget.old.waived }
{
    improve_as(instance, budget, progress, Profile::One)
}

/// As `improve`, where soft clauses are relaxed as the profile says.
///
/// # Errors
///
/// Those of `improve`.
pub fn improve_as<T: Progress>(
    instance: &Instance,
    budget: &mut Budget,
    progress: &mut T,
    profile: Profile,
) -> Result<Found, ImproveFault>
    requires { CanFail (T.state progress.old) }
    ensures follows { (first : T) → T.follows first progress.old → T.follows first progress.new }
    ensures improves { Improves profile instance.now result
        (T.state progress.old) (T.state progress.new)
        budget.old budget.new }
    ensures same_waived { budget.new.waived ≡ budget.old.waived }
{
    improve_watched(instance, budget, progress, profile, &mut Unwatched)
}

/// As `improve_as`, where `watch` looks on. It is told of each clause that is learned, and each
/// solution is shown to it before its cost is told.
///
/// # Errors
///
/// Those of `improve`.
pub fn improve_watched<T: Progress, W: Watch>(
    instance: &Instance,
    budget: &mut Budget,
    progress: &mut T,
    profile: Profile,
    watch: &mut W,
) -> Result<Found, ImproveFault>
    requires { CanFail (T.state progress.old) }
    ensures follows { (first : T) → T.follows first progress.old → T.follows first progress.new }
    ensures shown { AreShown instance.now (T.state progress.old) (T.state progress.new)
        (W.seen watch.old) (W.seen watch.new) }
    ensures waives { WaivesAs budget.old budget.new (W.waived watch.old) (W.waived watch.new) }
    ensures improves { Improves profile instance.now result
        (T.state progress.old) (T.state progress.new)
        budget.old budget.new }
{
    let Ok(mut solver) = make_hard_solver(instance) else {
        return Err(ImproveFault::Memory);
    };
    match solver.solve_watched(budget, watch) {
        Ok(Outcome::Sat(bits)) => {
            let first = price_polished(instance, bits);
            let hard = solver.into_sink();
            let start = Start {
                profile,
                hard,
                first,
                is_given: false,
            };
            lower(instance, budget, progress, watch, start)
        }
        Ok(Outcome::Unsat) => {
            let clauses = solver.given().len() as u64;
            let log = solver.into_sink();
            Ok(Found::Unsat { log, clauses })
        }
        Ok(Outcome::Limit) => Ok(conclude_nothing(instance, solver.into_sink())),
        Err(_) => {
            // Its own crate drops the solver, so that no exit here has to.
            solver.into_sink();
            Err(ImproveFault::Memory)
        }
    }
}

/// What a search begins with that has a first solution already.
#[derive(Drop)]
pub struct Beginning {
    /// A solution: it satisfies the hard clauses. There may be more bits than variables.
    pub bits: Vec<bool>,
    /// How soft clauses are relaxed.
    pub profile: Profile,
}

/// As `improve_watched`, but the first solution is given. It is made cheaper by the local search,
/// told for one unit of the budget, and never dearer than what was given. No solution of the hard
/// clauses is searched for, so their log is empty. The search below its cost tries its values
/// first. Where nothing is left of the budget, nothing is found.
///
/// # Errors
///
/// Those of `improve`.
pub fn improve_from<T: Progress, W: Watch>(
    instance: &Instance,
    beginning: Beginning,
    budget: &mut Budget,
    progress: &mut T,
    watch: &mut W,
) -> Result<Found, ImproveFault>
    requires failures { CanFail (T.state progress.old) }
    requires solution { AreFeasible instance.now beginning.bits.items }
    ensures follows { (first : T) → T.follows first progress.old → T.follows first progress.new }
    ensures shown { AreShown instance.now (T.state progress.old) (T.state progress.new)
        (W.seen watch.old) (W.seen watch.new) }
    ensures waives { WaivesAs budget.old budget.new (W.waived watch.old) (W.waived watch.new) }
    ensures improves { Improves beginning.profile instance.now result
        (T.state progress.old) (T.state progress.new)
        budget.old budget.new }
{
    let hard = Log::new(instance.allocator());
    if budget.left() == 0 {
        return Ok(conclude_nothing(instance, hard));
    }
    let Beginning { bits, profile } = beginning;
    let first = price_polished(instance, bits);
    budget.count_answer();
    let start = Start {
        profile,
        hard,
        first,
        is_given: true,
    };
    lower(instance, budget, progress, watch, start)
}

/// A solver of the hard clauses alone.
fn make_hard_solver(instance: &Instance) -> Result<Solver<Log>, AllocError>
    ensures { IfOk result (IsOverHard instance.now) }
{
    instance.limits();
    let alloc = instance.allocator();
    let formula = hard_formula(instance)?;
    let vars = formula.vars() as usize;
    let frozen = freeze_none(alloc, vars)?;
    let solver = Solver::of(formula, frozen, Log::new(alloc))?;
    Ok(solver)
}

/// A solution from which the search goes on, and what it has so far.
#[derive(Drop)]
struct Start {
    /// How soft clauses are relaxed.
    profile: Profile,
    /// The log of the hard clauses.
    hard: Log,
    /// The solution.
    first: Solution,
    /// Whether it was given, and not searched for.
    is_given: bool,
}

/// Goes on from a solution that was not told yet. It is told before anything of a bound is built:
/// that takes time and memory, and may fail.
fn lower<T: Progress, W: Watch>(
    instance: &Instance,
    budget: &mut Budget,
    progress: &mut T,
    watch: &mut W,
    start: Start,
) -> Result<Found, ImproveFault>
    requires failures { CanFail (T.state progress.old) }
    requires solution { IsSolution instance.now start.first.bits.items start.first.cost }
    requires hard { IsHardLog instance.now start.hard }
    ensures follows { (first : T) → T.follows first progress.old → T.follows first progress.new }
    ensures shown { AreShown instance.now (T.state progress.old) (T.state progress.new)
        (W.seen watch.old) (W.seen watch.new) }
    ensures waives { WaivesAs budget.old budget.new (W.waived watch.old) (W.waived watch.new) }

    // From before the search over the hard clauses.
    ensures improves { (before : BudgetState) → PaysForHard before budget.old start.hard
        → Improves start.profile instance.now result
        (T.state progress.old) (T.state progress.new)
        before budget.new }
{
    if tell(instance, progress, watch, &start.first).is_err() {
        // Here and below: a call of `drop` is proved once for each type, and the end of a scope
        // field by field.
        drop(start);
        return Err(ImproveFault::Progress);
    }
    if start.first.cost == 0 {
        let Start {
            profile,
            hard,
            first,
            ..
        } = start;
        drop(hard);
        return conclude_zero(instance, profile, first.bits);
    }
    lower_by_bounds(instance, budget, progress, watch, start)
}

/// Goes on by bounds from a solution that was told. Where the search was given a solution, the
/// values of this one are tried first.
fn lower_by_bounds<T: Progress, W: Watch>(
    instance: &Instance,
    budget: &mut Budget,
    progress: &mut T,
    watch: &mut W,
    start: Start,
) -> Result<Found, ImproveFault>
    requires failures { CanFail (T.state progress.old) }
    requires solution { IsSolution instance.now start.first.bits.items start.first.cost }
    requires hard { IsHardLog instance.now start.hard }
    ensures follows { (first : T) → T.follows first progress.old → T.follows first progress.new }
    ensures shown { AreShown instance.now (T.state progress.old) (T.state progress.new)
        (W.seen watch.old) (W.seen watch.new) }
    ensures waives { WaivesAs budget.old budget.new (W.waived watch.old) (W.waived watch.new) }
    ensures ends { Ends start.profile instance.now result
        (T.state progress.old) (T.state progress.new)
        budget.old budget.new (starting_with start.first) (learned_count start.hard) }
{
    let Start {
        profile,
        hard,
        first,
        is_given,
    } = start;
    let Ok(mut bounds) = Bounds::new(instance, profile) else {
        drop(hard);
        drop(first);
        return Err(ImproveFault::Memory);
    };
    suggest_given(&mut bounds, &first, is_given);
    let descent = Descent {
        bounds,
        hard,
        best: first,
    };
    tighten(instance, budget, progress, watch, descent)
}

/// The values of a solution are tried first, where the search was given one.
fn suggest_given(bounds: &mut Bounds, first: &Solution, is_given: bool)
    ensures { bounds.new ≡ bounds.old }
{
    if is_given {
        bounds.suggest(&first.bits);
    }
}
