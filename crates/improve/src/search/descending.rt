// From a solution that was told to cheaper ones, until the bounds below it end.
ghost use Rattle.std.specs.Prelude.{◌≡◌, IfOk, IfErr, OnOk};
ghost use Rattle.lrat_log.specs.Steps.{learned_count};
ghost use Rattle.cdcl_order.specs.Budgets.{WaivesAs};
ghost use Rattle.improve.specs.Improving.{IsHardLog};
ghost use Rattle.improve_found.specs.Solutions.{IsSolution};
ghost use Rattle.improve_found.specs.Progress.{CanFail};
ghost use Rattle.improve.specs.Bounds.{IsOver, HasNoBound, IsBoundsEnd};
ghost use Rattle.improve.specs.Standing.{Descends, Ends, Fails, starting_with};
ghost use Rattle.improve_found.specs.Watch.{AreShown};

use crate::bounds::{Bounds, BoundsEnd, Next};
use crate::search::concluding::{conclude_optimum, conclude_spent};
use cdcl::budget::Budget;
use cnf::types::Instance;
use improve_found::found::{Found, ImproveFault};
use improve_found::progress::Progress;
use improve_found::solutions::Solution;
use improve_found::watch::{Watch, tell};
use lrat_log::log::Log;
use std::alloc::AllocError;

/// What goes from a solution to cheaper ones.
#[derive(Drop)]
pub(crate) struct Descent {
    /// The bounds so far.
    pub(crate) bounds: Bounds,
    /// The log of the hard clauses.
    pub(crate) hard: Log,
    /// The cheapest solution so far, which was told.
    pub(crate) best: Solution,
}

/// Goes from a solution that was told to the end of the bounds below it.
pub(super) fn tighten<T: Progress, W: Watch>(
    instance: &Instance,
    budget: &mut Budget,
    progress: &mut T,
    watch: &mut W,
    mut descent: Descent,
) -> Result<Found, ImproveFault>
    requires failures { CanFail (T.state progress.old) }
    requires solution { IsSolution instance.now descent.best.bits.items descent.best.cost }
    requires hard { IsHardLog instance.now descent.hard }
    requires over { IsOver instance.now descent.bounds }
    requires none { HasNoBound descent.bounds }
    ensures follows { (first : T) → T.follows first progress.old → T.follows first progress.new }
    ensures shown { AreShown instance.now (T.state progress.old) (T.state progress.new)
        (W.seen watch.old) (W.seen watch.new) }
    ensures waives { WaivesAs budget.old budget.new (W.waived watch.old) (W.waived watch.new) }
    ensures ends { Ends descent.bounds.profile instance.now result
        (T.state progress.old) (T.state progress.new)
        budget.old budget.new (starting_with descent.best) (learned_count descent.hard) }
{
    match descend(instance, budget, progress, watch, &mut descent) {
        Ok(BoundsEnd::Refuted) => conclude_optimum(instance, descent),
        Ok(BoundsEnd::Spent) => conclude_spent(instance, descent),
        Err(fault) => {
            // By a call: that is proved once for each type, and not field by field.
            drop(descent);
            Err(fault)
        }
    }
}

/// Goes from the best solution, which was told, to cheaper ones: the cost of each is the next
/// bound, and what is found below it is told and is the best one from then on. All that the search
/// owns is its caller's, so that its many exits drop nothing.
fn descend<T: Progress, W: Watch>(
    instance: &Instance,
    budget: &mut Budget,
    progress: &mut T,
    watch: &mut W,
    descent: &mut Descent,
) -> Result<BoundsEnd, ImproveFault>
    requires failures { CanFail (T.state progress.old) }
    requires solution { IsSolution instance.now descent.old.best.bits.items descent.old.best.cost }
    requires over { IsOver instance.now descent.old.bounds }
    requires none { HasNoBound descent.old.bounds }
    ensures follows { (first : T) → T.follows first progress.old → T.follows first progress.new }
    ensures shown { AreShown instance.now (T.state progress.old) (T.state progress.new)
        (W.seen watch.old) (W.seen watch.new) }
    ensures waives { WaivesAs budget.old budget.new (W.waived watch.old) (W.waived watch.new) }
    ensures over { OnOk result (IsOver instance.now descent.new.bounds) }
    ensures profile { OnOk result
        (descent.new.bounds.profile ≡ descent.old.bounds.profile) }
    ensures same_hard { descent.new.hard ≡ descent.old.hard }
    ensures descends { OnOk result (Descends instance.now
        (T.state progress.old) (T.state progress.new)
        budget.old budget.new (starting_with descent.old.best) descent.new.best
        descent.new.bounds) }
    ensures end { IfOk result
        (IsBoundsEnd descent.new.bounds budget.new descent.new.best.cost) }
    ensures fails { IfErr result (λ fault. Fails instance.now fault
        (T.state progress.old) (T.state progress.new)
        budget.old budget.new (starting_with descent.old.best)) }
{
    'bounds: loop {
        if descent.bounds.add(instance, descent.best.cost).is_err() {
            return Err(ImproveFault::Memory);
        }
        match descent.bounds.solve(instance, budget, watch) {
            Ok(Next::Cheaper(solution)) => {
                if tell(instance, progress, watch, &solution).is_err() {
                    return Err(ImproveFault::Progress);
                }
                descent.best = solution;
            }
            Ok(Next::Refuted) => return Ok(BoundsEnd::Refuted),
            Ok(Next::Spent) => return Ok(BoundsEnd::Spent),
            Err(AllocError) => return Err(ImproveFault::Memory),
        }
    }
}
