// What is found where the search ends.
ghost use Rattle.std.specs.Prelude.{◌≡◌, ◌+◌, ◌<◌, [], ◌∷◌, Ok, IfOk, IfErr};
ghost use Rattle.cnf.specs.Refute.{IsRefutedByHints};
ghost use Rattle.lrat_log.specs.Steps.{IsAcceptedLog, AddsNoEmptyClause, learned_count};
ghost use Rattle.bound.specs.Bound.{hard_cnf};
ghost use Rattle.cdcl.specs.Solving.{given_to};
ghost use Rattle.improve.specs.Improving.{IsHardLog, IsRightFound, OnWork, work_count};
ghost use Rattle.improve_found.specs.Solutions.{IsSolution};
ghost use Rattle.improve_found.specs.Progress.{EndsWith, AreFalling};
ghost use Rattle.improve.specs.Bounds.{IsOver};

use crate::search::descending::Descent;
use crate::zero::refute_zero;
use adder::profiles::Profile;
use cnf::types::Instance;
use improve_found::found::{Found, ImproveFault, Work};
use lrat_log::log::Log;
use std::alloc::AllocError;

/// The optimum that costs nothing.
pub(super) fn conclude_zero(
    instance: &Instance,
    profile: Profile,
    bits: Vec<bool>,
) -> Result<Found, ImproveFault>
    requires solution { IsSolution instance.now bits.items 0 }
    ensures found { IfOk result (IsRightFound profile instance.now (0 ∷ [])) }
    ensures work { OnWork result (λ _. ⊥) }
    ensures fault { IfErr result (λ e. e ≡ ImproveFault.Memory) }
{
    match refute_zero(instance, profile) {
        Ok(refutation) => Ok(Found::Optimum {
            cost: 0,
            bits,
            log: refutation.log,
            clauses: refutation.clauses,
        }),
        Err(AllocError) => Err(ImproveFault::Memory),
    }
}

/// The end where no solution is cheaper.
pub(super) fn conclude_optimum(instance: &Instance, descent: Descent) -> Result<Found, ImproveFault>
    requires over { IsOver instance.now descent.bounds }
    requires refuted { IsAcceptedLog (given_to descent.bounds.solver) descent.bounds.solver.sink }
    requires solution { IsSolution instance.now descent.best.bits.items descent.best.cost }
    requires last { EndsWith descent.bounds.costs.items descent.best.cost }
    requires falling { AreFalling descent.bounds.costs.items }
    ensures found { IfOk result
        (IsRightFound descent.bounds.profile instance.now descent.bounds.costs.items) }
    ensures work { OnWork result (λ _. ⊥) }
    ensures fault { IfErr result (λ e. e ≡ ImproveFault.Memory) }
{
    let Descent {
        mut bounds,
        hard,
        best,
    } = descent;
    drop(hard);
    let clauses = bounds.count_clauses(instance);
    match bounds.rebase_log(instance) {
        Ok(log) => {
            drop(bounds);
            Ok(Found::Optimum {
                cost: best.cost,
                bits: best.bits,
                log,
                clauses,
            })
        }
        Err(AllocError) => {
            drop(bounds);
            Err(ImproveFault::Memory)
        }
    }
}

/// The end where the budget is spent and no solution was told. The log is that of the hard clauses.
pub(super) fn conclude_nothing(instance: &Instance, hard: Log) -> Found
    requires hard { IsHardLog instance.now hard }
    requires open { IsRefutedByHints (hard_cnf instance.now).clauses → ⊥ }
    ensures found { (profile : Profile) → IsRightFound profile instance.now [] result }
    ensures work { OnWork (Ok result) (λ w. work_count w ≡ learned_count hard) }
{
    Found::Nothing {
        work: Work {
            hard,
            bound: Log::new(instance.allocator()),
        },
    }
}

/// The end where the budget is spent.
pub(super) fn conclude_spent(instance: &Instance, descent: Descent) -> Result<Found, ImproveFault>
    requires over { IsOver instance.now descent.bounds }
    requires open { AddsNoEmptyClause descent.bounds.solver.sink }
    requires solution { IsSolution instance.now descent.best.bits.items descent.best.cost }
    requires above { 0 < descent.best.cost }
    requires last { EndsWith descent.bounds.costs.items descent.best.cost }
    requires falling { AreFalling descent.bounds.costs.items }
    requires hard { IsHardLog instance.now descent.hard }
    ensures found { IfOk result
        (IsRightFound descent.bounds.profile instance.now descent.bounds.costs.items) }
    ensures work { OnWork result (λ w. work_count w
        ≡ learned_count descent.hard + learned_count descent.bounds.solver.sink) }
    ensures fault { IfErr result (λ e. e ≡ ImproveFault.Memory) }
{
    let Descent {
        mut bounds,
        hard,
        best,
    } = descent;
    match bounds.rebase_log(instance) {
        Ok(bound) => {
            drop(bounds);
            Ok(Found::Best {
                cost: best.cost,
                bits: best.bits,
                work: Work { hard, bound },
            })
        }
        Err(AllocError) => {
            drop(bounds);
            drop(hard);
            drop(best);
            Err(ImproveFault::Memory)
        }
    }
}
