// The search of a run by forms and cuts, where each better solution is told.
ghost use Rattle.std.specs.Prelude.{◌≡◌, ◌≤◌, ℕ, true, IfOk};
ghost use Rattle.cdcl_order.specs.Budgets.{WaivesAs};
ghost use Rattle.improve_cuts.specs.ByCuts.{BeginsOn, SameOrigin};
ghost use Rattle.report.specs.ByCuts.{IsShownByCuts, SearchesByCuts, cuts_outcome, held_by};
ghost use Rattle.report.specs.ByCuts.{held_for};
ghost use Rattle.report.specs.Earlier.{EndsAt};

use cdcl::budget::Budget;
use cuts_solver::solver::CutsSolver;
use improve_cuts::by_cuts::{CutsTask, improve_by_cuts};
use improve_found::found::{CutsFound, ImproveFault};
use improve_found::watch::tell;
use report_text::best::RunWatch;
use report_text::fault::RunFault;
use report_text::told::{Finished, Told};
use std::alloc::Global;
use std::io::Write;

/// A search, and where its memory comes from.
#[derive(Drop)]
pub(super) struct CutsSearch<'i> {
    pub(super) alloc: Global,
    pub(super) task: CutsTask<'i>,
}

/// Looks for an optimum, and tells the cost of each better solution.
pub(super) fn find_by_cuts<O: Write, P: Write + Drop, K: RunWatch>(
    search: CutsSearch<'_>,
    solver: &mut CutsSolver<P>,
    budget: &mut Budget,
    out: &mut O,
    watch: &mut K,
) -> Result<CutsFound, RunFault>
    requires { BeginsOn search.task.instance.now search.task.start solver.old }
    ensures searches { SearchesByCuts search.entry.task.instance.now solver.old.log.cost result
        solver.new.refuted solver.new.log.cost (O.contents out.old) (O.contents out.new)
        budget.old budget.new }
    ensures origin { SameOrigin solver.old solver.new }
    ensures shown { IfOk result (λ found. IsShownByCuts search.entry.task.instance.now
        solver.old.log.cost found solver.new.refuted solver.new.log.cost
        (O.contents out.old) (O.contents out.new) budget.new
        (K.seen watch.old) (K.seen watch.new)) }
    ensures waives { WaivesAs budget.old budget.new (K.waived watch.old) (K.waived watch.new) }
{
    let CutsSearch { alloc, task } = search;
    task.instance.limits();
    let mut told = Told::new(alloc, out);
    let searched = improve_by_cuts(task, solver, budget, &mut told, watch);
    let Finished { writer, fault } = told.finish();
    // Nothing is done here: the proof learns from this use what the writer holds.
    let _ = &*writer;
    conclude(searched, fault, solver.has_write_failed())
}

/// What is found where nothing costs less than what cuts have held for: the first solution is told
/// for a unit of the budget, if one is left; without one there is none.
pub(super) fn find_at_once<O: Write, K: RunWatch>(
    search: CutsSearch<'_>,
    budget: &mut Budget,
    out: &mut O,
    watch: &mut K,
) -> Result<CutsFound, RunFault>
    requires { (limit : ℕ) × EndsAt search.task.instance.now limit search.task.start }
    ensures searches { (limit : ℕ) → EndsAt search.entry.task.instance.now limit
        search.entry.task.start → SearchesByCuts search.entry.task.instance.now limit result
        true (held_for limit result) (O.contents out.old) (O.contents out.new)
        budget.old budget.new }
    ensures shown { (limit : ℕ) → EndsAt search.entry.task.instance.now limit
        search.entry.task.start → IfOk result (λ found. IsShownByCuts
        search.entry.task.instance.now limit found true (held_by limit found.best)
        (O.contents out.old) (O.contents out.new) budget.new
        (K.seen watch.old) (K.seen watch.new)) }
    ensures waives { WaivesAs budget.old budget.new (K.waived watch.old) (K.waived watch.new) }
    ensures below { (limit : ℕ) → EndsAt search.entry.task.instance.now limit
        search.entry.task.start → IfOk result (λ found. held_by limit found.best ≤ limit) }
{
    let CutsSearch { alloc, task } = search;
    let CutsTask {
        instance,
        start,
        ..
    } = task;
    instance.limits();
    let Some(solution) = start else {
        return Ok(CutsFound {
            best: None,
            is_proved: true,
        });
    };
    if budget.left() == 0 {
        return Ok(CutsFound {
            best: None,
            is_proved: false,
        });
    }
    budget.count_answer();
    let mut told = Told::new(alloc, out);
    let has_failed = tell(instance, &mut told, watch, &solution).is_err();
    let Finished { writer, fault } = told.finish();
    // Nothing is done here: the proof learns from this use what the writer holds.
    let _ = &*writer;
    if has_failed {
        drop(solution);
        return Err(fault);
    }
    Ok(CutsFound {
        best: Some(solution),
        is_proved: true,
    })
}

/// The outcome of a search, where this is why a telling failed. A solver fails also where a write
/// of the certificate does.
fn conclude(
    searched: Result<CutsFound, ImproveFault>,
    fault: RunFault,
    has_write_failed: bool,
) -> Result<CutsFound, RunFault>
    ensures { result ≡ cuts_outcome searched fault has_write_failed }
{
    match searched {
        Ok(found) => Ok(found),
        Err(ImproveFault::Memory) => {
            if has_write_failed {
                Err(RunFault::ProofOutput)
            } else {
                Err(RunFault::Memory)
            }
        }
        Err(ImproveFault::Progress) => Err(fault),
    }
}
