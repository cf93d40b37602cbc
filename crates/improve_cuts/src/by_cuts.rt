//! The search by forms and cuts, from the beginning of a log to its end.
ghost use Rattle.cdcl_order.specs.Budgets.{WaivesAs};
ghost use Rattle.improve_found.specs.Progress.{CanFail};
ghost use Rattle.improve_found.specs.Watch.{AreShown};
ghost use Rattle.improve_cuts.specs.ByCuts.{BeginsOn, SameOrigin, FindsByCuts};

use crate::parts::numbered_in;
use crate::session::Session;
use crate::walks::Walks;
use adder::relaxations::Relaxation;
use cdcl::budget::Budget;
use cnf::types::Instance;
use cuts_solver::solver::CutsSolver;
use improve_found::found::{CutsFound, ImproveFault};
use improve_found::progress::Progress;
use improve_found::solutions::Solution;
use improve_found::watch::Watch;
use improve_local::walking::size_of;
use std::io::Write;

/// What a search begins with.
#[derive(Drop)]
pub struct CutsTask<'i> {
    /// What it looks for an optimum of.
    pub instance: &'i Instance,
    /// The first solution, if there is one: it costs at most what cuts hold for. Without one, cuts
    /// hold in all solutions.
    pub start: Option<Solution>,
    /// What lines before have proved that no solution costs less than, up to 2^62; 0 where there
    /// are none.
    pub proved: u64,
    /// About how many clauses were learned or cut by the lines before; 0 where there are none.
    pub learned: u64,
    /// What each soft clause costs, by `bound::weighted::weights`, if that was made before.
    pub weights: Option<Vec<Relaxation>>,
}

/// Looks for an optimum with a solver of the instance: for solutions, each cheaper than those
/// before, and for a proof that nothing is cheaper. The cost of each is told to `progress` as soon
/// as it is known, for one unit of the budget, after it was shown to `watch`. The log of the solver
/// proves what is answered.
///
/// Where nothing is left of the budget, nothing is told, and no solution is found. An instance may
/// be refuted all the same.
///
/// # Errors
///
/// `Memory` where memory was refused or a write of the log has failed, `Progress` where a cost
/// could not be told.
pub fn improve_by_cuts<W: Write + Drop, T: Progress, K: Watch>(
    task: CutsTask<'_>,
    solver: &mut CutsSolver<W>,
    budget: &mut Budget,
    progress: &mut T,
    watch: &mut K,
) -> Result<CutsFound, ImproveFault>
    requires failures { CanFail (T.state progress.old) }
    requires begun { BeginsOn task.instance.now task.start solver.old }
    ensures follows { (first : T) → T.follows first progress.old → T.follows first progress.new }
    ensures shown { AreShown task.entry.instance.now (T.state progress.old) (T.state progress.new)
        (K.seen watch.old) (K.seen watch.new) }
    ensures waives { WaivesAs budget.old budget.new (K.waived watch.old) (K.waived watch.new) }
    ensures origin { SameOrigin solver.old solver.new }
    ensures finds { FindsByCuts task.entry.instance.now solver.old.log.cost result
        solver.new.refuted solver.new.log.cost (T.state progress.old) (T.state progress.new)
        budget.old budget.new }
{
    let CutsTask {
        instance,
        start,
        proved,
        learned,
        weights,
    } = task;
    if start.is_some() && budget.left() == 0 {
        return Ok(CutsFound {
            best: None,
            is_proved: false,
        });
    }
    let counts = numbered_in(solver.forms());
    let mut walks = Walks::new(size_of(instance));
    let mut best = None;
    let mut session = Session {
        instance,
        solver,
        budget,
        progress,
        watch,
        best: &mut best,
        proved,
        learned,
        counts,
        walks: &mut walks,
        fault: None,
    };
    let ended = session.run(start, weights);
    // By a call: that is proved once, and not field by field at each exit.
    drop(walks);
    match ended {
        Ok(is_proved) => Ok(CutsFound { best, is_proved }),
        Err(fault) => {
            drop(best);
            Err(fault)
        }
    }
}
