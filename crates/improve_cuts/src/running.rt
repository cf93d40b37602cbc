// The course of a search: its beginning, its rounds and its end.
ghost use Rattle.std.specs.Prelude.{◌≡◌, ◌<◌, ◌⊎◌, true, None, IfOk, IfErr, IfSome, OnOk};
ghost use Rattle.cdcl_order.specs.Budgets.{WaivesAs, left_of};
ghost use Rattle.improve_found.specs.Watch.{AreShown};
ghost use Rattle.improve_cuts.specs.ByCuts.{BeginsOn, BeginsWith, SameOrigin, FindsByCuts};
ghost use Rattle.improve_cuts.specs.Sessions.{EndsWithout, HasCome, IsFaultOf, found_by};

use crate::session::Session;
use adder::relaxations::Relaxation;
use bound::weighted::weights;
use cuts_cores::desk::{Desk, DeskFault};
use cuts_policy::rounds::search;
use improve_found::found::ImproveFault;
use improve_found::progress::Progress;
use improve_found::solutions::Solution;
use improve_found::watch::Watch;
use std::io::Write;

impl<'i, 's, 'b, 'p, 'k, 'm, 'w, W: Write + Drop, T: Progress, K: Watch> Session<
    'i,
    's,
    'b,
    'p,
    'k,
    'm,
    'w,
    W,
    T,
    K,
> {
    /// Runs the search, which begins with this solution, if there is one. `made` says what each
    /// soft clause costs, if that was made before. Whether it is proved that nothing is cheaper
    /// than the best solution; else the budget is spent.
    ///
    /// # Errors
    ///
    /// `Memory` where memory was refused or a write of the log has failed, `Progress` where a cost
    /// could not be told.
    pub fn run(
        &mut self,
        start: Option<Solution>,
        made: Option<Vec<Relaxation>>,
    ) -> Result<bool, ImproveFault>
        requires works { (self.old.fault ≡ None) × (self.old.best.now ≡ None) }
        requires left { IfSome start (λ _. 0 < left_of self.old.budget.now) }
        requires begun { BeginsOn self.old.instance.now start self.old.solver.now }
        ensures names { (self.new.solver.ghost_name ≡ self.old.solver.ghost_name)
            × (self.new.budget.ghost_name ≡ self.old.budget.ghost_name)
            × (self.new.progress.ghost_name ≡ self.old.progress.ghost_name)
            × (self.new.watch.ghost_name ≡ self.old.watch.ghost_name)
            × (self.new.best.ghost_name ≡ self.old.best.ghost_name) }
        ensures follows { (first : T) → T.follows first self.old.progress.now
            → T.follows first self.new.progress.now }
        ensures shown { AreShown self.old.instance.now
            (T.state self.old.progress.now) (T.state self.new.progress.now)
            (K.seen self.old.watch.now) (K.seen self.new.watch.now) }
        ensures waives { WaivesAs self.old.budget.now self.new.budget.now
            (K.waived self.old.watch.now) (K.waived self.new.watch.now) }
        ensures origin { SameOrigin self.old.solver.now self.new.solver.now }
        ensures finds { FindsByCuts self.old.instance.now self.old.solver.now.log.cost
            (found_by result self.new.best.now)
            self.new.solver.now.refuted self.new.solver.now.log.cost
            (T.state self.old.progress.now) (T.state self.new.progress.now)
            self.old.budget.now self.new.budget.now }
    {
        self.begin(start);
        let ended = self.search_rounds(made);
        self.end(ended)
    }

    /// Keeps the solution that the search begins with, if there is one.
    fn begin(&mut self, start: Option<Solution>)
        requires works { (self.old.fault ≡ None) × (self.old.best.now ≡ None) }
        requires left { IfSome start (λ _. 0 < left_of self.old.budget.now) }
        requires first { BeginsWith self.old.instance.now self.old.solver.now.log.cost start }
        ensures follows { (first : _)
            → ⟦<Session<'i, 's, 'b, 'p, 'k, 'm, 'w, W, T, K> as Desk>⟧.follows first self.old
            → ⟦<Session<'i, 's, 'b, 'p, 'k, 'm, 'w, W, T, K> as Desk>⟧.follows first self.new }
        ensures come { HasCome self.old.instance.now
            (record {
              solver = self.old.solver.now;
              budget = self.old.budget.now;
              telling = T.state self.old.progress.now;
              seen = K.seen self.old.watch.now;
              waived = K.waived self.old.watch.now;
              best = self.old.best.now;
              fault = self.old.fault;
            })
            (record {
              solver = self.new.solver.now;
              budget = self.new.budget.now;
              telling = T.state self.new.progress.now;
              seen = K.seen self.new.watch.now;
              waived = K.waived self.new.watch.now;
              best = self.new.best.now;
              fault = self.new.fault;
            }) }
    {
        self.instance.limits();
        if let Some(solution) = start {
            // A fault of it stands in the session.
            let _ = self.keep(solution);
        }
    }

    /// Searches until nothing is cheaper, or the budget is spent. All lines are written then.
    fn search_rounds(&mut self, made: Option<Vec<Relaxation>>) -> Result<(), DeskFault>
        ensures ended { OnOk result ((self.new.solver.now.refuted ≡ true)
            ⊎ (left_of self.new.budget.now ≡ 0)) }
        ensures follows { (first : _)
            → ⟦<Session<'i, 's, 'b, 'p, 'k, 'm, 'w, W, T, K> as Desk>⟧.follows first self.old
            → ⟦<Session<'i, 's, 'b, 'p, 'k, 'm, 'w, W, T, K> as Desk>⟧.follows first self.new }
    {
        let weights = match made {
            Some(weights) => weights,
            None => weights(self.instance)?,
        };
        search(self, &weights)?;
        self.flush()
    }

    /// How the search ends, by what its rounds have answered.
    fn end(&self, ended: Result<(), DeskFault>) -> Result<bool, ImproveFault>
        requires { OnOk ended ((self.now.solver.now.refuted ≡ true)
            ⊎ (left_of self.now.budget.now ≡ 0)) }
        ensures ok { IfOk result (λ is_proved. EndsWithout self.now.instance.now is_proved
            (record {
              solver = self.now.solver.now;
              budget = self.now.budget.now;
              telling = T.state self.now.progress.now;
              seen = K.seen self.now.watch.now;
              waived = K.waived self.now.watch.now;
              best = self.now.best.now;
              fault = self.now.fault;
            })) }
        ensures err { IfErr result (λ e. IsFaultOf e self.now.fault) }
    {
        match self.fault {
            Some(DeskFault::Progress) => Err(ImproveFault::Progress),
            Some(DeskFault::Memory) => Err(ImproveFault::Memory),
            None => {
                if ended.is_err() {
                    return Err(ImproveFault::Memory);
                }
                self.solver.limits();
                Ok(self.solver.is_refuted())
            }
        }
    }
}
