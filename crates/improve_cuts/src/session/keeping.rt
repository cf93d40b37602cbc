// What a session tells: its lines are written, and cheaper solutions kept.
ghost use Rattle.std.specs.Prelude.{◌≡◌, ◌<◌, ◌≤◌, None, OnOk};
ghost use Rattle.cdcl_order.specs.Budgets.{left_of};
ghost use Rattle.cuts_solver.specs.Solving.{HasWritten};
ghost use Rattle.improve_found.specs.Solutions.{IsSolution, AreFeasible};
ghost use Rattle.improve_cuts.specs.Sessions.{HasCome, cost_of};

use super::Session;
use crate::parts::cost_in;
use cuts_cores::desk::{Desk, DeskFault};
use improve_found::progress::Progress;
use improve_found::solutions::{Solution, price};
use improve_found::watch::{Watch, tell};
use std::alloc::AllocError;
use std::io::Write;

impl<'i, 's, 'b, 'p, 'k, 'm, 'w, W: Write + Drop, T: Progress, K: Watch> Session<
    'i,
    's,
    'b,
    'p,
    'k,
    'm,
    'w,
    W,
    T,
    K,
> {
    /// Answers nothing any more.
    pub(super) fn fail(&mut self) -> DeskFault
        requires { self.old.fault ≡ None }
        ensures fault { result ≡ DeskFault.Memory }
        ensures follows { (first : _)
            → ⟦<Session<'i, 's, 'b, 'p, 'k, 'm, 'w, W, T, K> as Desk>⟧.follows first self.old
            → ⟦<Session<'i, 's, 'b, 'p, 'k, 'm, 'w, W, T, K> as Desk>⟧.follows first self.new }
    {
        self.fault = Some(DeskFault::Memory);
        DeskFault::Memory
    }

    /// Writes all lines so far, so that nothing is told that the certificate does not prove yet.
    pub fn flush(&mut self) -> Result<(), DeskFault>
        ensures refuted { OnOk result
            (self.new.solver.now.refuted ≡ self.old.solver.now.refuted) }
        ensures left { OnOk result (self.new.budget.now ≡ self.old.budget.now) }
        ensures works { OnOk result (self.new.fault ≡ None) }
        ensures whole { OnOk result (HasWritten self.old.solver.now
            self.new.solver.now.log.book.out.had) }
        ensures follows { (first : _)
            → ⟦<Session<'i, 's, 'b, 'p, 'k, 'm, 'w, W, T, K> as Desk>⟧.follows first self.old
            → ⟦<Session<'i, 's, 'b, 'p, 'k, 'm, 'w, W, T, K> as Desk>⟧.follows first self.new }
    {
        if let Some(fault) = self.fault {
            return Err(fault);
        }
        match self.solver.flush() {
            Ok(()) => Ok(()),
            Err(AllocError) => Err(self.fail()),
        }
    }

    /// Takes the solution that these bits begin with, and keeps it if it is cheaper than the best
    /// one; whether it is.
    pub fn meet(&mut self, bits: Vec<bool>) -> Result<bool, DeskFault>
        requires feasible { AreFeasible self.old.instance.now bits.items }
        requires left { 0 < left_of self.old.budget.now }
        requires works { self.old.fault ≡ None }
        ensures follows { (first : _)
            → ⟦<Session<'i, 's, 'b, 'p, 'k, 'm, 'w, W, T, K> as Desk>⟧.follows first self.old
            → ⟦<Session<'i, 's, 'b, 'p, 'k, 'm, 'w, W, T, K> as Desk>⟧.follows first self.new }
    {
        let solution = price(self.instance, bits);
        if solution.cost >= cost_in(self.best) {
            return Ok(false);
        }
        self.keep(solution)?;
        Ok(true)
    }

    /// Keeps a cheaper solution: it is shown, told and paid for, and cuts hold for what it costs.
    pub fn keep(&mut self, solution: Solution) -> Result<(), DeskFault>
        requires solution { IsSolution self.old.instance.now solution.bits.items solution.cost }
        requires cheaper { solution.cost < cost_of self.old.best.now }
        requires left { 0 < left_of self.old.budget.now }
        requires works { self.old.fault ≡ None }
        ensures follows { (first : _)
            → ⟦<Session<'i, 's, 'b, 'p, 'k, 'm, 'w, W, T, K> as Desk>⟧.follows first self.old
            → ⟦<Session<'i, 's, 'b, 'p, 'k, 'm, 'w, W, T, K> as Desk>⟧.follows first self.new }
        ensures first { self.old.best.now ≡ None → solution.cost ≤ self.old.solver.now.log.cost
            → HasCome self.old.instance.now
            (record {
              solver = self.old.solver.now;
              budget = self.old.budget.now;
              telling = T.state self.old.progress.now;
              seen = K.seen self.old.watch.now;
              waived = K.waived self.old.watch.now;
              best = self.old.best.now;
              fault = self.old.fault;
            })
            (record {
              solver = self.new.solver.now;
              budget = self.new.budget.now;
              telling = T.state self.new.progress.now;
              seen = K.seen self.new.watch.now;
              waived = K.waived self.new.watch.now;
              best = self.new.best.now;
              fault = self.new.fault;
            }) }
    {
        self.budget.count_answer();
        if tell(self.instance, self.progress, self.watch, &solution).is_err() {
            self.fault = Some(DeskFault::Progress);
            return Err(DeskFault::Progress);
        }
        self.solver.set_cost(solution.cost);
        *self.best = Some(solution);
        Ok(())
    }
}
