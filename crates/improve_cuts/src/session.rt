// The desk of a search: what it works on, and how it stands.
ghost use Rattle.std.specs.Prelude.{◌≡◌, ◌<◌, true, None};
ghost use Rattle.cdcl_order.specs.Budgets.{left_of};
ghost use Rattle.cuts_solver.specs.Solving.{instance_of};
ghost use Rattle.improve_found.specs.Progress.{CanFail};
ghost use Rattle.improve_cuts.specs.Sessions.{LeadsTo, same_prop};

mod keeping;

use crate::parts::{cost_in, last_output, raised_by, spend_to};
use crate::walks::Walks;
use bound::weighted::weighted_formula;
use cdcl::assumptions::Assumptions;
use cdcl::budget::Budget;
use cdcl::guide::Guide;
use cdcl::watch::Way;
use cnf::types::{Formula, Instance, Lit};
use cuts_cores::desk::{Descent, Desk, DeskFault, Trial, Walked};
use cuts_solver::solver::{Assumed, CutsSolver, SolverEnd};
use forms::state::Forms;
use forms::types::NamedFact;
use improve_found::progress::Progress;
use improve_found::solutions::Solution;
use improve_found::watch::Watch;
use improve_local::kinds::WalkKind;
use std::alloc::{AllocError, Global};
use std::io::Write;

/// What a search by forms and cuts works on. Each reference has a lifetime of its own.
#[derive(Drop)]
pub struct Session<'i, 's, 'b, 'p, 'k, 'm, 'w, W: Write, T: Progress, K: Watch> {
    /// What it looks for an optimum of.
    pub instance: &'i Instance,
    /// A solver of the instance.
    pub solver: &'s mut CutsSolver<W>,
    /// What it may spend.
    pub budget: &'b mut Budget,
    /// Is told what solutions cost.
    pub progress: &'p mut T,
    /// Looks on.
    pub watch: &'k mut K,
    /// The cheapest solution that was met, if any was.
    pub best: &'m mut Option<Solution>,
    /// What lines before this search have proved that no solution costs less than.
    pub proved: u64,
    /// About how many clauses were learned or cut by lines before this search.
    pub learned: u64,
    /// How many counts and groups there are, up to 2^64 - 1.
    pub counts: u64,
    /// Its local searches.
    pub walks: &'w mut Walks,
    /// Why it answers nothing any more, if it does not.
    pub fault: Option<DeskFault>,
    ghost same: { instance_of solver.now ≡ instance.now } by { same_prop (instance_of solver.now)
        instance.now },
    ghost can_fail: { fault ≡ None → CanFail (T.state progress.now) },
}

impl<'i, 's, 'b, 'p, 'k, 'm, 'w, W: Write + Drop, T: Progress, K: Watch> Desk
    for Session<'i, 's, 'b, 'p, 'k, 'm, 'w, W, T, K> {
    ghost follows = { λ first now. (now.solver.ghost_name ≡ first.solver.ghost_name)
        × (now.budget.ghost_name ≡ first.budget.ghost_name)
        × (now.progress.ghost_name ≡ first.progress.ghost_name)
        × (now.watch.ghost_name ≡ first.watch.ghost_name)
        × (now.best.ghost_name ≡ first.best.ghost_name)
        × (now.instance.now ≡ first.instance.now)
        × ((start : T) → T.follows start first.progress.now → T.follows start now.progress.now)
        × LeadsTo first.instance.now
        (record {
          solver = first.solver.now;
          budget = first.budget.now;
          telling = T.state first.progress.now;
          seen = K.seen first.watch.now;
          waived = K.waived first.watch.now;
          best = first.best.now;
          fault = first.fault;
        })
        (record {
          solver = now.solver.now;
          budget = now.budget.now;
          telling = T.state now.progress.now;
          seen = K.seen now.watch.now;
          waived = K.waived now.watch.now;
          best = now.best.now;
          fault = now.fault;
        }) };

    ghost refuted = { λ s. s.solver.now.refuted ≡ true };

    ghost left = { λ s. left_of s.budget.now };

    fn allocator(&self) -> Global {
        self.instance.allocator()
    }

    fn formula(&self) -> Result<Formula, AllocError> {
        weighted_formula(self.instance)
    }

    fn forms(&self) -> &Forms {
        self.solver.forms()
    }

    fn last(&self) -> u32 {
        self.solver.last()
    }

    fn cost(&self) -> u64 {
        cost_in(self.best)
    }

    fn has_solution(&self) -> bool {
        self.best.is_some()
    }

    fn proved(&self) -> u64 {
        self.proved
    }

    fn size(&self) -> u64 {
        self.walks.size
    }

    fn learned(&self) -> u64 {
        self.learned.saturating_add(self.budget.learned())
    }

    fn propagations(&self) -> u64 {
        self.solver.propagations()
    }

    fn is_refuted(&self) -> bool {
        self.solver.is_refuted()
    }

    fn left(&self) -> u64 {
        self.budget.left()
    }

    fn fixed(&self, lit: Lit) -> Option<bool> {
        self.solver.fixed(lit)
    }

    fn value(&self, lit: Lit) -> Option<bool> {
        self.solver.value(lit)
    }

    fn charge(&mut self, most: u64) {
        spend_to(self.budget, most);
    }

    fn assume(&mut self, guide: &mut Assumptions) -> Result<Trial, DeskFault> {
        if let Some(fault) = self.fault {
            return Err(fault);
        }
        match self.solver.assume(guide, self.budget, self.watch) {
            Ok(Assumed::Satisfied(bits)) => {
                self.meet(bits)?;
                Ok(Trial::Met)
            }
            Ok(Assumed::Refuted) => Ok(Trial::Refuted),
            Ok(Assumed::Core(core)) => Ok(Trial::Core(core)),
            Ok(Assumed::Stopped) => Ok(Trial::Stopped),
            Ok(Assumed::Spent) => Ok(Trial::Spent),
            Err(AllocError) => Err(self.fail()),
        }
    }

    fn descend<G: Guide>(&mut self, guide: &mut G) -> Result<Descent, DeskFault> {
        if let Some(fault) = self.fault {
            return Err(fault);
        }
        match self.solver.search(guide, self.budget, self.watch) {
            Ok(SolverEnd::Satisfied(bits)) => {
                if self.meet(bits)? {
                    return Ok(Descent::Cheaper);
                }
                Ok(Descent::NoCheaper)
            }
            Ok(SolverEnd::Refuted) => Ok(Descent::Refuted),
            Ok(SolverEnd::Stopped) => Ok(Descent::Stopped),
            Ok(SolverEnd::Spent) => Ok(Descent::Spent),
            Err(AllocError) => Err(self.fail()),
        }
    }

    fn walk(&mut self, kind: WalkKind, visits: u64) -> Result<Walked, DeskFault> {
        if let Some(fault) = self.fault {
            return Err(fault);
        }
        let mut walked = Walked {
            visits: 0,
            is_cheaper: false,
        };
        if self.budget.left() == 0 {
            return Ok(walked);
        }
        let Some(best) = &*self.best else {
            return Ok(walked);
        };
        let better = self.walks.walk(self.instance, best, kind, visits);
        walked.visits = self.walks.visits;
        if let Some(bits) = better {
            walked.is_cheaper = self.meet(bits)?;
        }
        Ok(walked)
    }

    fn suggest_best(&mut self) {
        if let Some(best) = &*self.best {
            self.solver.suggest(&best.bits);
        }
    }

    fn suggest(&mut self, values: &[bool]) {
        self.solver.suggest(values);
    }

    fn count(&mut self, outputs: u64, inputs: &[Lit]) -> Result<Option<u64>, DeskFault> {
        if let Some(fault) = self.fault {
            return Err(fault);
        }
        match self.solver.count(outputs, inputs) {
            Ok(true) => {
                self.counts = self.counts.saturating_add(1);
                Ok(Some(self.counts))
            }
            Ok(false) => Ok(None),
            Err(AllocError) => Err(self.fail()),
        }
    }

    fn more(&mut self, number: u64) -> Result<Option<Lit>, DeskFault> {
        if let Some(fault) = self.fault {
            return Err(fault);
        }
        match self.solver.more(number) {
            Ok(true) => Ok(last_output(self.solver.forms(), number)),
            Ok(false) => Ok(None),
            Err(AllocError) => Err(self.fail()),
        }
    }

    fn group(&mut self, inputs: &[Lit], ids: &[u64]) -> Result<Option<u64>, DeskFault> {
        if let Some(fault) = self.fault {
            return Err(fault);
        }
        match self.solver.group(inputs, ids) {
            Ok(true) => {
                self.counts = self.counts.saturating_add(1);
                Ok(Some(self.counts))
            }
            Ok(false) => Ok(None),
            Err(AllocError) => Err(self.fail()),
        }
    }

    fn form(&mut self, scale: u64, facts: &[NamedFact]) -> Result<bool, DeskFault> {
        if let Some(fault) = self.fault {
            return Err(fault);
        }
        match self.solver.form(scale, facts) {
            Ok(taken) => Ok(taken),
            Err(AllocError) => Err(self.fail()),
        }
    }

    fn form_more(&mut self, facts: &[NamedFact]) -> Result<bool, DeskFault> {
        if let Some(fault) = self.fault {
            return Err(fault);
        }
        match self.solver.form_more(facts) {
            Ok(taken) => Ok(taken),
            Err(AllocError) => Err(self.fail()),
        }
    }

    fn cut(&mut self, lits: &[Lit]) -> Result<bool, DeskFault> {
        if let Some(fault) = self.fault {
            return Err(fault);
        }
        match self.solver.cut(lits, self.budget) {
            Ok(taken) => Ok(taken),
            Err(AllocError) => Err(self.fail()),
        }
    }

    fn bound(&mut self, lower: u64, way: Way) -> Result<bool, DeskFault> {
        if let Some(fault) = self.fault {
            return Err(fault);
        }
        match self.solver.bound(lower) {
            Ok(true) => {
                self.flush()?;
                let bound = raised_by(self.solver.forms(), lower, way);
                self.watch.raised(bound);
                Ok(true)
            }
            Ok(false) => Ok(false),
            Err(AllocError) => Err(self.fail()),
        }
    }
}
