// Searches of the solver: led by a guide, and under assumptions.
ghost use Rattle.std.specs.Prelude.{◌≡◌, ◌+◌, ◌<◌, ◌≤◌, true, false};
ghost use Rattle.std.specs.Prelude.{IfOk, IfSome, OnOk, length};
ghost use Rattle.cuts_log.specs.Logs.{lines_seen};
ghost use Rattle.cdcl_order.specs.Budgets.{BudgetState, WaivesAs};
ghost use Rattle.cdcl_search.specs.Cores.{IsShown};
ghost use Rattle.cdcl.specs.Guiding.{IsStopped};
ghost use Rattle.cdcl.specs.Turns.{IsSatisfied};
ghost use Rattle.cdcl.specs.declared.guided.GuidedEnd.TheVariants.{Refuted};

use super::{Assumed, CutsSolver, SolverEnd};
use cdcl::answers::bits;
use cdcl::assumptions::Assumptions;
use cdcl::budget::Budget;
use cdcl::core_finding::find_core;
use cdcl::guide::Guide;
use cdcl::guided::{Course, GuidedEnd};
use cdcl::watch::SearchWatch;
use cnf::marks::Marks;
use cnf::types::Lit;
use cuts_log::law::texts_are_right;
use std::alloc::AllocError;
use std::io::Write;

/// Whether the empty clause was added.
fn is_refutation(end: GuidedEnd) -> bool
    ensures yes { result ≡ true → end ≡ Refuted }
    ensures no { result ≡ false → end ≡ Refuted → ⊥ }
{
    match end {
        GuidedEnd::Refuted => true,
        GuidedEnd::Satisfied | GuidedEnd::Stopped | GuidedEnd::Spent => false,
    }
}

impl<W: Write + Drop> CutsSolver<W> {
    ghost use Rattle.cnf.specs.Literal.{Assignment};
    ghost use Rattle.cnf.specs.Bits.{Extends};
    ghost use Rattle.cnf.specs.Problem.{IsFeasible};
    ghost use Rattle.cuts_solver.specs.Solving.{HasEnded, PaysLines, SameSolver, instance_of};

    /// Searches while it works, as `search` does.
    fn search_on<G: Guide, V: SearchWatch>(
        &mut self,
        guide: &mut G,
        budget: &mut Budget,
        watch: &mut V,
    ) -> Result<GuidedEnd, AllocError>
        requires works { self.old.failed ≡ false }
        requires going { self.old.refuted ≡ false }
        ensures end { IfOk result (HasEnded self.new budget.new) }
        ensures works { OnOk result (self.new.failed ≡ false) }
        ensures pays { PaysLines self.old self.new budget.old budget.new }
        ensures same { SameSolver self.old self.new }
        ensures same_input { self.new.input ≡ self.old.input }
        ensures waives { WaivesAs budget.old budget.new (V.waived watch.old) (V.waived watch.new) }
        ensures same_seen { V.seen watch.new ≡ V.seen watch.old }
        ensures follows { (first : G) → G.follows first guide.old → G.follows first guide.new }
    {
        self.failed = true;
        let mut marks = Marks::empty(self.search.store.allocator());
        let mut course = Course {
            search: &mut self.search,
            input: &self.input,
            sink: &mut self.log,
            budget,
            marks: &mut marks,
        };
        let end = course.run(guide, watch)?;
        if self.log.has_failed() {
            return Err(AllocError);
        }
        if is_refutation(end) {
            texts_are_right();
            self.log.limits();
            self.refuted = true;
            self.failed = false;
            return Ok(GuidedEnd::Refuted);
        }
        self.failed = false;
        Ok(end)
    }

    /// The bits of the solution to which the search has come.
    fn solution(&mut self) -> Result<Vec<bool>, AllocError>
        requires works { self.old.failed ≡ false }
        requires satisfied { (b : BudgetState)
            × IsSatisfied self.old.search self.old.input (lines_seen self.old.log) b }
        ensures long { IfOk result
            (λ bits. (instance_of self.old).variables ≤ length bits.items) }
        ensures feasible { IfOk result (λ bits. (t : Assignment) → Extends bits.items t
            → IsFeasible (instance_of self.old) t) }
        ensures kept { self.new ≡ record self.old { failed = self.new.failed } }
    {
        self.failed = true;
        let bits = bits(&self.search, &self.input)?;
        self.failed = false;
        Ok(bits)
    }

    /// The core where the search has stopped at an assumption that is false.
    fn core(
        &mut self,
        guide: &Assumptions,
        budget: &mut Budget,
    ) -> Result<Option<Vec<Lit>>, AllocError>
        requires works { self.old.failed ≡ false }
        requires going { self.old.refuted ≡ false }
        requires stopped { IsStopped self.old.search self.old.input (lines_seen self.old.log)
            budget.old }
        ensures shown { IfOk result (λ found. IfSome found
            (λ core. IsShown (self.new.search.store).slots guide.now core.items)) }
        ensures pays { PaysLines self.old self.new budget.old budget.new }
        ensures kept { budget.new.waived ≡ budget.old.waived }
        ensures same { SameSolver self.old self.new }
        ensures same_input { self.new.input ≡ self.old.input }
    {
        self.failed = true;
        let found = find_core(&mut self.search, &self.input, &mut self.log, budget, guide)?;
        if self.log.has_failed() {
            return Err(AllocError);
        }
        self.failed = false;
        Ok(found)
    }
}

impl<W: Write + Drop> CutsSolver<W> {
    ghost use Rattle.cuts_solver.specs.Solving.{IsAssumed, IsSolverEnd, PaysLines, SameSolver};

    /// Searches, led by the guide, until it has an answer, the guide stops it, or the budget is
    /// spent. Where the empty clause was added, it answers that at once.
    ///
    /// # Errors
    ///
    /// `AllocError` where the solver has failed, or fails now: memory was refused, or a write has
    /// failed.
    pub fn search<G: Guide, V: SearchWatch>(
        &mut self,
        guide: &mut G,
        budget: &mut Budget,
        watch: &mut V,
    ) -> Result<SolverEnd, AllocError>
        ensures end { IfOk result (IsSolverEnd self.new budget.new) }
        ensures pays { PaysLines self.old self.new budget.old budget.new }
        ensures same { SameSolver self.old self.new }
        ensures waives { WaivesAs budget.old budget.new (V.waived watch.old) (V.waived watch.new) }
        ensures same_seen { V.seen watch.new ≡ V.seen watch.old }
        ensures follows { (first : G) → G.follows first guide.old → G.follows first guide.new }
    {
        if !self.is_open()? {
            return Ok(SolverEnd::Refuted);
        }
        let end = self.search_on(guide, budget, watch)?;
        match end {
            GuidedEnd::Satisfied => {
                let bits = self.solution()?;
                Ok(SolverEnd::Satisfied(bits))
            }
            GuidedEnd::Refuted => Ok(SolverEnd::Refuted),
            GuidedEnd::Stopped => Ok(SolverEnd::Stopped),
            GuidedEnd::Spent => Ok(SolverEnd::Spent),
        }
    }

    /// Searches under assumptions, as `search` does. Where it stops at an assumption that is false,
    /// it answers which of them cannot hold together; the clause that says so costs a unit, unless
    /// it is there.
    ///
    /// # Errors
    ///
    /// Those of `search`.
    pub fn assume<V: SearchWatch>(
        &mut self,
        guide: &mut Assumptions,
        budget: &mut Budget,
        watch: &mut V,
    ) -> Result<Assumed, AllocError>
        ensures assumed { IfOk result (IsAssumed self.new guide.old budget.new) }
        ensures pays { PaysLines self.old self.new budget.old budget.new }
        ensures same { SameSolver self.old self.new }
        ensures waives { WaivesAs budget.old budget.new (V.waived watch.old) (V.waived watch.new) }
        ensures same_seen { V.seen watch.new ≡ V.seen watch.old }
        ensures same_lits { guide.new ≡ guide.old }
    {
        if !self.is_open()? {
            return Ok(Assumed::Refuted);
        }
        let end = self.search_on(guide, budget, watch)?;
        match end {
            GuidedEnd::Satisfied => {
                let bits = self.solution()?;
                Ok(Assumed::Satisfied(bits))
            }
            GuidedEnd::Refuted => Ok(Assumed::Refuted),
            GuidedEnd::Stopped => {
                let found = self.core(guide, budget)?;
                match found {
                    Some(core) => Ok(Assumed::Core(core)),
                    None => Ok(Assumed::Stopped),
                }
            }
            GuidedEnd::Spent => Ok(Assumed::Spent),
        }
    }
}
