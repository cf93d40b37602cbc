//! Lower bounds by cores, stratified and weight-aware, with counts that grow. It is OLL (Andres,
//! Kaufmann, Matheis and Schaub, "Unsatisfiability-based optimization in clasp", 2012), as for soft
//! cardinality constraints (Morgado, Dodaro and Marques-Silva, "Core-Guided MaxSAT with Soft
//! Cardinality Constraints", 2014).
//!
//! In a stratum all relaxation literals and outputs with a rest of at least the threshold are
//! assumed false (stratification: Ansótegui, Bonet and Levy, "Improving SAT-Based Weighted MaxSAT
//! Solvers", 2012). A core takes the least rest of its literals; where one of them is the last
//! output of a count, that gets the next one. What is too dear to be true in anything cheaper than
//! the best solution is fixed by a cut under the form of the cores (hardening, of the same paper).
//!
//! One search of a stratum finds many cores: it passes over each assumption that is false where
//! those before it hold, and what explains it is a core. They are shortened and taken one after the
//! other, as long as all their literals have a rest. Made disjoint beforehand they were worth less.
ghost use Rattle.std.specs.Prelude.{◌≡◌};

mod settling;

use crate::counting::Counting;
use crate::desk::{Desk, DeskFault, Trial};
use crate::items::Items;
use crate::ordering::least_common_first;
use crate::resuming::resume_cores;
use crate::shortening::{Shortened, negations, shorten};
use crate::tables::at;
use adder::relaxations::Relaxation;
use cdcl_search::assumptions::{Assumptions, Passed, Share};
use cnf::clause_list::ClauseList;
use cnf::types::Lit;
use forms::types::NamedFact;
use std::alloc::{AllocError, Global};

/// About how many literals there are for each assumption in what explains the assumptions that are
/// passed over in one search.
const PASSED: usize = 4;

/// How a turn of a part of the search goes on.
#[derive(Clone, Copy, Debug, PartialEq, Eq, Drop)]
pub enum Course {
    /// There is more to do in this turn.
    GoesOn,
    /// Its share is spent, or it knows nothing more to do.
    Over,
    /// Nothing is cheaper than the best solution, or nothing is left of the budget.
    Ended,
}

/// The search for cores.
#[derive(Drop)]
pub struct Cores {
    // What may be assumed false.
    items: Items,
    // The cores so far, and their form.
    counting: Counting,
    // The least rest of what is assumed false, from 1; 0 before the first stratum.
    threshold: u64,
    // What the cores are worth together, from 0: no solution costs less, but perhaps where a count
    // that was there when the search began was none of a core.
    lower: u64,
    // Whether no further core is looked for.
    is_over: bool,
}

/// A list of one clause, the negations of these literals.
fn list_negated(alloc: Global, lits: &[Lit]) -> Result<ClauseList, AllocError> {
    let mut list = ClauseList::new(alloc);
    list.push(&negations(alloc, lits)?)?;
    Ok(list)
}

impl Cores {
    /// The cores of the counts that the desk has; none where the log is new. `weights` are the
    /// literals that cost something, with what they cost.
    ///
    /// # Errors
    ///
    /// `AllocError` where memory was refused.
    pub fn new<D: Desk>(desk: &D, weights: &[Relaxation]) -> Result<Self, AllocError> {
        let alloc = desk.allocator();
        let mut items = Items::new(alloc, weights, desk.last())?;
        let mut counting = Counting::new(alloc, desk.proved());
        let paid = items.pay_both();
        let worth = resume_cores(alloc, desk.forms(), &mut items, &mut counting)?;
        Ok(Cores {
            items,
            counting,
            threshold: 0,
            lower: paid.saturating_add(worth),
            is_over: false,
        })
    }

    /// What the cores are worth together.
    pub fn lower(&self) -> u64
        ensures { result ≡ self.now.lower }
    {
        self.lower
    }

    /// The facts of the cores' form.
    pub fn facts(&self) -> &[NamedFact]
        ensures { result.now ≡ self.now.counting.citing.facts.items }
    {
        self.counting.citing.facts()
    }

    /// The greatest bound that was told, by lines before the search, too; 0 before the first one.
    pub fn told(&self) -> u64
        ensures { result ≡ self.now.counting.citing.told }
    {
        self.counting.citing.told()
    }

    /// Looks for cores until about `share` literals were assigned.
    pub fn turn<D: Desk>(&mut self, desk: &mut D, share: u64) -> Result<Course, DeskFault>
        ensures follows { (first : D) → D.follows first desk.old → D.follows first desk.new }
    {
        let end = desk.propagations().saturating_add(share);
        for _ in 0..u64::MAX {
            match self.step(desk, end)? {
                Course::GoesOn => {}
                Course::Over => return self.leave(desk),
                Course::Ended => return Ok(Course::Ended),
            }
        }
        Ok(Course::Over)
    }

    /// Ends a turn: what waits comes, and the bound is told.
    fn leave<D: Desk>(&mut self, desk: &mut D) -> Result<Course, DeskFault>
        ensures follows { (first : D) → D.follows first desk.old → D.follows first desk.new }
    {
        self.flush(desk)?;
        self.counting.release(&mut self.items)?;
        if self.settle(desk)? {
            return Ok(Course::Ended);
        }
        self.counting.citing.cite_cores(desk)?;
        self.counting.citing.tell_bound(desk)?;
        Ok(Course::Over)
    }

    /// Says what the present form is worth, where that is more than what was said.
    pub fn tell_bound<D: Desk>(&mut self, desk: &mut D) -> Result<(), DeskFault>
        ensures follows { (first : D) → D.follows first desk.old → D.follows first desk.new }
    {
        if desk.is_refuted() {
            return Ok(());
        }
        self.counting.citing.tell_bound(desk)
    }

    /// Says in the course of a turn what the cores are worth, where it is time for that. Cores that
    /// wait get their counts, and only what is new comes to the form.
    fn tell_in_time<D: Desk>(&mut self, desk: &mut D) -> Result<(), DeskFault>
        ensures follows { (first : D) → D.follows first desk.old → D.follows first desk.new }
    {
        if !self.counting.citing.is_due(desk, self.lower) {
            return Ok(());
        }
        self.flush(desk)?;
        self.cite_cores(desk)?;
        self.tell_bound(desk)
    }

    /// The form of the cores becomes the present one; answers whether it has.
    pub fn cite_cores<D: Desk>(&mut self, desk: &mut D) -> Result<bool, DeskFault>
        ensures follows { (first : D) → D.follows first desk.old → D.follows first desk.new }
    {
        self.counting.citing.cite_cores(desk)
    }

    /// `scale` times the cost, less these facts, becomes the present form; answers whether it has.
    pub fn cite_other<D: Desk>(
        &mut self,
        desk: &mut D,
        scale: u64,
        facts: &[NamedFact],
    ) -> Result<bool, DeskFault>
        ensures follows { (first : D) → D.follows first desk.old → D.follows first desk.new }
    {
        self.counting.citing.cite_other(desk, scale, facts)
    }

    /// The present form comes to say what the solution costs that the search has ended at, by more
    /// outputs or as the cost itself; answers whether it has changed.
    pub fn mend_form<D: Desk>(&mut self, desk: &mut D) -> Result<bool, DeskFault>
        ensures follows { (first : D) → D.follows first desk.old → D.follows first desk.new }
    {
        if self.counting.grow_for_solution(desk, &mut self.items)? {
            self.is_over = false;
            return Ok(true);
        }
        self.counting.citing.cite_cost(desk)
    }

    /// One search of the stratum, and what follows from it. The turn is over once there were more
    /// propagations than `until`.
    fn step<D: Desk>(&mut self, desk: &mut D, until: u64) -> Result<Course, DeskFault>
        ensures follows { (first : D) → D.follows first desk.old → D.follows first desk.new }
    {
        if self.settle(desk)? {
            return Ok(Course::Ended);
        }
        let is_spent = desk.propagations() >= until;
        if self.is_over || is_spent || (self.threshold == 0 && !self.next_stratum()) {
            return Ok(Course::Over);
        }
        self.tell_in_time(desk)?;
        let alloc = desk.allocator();
        let assumed = self.assumed(desk)?;
        let room = assumed.len().saturating_mul(PASSED);
        let share = Share {
            learned: u64::MAX,
            decisions: u64::MAX,
            until,
        };
        let start = desk.learned();
        let mut guide = Assumptions::new(alloc, assumed, share, Passed::new(alloc, room));
        let trial = desk.assume(&mut guide);
        let course = self.follow(desk, trial, guide.passed(), start);
        // By a call: that is proved once, and not field by field here.
        drop(guide);
        course
    }

    /// What follows from a search of the stratum: `passed` are the cores that it went past, and
    /// `start` clauses were learned before it.
    fn follow<D: Desk>(
        &mut self,
        desk: &mut D,
        trial: Result<Trial, DeskFault>,
        passed: &Passed,
        start: u64,
    ) -> Result<Course, DeskFault>
        ensures follows { (first : D) → D.follows first desk.old → D.follows first desk.new }
    {
        match trial? {
            Trial::Refuted | Trial::Spent => Ok(Course::Ended),
            Trial::Met => self.after_solution(desk),
            Trial::Core(lits) => {
                let one = list_negated(desk.allocator(), &lits)?;
                self.take_all(desk, &one, start)
            }
            Trial::Stopped => self.take_all(desk, &passed.clauses, start),
        }
    }

    /// Literals without a value that cost more than this.
    fn dearer_than<D: Desk>(&self, desk: &D, gap: u64) -> Result<Vec<Lit>, AllocError> {
        let mut dear = Vec::new(desk.allocator());
        for lit in self.items.list() {
            if self.items.rest(*lit) > gap && desk.fixed(*lit).is_none() {
                dear.push(*lit)?;
            }
        }
        Ok(dear)
    }

    /// What the stratum assumes: the negations of what is dear, the dearest first.
    fn assumed<D: Desk>(&self, desk: &D) -> Result<Vec<Lit>, AllocError> {
        let mut dear = self.dearer_than(desk, self.threshold.saturating_sub(1))?;
        let items = &self.items;
        dear.sort_by_key(|lit| u64::MAX.saturating_sub(items.rest(*lit)))?;
        negations(desk.allocator(), &dear)
    }

    /// The next lower threshold; false where there is none.
    fn next_stratum(&mut self) -> bool {
        let mut top: u64 = 0;
        for lit in self.items.list() {
            let rest = self.items.rest(*lit);
            if rest > top && (self.threshold == 0 || rest < self.threshold) {
                top = rest;
            }
        }
        if top == 0 {
            return false;
        }
        let next = if self.threshold == 0 {
            top / 2
        } else {
            top.min((top / 2).saturating_add(1))
        };
        self.threshold = next.max(1);
        true
    }

    /// A solution under all assumptions of the stratum: what waits comes, or the threshold falls.
    /// Where all that costs something was assumed, and the solution costs more than the cores are
    /// worth, the counts lack outputs.
    fn after_solution<D: Desk>(&mut self, desk: &mut D) -> Result<Course, DeskFault>
        ensures follows { (first : D) → D.follows first desk.old → D.follows first desk.new }
    {
        if self.counting.waits() {
            self.flush(desk)?;
            self.counting.release(&mut self.items)?;
            return Ok(Course::GoesOn);
        }
        if self.next_stratum() || self.lower >= desk.cost() {
            return Ok(Course::GoesOn);
        }
        if self.counting.grow_for_solution(desk, &mut self.items)? {
            self.counting.release(&mut self.items)?;
        } else {
            self.is_over = true;
        }
        Ok(Course::GoesOn)
    }

    /// Takes the cores one after the other, those that have the least in common with the others
    /// first, as long as all their literals have a rest. The turn is over where nothing came of
    /// them, and no more than `start` clauses were learned.
    fn take_all<D: Desk>(
        &mut self,
        desk: &mut D,
        cores: &ClauseList,
        start: u64,
    ) -> Result<Course, DeskFault>
        ensures follows { (first : D) → D.follows first desk.old → D.follows first desk.new }
    {
        let mut is_idle = true;
        let order = least_common_first(desk.allocator(), cores, desk.last())?;
        for core in &order {
            match self.take_shorter(desk, core)? {
                Some(is_open) => is_idle = is_idle && is_open,
                None => return Ok(Course::Ended),
            }
        }
        if is_idle && desk.learned() == start {
            return Ok(Course::Over);
        }
        Ok(Course::GoesOn)
    }

    /// Shortens a core and takes it, where all its literals have a rest; answers whether it stays
    /// open, and nothing where the search has ended.
    fn take_shorter<D: Desk>(
        &mut self,
        desk: &mut D,
        core: &[Lit],
    ) -> Result<Option<bool>, DeskFault>
        ensures follows { (first : D) → D.follows first desk.old → D.follows first desk.new }
    {
        if !self.is_open(desk, core) {
            return Ok(Some(false));
        }
        match shorten(desk, &mut self.items, core)? {
            Shortened::Ended => Ok(None),
            Shortened::Open => Ok(Some(true)),
            Shortened::Core(lits) => {
                self.take(desk, lits)?;
                self.tell_in_time(desk)?;
                Ok(Some(false))
            }
        }
    }

    /// Whether all literals of a core have a rest, and none has a value.
    fn is_open<D: Desk>(&self, desk: &D, core: &[Lit]) -> bool {
        for lit in core {
            if self.items.rest(*lit) == 0 || desk.fixed(*lit).is_some() {
                return false;
            }
        }
        true
    }

    /// Takes the weight of a core from its literals. A core of one literal has fixed it, so it is
    /// paid as such.
    fn take<D: Desk>(&mut self, desk: &mut D, lits: Vec<Lit>) -> Result<(), DeskFault>
        ensures follows { (first : D) → D.follows first desk.old → D.follows first desk.new }
    {
        let weight = self.items.least_rest(&lits);
        if weight == 0 || lits.len() < 2 {
            return Ok(());
        }
        self.lower = self.lower.saturating_add(weight);
        self.charge(desk, &lits, weight)?;
        self.counting.add(lits, weight)?;
        Ok(())
    }

    /// Takes the weight from each literal. Where one is the last output of a count, that gets one
    /// more.
    fn charge<D: Desk>(&mut self, desk: &mut D, lits: &[Lit], weight: u64) -> Result<(), DeskFault>
        ensures follows { (first : D) → D.follows first desk.old → D.follows first desk.new }
    {
        for place in 0..lits.len() {
            let lit = at(lits, place);
            self.items.charge(lit, weight);
            self.counting.grow_after(desk, &mut self.items, lit)?;
        }
        Ok(())
    }

    /// Makes the counts that wait. Cores for which there is no room are worth nothing to the form.
    fn flush<D: Desk>(&mut self, desk: &mut D) -> Result<(), DeskFault>
        ensures follows { (first : D) → D.follows first desk.old → D.follows first desk.new }
    {
        let lost = self.counting.flush(desk, &mut self.items)?;
        if lost > 0 {
            self.lower = self.lower.saturating_sub(lost);
            self.is_over = true;
        }
        Ok(())
    }
}
