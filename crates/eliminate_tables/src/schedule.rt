// Where work may be worthwhile: how often each literal occurs, and which variables have clauses
// that changed. Nothing that is proved of a formula rests on it.
ghost use Rattle.std.specs.Prelude.{◌≡◌, ◌*◌, false, [], fold, replicate, IfOk};
ghost use Rattle.eliminate_tables.specs.Schedule.{entered, first_of, left, touched};
ghost use Rattle.eliminate_tables.specs.Schedule.{count_of, with_count, without_first};

use cnf::types::Lit;
use std::alloc::{AllocError, Global};
use std::collections::VecDeque;
use std::marker::Model;

/// Counts of occurrences, and a queue of the variables whose clauses changed since they were tried.
#[derive(Drop)]
pub struct Schedule {
    // By literal, in how many live clauses it occurs.
    counts: Vec<u32>,
    // By variable, whether it stands in the queue.
    is_queued: Vec<bool>,
    // Variables, each from 1, in the order in which they were touched.
    queue: VecDeque<u32>,
}

impl Model for Schedule {
    ghost use Rattle.eliminate_tables.specs.Schedule.{ScheduleState};

    ghost Value = { ScheduleState };

    ghost view = { λ s. record {
      counts = s.counts.items;
      queued = s.is_queued.items;
      waiting = s.queue.items;
    } };
}

impl Schedule {
    /// No occurrences, for the variables from 1 to `vars`.
    pub fn new(alloc: Global, vars: u32) -> Result<Self, AllocError>
        ensures { IfOk result (λ s. s ≡ record {
          counts = replicate (2 * vars) 0;
          queued = replicate vars false;
          waiting = [];
        }) }
    {
        Ok(Schedule {
            counts: Vec::from_elem(alloc, 0, 2 * vars as usize)?,
            is_queued: Vec::from_elem(alloc, false, vars as usize)?,
            queue: VecDeque::new(alloc),
        })
    }

    /// How many live clauses have the literal.
    pub fn count(&self, lit: Lit) -> u32
        ensures { result ≡ count_of self.now lit }
    {
        match self.counts.get(lit.index()) {
            Some(count) => *count,
            None => 0,
        }
    }

    /// By literal, how many live clauses have it.
    pub fn counts(&self) -> &[u32]
        ensures { result.now ≡ self.now.counts }
    {
        &self.counts
    }

    /// A clause was added.
    pub fn enter(&mut self, lits: &[Lit]) -> Result<(), AllocError>
        ensures { IfOk result (λ _. self.new ≡ fold entered self.old lits.now) }
    {
        for lit in lits {
            self.set_count(*lit, self.count(*lit).saturating_add(1));
            self.touch(*lit)?;
        }
        Ok(())
    }

    /// A clause is deleted.
    pub fn leave(&mut self, lits: &[Lit]) -> Result<(), AllocError>
        ensures { IfOk result (λ _. self.new ≡ fold left self.old lits.now) }
    {
        for lit in lits {
            self.set_count(*lit, self.count(*lit).saturating_sub(1));
            self.touch(*lit)?;
        }
        Ok(())
    }

    /// Writes the count of a literal.
    fn set_count(&mut self, lit: Lit, count: u32)
        ensures { self.new ≡ with_count self.old lit count }
    {
        if lit.index() < self.counts.len() {
            self.counts[lit.index()] = count;
        }
    }

    /// The variable of the literal is to be tried.
    fn touch(&mut self, lit: Lit) -> Result<(), AllocError>
        ensures { IfOk result (λ _. self.new ≡ touched self.old lit) }
    {
        let place = lit.variable() as usize - 1;
        if place < self.is_queued.len() && !self.is_queued[place] {
            self.is_queued[place] = true;
            self.queue.push_back(lit.variable())?;
        }
        Ok(())
    }

    /// The next variable to be tried.
    pub fn pop(&mut self) -> Option<u32>
        ensures first { result ≡ first_of self.old.waiting }
        ensures rest { self.new ≡ without_first self.old self.old.waiting }
    {
        let variable = self.queue.pop_front()?;
        let place = (variable as usize).saturating_sub(1);
        if place < self.is_queued.len() {
            self.is_queued[place] = false;
        }
        Some(variable)
    }
}
