// The value that a decision tries first: the one that the variable had last (phase saving; Handbook
// of Satisfiability, chapter on conflict-driven clause learning). From time to time all of them go
// back to the values of the best solution (rephasing), which is the last one: a search for cheaper
// solutions mostly finds the next one near it.
ghost use Rattle.std.specs.Prelude.{◌≡◌, ◌<◌, ◌≤◌, length, IfOk};
ghost use Rattle.cdcl_order.specs.Phases.{first_phases, phase_of, with_value, solved, restarted};
ghost use Rattle.cdcl_order.specs.Phases.{suggested, with_first, values_under};
ghost use Rattle.cdcl_order.specs.Restarts.{one_more};

use cnf::types::Lit;
use std::alloc::{AllocError, Global};
use std::marker::Model;

/// The saved phases: the values to try first.
#[derive(Drop)]
pub(crate) struct Phases {
    // By variable, that of 1 first: the value that it had last; at first false.
    last: Vec<bool>,
    // By variable: its value in the best solution; at first false.
    best: Vec<bool>,
    // Whether there was a solution.
    is_solved: bool,
    // How many conflicts came since a restart last took the values back, up to 2^64 - 1.
    conflicts: u64,
    // The conflicts after which a restart takes them back again: from `WAIT` up to 2^64 - 1.
    wait: u64,
}

impl Model for Phases {
    ghost use Rattle.std.specs.Prelude.{◌≡◌, length};
    ghost use Rattle.cdcl_order.specs.Phases.{PhasesState};

    ghost Value = { PhasesState };

    ghost view = { λ p. record {
      last = p.last.items;
      best = p.best.items;
      is_solved = p.is_solved;
      conflicts = p.conflicts;
      wait = p.wait;
    } };

    ghost invariant = { λ p. length p.best.items ≡ length p.last.items };
}

/// The conflicts after which a restart first takes the values back; each further wait is longer
/// than the one before by as many.
const WAIT: u64 = 1000;

impl Phases {
    /// All values are false.
    ///
    /// # Errors
    ///
    /// `AllocError` where memory was refused.
    pub(crate) fn new(alloc: Global, variables: u32) -> Result<Self, AllocError>
        ensures { IfOk result (λ p. p ≡ first_phases variables) }
    {
        let last = Vec::from_elem(alloc, false, variables as usize)?;
        let best = Vec::from_elem(alloc, false, variables as usize)?;
        Ok(Phases {
            last,
            best,
            is_solved: false,
            conflicts: 0,
            wait: WAIT,
        })
    }

    /// The value to try first.
    pub(crate) fn value(&self, variable: u32) -> bool
        requires { (0 < variable) × (variable ≤ length self.now.last) }
        ensures { result ≡ phase_of self.now variable }
    {
        self.last[(variable - 1) as usize]
    }

    /// Keeps the value under which the literal was true.
    pub(crate) fn save(&mut self, lit: Lit)
        requires { (0 < lit.variable) × (lit.variable ≤ length self.old.last) }
        ensures { self.new ≡ record self.old { last = with_value self.old.last lit } }
    {
        self.last[(lit.variable() - 1) as usize] = !lit.is_negated();
    }

    /// Takes these values over, by variable from 1. Variables without one keep theirs, and values
    /// of no variable are ignored.
    pub(crate) fn suggest(&mut self, values: &[bool])
        ensures suggested { self.new ≡ suggested self.old values.now }
        ensures long { length self.new.last ≡ length self.old.last }
    {
        set_first(&mut self.last, values);
    }

    /// Keeps the values under which these literals are true as those of the best solution.
    pub(crate) fn keep_solution(&mut self, trail: &[Lit])
        ensures solved { self.new ≡ solved self.old trail.now }
        ensures long { length self.new.last ≡ length self.old.last }
    {
        set_values(&mut self.last, trail);
        self.best.copy_from_slice(&self.last);
        self.is_solved = true;
    }

    /// Counts a conflict.
    pub(crate) fn count(&mut self)
        ensures { self.new ≡ record self.old { conflicts = one_more self.old.conflicts } }
    {
        self.conflicts = self.conflicts.saturating_add(1);
    }

    /// The search has restarted.
    pub(crate) fn restart(&mut self)
        ensures restarted { self.new ≡ restarted self.old }
        ensures long { length self.new.last ≡ length self.old.last }
    {
        if self.is_solved && self.conflicts >= self.wait {
            self.last.copy_from_slice(&self.best);
            self.conflicts = 0;
            self.wait = self.wait.saturating_add(WAIT);
        }
    }
}

/// Puts the values in under which these literals are true. Those of other variables are ignored.
fn set_values(values: &mut [bool], trail: &[Lit])
    ensures values { values.new ≡ values_under values.old trail.now }
    ensures long { length values.new ≡ length values.old }
{
    for lit in trail {
        let variable = lit.variable();
        if variable > 0 && variable as usize <= values.len() {
            values[(variable - 1) as usize] = !lit.is_negated();
        }
    }
}

/// Puts these values in front, as many of them as there is room for.
fn set_first(values: &mut [bool], first: &[bool])
    ensures values { values.new ≡ with_first values.old first.now }
    ensures long { length values.new ≡ length values.old }
{
    let count = first.len().min(values.len());
    values[..count].copy_from_slice(&first[..count]);
}
