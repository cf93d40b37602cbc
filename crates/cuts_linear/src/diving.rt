// A dive: literals are decided as the point of a relaxation has them, the clearest first, and what
// is open is solved again after a part of them. A few conflicts end it (as diving heuristics do:
// Berthold, "Primal heuristics for mixed integer programs", 2006).
ghost use Rattle.std.specs.Prelude.{⊤};

use crate::node::{Node, Trailed};
use cdcl_search::guide::{Advice, Guide};
use cdcl_search::search::Search;
use cnf::limits::VARIABLE_LIMIT;
use cnf::types::Lit;
use lp::limits::Limits;
use lp::values::Values;
use std::alloc::{AllocError, Global};
use std::num::saturating_f64_to_u64;

/// About how often a relaxation is solved in a dive.
const TIMES: usize = 8;

/// The iterations each time that a relaxation is solved in a dive.
const ITERATIONS: u32 = 60;

/// No bound passes this.
const NO_TARGET: f64 = 1e300;

/// How clear a value is in steps: a half is at 0, and 0 and 1 are at half of this.
const STEPS: f64 = 1e6;

/// Leads a search down along the point of a relaxation.
#[derive(Drop)]
pub struct DiveGuide<'n> {
    // What is open at the present node.
    node: &'n mut Node,
    // Whether cost counts.
    has_cost: bool,
    // The variables that were open when it was solved last, the clearest first.
    order: Vec<u32>,
    // Those before this place have values.
    place: usize,
    // How many more literals are true when it is solved again.
    period: usize,
    // It is solved again once more literals than this are true.
    next: usize,
    // How many conflicts may still come.
    conflicts: u64,
    // How many coefficients may still be visited.
    left: u64,
}

impl<'n> DiveGuide<'n> {
    /// A dive from the point of a node that was solved, which ends after `conflicts` conflicts, and
    /// visits about `share` coefficients.
    ///
    /// # Errors
    ///
    /// `AllocError` where memory was refused.
    pub fn new(
        alloc: Global,
        node: &'n mut Node,
        has_cost: bool,
        conflicts: u64,
        share: u64,
    ) -> Result<Self, AllocError> {
        let period = (node.relaxation.columns() / TIMES).max(1);
        let mut guide = DiveGuide {
            node,
            has_cost,
            order: Vec::new(alloc),
            place: 0,
            period,
            next: usize::MAX,
            conflicts,
            left: share,
        };
        guide.sort()?;
        Ok(guide)
    }

    // Puts what is open in order.
    fn sort(&mut self) -> Result<(), AllocError> {
        self.place = 0;
        sort_clear(&mut self.order, &*self.node)
    }

    // Solves what is open, where it is time for that.
    fn look(&mut self, search: &Search) -> Result<(), AllocError> {
        let assigned = search.engine.assigned();
        if self.next == usize::MAX {
            self.next = assigned.saturating_add(self.period);
        }
        if assigned <= self.next {
            return Ok(());
        }
        let limits = Limits {
            most: ITERATIONS,
            least: ITERATIONS,
            target: NO_TARGET,
            may_stop: false,
        };
        let relaxed = self
            .node
            .solve(&Trailed { search }, self.has_cost, &limits)?;
        self.left = self.left.saturating_sub(relaxed.visited.saturating_add(1));
        self.next = assigned.saturating_add(self.period);
        self.sort()
    }

    // The literal to be decided: the clearest one without a value.
    fn choose(&mut self, search: &Search) -> Option<Lit> {
        let values = Trailed { search };
        for _ in self.place..self.order.len() {
            let variable = *self.order.get(self.place)?;
            if variable == 0 || variable >= VARIABLE_LIMIT {
                return None;
            }
            let lit = Lit::new(variable, self.node.point.value(variable) < 0.5);
            if values.value(lit).is_none() {
                return Some(lit);
            }
            self.place = self.place.saturating_add(1);
        }
        None
    }
}

/// The variables that are open at a node, the clearest first.
fn sort_clear(order: &mut Vec<u32>, node: &Node) -> Result<(), AllocError> {
    order.clear();
    for column in 0..node.relaxation.columns() {
        match node.relaxation.variable(column) {
            Some(variable) => order.push(variable)?,
            None => {}
        }
    }
    order.sort_by_key(|variable| {
        let clear = (node.point.value(*variable) - 0.5).abs();
        u64::MAX.saturating_sub(saturating_f64_to_u64(clear * STEPS))
    })
}

impl<'n> Guide for DiveGuide<'n> {
    ghost follows = { λ _ _. ⊤ };

    fn advise(&mut self, search: &Search) -> Result<Advice, AllocError> {
        if self.conflicts == 0 || self.left == 0 {
            return Ok(Advice::Stop);
        }
        self.look(search)?;
        match self.choose(search) {
            Some(lit) => Ok(Advice::Decide(lit)),
            None => Ok(Advice::Free),
        }
    }

    fn went_back(&mut self, _assigned: usize) {
        self.place = 0;
    }

    fn learned(&mut self) {
        self.conflicts = self.conflicts.saturating_sub(1);
    }

    fn kept_levels(&self) -> usize {
        usize::MAX
    }
}
