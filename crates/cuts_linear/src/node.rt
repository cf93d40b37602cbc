// A relaxation of what some values leave open, and where it was left.
use crate::facts::Facts;
use cdcl_search::search::Search;
use cnf::types::Lit;
use lp::limits::{Limits, Relaxed};
use lp::point::Point;
use lp::relaxation::Relaxation;
use lp::values::Values;
use std::alloc::{AllocError, Global};

/// Values of literals in a search.
#[derive(Drop)]
pub(crate) struct Trailed<'a> {
    /// The search.
    pub(crate) search: &'a Search,
}

impl<'a> Values for Trailed<'a> {
    fn value(&self, lit: Lit) -> Option<bool> {
        if lit.variable() > self.search.engine.variables() {
            return None;
        }
        self.search.engine.value(lit)
    }
}

/// A relaxation with its facts, from node to node of a search.
#[derive(Drop)]
pub struct Node {
    /// What the relaxation is of.
    pub facts: Facts,
    /// What was open of it at the last node.
    pub relaxation: Relaxation,
    /// Where it was left.
    pub point: Point,
}

impl Node {
    /// Nothing was solved yet.
    pub fn new(alloc: Global, facts: Facts) -> Self {
        Node {
            facts,
            relaxation: Relaxation::new(alloc),
            point: Point::new(alloc),
        }
    }

    /// Solves what these values leave open, with the cost, or without. That all rows are opened for
    /// it counts as visits, too.
    ///
    /// # Errors
    ///
    /// `AllocError` where memory was refused.
    pub fn solve<V: Values>(
        &mut self,
        values: &V,
        has_cost: bool,
        limits: &Limits,
    ) -> Result<Relaxed, AllocError> {
        let rows = self.facts.rows();
        self.relaxation.open(rows, values, has_cost)?;
        let mut relaxed = self.relaxation.solve(&mut self.point, limits)?;
        let opened = rows.coefficients() as u64;
        relaxed.visited = relaxed.visited.saturating_add(opened.saturating_mul(2));
        Ok(relaxed)
    }
}
