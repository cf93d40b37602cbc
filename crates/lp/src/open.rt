// What the present values leave open of the rows, in flat vectors: what a relaxation is solved
// over.
//
// A coefficient is 1 or -1, and is kept in four bytes: twice the column of its variable, and one
// more for -1. It is a place in tables that have two numbers for each column.
ghost use Rattle.std.specs.Prelude.{◌≡◌, ◌+◌, ◌*◌, ◌<◌, ◌≤◌, All, vec_len};

use crate::rows::{RowHead, Rows};
use crate::tables::{at_or, set, to_zero};
use crate::values::Values;
use cnf::types::Lit;
use std::alloc::{AllocError, Global};

/// A variable that is open.
#[derive(Clone, Copy, Drop)]
pub(crate) struct OpenColumn {
    // From 1.
    pub(crate) variable: u32,
    // What it costs where it is true; finite.
    pub(crate) cost: f64,
}

/// A row that is open: the sum of its coefficients, each times its variable, is at least `bound`.
#[derive(Clone, Copy, Drop)]
pub(crate) struct OpenRow {
    // The place of its first coefficient among those of all rows.
    pub(crate) start: u32,
    // The number of its coefficients.
    pub(crate) length: u32,
    // The row's number among all rows.
    pub(crate) number: u32,
    // What it needs, less its negated literals.
    pub(crate) bound: f64,
}

/// Lengths of costs and bounds, and the least bound.
#[derive(Clone, Copy, Drop)]
pub(crate) struct Norms {
    // The length of the vector of costs.
    pub(crate) costs: f64,
    // The length of the vector of bounds.
    pub(crate) bounds: f64,
    // The bound of multipliers that are 0; finite.
    pub(crate) least: f64,
}

/// Columns, rows and coefficients.
#[derive(Drop)]
pub(crate) struct Open {
    // The variables without a value.
    pub(crate) columns: Vec<OpenColumn>,
    // The rows that do not hold as yet.
    pub(crate) rows: Vec<OpenRow>,
    // The coefficients of all rows, row after row.
    pub(crate) places: Vec<u32>,
    // How many of them are those of `rows`; what follows is a row that is being made.
    done: usize,
    // By variable, the place of the coefficient 1; only those of open variables count.
    found: Vec<u32>,
    // What is paid already.
    pub(crate) constant: f64,
    ghost known: { All (λ p. p < 2 * vec_len columns) places.items },
    ghost placed: { All (λ r. r.start + r.length ≤ done) rows.items },
    ghost within: { done ≤ vec_len places },
}

impl Open {
    /// Nothing is open.
    pub(crate) fn new(alloc: Global) -> Self
        ensures columns { vec_len result.columns ≡ 0 }
        ensures rows { vec_len result.rows ≡ 0 }
    {
        Open {
            columns: Vec::new(alloc),
            rows: Vec::new(alloc),
            places: Vec::new(alloc),
            done: 0,
            found: Vec::new(alloc),
            constant: 0.0,
        }
    }

    /// Nothing is open any more.
    pub(crate) fn clear(&mut self)
        ensures columns { vec_len self.new.columns ≡ 0 }
        ensures rows { vec_len self.new.rows ≡ 0 }
    {
        self.done = 0;
        self.rows.clear();
        self.places.clear();
        self.columns.clear();
        self.constant = 0.0;
    }

    /// What these values leave open, with the cost or without. Where memory is refused, a part.
    pub(crate) fn fill<V: Values>(
        &mut self,
        rows: &Rows,
        values: &V,
        with_cost: bool,
    ) -> Result<(), AllocError> {
        self.clear();
        self.found.resize(rows.width(), 0)?;
        if with_cost {
            self.constant = rows.constant();
        }
        for (lit, cost) in rows.variables().iter().zip(rows.costs()) {
            let cost = if with_cost { *cost } else { 0.0 };
            match values.value(*lit) {
                Some(true) => self.constant += cost,
                Some(false) => {}
                None => self.add_column(*lit, cost)?,
            }
        }
        for (place, head) in rows.heads().iter().enumerate() {
            if !head.is_asleep {
                self.add_row(rows, place, *head, values)?;
            }
        }
        Ok(())
    }

    /// Lengths of costs and bounds, and the least bound.
    pub(crate) fn norms(&self) -> Norms {
        let mut costs = 0.0;
        let mut bounds = 0.0;
        let mut least = self.constant;
        for column in &self.columns {
            costs += column.cost * column.cost;
            least += to_zero(column.cost);
        }
        for row in &self.rows {
            bounds += row.bound * row.bound;
        }
        Norms {
            costs: costs.sqrt(),
            bounds: bounds.sqrt(),
            least,
        }
    }

    // One more variable is open.
    fn add_column(&mut self, lit: Lit, cost: f64) -> Result<(), AllocError> {
        let place = self.columns.len().saturating_mul(2);
        let place = u32::try_from(place).map_err(|_| AllocError)?;
        set(&mut self.found, lit.variable() as usize, place);
        self.columns.push(OpenColumn {
            variable: lit.variable(),
            cost,
        })?;
        Ok(())
    }

    // One more row is open, unless it holds by values.
    fn add_row<V: Values>(
        &mut self,
        rows: &Rows,
        number: usize,
        head: RowHead,
        values: &V,
    ) -> Result<(), AllocError> {
        let mut needed = head.needed;
        let mut negated: u32 = 0;
        for lit in rows.lits_of(head) {
            match values.value(*lit) {
                Some(true) => needed = needed.saturating_sub(1),
                Some(false) => {}
                None => {
                    self.add_coefficient(*lit)?;
                    negated = negated.saturating_add(u32::from(lit.is_negated()));
                }
            }
            if needed == 0 {
                break;
            }
        }
        if needed == 0 {
            self.places.truncate(self.done);
            return Ok(());
        }
        self.end_row(number, f64::from(needed) - f64::from(negated))
    }

    // One more coefficient of the row that is being made.
    fn add_coefficient(&mut self, lit: Lit) -> Result<(), AllocError> {
        let first = at_or(&self.found, lit.variable() as usize, u32::MAX);
        let place = first.saturating_add(u32::from(lit.is_negated()));
        if ((place / 2) as usize) < self.columns.len() {
            self.places.push(place)?;
        }
        Ok(())
    }

    // The row that is being made is whole.
    fn end_row(&mut self, number: usize, bound: f64) -> Result<(), AllocError> {
        let end = self.places.len();
        let number = u32::try_from(number).map_err(|_| AllocError)?;
        let start = u32::try_from(self.done).map_err(|_| AllocError)?;
        let length = u32::try_from(end - self.done).map_err(|_| AllocError)?;
        self.rows.reserve(1)?;
        self.done = end;
        self.rows.push(OpenRow {
            start,
            length,
            number,
            bound,
        })?;
        Ok(())
    }
}
