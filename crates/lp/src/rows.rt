// The rows of a relaxation, and the cost over their variables.
use crate::tables::at_or;
use cnf::types::Lit;
use std::alloc::{AllocError, Global};
use std::num::nearest_u64_to_f64;

/// A row: where its literals stand, and what is asked of them.
#[derive(Clone, Copy, Drop)]
pub(crate) struct RowHead {
    // The place of its first literal among those of all rows.
    start: u32,
    // The number of its literals.
    length: u32,
    // How many of them are true, at least.
    pub(crate) needed: u32,
    // Whether it takes part in no relaxation now.
    pub(crate) is_asleep: bool,
    // Who made it.
    maker: u64,
}

/// Rows, each of which says how many of its literals are true at least, and the cost: a number for
/// each variable that is true, and a constant. A clause is a row that needs one; a literal that
/// stands twice counts twice.
#[derive(Drop)]
pub struct Rows {
    // The literals of all rows, row after row; fewer than 2^32.
    lits: Vec<Lit>,
    // By number, from 0.
    heads: Vec<RowHead>,
    // The variables that stand in rows or in the cost, each once, as positive literals.
    variables: Vec<Lit>,
    // What they cost where they are true, in their order; finite.
    costs: Vec<f64>,
    // By variable, from 0, which none has: one more than its place in `variables`, or 0.
    places: Vec<u32>,
    // What is paid where no variable is true.
    constant: f64,
}

impl Rows {
    /// No rows, and a cost of 0.
    pub fn new(alloc: Global) -> Self {
        Rows {
            lits: Vec::new(alloc),
            heads: Vec::new(alloc),
            variables: Vec::new(alloc),
            costs: Vec::new(alloc),
            places: Vec::new(alloc),
            constant: 0.0,
        }
    }

    /// One more row: at least `needed` of these literals are true. `maker` is a number that says to
    /// the caller where it is from. The answer is its number: rows are counted from 0.
    ///
    /// # Errors
    ///
    /// `AllocError` where memory was refused, or the rows would have 2^32 literals. The rows are
    /// then as they were.
    pub fn add(&mut self, lits: &[Lit], needed: u32, maker: u64) -> Result<u32, AllocError> {
        for lit in lits {
            self.place(*lit)?;
        }
        let number = u32::try_from(self.heads.len()).map_err(|_| AllocError)?;
        let start = u32::try_from(self.lits.len()).map_err(|_| AllocError)?;
        let length = u32::try_from(lits.len()).map_err(|_| AllocError)?;
        start.checked_add(length).ok_or(AllocError)?;
        self.heads.reserve(1)?;
        self.lits.extend_from_slice(lits)?;
        self.heads.push(RowHead {
            start,
            length,
            needed,
            is_asleep: false,
            maker,
        })?;
        Ok(number)
    }

    /// The literal costs `weight` more where it is true.
    ///
    /// # Errors
    ///
    /// `AllocError` where memory was refused; the cost is then as it was.
    pub fn add_cost(&mut self, lit: Lit, weight: u64) -> Result<(), AllocError> {
        let place = self.place(lit)?;
        let weight = nearest_u64_to_f64(weight);
        if let Some(cost) = self.costs.get_mut(place) {
            if lit.is_negated() {
                self.constant += weight;
                *cost -= weight;
            } else {
                *cost += weight;
            }
        }
        Ok(())
    }

    /// How many rows there are.
    pub fn len(&self) -> usize {
        self.heads.len()
    }

    /// The literals of a row; none where there is no such row.
    pub fn lits(&self, number: u32) -> &[Lit] {
        match self.heads.get(number as usize) {
            Some(head) => self.lits_of(*head),
            None => &[],
        }
    }

    /// How many literals of a row are true, at least.
    pub fn needed(&self, number: u32) -> u32 {
        match self.heads.get(number as usize) {
            Some(head) => head.needed,
            None => 0,
        }
    }

    /// Who made a row; none where there is no such row.
    pub fn maker(&self, number: u32) -> Option<u64> {
        Some(self.heads.get(number as usize)?.maker)
    }

    /// A row is of another maker from now on.
    pub fn set_maker(&mut self, number: u32, maker: u64) {
        if let Some(head) = self.heads.get_mut(number as usize) {
            head.maker = maker;
        }
    }

    /// Whether a row takes part in no relaxation now.
    pub fn is_asleep(&self, number: u32) -> bool {
        match self.heads.get(number as usize) {
            Some(head) => head.is_asleep,
            None => true,
        }
    }

    /// A row takes part in no relaxation that is opened from now on, or does so again.
    pub fn set_asleep(&mut self, number: u32, is_asleep: bool) {
        if let Some(head) = self.heads.get_mut(number as usize) {
            head.is_asleep = is_asleep;
        }
    }

    /// The literals of all rows together.
    pub fn coefficients(&self) -> usize {
        self.lits.len()
    }

    /// The rows, by number.
    pub(crate) fn heads(&self) -> &[RowHead] {
        &self.heads
    }

    /// The literals of a row.
    pub(crate) fn lits_of(&self, head: RowHead) -> &[Lit] {
        let start = head.start as usize;
        let end = start + head.length as usize;
        self.lits.get(start..end).unwrap_or(&[])
    }

    /// The variables that stand in rows or in the cost, as positive literals.
    pub(crate) fn variables(&self) -> &[Lit] {
        &self.variables
    }

    /// What they cost where they are true, in their order.
    pub(crate) fn costs(&self) -> &[f64] {
        &self.costs
    }

    /// What is paid where no variable is true.
    pub(crate) fn constant(&self) -> f64 {
        self.constant
    }

    /// One more than the greatest variable; 0 where there is none.
    pub(crate) fn width(&self) -> usize {
        self.places.len()
    }

    // The place of the literal's variable among the variables; it gets one if it has none.
    fn place(&mut self, lit: Lit) -> Result<usize, AllocError> {
        let variable = lit.variable() as usize;
        if self.places.len() <= variable {
            self.places.resize(variable + 1, 0)?;
        }
        let known = at_or(&self.places, variable, 0);
        if known > 0 {
            return Ok(known as usize - 1);
        }
        let place = self.variables.len();
        let next = u32::try_from(place).map_err(|_| AllocError)?;
        self.costs.resize(place, 0.0)?;
        self.variables.reserve(1)?;
        self.costs.push(0.0)?;
        self.variables.push(Lit::new(lit.variable(), false))?;
        if let Some(slot) = self.places.get_mut(variable) {
            *slot = next.saturating_add(1);
        }
        Ok(place)
    }
}
