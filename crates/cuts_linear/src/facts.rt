// The rows of a relaxation with the facts that they are, and the cost in whole numbers.
//
// A fact is how many literals of its row are true, less the number that it needs: of a clause it
// needs 1, of a count its inputs and the negations of its outputs need as many as outputs, and of a
// group the negations of its literals need all but one.
use crate::tables::add;
use cnf::types::Lit;
use forms::types::NamedFact;
use lp::rows::Rows;
use std::alloc::{AllocError, Global};

/// What a relaxation is of: clauses, counts and groups, and what literals cost.
#[derive(Drop)]
pub struct Facts {
    // A row for each fact.
    rows: Rows,
    // By row, how a form line names it once; the number is 0 where none may.
    names: Vec<NamedFact>,
    // By variable, from 0, which none has: what it costs where it is true.
    costs: Vec<i128>,
    // What is paid where no variable is true.
    constant: i128,
}

impl Facts {
    /// No facts, and a cost of 0.
    pub fn new(alloc: Global) -> Self {
        Facts {
            rows: Rows::new(alloc),
            names: Vec::new(alloc),
            costs: Vec::new(alloc),
            constant: 0,
        }
    }

    /// The literal costs `weight` more where it is true.
    ///
    /// # Errors
    ///
    /// `AllocError` where memory was refused.
    pub fn add_cost(&mut self, lit: Lit, weight: u64) -> Result<(), AllocError> {
        self.rows.add_cost(lit, weight)?;
        let variable = lit.variable() as usize;
        if self.costs.len() <= variable {
            self.costs.resize(variable + 1, 0)?;
        }
        let weight = weight as i128;
        if lit.is_negated() {
            self.constant = self.constant.saturating_add(weight);
            add(&mut self.costs, variable, -weight);
        } else {
            add(&mut self.costs, variable, weight);
        }
        Ok(())
    }

    /// The clause with this id is a fact. The answer is the number of its row.
    ///
    /// # Errors
    ///
    /// `AllocError` where memory was refused, or there is no room for more rows.
    pub fn add_clause(&mut self, id: u64, lits: &[Lit]) -> Result<u32, AllocError> {
        self.add_row(lits, 1, id, false)
    }

    /// The count with this number is a fact, with the outputs that it has. The answer is the number
    /// of its row; once it gets more outputs, that one is put to sleep, and it is added again.
    ///
    /// # Errors
    ///
    /// `AllocError` where memory was refused, or there is no room for more rows.
    pub fn add_count(
        &mut self,
        alloc: Global,
        number: u64,
        inputs: &[Lit],
        outputs: &[Lit],
    ) -> Result<u32, AllocError> {
        let needed = u32::try_from(outputs.len()).map_err(|_| AllocError)?;
        let mut lits = Vec::new(alloc);
        lits.extend_from_slice(inputs)?;
        push_negations(&mut lits, outputs)?;
        self.add_row(&lits, needed, number, true)
    }

    /// A group is a fact once it has a number; no form names it before. The answer is the number of
    /// its row.
    ///
    /// # Errors
    ///
    /// `AllocError` where memory was refused, or there is no room for more rows.
    pub fn add_group(&mut self, alloc: Global, group: &[Lit]) -> Result<u32, AllocError> {
        let needed = u32::try_from(group.len()).map_err(|_| AllocError)?;
        let mut lits = Vec::new(alloc);
        push_negations(&mut lits, group)?;
        self.add_row(&lits, needed.saturating_sub(1), 0, true)
    }

    /// The group of this row gets its number.
    pub fn number_group(&mut self, row: u32, number: u64) {
        if let Some(name) = self.names.get_mut(row as usize) {
            name.number = number;
        }
    }

    /// The fact of this row takes part in relaxations that are opened from now on, or does not.
    pub fn set_asleep(&mut self, row: u32, is_asleep: bool) {
        self.rows.set_asleep(row, is_asleep);
    }

    /// The rows.
    pub fn rows(&self) -> &Rows {
        &self.rows
    }

    /// `weight` times the fact of a row; none where that has no number, or there is no such row.
    pub(crate) fn named(&self, row: u32, weight: u64) -> Option<NamedFact> {
        let name = self.names.get(row as usize)?;
        if name.number == 0 {
            return None;
        }
        Some(NamedFact {
            weight,
            is_numbered: name.is_numbered,
            number: name.number,
        })
    }

    /// By variable, from 0, which none has: what it costs where it is true.
    pub(crate) fn costs(&self) -> &[i128] {
        &self.costs
    }

    /// What is paid where no variable is true.
    pub(crate) fn constant(&self) -> i128 {
        self.constant
    }

    // One more row, under the name of its fact.
    fn add_row(
        &mut self,
        lits: &[Lit],
        needed: u32,
        number: u64,
        is_numbered: bool,
    ) -> Result<u32, AllocError> {
        self.names.reserve(1)?;
        let row = self.rows.add(lits, needed, number)?;
        self.names.push(NamedFact {
            weight: 1,
            is_numbered,
            number,
        })?;
        Ok(row)
    }
}

/// Adds the negation of each of these literals.
fn push_negations(lits: &mut Vec<Lit>, others: &[Lit]) -> Result<(), AllocError> {
    for lit in others {
        lits.push(lit.negation())?;
    }
    Ok(())
}
