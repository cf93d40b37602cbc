// The columns of a network, one after the other. A column is a queue: a vector and the index of
// its front, so that nothing is ever moved.
ghost use Rattle.std.specs.Prelude.{◌≡◌, ◌+◌, ◌<◌, ◌≤◌, ◌∷◌, [], ◌++◌, IfOk, OnOk};
ghost use Rattle.cnf.specs.declared.limits.TheConstants.{FORMULA_VARIABLE_LIMIT};
ghost use Rattle.cnf.specs.Literal.{positive};
ghost use Rattle.adder.specs.Parts.{literals_with, column_from, AddsColumn};

use crate::cells::Cell;
use crate::relaxations::Relaxation;
use cnf::fresh::Fresh;
use cnf::types::Lit;
use std::alloc::{AllocError, Global};

/// The cells so far, and what goes on into the next column.
#[derive(Drop)]
pub(crate) struct Adder {
    /// In the order in which they were taken.
    pub cells: Vec<Cell>,
    /// What the last column has carried into the next one.
    pub carries: Vec<Lit>,
    /// The next new variable.
    pub fresh: Fresh,
}

impl Adder {
    /// No cells, and new variables from `fresh` on.
    pub fn new(alloc: Global, fresh: Fresh) -> Self
        ensures cells { result.cells.items ≡ [] }
        ensures carries { result.carries.items ≡ [] }
        ensures fresh { result.fresh ≡ fresh }
    {
        Adder {
            cells: Vec::new(alloc),
            carries: Vec::new(alloc),
            fresh,
        }
    }

    /// Takes a cell of these inputs and two new variables, and answers its sum.
    fn add(&mut self, a: Lit, b: Lit, third: Option<Lit>) -> Result<Lit, AllocError>
        requires { self.old.fresh < FORMULA_VARIABLE_LIMIT }
        ensures sum { IfOk result (λ s. s ≡ positive self.old.fresh) }
        ensures cells { OnOk result (self.new.cells.items
            ≡ self.old.cells.items
            ++ record {
              a = a;
              b = b;
              third = third;
              sum = self.old.fresh;
              carry = self.old.fresh + 1;
            } ∷ []) }
        ensures carries { OnOk result (self.new.carries.items
            ≡ self.old.carries.items ++ positive (self.old.fresh + 1) ∷ []) }
        ensures fresh { OnOk result (self.new.fresh ≡ self.old.fresh + 2) }
    {
        let sum = self.fresh.get();
        let carry = sum + 1;
        self.cells.push(Cell {
            a,
            b,
            third,
            sum,
            carry,
        })?;
        self.carries.push(Lit::new(carry, false))?;
        self.fresh = self.fresh.after(2);
        Ok(Lit::new(sum, false))
    }

    /// Adds up a column, and answers its output: the literal that is left.
    pub fn add_up(&mut self, column: &mut Vec<Lit>) -> Result<Option<Lit>, AllocError>
        requires { (column_from self.old.fresh column.old.items).fresh
            ≤ FORMULA_VARIABLE_LIMIT }
        ensures { IfOk result
            (AddsColumn self.old self.new self.old.carries.items column.old.items) }
    {
        let mut front = 0;
        loop {
            let (sum, taken) = match &column[front..] {
                [] => return Ok(None),
                [last] => return Ok(Some(*last)),
                [a, b] => (self.add(*a, *b, None)?, 2),
                [a, b, third, ..] => (self.add(*a, *b, Some(*third))?, 3),
            };
            column.push(sum)?;
            front += taken;
        }
    }

    /// Adds up a column with what the last one has carried into it, and answers its output.
    pub fn add_column(&mut self, column: &mut Vec<Lit>) -> Result<Option<Lit>, AllocError>
        requires { (column_from self.old.fresh
            (column.old.items ++ self.old.carries.items)).fresh ≤ FORMULA_VARIABLE_LIMIT }
        ensures { IfOk result
            (AddsColumn self.old self.new [] (column.old.items ++ self.old.carries.items)) }
    {
        column.extend_from_slice(&self.carries)?;
        self.carries.clear();
        self.add_up(column)
    }
}

/// Puts into a column the relaxation literals of the weights with bit `j`.
pub(crate) fn push_bit(
    column: &mut Vec<Lit>,
    relaxations: &[Relaxation],
    j: u32,
) -> Result<(), AllocError>
    requires { j < 64 }
    ensures { OnOk result (column.new.items ≡ column.old.items ++ literals_with j relaxations.now) }
{
    for relaxation in relaxations {
        if (relaxation.weight >> j) % 2 == 1 {
            column.push(relaxation.lit)?;
        }
    }
    Ok(())
}
