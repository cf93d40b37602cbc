// A finished network. Only this crate makes one, so that its cells and outputs belong together.
ghost use Rattle.std.specs.Prelude.{◌≡◌};

use crate::cells::Cell;
use cnf::types::Lit;
use std::alloc::Global;
use std::marker::Model;

/// A network has fewer cells than this, so that a formula's clauses stay few.
pub const CELL_LIMIT: usize = 1 << 24;

/// Cells that add up the weights of the soft clauses whose relaxation literals are true.
#[derive(Drop)]
pub struct Network {
    // In the order in which they were made: each after those whose carry or sum it adds.
    cells: Vec<Cell>,
    // By power of two, from 2^0: the literal that is worth it; none where no sum reaches it.
    outputs: Vec<Option<Lit>>,
}

impl Model for Network {
    ghost use Rattle.adder.specs.Network.{Adders};

    ghost Value = { Adders };

    ghost view = { λ n. record { cells = n.cells.items; outputs = n.outputs.items } };
}

impl Network {
    /// A network of these cells, with these outputs.
    pub(crate) fn new(cells: Vec<Cell>, outputs: Vec<Option<Lit>>) -> Self
        ensures { result ≡ record { cells = cells.items; outputs = outputs.items } }
    {
        Network { cells, outputs }
    }

    /// The cells, in the order in which they were made. Each has for its sum and its carry the next
    /// two variables after those of the instance, of the relaxation and of the cells before it.
    pub fn cells(&self) -> &[Cell]
        ensures { result.now ≡ self.now.cells }
    {
        &self.cells
    }

    /// For each binary digit of the total weight, from the lowest on, the literal that is true
    /// where the weight added up has that digit. A digit without one is always 0.
    pub fn outputs(&self) -> &[Option<Lit>]
        ensures { result.now ≡ self.now.outputs }
    {
        &self.outputs
    }

    /// Where the cells are allocated.
    pub fn allocator(&self) -> Global {
        *self.cells.allocator()
    }
}
