// The clauses of a cell, which say that its carry and its sum count the true ones of its inputs.
ghost use Rattle.std.specs.Prelude.{◌<◌, All, OnOk};
ghost use Rattle.std.specs.List.{flat_map};
ghost use Rattle.cnf.specs.Literal.{positive};
ghost use Rattle.bound.specs.Bound.{cell_clauses, full_clauses, half_clauses};
ghost use Rattle.bound.specs.Adding.{Adds, HasVariables};

use crate::kept_clauses::keep_short;
use adder::cells::Cell;
use cnf::clause_list::ClauseList;
use cnf::types::Lit;
use std::alloc::AllocError;

/// Adds the clauses of the cells.
pub(crate) fn keep_cells(clauses: &mut ClauseList, cells: &[Cell]) -> Result<(), AllocError>
    requires { All HasVariables cells.now }
    ensures { OnOk result (Adds clauses.old clauses.new (flat_map cell_clauses cells.now)) }
{
    for cell in cells {
        keep_cell(clauses, *cell)?;
    }
    Ok(())
}

/// Adds the clauses of the cell.
pub(crate) fn keep_cell(clauses: &mut ClauseList, cell: Cell) -> Result<(), AllocError>
    requires { HasVariables cell }
    ensures { OnOk result (Adds clauses.old clauses.new (cell_clauses cell)) }
{
    match cell.third {
        None => keep_half(clauses, cell),
        Some(third) => keep_full(clauses, cell, third),
    }
}

/// The cell as a full adder, with this third input `d`: for each choice of the inputs the sum `s`,
/// and for each two of them the carry `c`.
fn keep_full(clauses: &mut ClauseList, cell: Cell, d: Lit) -> Result<(), AllocError>
    requires { HasVariables cell }
    ensures { OnOk result (Adds clauses.old clauses.new
        (full_clauses cell.a cell.b d (positive cell.sum) (positive cell.carry))) }
{
    let Cell { a, b, .. } = cell;
    let s = Lit::new(cell.sum, false);
    let c = Lit::new(cell.carry, false);
    let na = a.negation();
    let nb = b.negation();
    let nd = d.negation();
    let ns = s.negation();
    let nc = c.negation();
    keep_rows(
        clauses,
        &[
            [a, b, d, ns],
            [a, b, nd, s],
            [a, nb, d, s],
            [a, nb, nd, ns],
            [na, b, d, s],
            [na, b, nd, ns],
            [na, nb, d, ns],
            [na, nb, nd, s],
        ],
    )?;
    keep_rows(
        clauses,
        &[
            [a, b, nc],
            [a, d, nc],
            [b, d, nc],
            [na, nb, c],
            [na, nd, c],
            [nb, nd, c],
        ],
    )
}

/// The cell as a half adder.
fn keep_half(clauses: &mut ClauseList, cell: Cell) -> Result<(), AllocError>
    requires { HasVariables cell }
    ensures { OnOk result (Adds clauses.old clauses.new
        (half_clauses cell.a cell.b (positive cell.sum) (positive cell.carry))) }
{
    let Cell { a, b, .. } = cell;
    let s = Lit::new(cell.sum, false);
    let c = Lit::new(cell.carry, false);
    let na = a.negation();
    let nb = b.negation();
    let ns = s.negation();
    let nc = c.negation();
    keep_rows(clauses, &[[a, b, ns], [a, nb, s], [na, b, s], [na, nb, ns]])?;
    keep_rows(clauses, &[[a, nc], [b, nc]])?;
    keep_rows(clauses, &[[na, nb, c]])
}

/// Adds clauses that have equally many literals.
fn keep_rows<const N: usize>(clauses: &mut ClauseList, rows: &[[Lit; N]]) -> Result<(), AllocError>
    ensures { OnOk result (Adds clauses.old clauses.new rows.now) }
{
    for row in rows {
        keep_short(clauses, row)?;
    }
    Ok(())
}
