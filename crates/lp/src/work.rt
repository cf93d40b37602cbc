// What is kept of each column and row while a relaxation is solved.
ghost use Rattle.std.specs.Prelude.{◌≡◌, ◌*◌, ◌≤◌, OnOk, vec_len};

use crate::steps::{Column, Row};
use std::alloc::{AllocError, Global};

/// Columns, rows and the tables between them, which have two places for each column: one for its
/// coefficients 1, and one for its coefficients -1.
#[derive(Drop)]
pub(crate) struct Work {
    // As many as are open.
    pub(crate) columns: Vec<Column>,
    // As many as are open.
    pub(crate) rows: Vec<Row>,
    // What rows see of the columns: a value, and its negative.
    pub(crate) seen: Vec<f64>,
    // The sums of the multipliers of the rows where the column has this coefficient.
    pub(crate) pull: Vec<f64>,
    // The same for the multipliers that are measured.
    pub(crate) trial_pull: Vec<f64>,
    ghost sees: { 2 * vec_len columns ≤ vec_len seen },
    ghost pulls: { 2 * vec_len columns ≤ vec_len pull },
    ghost tries: { 2 * vec_len columns ≤ vec_len trial_pull },
}

impl Work {
    /// For nothing that is open.
    pub(crate) fn new(alloc: Global) -> Self
        ensures columns { vec_len result.columns ≡ 0 }
        ensures rows { vec_len result.rows ≡ 0 }
    {
        Work {
            columns: Vec::new(alloc),
            rows: Vec::new(alloc),
            seen: Vec::new(alloc),
            pull: Vec::new(alloc),
            trial_pull: Vec::new(alloc),
        }
    }

    /// For nothing that is open any more.
    pub(crate) fn clear(&mut self)
        ensures columns { vec_len self.new.columns ≡ 0 }
        ensures rows { vec_len self.new.rows ≡ 0 }
    {
        self.columns.clear();
        self.rows.clear();
    }

    /// For `columns` columns and `rows` rows, whose numbers are those of nothing.
    pub(crate) fn fit(&mut self, columns: usize, rows: usize) -> Result<(), AllocError>
        ensures columns { OnOk result (vec_len self.new.columns ≡ columns) }
        ensures rows { OnOk result (vec_len self.new.rows ≡ rows) }
    {
        let places = columns.checked_mul(2).ok_or(AllocError)?;
        self.clear();
        self.seen.resize(places, 0.0)?;
        self.pull.resize(places, 0.0)?;
        self.trial_pull.resize(places, 0.0)?;
        self.rows.resize(rows, Row::NONE)?;
        self.columns.resize(columns, Column::NONE)?;
        Ok(())
    }
}
