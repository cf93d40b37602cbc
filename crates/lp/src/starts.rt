// How the method begins and ends, and what it is moved to in between.
ghost use Rattle.std.specs.Prelude.{◌≡◌, ◌+◌, ◌*◌, ◌≤◌, length, vec_len};

use crate::open::Open;
use crate::point::Point;
use crate::steps::{Column, Row, add_at};
use crate::tables::fill;
use std::alloc::AllocError;

/// The sums of the multipliers of the point, in a table of two places for each column.
pub(crate) fn pull_by(left: &Open, pull: &mut [f64], point: &Point)
    requires { 2 * vec_len left.now.columns ≤ length pull.old }
{
    fill(pull, 0.0);
    for row in &left.rows {
        let start = row.start as usize;
        let places = &left.places[start..start + row.length as usize];
        add_at(pull, places, point.multiplier(row.number));
    }
}

/// What each column costs, less what pulls it.
pub(crate) fn reduce(left: &Open, pull: &[f64], reduced: &mut Vec<f64>) -> Result<(), AllocError>
    requires { 2 * vec_len left.now.columns ≤ length pull.now }
{
    reduced.clear();
    for place in 0..left.columns.len() {
        let pulled = pull[2 * place] - pull[2 * place + 1];
        reduced.push(left.columns[place].cost - pulled)?;
    }
    Ok(())
}

/// Rows are where the point has them. Counts by the way how often each place stands in rows.
pub(crate) fn start_rows(left: &Open, rows: &mut [Row], counts: &mut [f64], point: &Point)
    requires rows { length rows.old ≡ vec_len left.now.rows }
    requires counts { 2 * vec_len left.now.columns ≤ length counts.old }
{
    fill(counts, 0.0);
    for place in 0..rows.len() {
        let row = left.rows[place];
        let start = row.start as usize;
        add_at(
            counts,
            &left.places[start..start + row.length as usize],
            1.0,
        );
        let multiplier = point.multiplier(row.number);
        rows[place] = Row {
            step: 1.0 / f64::from(row.length.max(1)),
            now: multiplier,
            anchor: multiplier,
            trial: multiplier,
            best: multiplier,
        };
    }
}

/// Columns are where the point has them.
pub(crate) fn start_columns(left: &Open, columns: &mut [Column], counts: &[f64], point: &Point)
    requires columns { length columns.old ≡ vec_len left.now.columns }
    requires counts { 2 * length columns.old ≤ length counts.now }
{
    for place in 0..columns.len() {
        let column = left.columns[place];
        let value = point.value(column.variable);
        let count = counts[2 * place] + counts[2 * place + 1];
        columns[place] = Column {
            cost: column.cost,
            step: 1.0 / count.max(1.0),
            now: value,
            anchor: value,
            trial: value,
        };
    }
}

/// Multipliers are 0.
pub(crate) fn forget_rows(rows: &mut [Row]) {
    for row in rows.iter_mut() {
        row.trial = 0.0;
        row.best = 0.0;
    }
}

/// The multipliers where the last steps have ended are the best.
pub(crate) fn keep_rows(rows: &mut [Row]) {
    for row in rows.iter_mut() {
        row.best = row.trial;
    }
}

/// Values begin anew from where the last steps have ended. Answers the square of how far that is
/// from where they began before.
pub(crate) fn restart_columns(columns: &mut [Column]) -> f64 {
    let mut square = 0.0;
    for column in columns.iter_mut() {
        let way = column.trial - column.anchor;
        square += way * way;
        column.now = column.trial;
        column.anchor = column.trial;
    }
    square
}

/// The same of multipliers.
pub(crate) fn restart_rows(rows: &mut [Row]) -> f64 {
    let mut square = 0.0;
    for row in rows.iter_mut() {
        let way = row.trial - row.anchor;
        square += way * way;
        row.now = row.trial;
        row.anchor = row.trial;
    }
    square
}

/// One table as another one.
pub(crate) fn copy_to(table: &mut [f64], other: &[f64]) {
    for (slot, value) in table.iter_mut().zip(other) {
        *slot = *value;
    }
}
