// The steps of the method, each once over all columns or rows: here a relaxation spends its time.
//
// A row reads `seen` at its places, and writes `pull` at the same ones. Both tables have a place
// for each coefficient that a column may have, 1 and -1, so a coefficient is four bytes, and
// nothing is multiplied: two instructions a coefficient where a row reads, and four where it
// writes. What else is kept of a column or row lies side by side, since each step goes over it in
// order. That each place is there is proved once, where a row is opened, so none is tested here; a
// test costs a quarter of the time and more.
//
// The same method in C (gcc -O2), with a column and a sign in floats for each coefficient and a
// vector for each number, makes the same iterations to the same bound. Beside it this takes 1.07 of
// the instructions on set cover 60 1 (3.9 coefficients a row), 1.22 on vertex cover 60 1 (2) and
// 1.21 on roster 10 1 (2.7): LLVM unrolls the loops over a row, which is no gain where rows are
// that short (2026-11-29, `bench/relaxation`).
ghost use Rattle.std.specs.Prelude.{◌≡◌, ◌+◌, ◌*◌, ◌<◌, ◌≤◌, All, length, vec_len};

use crate::measured::Measured;
use crate::open::Open;
use crate::tables::{between, from_zero, to_zero};

/// How long a step is.
#[derive(Clone, Copy, Drop)]
pub(crate) struct Pace {
    // How long steps of multipliers are beside those of values; above 0.
    pub(crate) scale: f64,
    // 1 / `scale`.
    pub(crate) inverse: f64,
    // How much of the new point is the step, from 0 to 1.
    pub(crate) weight: f64,
    // How much of it is the anchor: 1 - `weight`.
    pub(crate) rest: f64,
}

/// What is kept of a variable.
#[derive(Clone, Copy, Drop)]
pub(crate) struct Column {
    // What it costs.
    pub(crate) cost: f64,
    // How long its steps are: 1 / the number of its coefficients.
    pub(crate) step: f64,
    // Where it is.
    pub(crate) now: f64,
    // Where it was at the last restart: it is drawn there, less and less.
    pub(crate) anchor: f64,
    // Where its last step has ended: from 0 to 1.
    pub(crate) trial: f64,
}

impl Column {
    /// Nothing.
    pub(crate) const NONE: Column = Column {
        cost: 0.0,
        step: 1.0,
        now: 0.0,
        anchor: 0.0,
        trial: 0.0,
    };

    /// A step, where rows pull by `pull`: answers what they see of it.
    #[inline]
    fn advance(&mut self, pull: f64, pace: &Pace) -> f64 {
        let target = self.now - self.step * pace.inverse * (self.cost - pull);
        self.trial = between(target, 0.0, 1.0);
        let seen = 2.0 * self.trial - self.now;
        self.now = pace.weight * seen + pace.rest * self.anchor;
        seen
    }
}

/// What is kept of a row.
#[derive(Clone, Copy, Drop)]
pub(crate) struct Row {
    // How long its steps are: 1 / the number of its coefficients.
    pub(crate) step: f64,
    // Where its multiplier is.
    pub(crate) now: f64,
    // Where it was at the last restart.
    pub(crate) anchor: f64,
    // Where its last step has ended: from 0.
    pub(crate) trial: f64,
    // Its multiplier with the best bound.
    pub(crate) best: f64,
}

impl Row {
    /// Nothing.
    pub(crate) const NONE: Row = Row {
        step: 1.0,
        now: 0.0,
        anchor: 0.0,
        trial: 0.0,
        best: 0.0,
    };

    /// A step of a row that lacks `lack`: answers where its multiplier is.
    #[inline]
    fn advance(&mut self, lack: f64, pace: &Pace) -> f64 {
        self.trial = from_zero(self.now + self.step * pace.scale * lack);
        self.now = pace.weight * (2.0 * self.trial - self.now) + pace.rest * self.anchor;
        self.now
    }
}

/// The sum of what stands at these places.
#[inline]
pub(crate) fn sum_at(table: &[f64], places: &[u32]) -> f64
    requires { All (λ p. p < length table.now) places.now }
{
    let mut sum = 0.0;
    for place in places {
        sum += table[*place as usize];
    }
    sum
}

/// Adds a number at each of these places.
#[inline]
pub(crate) fn add_at(table: &mut [f64], places: &[u32], number: f64)
    requires { All (λ p. p < length table.old) places.now }
{
    for place in places {
        table[*place as usize] += number;
    }
}

/// A step of each column. What pulled it is forgotten, so that rows may pull anew.
pub(crate) fn step_columns(columns: &mut [Column], seen: &mut [f64], pull: &mut [f64], pace: &Pace)
    requires seen { 2 * length columns.old ≤ length seen.old }
    requires pull { 2 * length columns.old ≤ length pull.old }
{
    for place in 0..columns.len() {
        let (plus, minus) = (2 * place, 2 * place + 1);
        let value = columns[place].advance(pull[plus] - pull[minus], pace);
        seen[plus] = value;
        seen[minus] = -value;
        pull[plus] = 0.0;
        pull[minus] = 0.0;
    }
}

/// A step of each row, which sees the columns as they are in `seen`, and pulls them.
pub(crate) fn step_rows(left: &Open, rows: &mut [Row], seen: &[f64], pull: &mut [f64], pace: &Pace)
    requires rows { length rows.old ≡ vec_len left.now.rows }
    requires seen { 2 * vec_len left.now.columns ≤ length seen.now }
    requires pull { 2 * vec_len left.now.columns ≤ length pull.old }
{
    for place in 0..rows.len() {
        let row = left.rows[place];
        let start = row.start as usize;
        let places = &left.places[start..start + row.length as usize];
        let lack = row.bound - sum_at(seen, places);
        let now = rows[place].advance(lack, pace);
        if now != 0.0 {
            add_at(pull, places, now);
        }
    }
}

/// What the last steps of the rows are worth, where `seen` has the last steps of the columns.
pub(crate) fn measure_rows(left: &Open, rows: &[Row], seen: &[f64], pull: &mut [f64]) -> Measured
    requires rows { length rows.now ≡ vec_len left.now.rows }
    requires seen { 2 * vec_len left.now.columns ≤ length seen.now }
    requires pull { 2 * vec_len left.now.columns ≤ length pull.old }
{
    let mut measured = Measured::of_constant(left.constant);
    for place in 0..rows.len() {
        let row = left.rows[place];
        let start = row.start as usize;
        let places = &left.places[start..start + row.length as usize];
        let lack = row.bound - sum_at(seen, places);
        let trial = rows[place].trial;
        measured.add_row(row.bound, lack, trial);
        if trial != 0.0 {
            add_at(pull, places, trial);
        }
    }
    measured
}

/// The least that columns add to the cost, where rows pull them by `pull`.
pub(crate) fn measure_columns(columns: &[Column], pull: &[f64], measured: &mut Measured)
    requires { 2 * length columns.now ≤ length pull.now }
{
    for place in 0..columns.len() {
        let column = columns[place];
        let reduced = column.cost - (pull[2 * place] - pull[2 * place + 1]);
        measured.bound += to_zero(reduced);
        measured.cost += column.cost * column.trial;
    }
}

/// Rows see where the last steps of the columns have ended.
pub(crate) fn show_trials(columns: &[Column], seen: &mut [f64])
    requires { 2 * length columns.now ≤ length seen.old }
{
    for place in 0..columns.len() {
        let trial = columns[place].trial;
        seen[2 * place] = trial;
        seen[2 * place + 1] = -trial;
    }
}
