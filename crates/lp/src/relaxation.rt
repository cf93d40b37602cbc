// A relaxation that is solved: restarted Halpern primal-dual hybrid gradient.
//
// Each iteration goes a step down with the values, along the costs less what the rows pull, and
// then a step up with the multipliers, along what the rows lack of the values' mirror image
// (Chambolle and Pock, "A first-order primal-dual algorithm for convex problems with applications
// to imaging", 2011). A column or row with few coefficients takes longer steps (Pock and Chambolle,
// "Diagonal preconditioning for first order primal-dual algorithms in convex optimization", 2011).
// The new point is the mirrored end of the step, drawn to where the run began with a weight of
// 1 / (k + 2) in its k-th iteration, from 0 (Halpern's iteration), and it begins anew once the
// error has fallen enough (Lu and Yang, "Restarted Halpern PDHG for linear programming", 2024).
// When it does so, and how long steps of multipliers are beside those of values, is as in PDLP
// (Applegate et al., "Practical large-scale linear programming using primal-dual hybrid gradient",
// 2021).
//
// Any multipliers give a bound: the sum of the bounds of the rows, each times its multiplier, and
// of the reduced costs that are below 0. So a run may end after any iteration, and a node of a
// search takes a few, from the point of the node before. It needs two passes over the coefficients
// an iteration, no factors of a matrix, and no memory but vectors.
ghost use Rattle.std.specs.Prelude.{◌≡◌, vec_len};

use crate::limits::{Limits, Relaxed};
use crate::measured::Measured;
use crate::open::Open;
use crate::point::Point;
use crate::rows::Rows;
use crate::run::Run;
use crate::starts::{
    copy_to, forget_rows, keep_rows, pull_by, reduce, restart_columns, restart_rows, start_columns,
    start_rows,
};
use crate::steps::{Pace, measure_columns, measure_rows, show_trials, step_columns, step_rows};
use crate::tables::fill;
use crate::values::Values;
use crate::work::Work;
use std::alloc::{AllocError, Global};

/// The iterations between two looks at the bound: a look costs as much as an iteration.
const LOOK: u32 = 10;

/// The relaxation of what some values leave open.
#[derive(Drop)]
pub struct Relaxation {
    // What is open.
    left: Open,
    // What is kept of it while it is solved.
    work: Work,
    // The reduced costs that were asked for last.
    reduced: Vec<f64>,
    ghost columns: { vec_len work.columns ≡ vec_len left.columns },
    ghost rows: { vec_len work.rows ≡ vec_len left.rows },
}

impl Relaxation {
    /// Nothing is open.
    pub fn new(alloc: Global) -> Self {
        Relaxation {
            left: Open::new(alloc),
            work: Work::new(alloc),
            reduced: Vec::new(alloc),
        }
    }

    /// Takes what these values leave open of the rows that are awake: with the cost, or without,
    /// where any bound above 0 says that the rows cannot hold together.
    ///
    /// # Errors
    ///
    /// `AllocError` where memory was refused; nothing is open then.
    pub fn open<V: Values>(
        &mut self,
        rows: &Rows,
        values: &V,
        with_cost: bool,
    ) -> Result<(), AllocError> {
        if self.left.fill(rows, values, with_cost).is_ok() {
            let (columns, rows) = (self.left.columns.len(), self.left.rows.len());
            if self.work.fit(columns, rows).is_ok() {
                return Ok(());
            }
        }
        self.left.clear();
        self.work.clear();
        Err(AllocError)
    }

    /// How many variables are open.
    pub fn columns(&self) -> usize {
        self.left.columns.len()
    }

    /// The variable of a column, from 0; none where there is no such column.
    pub fn variable(&self, column: usize) -> Option<u32> {
        Some(self.left.columns.get(column)?.variable)
    }

    /// How many rows are open.
    pub fn rows(&self) -> usize {
        self.left.rows.len()
    }

    /// The number of an open row among all rows; none where there is no such row.
    pub fn number(&self, row: usize) -> Option<u32> {
        Some(self.left.rows.get(row)?.number)
    }

    /// Solves it from the point on, which goes to where the run has ended, with the multipliers of
    /// the best bound.
    ///
    /// # Errors
    ///
    /// `AllocError` where memory was refused; the point is as it was then.
    pub fn solve(&mut self, point: &mut Point, limits: &Limits) -> Result<Relaxed, AllocError> {
        self.make_room(point)?;
        let mut run = self.begin(point);
        if !(run.best > limits.target) {
            self.iterate(&mut run, limits);
        }
        self.hand_back(point);
        point.set_scale(run.scale);
        Ok(run.relaxed())
    }

    /// What each open variable costs, less what the multipliers of the point pull it, by column.
    ///
    /// # Errors
    ///
    /// `AllocError` where memory was refused.
    pub fn reduced_costs(&mut self, point: &Point) -> Result<&[f64], AllocError> {
        let left = &self.left;
        let work = &mut self.work;
        pull_by(left, &mut work.pull, point);
        reduce(left, &work.pull, &mut self.reduced)?;
        Ok(&self.reduced)
    }

    // The point has room for all that is open.
    fn make_room(&self, point: &mut Point) -> Result<(), AllocError> {
        let mut variables = 0;
        let mut rows = 0;
        for column in &self.left.columns {
            variables = column.variable.max(variables);
        }
        for row in &self.left.rows {
            rows = row.number.max(rows);
        }
        point.widen(variables as usize + 1, rows as usize + 1)
    }

    // A run from the point, or with multipliers of 0 where they give a better bound.
    fn begin(&mut self, point: &Point) -> Run {
        let left = &self.left;
        let work = &mut self.work;
        start_rows(left, &mut work.rows, &mut work.pull, point);
        start_columns(left, &mut work.columns, &work.pull, point);
        let mut run = Run::new(&left.norms(), point.scale());
        run.visit((left.places.len() as u64).saturating_mul(3));
        let measured = self.measure();
        if !run.takes(&measured) {
            forget_rows(&mut self.work.rows);
            fill(&mut self.work.trial_pull, 0.0);
        }
        self.restart(&mut run);
        run
    }

    // Steps, until it is over.
    fn iterate(&mut self, run: &mut Run, limits: &Limits) {
        let coefficients = (self.left.places.len() as u64).saturating_mul(2);
        for iteration in 0..limits.most {
            let pace = run.pace();
            self.step(&pace);
            run.stepped(coefficients);
            if iteration % LOOK != LOOK - 1 && iteration != limits.most - 1 {
                continue;
            }
            let measured = self.measure();
            run.visit(coefficients);
            if run.takes(&measured) {
                keep_rows(&mut self.work.rows);
            }
            if run.is_over(&measured, limits) {
                break;
            }
            if run.restarts(&measured) {
                self.restart(run);
            }
        }
    }

    // A step of all columns, and then of all rows.
    fn step(&mut self, pace: &Pace) {
        let left = &self.left;
        let work = &mut self.work;
        step_columns(&mut work.columns, &mut work.seen, &mut work.pull, pace);
        step_rows(left, &mut work.rows, &work.seen, &mut work.pull, pace);
    }

    // What the ends of the last steps are worth.
    fn measure(&mut self) -> Measured {
        let left = &self.left;
        let work = &mut self.work;
        show_trials(&work.columns, &mut work.seen);
        fill(&mut work.trial_pull, 0.0);
        let mut measured = measure_rows(left, &work.rows, &work.seen, &mut work.trial_pull);
        measure_columns(&work.columns, &work.trial_pull, &mut measured);
        measured
    }

    // Begins anew from the ends of the last steps, which were measured.
    fn restart(&mut self, run: &mut Run) {
        let work = &mut self.work;
        let values = restart_columns(&mut work.columns);
        let multipliers = restart_rows(&mut work.rows);
        copy_to(&mut work.pull, &work.trial_pull);
        run.rescale(values, multipliers);
    }

    // The point is where the run has ended.
    fn hand_back(&self, point: &mut Point) {
        for (column, kept) in self.left.columns.iter().zip(&self.work.columns) {
            point.put_value(column.variable, kept.trial);
        }
        for (row, kept) in self.left.rows.iter().zip(&self.work.rows) {
            point.put_multiplier(row.number, kept.best);
        }
    }
}
