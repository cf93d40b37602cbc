// Level 0 of the linear relaxation, from turn to turn. It is solved from where the last turn left
// it, at first with what the cores are worth as the multipliers of their counts: it begins with
// their bound. The multipliers in whole numbers are a form line. It is proposed where it is worth
// more than what was told, or some value is too dear beside it, and else it would be in vain.

use crate::bounding::fix_dear;
use cnf::types::Lit;
use cuts_cores::cores::Cores;
use cuts_cores::desk::{Desk, DeskFault};
use cuts_cores::tables::set;
use cuts_linear::facts::Facts;
use cuts_linear::groups::Groups;
use cuts_linear::line::Line;
use cuts_linear::node::Node;
use forms::types::NamedFact;
use lp::limits::Limits;
use lp::point::Point;
use lp::values::Values;
use std::alloc::{AllocError, Global};
use std::num::nearest_u64_to_f64;

/// The most iterations of a turn, until more than `ALL` were made.
const MOST: u64 = 2000;

/// The iterations of all turns after which a turn makes fewer.
const ALL: u64 = 4000;

/// The most iterations of a turn, once more than `ALL` were made.
const MORE: u64 = 200;

/// About the most pairs in all groups that get their lines, each pair counted twice.
const GROUP_PAIRS: usize = 300_000;

/// A group whose multiplier is no greater than this is left out.
const WORTHLESS: f64 = 1e-4;

/// How many times the form has the cost.
const SCALE: u64 = 1024;

/// A bound no more than this above what is known is no news: about half of 1 / `SCALE`.
const NO_NEWS: f64 = 0.0005;

/// No bound passes this.
const NO_TARGET: f64 = 1e300;

/// A bound above this, without the cost, says that rows cannot hold together.
const LITTLE: f64 = 1e-3;

/// What is fixed at level 0.
#[derive(Drop)]
pub(crate) struct Fixed<'d, D: Desk> {
    // Whose values they are.
    pub(crate) desk: &'d D,
}

impl<'d, D: Desk> Values for Fixed<'d, D> {
    fn value(&self, lit: Lit) -> Option<bool> {
        self.desk.fixed(lit)
    }
}

/// The row of a count.
#[derive(Clone, Copy, Drop)]
struct CountRow {
    // Its number among all rows, from 0.
    row: u32,
    // How many outputs the count had when it became one, from 1.
    outputs: usize,
}

/// Where level 0 was left.
#[derive(Drop)]
pub(crate) struct Root {
    // The values of variables, from 0 to 1, and the multipliers of rows, from 0.
    pub(crate) point: Point,
    // What the multipliers prove, in floats: finite; 0 before it was solved.
    bound: f64,
    // How many iterations were made, in all turns.
    iterations: u64,
    // The rows of the counts, in the order of the cores' form.
    counts: Vec<CountRow>,
}

impl Root {
    /// It was not solved yet.
    pub(crate) fn new(alloc: Global) -> Self {
        Root {
            point: Point::new(alloc),
            bound: 0.0,
            iterations: 0,
            counts: Vec::new(alloc),
        }
    }

    /// How many iterations a turn may make.
    pub(crate) fn most(&self) -> u64 {
        if self.iterations > ALL { MORE } else { MOST }
    }

    /// Solves what is open, from where it was left, with at most `most` iterations.
    pub(crate) fn solve<D: Desk>(
        &mut self,
        desk: &D,
        node: &mut Node,
        most: u64,
    ) -> Result<(), AllocError> {
        let most = u32::try_from(most).unwrap_or(0);
        let has_cost = desk.has_solution();
        let limits = Limits {
            most,
            least: most,
            target: if has_cost { NO_TARGET } else { LITTLE },
            may_stop: false,
        };
        node.point.go_to(&self.point)?;
        let relaxed = node.solve(&Fixed { desk }, has_cost, &limits)?;
        self.bound = relaxed.bound;
        self.iterations = self
            .iterations
            .saturating_add(u64::from(relaxed.iterations));
        self.point.go_to(&node.point)
    }

    /// The groups with multipliers get their lines, and the others are left out.
    pub(crate) fn make_groups<D: Desk>(
        &mut self,
        desk: &mut D,
        node: &mut Node,
        groups: &mut Groups,
    ) -> Result<(), DeskFault>
        ensures follows { (first : D) → D.follows first desk.old → D.follows first desk.new }
    {
        let mut pairs: usize = 0;
        for place in 0..groups.len() {
            let row = groups.row(place);
            let size = groups.lits(place).len();
            let more = pairs.saturating_add(size.saturating_mul(size));
            let mut number = None;
            if self.point.multiplier(row) > WORTHLESS && more <= GROUP_PAIRS {
                pairs = more;
                let ids = groups.ids(desk.allocator(), place)?;
                number = desk.group(groups.lits(place), &ids)?;
            }
            match number {
                Some(number) => node.facts.number_group(row, number),
                None => {
                    groups.leave_out(place, &mut node.facts);
                    self.point.set_multiplier(row, 0.0)?;
                }
            }
        }
        groups.cover_pairs(&mut node.facts);
        Ok(())
    }

    /// The counts that are new or have more outputs become rows; the multipliers are what their
    /// cores are worth.
    pub(crate) fn take_counts<D: Desk>(
        &mut self,
        desk: &D,
        facts: &mut Facts,
        cores: &[NamedFact],
    ) -> Result<(), AllocError> {
        for (place, core) in cores.iter().enumerate() {
            let inputs = desk.forms().inputs(core.number).unwrap_or(&[]);
            let outputs = desk.forms().outputs(core.number).unwrap_or(&[]);
            let mut multiplier = nearest_u64_to_f64(core.weight);
            if let Some(count) = self.counts.get(place).copied() {
                if count.outputs == outputs.len() {
                    continue;
                }
                facts.set_asleep(count.row, true);
                multiplier = self.point.multiplier(count.row);
                self.point.set_multiplier(count.row, 0.0)?;
            }
            let row = facts.add_count(desk.allocator(), core.number, inputs, outputs)?;
            self.point.set_multiplier(row, multiplier)?;
            let count = CountRow {
                row,
                outputs: outputs.len(),
            };
            if place < self.counts.len() {
                set(&mut self.counts, place, count);
            } else {
                self.counts.push(count)?;
            }
        }
        Ok(())
    }

    /// Proposes the form where it is news, says what it is worth, and fixes what is too dear under
    /// it. The node is as level 0 was solved.
    pub(crate) fn tell<D: Desk>(
        &self,
        desk: &mut D,
        node: &mut Node,
        cores: &mut Cores,
    ) -> Result<(), DeskFault>
        ensures follows { (first : D) → D.follows first desk.old → D.follows first desk.new }
    {
        let is_news = desk.has_solution() && self.is_news(desk, node, cores.told())?;
        if !is_news || !cite(desk, node, cores)? {
            return Ok(());
        }
        cores.tell_bound(desk)?;
        fix_dear(desk)
    }

    /// Whether the form is worth more than what was told, or some value is too dear beside it, as
    /// far as floats can say.
    fn is_news<D: Desk>(&self, desk: &D, node: &mut Node, told: u64) -> Result<bool, AllocError> {
        if self.bound > nearest_u64_to_f64(told) + NO_NEWS {
            return Ok(true);
        }
        let mut dearest: f64 = 0.0;
        for cost in node.relaxation.reduced_costs(&self.point)? {
            dearest = (*cost).abs().max(dearest);
        }
        Ok(self.bound + dearest > nearest_u64_to_f64(desk.cost()) - 1.0 + NO_NEWS)
    }
}

/// The form of the node's multipliers becomes the present one; answers whether it has.
fn cite<D: Desk>(desk: &mut D, node: &Node, cores: &mut Cores) -> Result<bool, DeskFault>
    ensures follows { (first : D) → D.follows first desk.old → D.follows first desk.new }
{
    let mut line = Line::new(desk.allocator());
    line.state(node, SCALE, SCALE)?;
    cores.cite_other(desk, line.scale(), line.facts())
}
