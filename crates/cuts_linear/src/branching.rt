// Branch and bound by the linear relaxation, as a guide of a search (Land and Doig 1960): at each
// fixpoint what is open is solved. Where its bound is above what is wanted, a line says so: the
// guide stops the search, whoever holds the log makes its form the present one, and then the guide
// hands over its cut as a conflict. Else the point says where to branch, and the activity of
// variables in conflicts (without it the search took twice as many).
//
// A search goes on from level 0. So the guide decides again what it had decided before it stopped,
// without a relaxation in between.
ghost use Rattle.std.specs.Prelude.{⊤};

use crate::line::Line;
use crate::node::{Node, Trailed};
use cdcl_search::guide::{Advice, Guide};
use cdcl_search::search::Search;
use cnf::limits::VARIABLE_LIMIT;
use cnf::types::Lit;
use lp::limits::Limits;
use lp::values::Values;
use std::alloc::{AllocError, Global};
use std::num::nearest_u64_to_f64;

/// What costs as much as this, 2^62, is no solution.
const NO_COST: u64 = 4_611_686_018_427_387_904;

/// The most iterations that a node takes.
const MOST: u32 = 100;

/// The fewest iterations after which a node is given up.
const LEAST: u32 = 10;

/// A variable at 0 or 1 counts as if it were this far from it.
const CLEAR: f64 = 0.05;

/// A variable that was in no conflict counts as if it were this active.
const IDLE: f64 = 0.01;

/// A bound has to pass the target by this part of it.
const MARGIN: f64 = 1e-6;

/// A bound above this, without the cost, says that rows cannot hold together.
const LITTLE: f64 = 1e-3;

/// Leads a search by the linear relaxation.
#[derive(Drop)]
pub struct BranchGuide<'n> {
    // What is open at the present node.
    node: &'n mut Node,
    // The last line that was found.
    line: Line,
    // Whether that waits to be proposed.
    has_line: bool,
    // Whether its cut waits to be handed over.
    has_cut: bool,
    // Solutions that cost less than this are wanted; 2^62 while there is none.
    cost: u64,
    // What it has decided, in order.
    path: Vec<Lit>,
    // For each of these, how many literals were true before.
    places: Vec<usize>,
    // What is to be decided again, in order.
    again: Vec<Lit>,
    // How many of these were decided again.
    done: usize,
    // How many coefficients may still be visited.
    left: u64,
    // Whether nothing is open at the present node, so that whatever else is decided, its relaxation
    // says no more.
    is_whole: bool,
}

impl<'n> BranchGuide<'n> {
    /// A guide to solutions that cost less than `cost` (2^62 while there is none), from where the
    /// node was left, which visits about `share` coefficients.
    pub fn new(alloc: Global, node: &'n mut Node, cost: u64, share: u64) -> Self {
        BranchGuide {
            node,
            line: Line::new(alloc),
            has_line: false,
            has_cut: false,
            cost,
            path: Vec::new(alloc),
            places: Vec::new(alloc),
            again: Vec::new(alloc),
            done: 0,
            left: share,
            is_whole: false,
        }
    }

    /// Solutions that cost less than this are wanted from now on. The search is to be called again.
    ///
    /// # Errors
    ///
    /// `AllocError` where memory was refused.
    pub fn set_cost(&mut self, cost: u64) -> Result<(), AllocError> {
        self.cost = cost;
        self.go_back()
    }

    /// The line for which it has stopped, if it has. Once its form is the present one, the search
    /// is to be called again: the guide comes back to where it was, and hands over the cut.
    ///
    /// # Errors
    ///
    /// `AllocError` where memory was refused.
    pub fn take_line(&mut self) -> Result<Option<&Line>, AllocError> {
        if !self.has_line {
            return Ok(None);
        }
        self.has_line = false;
        self.has_cut = true;
        self.go_back()?;
        Ok(Some(&self.line))
    }

    // What was decided is decided again.
    fn go_back(&mut self) -> Result<(), AllocError> {
        self.again.clear();
        self.again.extend_from_slice(&self.path)?;
        self.done = 0;
        Ok(())
    }

    // Solves what is open; answers whether a line was found by it.
    fn bound(&mut self, search: &Search) -> Result<bool, AllocError> {
        let has_cost = self.cost < NO_COST;
        let goal = if has_cost {
            nearest_u64_to_f64(self.cost.saturating_sub(1))
        } else {
            LITTLE
        };
        let limits = Limits {
            most: MOST,
            least: LEAST,
            target: goal + MARGIN * (1.0 + goal),
            may_stop: true,
        };
        let relaxed = self.node.solve(&Trailed { search }, has_cost, &limits)?;
        self.left = self.left.saturating_sub(relaxed.visited.saturating_add(1));
        if !(relaxed.bound > goal) {
            return Ok(false);
        }
        let fixed = search.engine.first_above(0);
        self.line
            .find(&*self.node, search.engine.trail(), fixed, self.cost)
    }

    // The literal to be decided: the negation of the variable that is least clear, and most active.
    fn choose(&self, search: &Search) -> Option<Lit> {
        let mut best = None;
        let mut most = 0.0;
        for column in 0..self.node.relaxation.columns() {
            let variable = self.node.relaxation.variable(column)?;
            let value = self.node.point.value(variable);
            let doubt = value.min(1.0 - value) + CLEAR;
            let worth = doubt * (search.policy.activity(variable) + IDLE);
            if worth > most && variable > 0 && variable < VARIABLE_LIMIT {
                most = worth;
                best = Some(variable);
            }
        }
        match best {
            Some(variable) if variable > 0 && variable < VARIABLE_LIMIT => {
                Some(Lit::new(variable, true))
            }
            _ => None,
        }
    }

    // The next literal that is to be decided again, if it is open.
    fn repeat(&mut self, search: &Search) -> Option<Lit> {
        let values = Trailed { search };
        for _ in 0..self.again.len() {
            let lit = *self.again.get(self.done)?;
            self.done = self.done.saturating_add(1);
            match values.value(lit) {
                None => return Some(lit),
                Some(true) => {}
                Some(false) => self.again.clear(),
            }
        }
        None
    }

    // Decides a literal, and remembers it.
    fn decide(&mut self, search: &Search, lit: Lit) -> Result<Advice, AllocError> {
        self.places.reserve(1)?;
        self.path.push(lit)?;
        self.places.push(search.engine.assigned())?;
        Ok(Advice::Decide(lit))
    }
}

/// Of how many levels these literals are, which stand in the order of the trail or against it.
fn count_levels(search: &Search, lits: &[Lit]) -> u32 {
    let mut levels: u32 = 0;
    let mut last = None;
    for lit in lits {
        if lit.variable() > search.engine.variables() {
            continue;
        }
        let level = search.engine.level(lit.variable());
        if level != last {
            levels = levels.saturating_add(1);
            last = level;
        }
    }
    levels
}

impl<'n> Guide for BranchGuide<'n> {
    ghost follows = { λ _ _. ⊤ };

    fn advise(&mut self, search: &Search) -> Result<Advice, AllocError> {
        if let Some(lit) = self.repeat(search) {
            return self.decide(search, lit);
        }
        if self.has_cut {
            self.has_cut = false;
            return Ok(Advice::Cut(Some(count_levels(search, self.line.cut()))));
        }
        if self.left == 0 {
            return Ok(Advice::Stop);
        }
        if self.is_whole {
            return Ok(Advice::Free);
        }
        if self.bound(search)? {
            self.has_line = true;
            return Ok(Advice::Stop);
        }
        match self.choose(search) {
            Some(lit) => self.decide(search, lit),
            None => {
                self.is_whole = true;
                Ok(Advice::Free)
            }
        }
    }

    fn cut(&self) -> &[Lit] {
        self.line.cut()
    }

    fn refused(&mut self) {
        self.left = 0;
    }

    fn went_back(&mut self, assigned: usize) {
        self.is_whole = false;
        for _ in 0..self.places.len() {
            match self.places.last() {
                Some(place) if *place >= assigned => {}
                _ => break,
            }
            self.places.pop();
            self.path.pop();
        }
    }

    fn kept_levels(&self) -> usize {
        usize::MAX
    }
}
