// A form line of multipliers, and a cut under it.
//
// Multipliers times the scale are rounded to the nearest whole numbers, not down: those of an
// optimum are often fractions with a small denominator, and a method of first order comes to them
// from both sides. Whatever they are, the form is right. It is weighed here as it will be where it
// is proposed, in whole numbers, so that no line is written in vain.
//
// A cut says that some of what is true has to be false. The longer it is, the less it says, so what
// the least value can do without is left out: first what became true last, since a cut of lower
// levels leads further back. (A cut without its least worthy literals is shorter, and has to be
// sorted.)
use crate::facts::Facts;
use crate::node::Node;
use crate::tables::{add, at};
use cnf::types::Lit;
use forms::types::NamedFact;
use std::alloc::{AllocError, Global};
use std::num::{nearest_u64_to_f64, saturating_f64_to_u64};

/// How many times a form may have the cost: the first of these that serves is the one. What a
/// relaxation proves at a node is often far above what is needed there, and whole weights then do.
const SCALES: [u64; 3] = [1, 8, 128];

/// No weight of a fact is as great as this, 2^62.
const WEIGHT_LIMIT: u64 = 4_611_686_018_427_387_904;

/// A form line, with what it comes to, and a cut.
#[derive(Drop)]
pub struct Line {
    // How many times the form has the cost.
    scale: u64,
    // The facts that the form is less.
    facts: Vec<NamedFact>,
    // By variable, from 0, which none has: what the form changes by where it is true.
    coefficients: Vec<i128>,
    // What it is where no variable is true.
    constant: i128,
    // The literals of the cut.
    cut: Vec<Lit>,
}

impl Line {
    /// The line that says nothing.
    pub fn new(alloc: Global) -> Self {
        Line {
            scale: 0,
            facts: Vec::new(alloc),
            coefficients: Vec::new(alloc),
            constant: 0,
            cut: Vec::new(alloc),
        }
    }

    /// How many times the form has the cost.
    pub fn scale(&self) -> u64 {
        self.scale
    }

    /// The facts that the form is less.
    pub fn facts(&self) -> &[NamedFact] {
        &self.facts
    }

    /// The cut under the form.
    pub fn cut(&self) -> &[Lit] {
        &self.cut
    }

    /// Makes a form of the multipliers of a relaxation that was solved, and a cut of literals that
    /// are false, by which nothing that costs less than `cost` makes all of the trail true; without
    /// a cost (2^62, that of no solution) nothing at all does. The literals before `fixed` are true
    /// for good. It answers whether there are such.
    ///
    /// # Errors
    ///
    /// `AllocError` where memory was refused.
    pub fn find(
        &mut self,
        node: &Node,
        trail: &[Lit],
        fixed: usize,
        cost: u64,
    ) -> Result<bool, AllocError> {
        for scale in SCALES {
            let form_scale = if cost < WEIGHT_LIMIT { scale } else { 0 };
            self.state(node, form_scale, scale)?;
            if self.cut_trail(trail, fixed, cost)? {
                return Ok(true);
            }
        }
        Ok(false)
    }

    /// Makes a form of the multipliers of a relaxation that was solved: `form_scale` times the
    /// cost, less the facts, each as often as its multiplier is with this scale.
    ///
    /// # Errors
    ///
    /// `AllocError` where memory was refused.
    pub fn state(&mut self, node: &Node, form_scale: u64, scale: u64) -> Result<(), AllocError> {
        self.begin(&node.facts, form_scale)?;
        self.round(node, scale)
    }

    // Begins with `scale` times the cost.
    fn begin(&mut self, facts: &Facts, scale: u64) -> Result<(), AllocError> {
        let times = scale as i128;
        self.scale = scale;
        self.facts.clear();
        self.constant = facts.constant().saturating_mul(times);
        self.coefficients.clear();
        for cost in facts.costs() {
            self.coefficients.push(cost.saturating_mul(times))?;
        }
        Ok(())
    }

    // Takes the facts of the open rows off, each as often as its multiplier is with this scale.
    fn round(&mut self, node: &Node, scale: u64) -> Result<(), AllocError> {
        let scale = nearest_u64_to_f64(scale);
        for place in 0..node.relaxation.rows() {
            let Some(row) = node.relaxation.number(place) else {
                break;
            };
            let weight = saturating_f64_to_u64((node.point.multiplier(row) * scale).round());
            if weight == 0 || weight >= WEIGHT_LIMIT {
                continue;
            }
            if let Some(fact) = node.facts.named(row, weight) {
                self.facts.push(fact)?;
                self.subtract(&node.facts, row, weight)?;
            }
        }
        Ok(())
    }

    // Takes `weight` times the fact of a row off.
    fn subtract(&mut self, facts: &Facts, row: u32, weight: u64) -> Result<(), AllocError> {
        let weight = weight as i128;
        let needed = facts.rows().needed(row) as i128;
        self.constant = self.constant.saturating_add(weight.saturating_mul(needed));
        for lit in facts.rows().lits(row) {
            let variable = lit.variable() as usize;
            if self.coefficients.len() <= variable {
                self.coefficients.resize(variable + 1, 0)?;
            }
            if lit.is_negated() {
                self.constant = self.constant.saturating_sub(weight);
                add(&mut self.coefficients, variable, weight);
            } else {
                add(&mut self.coefficients, variable, -weight);
            }
        }
        Ok(())
    }

    // What the form is at least, whatever is true.
    fn least(&self) -> i128 {
        let mut least = self.constant;
        for coefficient in &self.coefficients {
            if *coefficient < 0 {
                least = least.saturating_add(*coefficient);
            }
        }
        least
    }

    // What the form is more where this literal is true.
    fn worth(&self, lit: Lit) -> i128 {
        let coefficient = at(&self.coefficients, lit.variable() as usize);
        if lit.is_negated() && coefficient < 0 {
            coefficient.saturating_mul(-1)
        } else if !lit.is_negated() && coefficient > 0 {
            coefficient
        } else {
            0
        }
    }

    // Makes the cut, if the form is great enough where the trail is true.
    fn cut_trail(&mut self, trail: &[Lit], fixed: usize, cost: u64) -> Result<bool, AllocError> {
        let most = (self.scale as i128).saturating_mul(cost.saturating_sub(1) as i128);
        let mut slack = self.least().saturating_sub(most).saturating_sub(1);
        for lit in trail {
            slack = slack.saturating_add(self.worth(*lit));
        }
        if slack < 0 {
            return Ok(false);
        }
        self.cut.clear();
        for back in 0..trail.len().saturating_sub(fixed) {
            let lit = trail[trail.len() - 1 - back];
            let worth = self.worth(lit);
            if worth <= slack {
                slack = slack.saturating_sub(worth);
            } else {
                self.cut.push(lit.negation())?;
            }
        }
        Ok(true)
    }
}
