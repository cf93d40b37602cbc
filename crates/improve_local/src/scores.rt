// What the search knows of its bits: which clauses they make false, and how much weight a flip of
// each variable would gain.
//
// All of it is policy: nothing is known of it but that no step of it can fail. A place outside its
// table has no effect, and sums stop at the ends of their range.
//
// Soft clauses weigh what they cost at the start, and hard ones what a soft one weighs in the mean.
// Half of that is as good on small texts. On one with 500,000 variables the priced walk then leaves
// the solutions, and does not come back before its visits are used up.
use crate::checked::{at, copy, fill, narrow, set};
use crate::clauses::{Occurrences, count, lits, price};
use crate::group::Group;
use cnf::types::{Instance, Lit};
use std::alloc::{AllocError, Global};

/// A unit is this part of the mean weight of a soft clause.
const UNITS: u64 = 16;

/// Prices of less than this together, 2^58, are multiplied by `UNITS`, so that a unit is a whole
/// number.
const SMALL: u64 = 288_230_376_151_711_744;

/// The units that a hard clause weighs at the start, as a soft one does in the mean.
pub(crate) const HARD_START: i64 = 16;

/// The fewest units that a hard clause weighs once it became lighter.
const HARD_LEAST: i64 = 3;

/// A soft clause that weighs more than this times its weight at the start becomes no heavier.
const SOFT_MOST: i64 = 50;

/// The bits, and the tables that go with them. Variables and clauses are numbers from 0.
#[derive(Drop)]
pub(crate) struct Scores {
    /// By variable.
    pub(crate) bits: Vec<bool>,
    // By clause, how many of its literals are true.
    true_counts: Vec<u32>,
    // By clause, the variables of its true literals, each bit with an odd number of them: where one
    // literal is true, its variable.
    true_variables: Vec<u32>,
    // By clause, its weight in the scores, from 0.
    weights: Vec<i64>,
    // By variable, the weights of the clauses that its flip makes true, less those of the clauses
    // that it makes false.
    scores: Vec<i64>,
    /// The variables with a score above 0.
    pub(crate) good: Group,
    /// The hard clauses that are false.
    pub(crate) false_hard: Group,
    /// The soft clauses with literals that are false.
    pub(crate) false_soft: Group,
    /// What the bits cost.
    pub(crate) cost: u64,
    // What a soft clause weighs for each 1 that it costs: `UNITS`, or 1 where prices are great.
    scale: u64,
    // What a hard clause becomes heavier or lighter by, from 1.
    unit: i64,
    // The hard clause that becomes lighter next.
    next_hard: usize,
    // Whether the clauses have weights.
    is_weighed: bool,
    /// How many literals and clauses were visited.
    pub(crate) work: u64,
}

impl Scores {
    /// Tables for bits that are not known yet, each of them false.
    pub(crate) fn new(alloc: Global, instance: &Instance) -> Result<Self, AllocError> {
        let sum = sum_of_prices(instance);
        let scale = if sum < SMALL { UNITS } else { 1 };
        let soft_clauses = instance.soft().len().max(1) as u64;
        let unit = (sum / soft_clauses).saturating_mul(scale) / UNITS;
        let mut scores = Scores {
            bits: Vec::new(alloc),
            true_counts: Vec::new(alloc),
            true_variables: Vec::new(alloc),
            weights: Vec::new(alloc),
            scores: Vec::new(alloc),
            good: Group::new(alloc),
            false_hard: Group::new(alloc),
            false_soft: Group::new(alloc),
            cost: 0,
            scale,
            unit: i64::try_from(unit).unwrap_or(i64::MAX).max(1),
            next_hard: 0,
            is_weighed: false,
            work: 0,
        };
        match scores.size(instance.vars() as usize, count(instance)) {
            Ok(()) => Ok(scores),
            Err(AllocError) => {
                // By a call: that is proved once, and not field by field here.
                drop(scores);
                Err(AllocError)
            }
        }
    }

    // The tables, which are empty, get room for so many variables and clauses.
    fn size(&mut self, variables: usize, clauses: usize) -> Result<(), AllocError> {
        self.bits.resize(variables, false)?;
        self.true_counts.resize(clauses, 0)?;
        self.true_variables.resize(clauses, 0)?;
        self.weights.resize(clauses, 0)?;
        self.scores.resize(variables, 0)?;
        self.good.size(variables)?;
        self.false_hard.size(clauses)?;
        self.false_soft.size(clauses)
    }

    /// Begins with these bits, and with the weights that there are, if they are kept; else with
    /// those of the start.
    pub(crate) fn begin(&mut self, instance: &Instance, bits: &[bool], keeps_weights: bool) {
        if !(keeps_weights && self.is_weighed) {
            self.weigh_anew(instance);
        }
        copy(&mut self.bits, bits);
        fill(&mut self.true_counts, 0);
        fill(&mut self.true_variables, 0);
        fill(&mut self.scores, 0);
        self.good.clear();
        self.false_hard.clear();
        self.false_soft.clear();
        self.cost = 0;
        self.add_shares(instance);
    }

    /// What the flip of a variable would better.
    pub(crate) fn of(&self, variable: u32) -> i64 {
        at(&self.scores, variable as usize)
    }

    /// The value of a variable becomes the other one.
    pub(crate) fn flip(&mut self, instance: &Instance, places: &Occurrences, variable: u32) {
        let was = at(&self.bits, variable as usize);
        let score = self.of(variable);
        set(&mut self.bits, variable as usize, !was);
        let index = (variable as usize).saturating_mul(2);
        for number in places.of(index.saturating_add(usize::from(was))) {
            self.gain(instance, *number, variable);
        }
        for number in places.of(index.saturating_add(usize::from(!was))) {
            self.lose(instance, *number, variable);
        }
        // Flipping it back undoes all of it.
        let back = score.saturating_add(self.of(variable)).saturating_neg();
        self.change(variable, back);
    }

    /// A hard clause that is false becomes heavier by `units` units.
    pub(crate) fn weigh(&mut self, instance: &Instance, number: u32, units: i64) {
        self.add_weight(instance, number, self.unit.saturating_mul(units));
    }

    /// A soft clause that is false becomes heavier by what it weighs at the start, unless it is as
    /// heavy as it gets.
    pub(crate) fn weigh_soft(&mut self, instance: &Instance, number: u32) {
        self.work = self.work.saturating_add(1);
        let first = self.first_weight(instance, number);
        if at(&self.weights, number as usize) <= first.saturating_mul(SOFT_MOST) {
            self.add_weight(instance, number, first);
        }
    }

    // A clause that is false becomes heavier by `by`.
    fn add_weight(&mut self, instance: &Instance, number: u32, by: i64) {
        let weight = at(&self.weights, number as usize).saturating_add(by);
        set(&mut self.weights, number as usize, weight);
        self.change_all(instance, number, by);
    }

    // What a clause weighs at the start.
    fn first_weight(&self, instance: &Instance, number: u32) -> i64 {
        if (number as usize) < instance.hard().len() {
            return self.unit.saturating_mul(HARD_START);
        }
        let weight = price(instance, number).saturating_mul(self.scale);
        i64::try_from(weight).unwrap_or(i64::MAX)
    }

    // The clauses get the weights of the start.
    fn weigh_anew(&mut self, instance: &Instance) {
        for place in 0..count(instance) {
            let weight = self.first_weight(instance, narrow(place));
            set(&mut self.weights, place, weight);
        }
        self.is_weighed = true;
    }

    /// `clauses` hard clauses become lighter by a unit, each in its turn. All of them are true.
    pub(crate) fn lighten(&mut self, instance: &Instance, clauses: usize) {
        let hard = instance.hard().len();
        for _clause in 0..clauses.min(hard) {
            let place = self.next_hard;
            let next = place.saturating_add(1);
            self.next_hard = if next < hard { next } else { 0 };
            self.lighten_one(place);
        }
    }

    // A hard clause that is true becomes lighter by a unit, unless it is as light as it gets.
    fn lighten_one(&mut self, place: usize) {
        self.work = self.work.saturating_add(1);
        let weight = at(&self.weights, place).saturating_sub(self.unit);
        if weight < self.unit.saturating_mul(HARD_LEAST) {
            return;
        }
        set(&mut self.weights, place, weight);
        if at(&self.true_counts, place) == 1 {
            let only = at(&self.true_variables, place);
            self.change(only, self.unit);
        }
    }

    // Begins: what each clause adds to the scores.
    fn add_shares(&mut self, instance: &Instance) {
        for place in 0..count(instance) {
            let number = narrow(place);
            for lit in lits(instance, number) {
                let variable = lit.variable() - 1;
                if is_true(&self.bits, *lit) {
                    self.count_true(number, 1, variable);
                }
            }
            self.add_share(instance, number);
        }
    }

    // This clause adds its share to the scores.
    fn add_share(&mut self, instance: &Instance, number: u32) {
        let weight = at(&self.weights, number as usize);
        match at(&self.true_counts, number as usize) {
            0 => {
                self.put_false(instance, number);
                self.change_all(instance, number, weight);
            }
            1 => {
                let only = at(&self.true_variables, number as usize);
                self.change(only, weight.saturating_neg());
            }
            _ => {}
        }
    }

    // The variable's literal in this clause becomes true.
    fn gain(&mut self, instance: &Instance, number: u32, variable: u32) {
        let weight = at(&self.weights, number as usize);
        match at(&self.true_counts, number as usize) {
            0 => {
                self.take_false(instance, number);
                self.change_all(instance, number, weight.saturating_neg());
            }
            1 => {
                let only = at(&self.true_variables, number as usize);
                self.change(only, weight);
            }
            _ => {}
        }
        self.count_true(number, 1, variable);
    }

    // The variable's literal in this clause becomes false.
    fn lose(&mut self, instance: &Instance, number: u32, variable: u32) {
        self.count_true(number, -1, variable);
        self.add_share(instance, number);
    }

    // The clause has `more` more true literals: that of this variable became true or was it.
    fn count_true(&mut self, number: u32, more: i32, variable: u32) {
        self.work = self.work.saturating_add(1);
        if let Some(count) = self.true_counts.get_mut(number as usize) {
            *count = count.saturating_add_signed(more);
        }
        if let Some(variables) = self.true_variables.get_mut(number as usize) {
            *variables ^= variable;
        }
    }

    // A clause is false now. One without literals counts by its price alone: no flip helps it.
    fn put_false(&mut self, instance: &Instance, number: u32) {
        self.cost = self.cost.saturating_add(price(instance, number));
        if !lits(instance, number).is_empty() {
            if (number as usize) < instance.hard().len() {
                self.false_hard.put(number);
            } else {
                self.false_soft.put(number);
            }
        }
    }

    // A clause that was false is so no longer.
    fn take_false(&mut self, instance: &Instance, number: u32) {
        self.cost = self.cost.saturating_sub(price(instance, number));
        if (number as usize) < instance.hard().len() {
            self.false_hard.take(number);
        } else {
            self.false_soft.take(number);
        }
    }

    // The scores of the clause's variables become greater by `by`.
    fn change_all(&mut self, instance: &Instance, number: u32, by: i64) {
        for lit in lits(instance, number) {
            self.work = self.work.saturating_add(1);
            self.change(lit.variable() - 1, by);
        }
    }

    // The score of a variable becomes greater by `by`.
    fn change(&mut self, variable: u32, by: i64) {
        if let Some(score) = self.scores.get_mut(variable as usize) {
            let was_good = *score > 0;
            *score = score.saturating_add(by);
            let is_good = *score > 0;
            if is_good && !was_good {
                self.good.put(variable);
            } else if was_good && !is_good {
                self.good.take(variable);
            }
        }
    }
}

/// What all soft clauses cost together.
fn sum_of_prices(instance: &Instance) -> u64 {
    let mut sum = 0u64;
    for soft in instance.soft() {
        sum = sum.saturating_add(soft.weight());
    }
    sum
}

/// Whether the bits make the literal true.
fn is_true(bits: &[bool], lit: Lit) -> bool {
    at(bits, lit.variable() as usize - 1) != lit.is_negated()
}
