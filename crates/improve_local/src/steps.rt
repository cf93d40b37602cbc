// The steps of the search, and how each chooses the variable to flip.
//
// Tried for the priced walk: soft clauses that become heavier too, up to twenty times their price,
// with hard ones that never become lighter. One walk then comes to the right weights once and goes
// past them, and it found the optimum less often: the growing walk is one of many, from turn to
// turn. One round in place of two, with as many visits, is worse only where hard clauses are few. A
// sample of 20 is no better than one of 10. docs/EXPERIMENTS.md has the numbers.
use crate::best::Best;
use crate::checked::{at, set};
use crate::clauses::{Occurrences, lits};
use crate::draws::Draws;
use crate::kinds::WalkKind;
use crate::scores::{HARD_START, Scores};
use cnf::types::Instance;
use std::alloc::{AllocError, Global};

/// The most good variables of which the best one is flipped in a priced walk.
const SAMPLE: usize = 10;

/// The most good variables of which the best one is flipped in a growing walk.
const GROWING_SAMPLE: usize = 20;

/// For how many flips a priced walk avoids a variable that was flipped.
const TABU: u64 = 2;

/// The most false hard clauses that become heavier at a time in a priced walk.
const HEAVIER: usize = 16;

/// The most hard clauses that become lighter at a time in a priced walk.
const LIGHTER: usize = 64;

/// In a priced walk no more than this part of all hard clauses becomes lighter at a time.
const LIGHTER_PART: usize = 8;

/// The most false soft clauses that become heavier at a time in a growing walk.
const HEAVIER_SOFT: usize = 100;

/// A walk, and what it takes along to the next one.
#[derive(Drop)]
pub(crate) struct Walk {
    // How the weights of clauses change.
    kind: WalkKind,
    // The bits that it is at.
    scores: Scores,
    // By variable, after how many flips it was flipped last; 0 where it was not.
    flipped: Vec<u64>,
    // How many flips there were in all walks, and `TABU` more.
    flips: u64,
    // What the best bits cost that met all hard clauses.
    best_cost: u64,
    // Those bits.
    best: Best,
    // What is drawn.
    draws: Draws,
}

impl Walk {
    /// Before the first walk.
    pub(crate) fn new(
        alloc: Global,
        instance: &Instance,
        kind: WalkKind,
    ) -> Result<Self, AllocError> {
        let variables = instance.vars() as usize;
        let flipped = Vec::from_elem(alloc, 0, variables)?;
        let best = Best::new(alloc, variables)?;
        let scores = Scores::new(alloc, instance)?;
        Ok(Walk {
            kind,
            flipped,
            flips: TABU,
            best_cost: u64::MAX,
            best,
            scores,
            draws: Draws::new(),
        })
    }

    /// Walks from bits that meet the hard clauses, in rounds: each begins with the best bits, and
    /// ends after its number of visits in all, from `ends`.
    pub(crate) fn run(
        &mut self,
        instance: &Instance,
        places: &Occurrences,
        bits: &[bool],
        ends: &[u64],
    ) {
        self.scores.work = 0;
        self.best.begin(bits);
        let keeps_weights = self.kind == WalkKind::Growing;
        for end in ends {
            if self.scores.work < *end {
                self.scores.begin(instance, self.best.bits(), keeps_weights);
                self.best_cost = self.scores.cost;
                self.best.go_back();
                self.walk(instance, places, *end);
            }
        }
    }

    /// How many literals and clauses were visited since it began.
    pub(crate) fn visits(&self) -> u64 {
        self.scores.work
    }

    /// What the best bits cost that it met.
    pub(crate) fn best_cost(&self) -> u64 {
        self.best_cost
    }

    /// Those bits.
    pub(crate) fn best(&self) -> &[bool] {
        self.best.bits()
    }

    // Flips variables until `end` visits were made.
    fn walk(&mut self, instance: &Instance, places: &Occurrences, end: u64) {
        for _step in 0..end {
            if self.best_cost == 0 || self.scores.work >= end {
                return;
            }
            let Some(variable) = self.choose(instance) else {
                return;
            };
            self.flips = self.flips.saturating_add(1);
            set(&mut self.flipped, variable as usize, self.flips);
            self.scores.flip(instance, places, variable);
            self.best.follow(variable);
            self.keep_best();
        }
    }

    // Keeps the bits where they are the best.
    fn keep_best(&mut self) {
        if self.scores.false_hard.len() > 0 || self.scores.cost >= self.best_cost {
            return;
        }
        self.best_cost = self.scores.cost;
        let written = self.best.take(&self.scores.bits);
        self.scores.work = self.scores.work.saturating_add(written);
    }

    // The variable to be flipped: the best of some good ones, or else the best of a false clause,
    // once weights have changed. There is none where no clause is false.
    fn choose(&mut self, instance: &Instance) -> Option<u32> {
        match self.choose_good() {
            Some(variable) => Some(variable),
            None => {
                self.reweigh(instance);
                self.choose_false(instance)
            }
        }
    }

    // The best of the good variables, or of some of them where there are many.
    fn choose_good(&mut self) -> Option<u32> {
        let count = self.scores.good.len();
        let sample = match self.kind {
            WalkKind::Priced => SAMPLE,
            WalkKind::Growing => GROWING_SAMPLE,
        };
        let mut best = None;
        for try_number in 0..count.min(sample) {
            let place = if count <= sample {
                try_number
            } else {
                self.draws.below(count)
            };
            let variable = self.scores.good.at(place);
            best = self.better(best, variable);
        }
        best
    }

    // The best variable of a false clause, a hard one if there is one.
    fn choose_false(&mut self, instance: &Instance) -> Option<u32> {
        let scores = &self.scores;
        let group = if scores.false_hard.len() > 0 {
            &scores.false_hard
        } else {
            &scores.false_soft
        };
        if group.len() == 0 {
            return None;
        }
        let lits = lits(instance, group.at(self.draws.below(group.len())));
        let mut best = None;
        for lit in lits {
            best = self.better(best, lit.variable() - 1);
        }
        match best {
            Some(variable) => Some(variable),
            None => {
                let lit = lits.get(self.draws.below(lits.len()))?;
                Some(lit.variable() - 1)
            }
        }
    }

    // The better one of these to flip: that with the greater score, then that which was flipped
    // earlier. One that was flipped just now is none in a priced walk.
    fn better(&mut self, best: Option<u32>, variable: u32) -> Option<u32> {
        self.scores.work = self.scores.work.saturating_add(1);
        let flipped = at(&self.flipped, variable as usize);
        let is_priced = self.kind == WalkKind::Priced;
        if is_priced && self.flips.saturating_sub(flipped) < TABU {
            return best;
        }
        let Some(other) = best else {
            return Some(variable);
        };
        let score = self.scores.of(variable);
        let other_score = self.scores.of(other);
        let is_better = score > other_score
            || score == other_score && flipped < at(&self.flipped, other as usize);
        if is_better { Some(variable) } else { best }
    }

    // No flip betters the bits by the weights that clauses have: they change.
    fn reweigh(&mut self, instance: &Instance) {
        match self.kind {
            WalkKind::Priced => self.weigh_hard(instance),
            WalkKind::Growing => self.grow(instance),
        }
    }

    // False hard clauses become heavier, or hard clauses lighter where none is false.
    fn weigh_hard(&mut self, instance: &Instance) {
        let count = self.scores.false_hard.len();
        if count == 0 {
            let part = instance.hard().len().div_ceil(LIGHTER_PART);
            self.scores.lighten(instance, part.min(LIGHTER));
        }
        for try_number in 0..count.min(HEAVIER) {
            let place = if count <= HEAVIER {
                try_number
            } else {
                self.draws.below(count)
            };
            let number = self.scores.false_hard.at(place);
            self.scores.weigh(instance, number, 1);
        }
    }

    // All false hard clauses become heavier, or some false soft ones where none is.
    fn grow(&mut self, instance: &Instance) {
        let hard = self.scores.false_hard.len();
        for place in 0..hard {
            let number = self.scores.false_hard.at(place);
            self.scores.weigh(instance, number, HARD_START);
        }
        if hard > 0 {
            return;
        }
        let count = self.scores.false_soft.len();
        let mut place = self.draws.below(count);
        for _clause in 0..count.min(HEAVIER_SOFT) {
            let number = self.scores.false_soft.at(place);
            self.scores.weigh_soft(instance, number);
            let next = place.saturating_add(1);
            place = if next < count { next } else { 0 };
        }
    }
}
