// What the search for cores may assume false: literals that cost something, each with what the
// cores so far have left of that. Cores take the weight of their literals, and the outputs of their
// counts bring it in again (OLL: Andres, Kaufmann, Matheis and Schaub, "Unsatisfiability-based
// optimization in clasp", 2012).

use crate::tables::{at, set};
use adder::relaxations::Relaxation;
use cnf::types::Lit;
use std::alloc::{AllocError, Global};

/// Literals that cost something, each with its rest.
#[derive(Drop)]
pub(crate) struct Items {
    // By literal: what is left of its weight, from 0.
    rests: Vec<u64>,
    // By literal: whether it stands in the list.
    listed: Vec<bool>,
    // The literals with a rest; some may have lost it since they came.
    list: Vec<Lit>,
    // By variable: one more than the place of the core whose output it is; 0 where it is none.
    origins: Vec<u32>,
    // By literal: false, but while literals are looked up.
    marks: Vec<bool>,
}

impl Items {
    /// The relaxation literals, with room for variables up to `last`.
    pub(crate) fn new(
        alloc: Global,
        weights: &[Relaxation],
        last: u32,
    ) -> Result<Self, AllocError> {
        let mut items = Items {
            rests: Vec::new(alloc),
            listed: Vec::new(alloc),
            list: Vec::new(alloc),
            origins: Vec::new(alloc),
            marks: Vec::new(alloc),
        };
        items.fill(weights, last)?;
        Ok(items)
    }

    /// Makes room for variables up to `last`, and takes the relaxation literals.
    fn fill(&mut self, weights: &[Relaxation], last: u32) -> Result<(), AllocError> {
        let rows = (last as usize).saturating_mul(2);
        self.rests.resize(rows, 0)?;
        self.listed.resize(rows, false)?;
        self.origins.resize((last as usize).saturating_add(1), 0)?;
        self.marks.resize(rows, false)?;
        for weight in weights {
            self.credit(weight.lit, weight.weight)?;
        }
        Ok(())
    }

    /// Of a literal and its negation one is true: takes from both what the cheaper one costs, and
    /// answers how much that is together.
    pub(crate) fn pay_both(&mut self) -> u64 {
        let mut paid: u64 = 0;
        for place in 0..self.list.len() {
            let lit = at(&self.list, place);
            let both = self.rest(lit).min(self.rest(lit.negation()));
            paid = paid.saturating_add(both);
            self.charge(lit, both);
            self.charge(lit.negation(), both);
        }
        paid
    }

    /// What is left of the literal's weight.
    pub(crate) fn rest(&self, lit: Lit) -> u64 {
        at(&self.rests, lit.index())
    }

    /// The least that is left of the weight of one of these literals; 0 where there is none.
    pub(crate) fn least_rest(&self, lits: &[Lit]) -> u64 {
        let mut least = u64::MAX;
        for lit in lits {
            least = least.min(self.rest(*lit));
        }
        if lits.is_empty() { 0 } else { least }
    }

    /// The literals with a rest, and perhaps some without.
    pub(crate) fn list(&self) -> &[Lit] {
        &self.list
    }

    /// Takes `weight` off what is left of the literal's weight.
    pub(crate) fn charge(&mut self, lit: Lit, weight: u64) {
        let left = self.rest(lit).saturating_sub(weight);
        set(&mut self.rests, lit.index(), left);
    }

    /// Nothing is left of the literal's weight; answers what was.
    pub(crate) fn drop_rest(&mut self, lit: Lit) -> u64 {
        let rest = self.rest(lit);
        set(&mut self.rests, lit.index(), 0);
        rest
    }

    /// The literal costs `weight` more.
    pub(crate) fn credit(&mut self, lit: Lit, weight: u64) -> Result<(), AllocError> {
        let place = lit.index();
        let more = self.rest(lit).saturating_add(weight);
        set(&mut self.rests, place, more);
        if !at(&self.listed, place) {
            set(&mut self.listed, place, true);
            self.list.push(lit)?;
        }
        Ok(())
    }

    /// The core in this place takes `weight` from its literals, and the outputs of its count from
    /// the second on cost that much.
    pub(crate) fn exchange(
        &mut self,
        inputs: &[Lit],
        outputs: &[Lit],
        weight: u64,
        core: usize,
    ) -> Result<(), AllocError> {
        for input in inputs {
            self.charge(*input, weight);
        }
        for output in outputs.iter().skip(1) {
            self.set_origin(*output, core);
            self.credit(*output, weight)?;
        }
        Ok(())
    }

    /// The place of the core whose output this is.
    pub(crate) fn origin(&self, lit: Lit) -> Option<usize> {
        match at(&self.origins, lit.variable() as usize) {
            0 => None,
            more => Some(more.saturating_sub(1) as usize),
        }
    }

    /// The literal is an output of the core in this place.
    pub(crate) fn set_origin(&mut self, lit: Lit, core: usize) {
        let more = u32::try_from(core.saturating_add(1)).unwrap_or(0);
        set(&mut self.origins, lit.variable() as usize, more);
    }

    /// Drops what has no rest from the list.
    pub(crate) fn tidy(&mut self) {
        let mut kept: usize = 0;
        for read in 0..self.list.len() {
            let lit = at(&self.list, read);
            if self.rest(lit) > 0 {
                set(&mut self.list, kept, lit);
                kept = kept.saturating_add(1);
            } else {
                set(&mut self.listed, lit.index(), false);
            }
        }
        self.list.truncate(kept);
    }

    /// Keeps of the literals those that are needed; answers how many of those before the place are
    /// kept.
    pub(crate) fn keep_needed(
        &mut self,
        lits: &mut Vec<Lit>,
        needed: &[Lit],
        place: usize,
    ) -> usize {
        self.mark_all(needed, true);
        let mut before: usize = 0;
        let mut kept: usize = 0;
        for read in 0..lits.len() {
            let lit = at(lits, read);
            if at(&self.marks, lit.index()) {
                set(lits, kept, lit);
                kept = kept.saturating_add(1);
                if read < place {
                    before = before.saturating_add(1);
                }
            }
        }
        lits.truncate(kept);
        self.mark_all(needed, false);
        before
    }

    /// Marks the literals, or takes their marks away.
    fn mark_all(&mut self, lits: &[Lit], mark: bool) {
        for lit in lits {
            set(&mut self.marks, lit.index(), mark);
        }
    }
}
