// A multiple of the cost, plus something that changes, and its least value.
ghost use Rattle.std.specs.Prelude.{◌≡◌, ◌+◌, ◌*◌, ◌<◌, ◌≤◌, ◌^◌, pos, false, [], length};
ghost use Rattle.std.specs.Prelude.{◌+ℤ◌, ◌*ℤ◌, None, slice_index_or};
ghost use Rattle.std.specs.Prelude.{IfOk, MatchResult, All};
ghost use Rattle.std.specs.Int.RustNames.{unsigned_abs};
ghost use Rattle.cnf.specs.Clause.{has_repeat, is_tautology};
ghost use Rattle.linear.specs.Linear.{coefficient, plus_at, plus_constant, plus_literal};
ghost use Rattle.linear.specs.Linear.{plus_literals};
ghost use Rattle.linear.specs.Costs.{form_of, width_of, widened, restarted, fixed_by, falsified};
ghost use Rattle.linear.specs.Costs.{HasOneWidth, least, least_where};

use crate::terms::{
    NOTHING, Term, added_at, coefficient as whole_coefficient, coefficient_part, constant_part,
    least_at, moved, next_stamp, raised, raised_cost, scaled, where_false,
};
use cnf::types::Lit;
use std::alloc::{AllocError, Global};
use std::marker::Model;

/// A multiple of what a solution costs, plus a linear function, over variables of which some have a
/// value.
///
/// Its least value is at hand, and so is that of the cost alone: to begin anew takes constant time.
#[derive(Drop)]
pub struct CostBound {
    // By variable; place 0 is of none.
    terms: Vec<Term>,
    // The constant of the cost: from 0, below 2^62.
    cost_constant: i128,
    // How many times the cost is taken: below 2^62.
    scale: u64,
    // The constant beside the cost: at most `mass`.
    added_constant: i128,
    // The stamp of the coefficients beside the cost that count.
    present: u32,
    // The sum of the weights that were added: below 2^62.
    weights: u64,
    // The sum of the absolute values of what was added beside the cost: at most 2^120.
    mass: u128,
    // The least value.
    least: i128,
    // The least value of the cost alone.
    least_cost: i128,
}

impl Model for CostBound {
    ghost use Rattle.linear.specs.Bounds.{BoundState};

    ghost Value = { BoundState };

    ghost use Rattle.linear.specs.Kept.{state_in, IsBoundKept};

    ghost view = { state_in };

    ghost invariant = { IsBoundKept };
}

impl CostBound {
    /// No cost, and nothing beside it, over the variables below a number.
    pub fn new(alloc: Global, width: usize) -> Result<Self, AllocError>
        ensures form { IfOk result (λ b. b.form ≡ form_of width []) }
        ensures weights { IfOk result (λ b. b.weights ≡ 0) }
        ensures mass { IfOk result (λ b. b.mass ≡ 0) }
    {
        Ok(CostBound {
            terms: Vec::from_elem(alloc, NOTHING, width)?,
            cost_constant: 0,
            scale: 0,
            added_constant: 0,
            present: 0,
            weights: 0,
            mass: 0,
            least: 0,
            least_cost: 0,
        })
    }

    /// How many times the cost is taken.
    pub fn scale(&self) -> u64
        ensures scale { result ≡ self.now.form.scale }
        ensures small { result < 2 ^ 62 }
    {
        self.scale
    }

    /// What a variable adds that is true: its coefficient of the cost times the scale, plus that of
    /// the rest. Where the variable has no place it is 0.
    pub fn coefficient(&self, variable: usize) -> i128
        ensures { result ≡ (pos self.now.form.scale *ℤ coefficient self.now.form.cost variable)
            +ℤ coefficient self.now.form.added variable }
    {
        if variable >= self.terms.len() {
            return 0;
        }
        let term = &self.terms[variable];
        let added = added_at(term, self.present);
        whole_coefficient(self.scale, term.cost, added)
    }

    /// The value of a variable, if it has one.
    pub fn value(&self, variable: u32) -> Option<bool>
        ensures { result ≡ slice_index_or self.now.form.fixed variable None }
    {
        match self.terms.get(variable as usize) {
            Some(term) => term.value,
            None => None,
        }
    }

    /// Has room for the variables below a number. Where memory is refused, nothing changes.
    pub fn widen(&mut self, width: usize) -> Result<(), AllocError>
        ensures { MatchResult result
            (λ _. self.new ≡ record self.old { form = widened width self.old.form })
            (λ _. self.new ≡ self.old) }
    {
        if width > self.terms.len() {
            self.terms.resize(width, NOTHING)?;
        }
        Ok(())
    }

    /// The least value that it takes, where variables that have a value keep it.
    pub fn least(&self) -> i128
        ensures least { result ≡ least self.now.form }
        ensures small { unsigned_abs result < 2 ^ 126 }
        ensures width { HasOneWidth self.now.form }
    {
        self.least
    }

    /// The least value where some literals are false, whatever values their variables have. It
    /// takes time for these literals alone.
    pub fn least_where_false(&self, lits: &[Lit]) -> i128
        requires variables { All (λ l. l.variable < width_of self.now.form) lits.now }
        requires no_repeat { has_repeat lits.now ≡ false }
        requires no_tautology { is_tautology lits.now ≡ false }
        ensures least { result
            ≡ least_where self.now.form (falsified lits.now self.now.form.fixed) }
        ensures small { unsigned_abs result < 2 ^ 126 }
        ensures width { HasOneWidth self.now.form }
    {
        let mut total = self.least;
        for lit in lits {
            let term = &self.terms[lit.variable() as usize];
            total = where_false(total, self.scale, term, self.present, lit.is_negated());
        }
        total
    }

    /// A literal costs `weight` more where it is true.
    pub fn add_weight(&mut self, lit: Lit, weight: u64)
        requires variable { lit.variable < width_of self.old.form }
        requires small { self.old.weights + weight < 2 ^ 62 }
        requires none { self.old.form.scale ≡ 0 }
        ensures form { self.new.form
            ≡ record self.old.form { cost = plus_literal (pos weight) lit self.old.form.cost } }
        ensures weights { self.new.weights ≡ self.old.weights + weight }
        ensures mass { self.new.mass ≡ self.old.mass }
    {
        let variable = lit.variable() as usize;
        let old = self.terms[variable];
        let by = coefficient_part(weight, lit.is_negated());
        let constant = constant_part(weight, lit.is_negated());
        let new = Term {
            cost: raised_cost(old.cost, by),
            ..old
        };
        let alone = raised(self.least_cost, constant);
        self.least_cost = moved(alone, least_at(1, &old, 0), least_at(1, &new, 0));
        self.cost_constant = raised(self.cost_constant, constant);
        self.weights += weight;
        self.terms[variable] = new;
    }

    /// Takes the cost `scale` times, with nothing added. It takes constant time, except for one
    /// call in 2^32.
    pub fn restart(&mut self, scale: u64)
        requires { scale < 2 ^ 62 }
        ensures form { self.new.form ≡ restarted scale self.old.form }
        ensures weights { self.new.weights ≡ self.old.weights }
        ensures mass { self.new.mass ≡ 0 }
    {
        self.present = next_stamp(&mut self.terms, self.present);
        self.least = scaled(scale, self.least_cost);
        self.scale = scale;
        self.added_constant = 0;
        self.mass = 0;
    }

    /// Adds a constant beside the cost.
    pub fn add_constant(&mut self, weight: i128)
        requires { self.old.mass + unsigned_abs weight ≤ 2 ^ 120 }
        ensures form { self.new.form
            ≡ record self.old.form { added = plus_constant weight self.old.form.added } }
        ensures weights { self.new.weights ≡ self.old.weights }
        ensures mass { self.new.mass ≡ self.old.mass + unsigned_abs weight }
    {
        self.added_constant = raised(self.added_constant, weight);
        self.least = raised(self.least, weight);
        self.mass += weight.unsigned_abs();
    }

    /// Adds `weight` times each literal, in addition to the cost.
    pub fn add_literals(&mut self, lits: &[Lit], weight: i128)
        requires variables { All (λ l. l.variable < width_of self.old.form) lits.now }
        requires room { self.old.mass + 2 * unsigned_abs weight * length lits.now ≤ 2 ^ 120 }
        ensures form { self.new.form
            ≡ record self.old.form { added = plus_literals weight lits.now self.old.form.added } }
        ensures weights { self.new.weights ≡ self.old.weights }
        ensures mass { self.new.mass ≤ self.old.mass + 2 * unsigned_abs weight * length lits.now }
    {
        for lit in lits {
            self.add_literal(*lit, weight);
        }
    }

    /// Adds `weight` times a literal, in addition to the cost.
    fn add_literal(&mut self, lit: Lit, weight: i128)
        requires variable { lit.variable < width_of self.old.form }
        requires room { self.old.mass + 2 * unsigned_abs weight ≤ 2 ^ 120 }
        ensures form { self.new.form
            ≡ record self.old.form { added = plus_literal weight lit self.old.form.added } }
        ensures weights { self.new.weights ≡ self.old.weights }
        ensures mass { self.new.mass ≤ self.old.mass + 2 * unsigned_abs weight }
    {
        if lit.is_negated() {
            self.add_constant(weight);
            self.add_at(lit.variable() as usize, -weight);
        } else {
            self.add_at(lit.variable() as usize, weight);
        }
    }

    /// Adds `weight` times a variable, in addition to the cost.
    fn add_at(&mut self, variable: usize, weight: i128)
        requires variable { variable < width_of self.old.form }
        requires room { self.old.mass + unsigned_abs weight ≤ 2 ^ 120 }
        ensures form { self.new.form
            ≡ record self.old.form { added = plus_at weight variable self.old.form.added } }
        ensures weights { self.new.weights ≡ self.old.weights }
        ensures mass { self.new.mass ≡ self.old.mass + unsigned_abs weight }
    {
        let old = self.terms[variable];
        let added = added_at(&old, self.present);
        let new = Term {
            added: raised(added, weight),
            stamp: self.present,
            ..old
        };
        let before = least_at(self.scale, &old, added);
        let after = least_at(self.scale, &new, new.added);
        self.least = moved(self.least, before, after);
        self.mass += weight.unsigned_abs();
        self.terms[variable] = new;
    }

    /// Gives a literal's variable the value that makes it true, unless it has a value.
    pub fn fix(&mut self, lit: Lit)
        requires { lit.variable < width_of self.old.form }
        ensures { self.new
            ≡ record self.old {
              form = record self.old.form { fixed = fixed_by lit self.old.form.fixed };
            } }
    {
        let variable = lit.variable() as usize;
        let old = self.terms[variable];
        if old.value.is_none() {
            let new = Term {
                value: Some(!lit.is_negated()),
                ..old
            };
            let added = added_at(&old, self.present);
            let before = least_at(self.scale, &old, added);
            let after = least_at(self.scale, &new, added);
            self.least = moved(self.least, before, after);
            let before = least_at(1, &old, 0);
            let after = least_at(1, &new, 0);
            self.least_cost = moved(self.least_cost, before, after);
            self.terms[variable] = new;
        }
    }
}
