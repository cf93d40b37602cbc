// The state of forms and cuts: a method for each line.
ghost use Rattle.std.specs.Prelude.{◌≡◌, ◌<◌, ◌≤◌, ◌^◌, ◌∷◌, [], map, sum_by, ◌+ℤ◌, ◌*ℤ◌, pos};
ghost use Rattle.std.specs.Prelude.{slice_index_or, All, IfOk, None, OnErr, OnOk};
ghost use Rattle.std.specs.Option.{option_copied, option_map};
ghost use Rattle.cnf.specs.declared.limits.TheConstants.{NUMBER_LIMIT, VARIABLE_LIMIT};
ghost use Rattle.adder.specs.Parts.{weight_in};
ghost use Rattle.forms.specs.Forms.{forms_of, heard, group_line, are_known, at_number, bound_line};
ghost use Rattle.forms.specs.Forms.{cut_line, inputs_of, outputs_at};
ghost use Rattle.linear.specs.Costs.{least};
ghost use Rattle.linear.specs.Linear.{coefficient};
ghost use Rattle.forms.specs.Answers.{IsTaken, MakesStageClauses};

mod counting;
mod forming;

use crate::faults::LineFault;
use crate::groups::are_excluded;
use crate::growing::widen;
use crate::known::{greatest_variable, repeats_variable};
use crate::numbered::{Numbered, inputs_at, outputs_at};
use crate::table::ClauseTable;
use crate::worth::worth_of;
use adder::relaxations::Relaxation;
use cnf::marks::Marks;
use cnf::types::Lit;
use linear::bounds::CostBound;
use std::alloc::{AllocError, Global};
use std::marker::Model;

/// What the lines of forms and cuts so far leave: counts and groups, the variables that unit
/// clauses have given a value, and the present form with its least value.
///
/// A line that is refused changes nothing. Where memory is refused, nothing is said of what is
/// left.
#[derive(Drop)]
pub struct Forms {
    // The greatest variable of the formula and of counts: below 2^26.
    variables: u32,
    // The present form, and the variables that have a value.
    bound: CostBound,
    // Whether there was a form line.
    has_form: bool,
    // Counts and groups, that with number 1 first.
    numbered: Vec<Numbered>,
    // The stamp of the present form: its counts have this stamp.
    present: u64,
    // How many clauses counts have made: at most 2^22.
    made: usize,
    // How many terms the facts of form lines have had: at most 2^32.
    terms: u64,
    // For the literals of the line that is looked at; between two lines it may hold any.
    marks: Marks,
}

impl Model for Forms {
    ghost use Rattle.forms.specs.Forms.{Forms as FormsState};
    ghost use Rattle.forms.specs.Kept.{forms_in, AreFormsKept};

    ghost Value = { FormsState };

    ghost use Rattle.std.specs.Coded.{codes};
    ghost use Rattle.totalizer.specs.TreeCode.{tree_code};

    ghost coded = { Prim.hlevel (codes, tree_code) };

    ghost view = { forms_in };

    ghost invariant = { AreFormsKept };
}

impl Forms {
    /// Before the first line: the formula has the variables up to a number, and these weights are
    /// what it costs that the relaxation literals are true.
    ///
    /// # Errors
    ///
    /// `AllocError` where memory was refused.
    pub fn new(alloc: Global, variables: u32, weights: &[Relaxation]) -> Result<Self, AllocError>
        requires few { variables < 2 ^ 25 }
        requires within { All (λ r. r.lit.variable ≤ variables) weights.now }
        requires sum { sum_by (λ r. r.weight) weights.now < NUMBER_LIMIT }
        ensures { IfOk result (λ f. f ≡ forms_of variables (map weight_in weights.now)) }
    {
        let mut bound = CostBound::new(alloc, variables as usize + 1)?;
        for weight in weights {
            bound.add_weight(weight.lit, weight.weight);
        }
        Ok(Forms {
            variables,
            bound,
            has_form: false,
            numbered: Vec::new(alloc),
            present: 0,
            made: 0,
            terms: 0,
            marks: Marks::new(alloc, variables)?,
        })
    }

    /// A unit clause is live from now on: its variable has a value, unless it had one.
    ///
    /// # Errors
    ///
    /// `AllocError` where memory was refused; then nothing has changed.
    pub fn hear(&mut self, unit: Lit) -> Result<(), AllocError>
        ensures ok { OnOk result (self.new ≡ heard (unit ∷ []) self.old) }
        ensures err { OnErr result (self.new ≡ self.old) }
    {
        self.bound.widen(unit.variable() as usize + 1)?;
        self.bound.fix(unit);
        Ok(())
    }

    /// Says the limits of the state; it does nothing. `Instance::limits` has the reason.
    pub fn limits(&self)
        ensures { self.now.variables < VARIABLE_LIMIT }
    {
        let _ = &self.variables;
    }

    /// Says that the clauses of each line that makes some have two literals or more, of different
    /// variables up to the greatest one that the line leaves; it does nothing. `Instance::limits`
    /// has the reason.
    pub fn clause_limits(&self)
        ensures { MakesStageClauses self.now }
    {
        let _ = &self.variables;
    }

    /// The greatest variable of the formula and of counts: below 2^26.
    pub fn variables(&self) -> u32
        ensures variables { result ≡ self.now.variables }
        ensures small { result < VARIABLE_LIMIT }
    {
        self.variables
    }

    /// The least value of the present form.
    pub fn least(&self) -> i128
        ensures { result ≡ least self.now.form }
    {
        self.bound.least()
    }

    /// What a variable adds to the present form that is true; 0 where it has no place.
    pub fn coefficient(&self, variable: u32) -> i128
        ensures { result ≡ (pos self.now.form.scale *ℤ coefficient self.now.form.cost variable)
            +ℤ coefficient self.now.form.added variable }
    {
        self.bound.coefficient(variable as usize)
    }

    /// How many times the present form has the cost: below 2^62.
    pub fn scale(&self) -> u64
        ensures scale { result ≡ self.now.form.scale }
        ensures small { result < NUMBER_LIMIT }
    {
        self.bound.scale()
    }

    /// The value that a unit clause has given a variable, if one has.
    pub fn value(&self, variable: u32) -> Option<bool>
        ensures { result ≡ slice_index_or self.now.form.fixed variable None }
    {
        self.bound.value(variable)
    }

    /// The literals of the count or group with a number, if there is one.
    pub fn inputs(&self, number: u64) -> Option<&[Lit]>
        ensures { option_copied result
            ≡ option_map inputs_of (at_number self.now.numbered number) }
    {
        inputs_at(&self.numbered, number)
    }

    /// The outputs so far of the count with a number, if there is one: true where at least 1, 2, ..
    /// of its literals are.
    pub fn outputs(&self, number: u64) -> Option<&[Lit]>
        ensures { option_copied result ≡ outputs_at self.now.numbered number }
    {
        outputs_at(&self.numbered, number)
    }

    /// What a cut of these literals is worth, under the present form: it holds in each solution
    /// that costs less. None where it is worth no cost.
    ///
    /// # Errors
    ///
    /// `Name` where a variable is not there or stands twice, or there is no form.
    pub fn cut(&mut self, lits: &[Lit]) -> Result<Option<u64>, LineFault>
        ensures worth { result ≡ cut_line lits.now self.old }
        ensures unchanged { self.new ≡ self.old }
    {
        if !self.has_form || !self.are_known(lits) {
            return Err(LineFault::Name);
        }
        let least = self.bound.least_where_false(lits);
        Ok(worth_of(self.bound.scale(), least))
    }

    /// What the present form is worth: nothing costs less.
    ///
    /// # Errors
    ///
    /// `Name` where there is no form.
    pub fn bound(&self) -> Result<Option<u64>, LineFault>
        ensures { result ≡ bound_line self.now }
    {
        if !self.has_form {
            return Err(LineFault::Name);
        }
        Ok(worth_of(self.bound.scale(), self.bound.least()))
    }

    /// Whether the literals have different variables, all of which are there.
    fn are_known(&mut self, lits: &[Lit]) -> bool
        ensures known { result ≡ are_known self.old lits.now }
        ensures unchanged { self.new ≡ self.old }
    {
        greatest_variable(lits) <= self.variables && !repeats_variable(&mut self.marks, lits)
    }
}

impl Forms {
    /// A group of these literals: at most one of them is true, as clauses with these ids say, one
    /// for each of the pairs (1, 2), (1, 3), (2, 3), (1, 4), .. in turn. Answers why the line is
    /// refused, if it is: `Name`.
    ///
    /// # Errors
    ///
    /// `AllocError` where memory was refused.
    pub fn group<T: ClauseTable>(
        &mut self,
        table: &T,
        lits: &[Lit],
        ids: &[u64],
    ) -> Result<Option<LineFault>, AllocError>
        ensures { IfOk result (λ fault. IsTaken
            (group_line (T.at table.now) lits.now ids.now self.old) self.old self.new fault) }
    {
        if lits.len() < 2 || !self.are_known(lits) || !are_excluded(table, lits, ids) {
            return Ok(Some(LineFault::Name));
        }
        let alloc = *self.numbered.allocator();
        let lits = Vec::from_slice(alloc, lits)?;
        self.numbered.push(Numbered::Group(lits))?;
        Ok(None)
    }
}
