// The literals that are assumed true. A table answers in one look-up whether a literal is, and the
// list of those that are undoes them, so that the table is never cleared as a whole.
ghost use Rattle.std.specs.Prelude.{◌≡◌, ℕ, ◌<◌, ◌≤◌, ◌∷◌, [], ◌++◌, false, OnOk, OnErr};
ghost use Rattle.std.specs.Prelude.{length, take};
ghost use Rattle.cnf.specs.declared.limits.TheConstants.{VARIABLE_LIMIT};
ghost use Rattle.cnf.specs.Clause.{contains_literal};
ghost use Rattle.lrat_machine.specs.Assumed.{AreValues};

use cnf::types::Lit;
use std::alloc::{AllocError, Global};
use std::marker::Model;

/// The literals that are assumed true, in the order in which they were assumed.
#[derive(Drop)]
pub(crate) struct AssumedLits {
    /// By a literal's index, whether it is assumed; two for each variable that may be.
    values: Vec<bool>,
    /// The greatest variable that may be assumed, below 2^27.
    variables: u32,
    /// The literals in the order in which they were assumed, each once.
    trail: Vec<Lit>,
}

impl Model for AssumedLits {
    ghost use Rattle.lrat_machine.specs.Assumed.{AssumedState, AreValues};

    ghost Value = { AssumedState };

    ghost view = { λ a. record { literals = a.trail.items; variables = a.variables } };

    ghost invariant = { λ a. AreValues a.values.items a.variables a.trail.items };
}

impl AssumedLits {
    /// No literal, and no variable that may be assumed.
    pub(crate) fn new(alloc: Global) -> Self
        ensures { result ≡ record { literals = []; variables = 0 } }
    {
        AssumedLits {
            values: Vec::new(alloc),
            variables: 0,
            trail: Vec::new(alloc),
        }
    }

    /// How many literals are assumed.
    pub(crate) fn len(&self) -> usize
        ensures { result ≡ length self.now.literals }
    {
        self.trail.len()
    }

    /// The literals that are assumed.
    pub(crate) fn literals(&self) -> &[Lit]
        ensures { result.now ≡ self.now.literals }
    {
        &self.trail
    }

    /// Lets the variables up to this one be assumed.
    pub(crate) fn grow(&mut self, variable: u32) -> Result<(), AllocError>
        requires { variable < VARIABLE_LIMIT }
        ensures ok { OnOk result (variable ≤ self.new.variables) }
        ensures more { self.old.variables ≤ self.new.variables }
        ensures literals { self.new.literals ≡ self.old.literals }
        ensures err { OnErr result (self.new ≡ self.old) }
    {
        if self.variables < variable {
            self.values.resize(2 * variable as usize, false)?;
            self.variables = variable;
        }
        Ok(())
    }

    /// Whether the literal is assumed true; where its negation is, the literal is false.
    pub(crate) fn is_true(&self, lit: Lit) -> bool
        requires { lit.variable ≤ self.now.variables }
        ensures { result ≡ contains_literal lit self.now.literals }
    {
        self.values[lit.index()]
    }

    /// Assumes one literal more.
    pub(crate) fn assume(&mut self, lit: Lit) -> Result<(), AllocError>
        requires within { lit.variable ≤ self.old.variables }
        requires not_true { contains_literal lit self.old.literals ≡ false }
        ensures ok { OnOk result (self.new
            ≡ record { literals = self.old.literals ++ lit ∷ []; variables = self.old.variables }) }
        ensures err { OnErr result (self.new ≡ self.old) }
    {
        self.trail.push(lit)?;
        self.values[lit.index()] = true;
        Ok(())
    }

    /// Takes back all but the first `len` literals.
    pub(crate) fn undo_to(&mut self, len: usize)
        ensures { self.new
            ≡ record { literals = take len self.old.literals; variables = self.old.variables } }
    {
        if len < self.trail.len() {
            clear(&mut self.values, &self.trail, len);
            self.trail.truncate(len);
        }
    }
}

/// Takes back the values of all but the first `len` literals, that of the last one first.
fn clear(values: &mut [bool], trail: &[Lit], len: usize)
    requires within { len ≤ length trail.now }
    requires table { (n : ℕ) × AreValues values.old n trail.now }
    ensures { (n : ℕ) → AreValues values.old n trail.now
        → AreValues values.new n (take len trail.now) }
{
    let mut left = trail.len();
    while left > len {
        left -= 1;
        values[trail[left].index()] = false;
    }
}
