// Judging bits by an instance: whether they are a solution, and what they cost.
ghost use Rattle.std.specs.Prelude.{◌≡◌, ◌≤◌, IsTrue, ◌↔◌, All, length};
ghost use Rattle.std.specs.List.{list_all};
ghost use Rattle.cnf.specs.Literal.{Assignment, literal_value};
ghost use Rattle.cnf.specs.Clause.{clause_value};
ghost use Rattle.cnf.specs.Problem.{IsFeasible, cost_under};
ghost use Rattle.cnf.specs.Bits.{Extends};

use crate::clause_list::ClauseList;
use crate::types::{Instance, Lit};

impl Instance {
    /// Whether the bits satisfy every hard clause.
    ///
    /// There is one bit for each variable, from variable 1.
    pub fn feasible(&self, bits: &[bool]) -> bool
        requires { length bits.now ≡ self.now.variables }
        ensures { (t : Assignment) → Extends bits.now t → (IsTrue result ↔ IsFeasible self.now t) }
    {
        prove!(bits.len() == self.vars() as usize);
        are_satisfied(self.hard(), bits)
    }

    /// What the bits cost: the weights of the soft clauses that they make false, each clause by
    /// itself.
    ///
    /// There is one bit for each variable, from variable 1. The cost is below 2^62.
    pub fn cost(&self, bits: &[bool]) -> u64
        requires { length bits.now ≡ self.now.variables }
        ensures { (t : Assignment) → Extends bits.now t → result ≡ cost_under self.now t }
    {
        prove!(bits.len() == self.vars() as usize);
        let mut cost = 0;
        for soft in self.soft() {
            if !is_satisfied(soft.clause().lits(), bits) {
                cost += soft.weight();
            }
        }
        cost
    }
}

// Whether the bits make every clause true.
fn are_satisfied(clauses: &ClauseList, bits: &[bool]) -> bool
    requires { All (λ c. All (λ l. l.variable ≤ length bits.now) c) clauses.now }
    ensures { (t : Assignment) → Extends bits.now t
        → result ≡ list_all (clause_value t) clauses.now }
{
    clauses.iter().all(|clause| is_satisfied(clause, bits))
}

// Whether the bits make some literal of the clause true.
fn is_satisfied(clause: &[Lit], bits: &[bool]) -> bool
    requires { All (λ l. l.variable ≤ length bits.now) clause.now }
    ensures { (t : Assignment) → Extends bits.now t → result ≡ clause_value t clause.now }
{
    clause.iter().any(|lit| is_true(*lit, bits))
}

// Whether the bits make the literal true.
fn is_true(lit: Lit, bits: &[bool]) -> bool
    requires { lit.variable ≤ length bits.now }
    ensures { (t : Assignment) → Extends bits.now t → result ≡ literal_value t lit }
{
    bits[lit.variable() as usize - 1] != lit.is_negated()
}
