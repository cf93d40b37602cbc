// Literals, clauses, instances and formulas: the values that the other crates speak of, whose types
// keep the limits of the text form.
ghost use Rattle.std.specs.Prelude.{◌≡◌, ◌*◌, ◌<◌, ◌^◌, false, IfOk, List};
ghost use Rattle.cnf.specs.declared.limits.TheConstants.{VARIABLE_LIMIT};
ghost use Rattle.cnf.specs.Literal.{Literal, negation, index_of};
ghost use Rattle.cnf.specs.Clause.{has_repeat};
ghost use Rattle.cnf.specs.Problem.{Problem, SoftClause};
ghost use Rattle.cnf.specs.Instance.{IsInstance};
ghost use Rattle.cnf.specs.Formula.{Cnf, IsFormula};

use crate::clause_list::ClauseList;
use std::alloc::{AllocError, Global};
use std::marker::Model;

/// A literal: a variable or its negation (Handbook of Satisfiability). It takes four bytes.
///
/// A variable is a number from 1, below 2^27 (`limits::VARIABLE_LIMIT`).
/// A positive literal is true when its variable is, and a negated one when its variable is not.
#[derive(Clone, Copy, Debug, PartialEq, Eq, Drop)]
pub struct Lit {
    // Twice the variable, and one more for negation: from 2 to 2^28 - 1.
    code: u32,
}

impl Model for Lit {
    ghost use Rattle.std.specs.Prelude.{◌≤◌, ◌<◌, ◌^◌};
    ghost use Rattle.cnf.specs.Literal.{Literal};

    ghost Value = { Literal };

    ghost use Rattle.cnf.specs.Packed.{literal_in, code_of, code_of-literal_in};

    ghost view = { literal_in };

    ghost invariant = { λ l. (2 ≤ l.code) × (l.code < 2 ^ 28) };

    ghost inverse = { code_of };

    ghost inverse_ok = { λ l _. code_of-literal_in l };
}

impl Lit {
    /// The variable itself, or its negation where `negated` is set.
    pub fn new(variable: u32, negated: bool) -> Self
        requires from_one { 0 < variable }
        requires small { variable < VARIABLE_LIMIT }
        ensures { result ≡ record { variable = variable; negated = negated } }
    {
        Lit {
            code: 2 * variable + u32::from(negated),
        }
    }

    /// The variable, from 1.
    pub fn variable(self) -> u32
        ensures variable { result ≡ self.variable }
        ensures from_one { 0 < result }
        ensures small { result < VARIABLE_LIMIT }
    {
        self.code / 2
    }

    /// Whether this is the negation of its variable.
    pub fn is_negated(self) -> bool
        ensures { result ≡ self.negated }
    {
        self.code % 2 == 1
    }

    /// The literal of the same variable that is true when this one is not.
    pub fn negation(self) -> Self
        ensures { result ≡ negation self }
    {
        Lit {
            code: self.code ^ 1,
        }
    }

    /// The literal's place in a table with one row for each literal: 0 and 1 for variable 1 and its
    /// negation, 2 and 3 for variable 2, and so on.
    pub fn index(self) -> usize
        ensures index { result ≡ index_of self }
        ensures within { result < 2 * self.variable }
        ensures small { result < 2 ^ 28 }
    {
        self.code as usize - 2
    }
}

/// Variable 1 itself. It fills room that holds no literal yet, as in vectors that keep a few
/// elements inline.
impl Default for Lit {
    ghost is_default = { λ l. l ≡ record { variable = 1; negated = false } };

    fn default() -> Self {
        Lit::new(1, false)
    }
}

const _: () = prove!(size_of::<Lit>() == 4);

/// A clause: literals, none of them twice (Handbook of Satisfiability).
///
/// It is true when some literal of it is true, so the empty clause never is.
/// A variable may stand beside its negation, and then the clause is always true.
#[derive(Drop)]
pub struct Clause {
    // In the order of the text, or of what built the clause.
    lits: Vec<Lit>,
}

impl Model for Clause {
    ghost Value = { List Literal };

    ghost view = { λ c. c.lits.items };

    ghost invariant = { λ c. has_repeat c.lits.items ≡ false };
}

impl Clause {
    /// The clause with these literals, in this order.
    pub fn new(lits: Vec<Lit>) -> Self
        requires { has_repeat lits.items ≡ false }
        ensures { result ≡ lits.items }
    {
        Clause { lits }
    }

    /// The literals, in the order in which they were given.
    pub fn lits(&self) -> &[Lit]
        ensures lits { result.now ≡ self.now }
        ensures no_repeat { has_repeat self.now ≡ false }
    {
        &self.lits
    }
}

/// A soft clause and its weight, from 1: what it costs to make the clause false (MaxSAT Evaluation
/// 2022).
#[derive(Drop)]
pub struct Soft {
    // From 1, below 2^62.
    weight: u64,
    // What is falsified at this price.
    clause: Clause,
}

impl Model for Soft {
    ghost Value = { SoftClause };

    ghost view = { λ s. record { weight = s.weight; clause = s.clause } };

    ghost invariant = { λ s. 0 < s.weight };
}

impl Soft {
    /// The clause with this weight.
    pub fn new(weight: u64, clause: Clause) -> Self
        requires { 0 < weight }
        ensures { result ≡ record { weight = weight; clause = clause } }
    {
        Soft { weight, clause }
    }

    /// What it costs to make the clause false, from 1.
    pub fn weight(&self) -> u64
        ensures { result ≡ self.now.weight }
    {
        self.weight
    }

    /// The clause without its weight.
    pub fn clause(&self) -> &Clause
        ensures { result.now ≡ self.now.clause }
    {
        &self.clause
    }
}

/// An instance of weighted partial MaxSAT: hard clauses, which a solution makes true, and soft
/// clauses, whose weights it pays where they are false (MaxSAT Evaluation 2022).
///
/// There are at most 2^22 variables, 2^22 hard clauses and 2^18 soft clauses, with at most 2^26
/// literals together. The weights sum to less than 2^62, and no literal has a variable above
/// `vars`.
#[derive(Drop)]
pub struct Instance {
    // The greatest variable, or that of the header; at most 2^22.
    vars: u32,
    // In the order of the text.
    hard: ClauseList,
    // In the order of the text.
    soft: Vec<Soft>,
}

impl Model for Instance {
    ghost Value = { Problem };

    ghost view = { λ i. record { variables = i.vars; hard = i.hard; soft = i.soft.items } };

    ghost invariant = { λ i.
        IsInstance (record { variables = i.vars; hard = i.hard; soft = i.soft.items }) };
}

impl Instance {
    /// The instance over the variables 1 to `vars`, with the clauses in this order.
    pub fn new(vars: u32, hard: ClauseList, soft: Vec<Soft>) -> Self
        requires { IsInstance (record { variables = vars; hard = hard; soft = soft.items }) }
        ensures { result ≡ record { variables = vars; hard = hard; soft = soft.items } }
    {
        Instance { vars, hard, soft }
    }

    /// How many variables there are: they are the numbers from 1 to this one.
    pub fn vars(&self) -> u32
        ensures vars { result ≡ self.now.variables }
        ensures limits { IsInstance self.now }
    {
        self.vars
    }

    /// Says the limits of each instance; it does nothing.
    ///
    /// A contract that speaks of an instance behind a reference knows them once the body has called
    /// a method of it. A body that calls no other for its own sake calls this one.
    pub fn limits(&self)
        ensures { IsInstance self.now }
    {
        let _ = &self.vars;
    }

    /// The hard clauses in the order of the text.
    pub fn hard(&self) -> &ClauseList
        ensures { result.now ≡ self.now.hard }
    {
        &self.hard
    }

    /// The soft clauses in the order of the text, each entry by itself.
    pub fn soft(&self) -> &[Soft]
        ensures { result.now ≡ self.now.soft }
    {
        &self.soft
    }

    /// Where the clauses take their memory from.
    pub fn allocator(&self) -> Global {
        self.hard.allocator()
    }
}

/// A formula in conjunctive normal form: clauses, numbered from 1 in their order (Handbook of
/// Satisfiability).
///
/// No clause has a literal twice, or a variable beside its negation. There are fewer than 2^26
/// variables, and no literal has a variable above `vars`.
#[derive(Drop)]
pub struct Formula {
    // Below 2^26; no literal has a greater variable.
    vars: u32,
    // Clause i stands at place i - 1.
    clauses: ClauseList,
}

impl Model for Formula {
    ghost Value = { Cnf };

    ghost view = { λ f. record { variables = f.vars; clauses = f.clauses } };

    ghost invariant = { λ f. IsFormula (record { variables = f.vars; clauses = f.clauses }) };
}

impl Formula {
    /// The formula over the variables 1 to `vars`, with the clauses in this order.
    pub fn new(vars: u32, clauses: ClauseList) -> Self
        requires { IsFormula (record { variables = vars; clauses = clauses }) }
        ensures { result ≡ record { variables = vars; clauses = clauses } }
    {
        Formula { vars, clauses }
    }

    /// How many variables there are: they are the numbers from 1 to this one.
    pub fn vars(&self) -> u32
        ensures vars { result ≡ self.now.variables }
        ensures limits { IsFormula self.now }
    {
        self.vars
    }

    /// Says the limits of each formula; it does nothing. `Instance::limits` has the reason.
    pub fn limits(&self)
        ensures { IsFormula self.now }
    {
        let _ = &self.vars;
    }

    /// The clauses, of which the first is number 1.
    pub fn clauses(&self) -> &ClauseList
        ensures { result.now ≡ self.now.clauses }
    {
        &self.clauses
    }

    /// The same formula in memory of its own.
    ///
    /// # Errors
    ///
    /// `AllocError` where memory was refused.
    pub fn try_clone(&self) -> Result<Formula, AllocError>
        ensures { IfOk result (λ copy. copy ≡ self.now) }
    {
        Ok(Formula {
            vars: self.vars,
            clauses: self.clauses.try_clone()?,
        })
    }

    /// The clauses, taken out of the formula.
    pub fn into_clauses(self) -> ClauseList
        ensures { result ≡ self.clauses }
    {
        self.clauses
    }

    /// Where the clauses take their memory from.
    pub fn allocator(&self) -> Global {
        self.clauses.allocator()
    }
}
