// Lines over names. A solver does not know under which ids a certificate will have its clauses,
// since that depends on the formula that is given to the checker. So its lines speak of clauses by
// name: a clause of the formula by its number there, and a clause that the log added by its number
// among the additions.
ghost use Rattle.std.specs.Prelude.{◌≡◌, ℕ, ◌<◌};
ghost use Rattle.cnf.specs.declared.limits.TheConstants.{NUMBER_LIMIT};

use std::marker::Model;

/// A number from 1, below 2^62.
#[derive(Clone, Copy, Debug, PartialEq, Eq, Drop)]
pub struct Number {
    // From 1 to 2^62 - 1.
    value: u64,
}

impl Model for Number {
    ghost use Rattle.std.specs.Prelude.{ℕ, ◌<◌};
    ghost use Rattle.cnf.specs.declared.limits.TheConstants.{NUMBER_LIMIT};

    ghost Value = { ℕ };

    ghost view = { λ n. n.value };

    ghost invariant = { λ n. (0 < n.value) × (n.value < NUMBER_LIMIT) };

    ghost inverse = { λ v. record { value = v } };
}

impl Number {
    /// The number with this value.
    pub fn new(value: u64) -> Self
        requires from_one { 0 < value }
        requires small { value < NUMBER_LIMIT }
        ensures { result ≡ value }
    {
        Number { value }
    }

    /// The value, from 1 and below 2^62.
    pub fn get(self) -> u64
        ensures value { result ≡ self }
        ensures from_one { 0 < result }
        ensures small { result < NUMBER_LIMIT }
    {
        self.value
    }
}

/// A clause by its number: of the formula, or among the additions of the log, each counted from 1.
#[derive(Clone, Copy, Debug, PartialEq, Eq, Drop)]
pub enum Name {
    /// The clause of the formula with this number.
    Formula(Number),
    /// The clause that was added by the addition with this number. Deletions are not counted.
    Added(Number),
}

/// A clause that an addition follows from, or that a deletion deletes (Cruz-Filipe et al. 2017).
#[derive(Clone, Copy, Debug, PartialEq, Eq, Drop)]
pub enum Hint {
    /// A clause that is a unit, or empty, under the negation of the new clause and the units before
    /// it.
    Plain(Name),
    /// A clause with the negation of the new clause's first literal. The hints up to the next group
    /// are those by which the resolvent with it follows.
    Group(Name),
}

/// What a line is for.
#[derive(Clone, Copy, Debug, PartialEq, Eq, Drop)]
pub enum Kind {
    /// Adds a clause that search learned.
    Learned,
    /// Adds a clause of one literal.
    Unit,
    /// Adds a clause that others give by resolution.
    Resolvent,
    /// Adds a clause of the definition of a new variable.
    Definition,
    /// Adds a clause that has another one as a subset.
    Weaker,
    /// Deletes the clauses that its hints name.
    Delete,
    /// Adds the empty clause.
    Empty,
    /// Adds a clause from outside the log, which has no hints.
    Axiom,
}

impl Kind {
    ghost use Rattle.lrat_log.specs.Log.{is_delete};

    /// Whether lines of this kind delete. All others add a clause.
    pub fn is_delete(self) -> bool
        ensures { result ≡ is_delete self }
    {
        match self {
            Kind::Delete => true,
            Kind::Learned
            | Kind::Unit
            | Kind::Resolvent
            | Kind::Definition
            | Kind::Weaker
            | Kind::Empty
            | Kind::Axiom => false,
        }
    }
}
