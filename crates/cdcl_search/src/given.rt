// The clauses that a solver was given, in flat memory: four bytes for each literal, and four for
// each clause. Those of the formula are its own list, whose places tell their numbers; only clauses
// that came later have a number each, in eight bytes more.
ghost use Rattle.std.specs.Prelude.{◌≡◌, ◌<◌, Some, [], ◌∷◌, ◌++◌, length, slice_get, map};
ghost use Rattle.std.specs.Prelude.{IfOk, IsErr, OnOk, OnErr, ◌≤◌};
ghost use Rattle.cnf.specs.declared.limits.TheConstants.{MOST_PLACES};
ghost use Rattle.lrat_log.specs.declared.lines.Name.TheVariants.{Formula};
ghost use Rattle.lrat_log.specs.Log.{clauses_in};
ghost use Rattle.lrat_log.specs.Steps.{given_of};

use cnf::clause_list::ClauseList;
use cnf::limits::MOST_PLACES;
use cnf::types::Lit;
use lrat_log::lines::{Name, Number};
use std::alloc::AllocError;
use std::marker::Model;

/// A list of clauses with their names, each that of a clause of the formula.
#[derive(Drop)]
pub struct GivenClauses {
    // How many clauses are those of the formula: the first ones, whose numbers are 1, 2, and so on.
    first: usize,
    // For each clause behind those, the number in its name.
    later: Vec<Number>,
    // By place, the clause's literals; fewer than 2^32 clauses.
    clauses: ClauseList,
}

impl Model for GivenClauses {
    ghost use Rattle.std.specs.Prelude.{◌≡◌, ◌+◌, ◌≤◌, length};
    ghost use Rattle.cnf.specs.declared.limits.TheConstants.{MOST_PLACES};
    ghost use Rattle.clauses.specs.Zipped.{zipped};
    ghost use Rattle.lrat_log.specs.Log.{Given};
    ghost use Rattle.cdcl_search.specs.GivenNumbers.{given_as, numbers_with};

    ghost Value = { Given };

    ghost view = { λ g. zipped given_as (numbers_with g.first g.later.items) g.clauses };

    ghost invariant = { λ g. (length g.clauses ≡ g.first + length g.later.items)
        × (length g.clauses ≤ MOST_PLACES) };
}

impl GivenClauses {
    /// The clauses of a formula, by name. It takes no memory.
    ///
    /// # Errors
    ///
    /// `AllocError` where there are more than 2^32 - 1.
    pub fn of(clauses: ClauseList) -> Result<Self, AllocError>
        ensures ok { IfOk result (λ given. given ≡ given_of clauses) }
        ensures err { IsErr result → MOST_PLACES < length clauses }
    {
        let first = clauses.len();
        if first > MOST_PLACES {
            return Err(AllocError);
        }
        Ok(GivenClauses {
            first,
            later: Vec::new(clauses.allocator()),
            clauses,
        })
    }

    /// How many clauses there are.
    pub fn len(&self) -> usize
        ensures len { result ≡ length self.now }
        ensures few { result ≤ MOST_PLACES }
    {
        self.clauses.len()
    }

    /// The name of the clause at this place, from 0.
    pub fn name(&self, place: usize) -> Name
        requires { place < length self.now }
        ensures { slice_get (map (λ g. g.0) self.now) place ≡ Some result }
    {
        if place < self.first {
            return Name::Formula(Number::new(place as u64 + 1));
        }
        Name::Formula(self.later[place - self.first])
    }

    /// The literals of the clause at this place, from 0.
    pub fn lits(&self, place: usize) -> &[Lit]
        requires { place < length self.now }
        ensures { slice_get (clauses_in self.now) place ≡ Some result.now }
    {
        self.clauses.get(place)
    }

    /// Puts a clause last, under the name with this number.
    ///
    /// # Errors
    ///
    /// `AllocError` where memory was refused, or where more than 2^32 - 1 clauses or literals would
    /// be held. The clauses are then as they were.
    pub(crate) fn push(&mut self, number: Number, lits: &[Lit]) -> Result<(), AllocError>
        ensures ok { OnOk result (self.new ≡ self.old ++ (Formula number, lits.now) ∷ []) }
        ensures err { OnErr result (self.new ≡ self.old) }
    {
        if self.clauses.len() >= MOST_PLACES {
            return Err(AllocError);
        }
        // Room comes first, so that a refused growth changes nothing.
        self.later.reserve(1)?;
        self.clauses.push(lits)?;
        self.later.push(number)?;
        Ok(())
    }
}
