// The literals that are true, with tables by which a value, a level or a reason is found in one
// step.
//
// A search writes here for each literal that becomes true (`push`) and each that a backtrack undoes
// (`undo`), some 900 times a conflict each. There is room for all variables, so `push` asks for
// none, and it is inlined where the reason is known. `undo` goes over the end of the trail once, 14
// instructions a literal: literals that are popped one by one, each with the count of decisions,
// take 28. A level that stays behind where a value is taken away saves five of these and a write,
// but then who asks for a level has to look at the value first: in all 0.5 % more instructions, and
// 1 % fewer misses of a cache of 32 KB, more of which are reads (package choice 400 2,
// 3000 conflicts).
ghost use Rattle.std.specs.Prelude.{◌≡◌, ◌+◌, ◌<◌, ◌≤◌, ◌*◌, not, true, false, IsTrue, ◌↔◌, []};
ghost use Rattle.std.specs.Prelude.{◌∷◌, ◌++◌, Some, None, length, take, All, IfOk, slice_set};
ghost use Rattle.std.specs.Option.{option_map};
ghost use Rattle.cnf.specs.Literal.{index_of, negation};
ghost use Rattle.propagate_trail.specs.Trail.{IsVariable, literals_of, depth_of, value_in};
ghost use Rattle.propagate_trail.specs.Trail.{level_in, position_in, reason_in, kept_to};
ghost use Rattle.propagate_trail.specs.Tables.{IsTrail, assigned_by};
ghost use Rattle.propagate_trail.specs.Renames.{named_trail};

use crate::truth::Truth;
use crate::vardata::VarTable;
use clauses::store::{CRef, Moves};
use cnf::types::Lit;
use std::alloc::{AllocError, Global};
use std::marker::Model;

/// Literals in the order in which they became true. It has room for all variables, so it takes
/// memory only when it is made.
#[derive(Drop)]
pub struct Trail {
    // The number of variables, at most 2^32 - 2.
    variables: u32,
    // The literals that are true, in the order in which they became so: no two of one variable,
    // each of a variable from 1 to `variables`.
    literals: Vec<Lit>,
    // By literal, two for each variable: true, false or open.
    values: Vec<Truth>,
    // By variable, from 0, which no literal has: level, position and reason.
    vardata: VarTable,
    // The number of decisions on the trail: the current level.
    depth: u32,
}

impl Model for Trail {
    ghost use Rattle.std.specs.Prelude.{vec_capacity};
    ghost use Rattle.propagate_trail.specs.Trail.{TrailState};
    ghost use Rattle.propagate_trail.specs.Tables.{assigned_by, IsTrail};

    ghost Value = { TrailState };

    ghost view = { λ t. record {
      variables = t.variables;
      assigned =
          assigned_by t.vardata.reasons t.literals.items;
    } };

    ghost invariant = { λ t. IsTrail t.variables t.literals.items t.values.items t.vardata.levels
        t.vardata.positions t.vardata.reasons t.depth (vec_capacity t.literals) };
}

/// Writes the value of a literal, and of its negation.
fn set_value(values: &mut Vec<Truth>, lit: Lit, value: Option<bool>)
    requires { 2 * lit.variable ≤ length values.old.items }
    ensures { values.new.items ≡ slice_set (slice_set values.old.items (index_of lit) value)
        (index_of (negation lit)) (option_map not value) }
{
    values[lit.index()] = Truth::new(value);
    values[lit.negation().index()] = Truth::new(value.map(|v| !v));
}

/// Takes the values and the levels of the literals from place `keep` on away, the last one first.
/// Only the contract reads `variables`.
fn undo(
    values: &mut Vec<Truth>,
    vardata: &mut VarTable,
    literals: &[Lit],
    keep: usize,
    variables: u32,
)
    requires tables { IsTrail variables literals.now values.old.items vardata.old.levels
        vardata.old.positions vardata.old.reasons
        (depth_of (assigned_by vardata.old.reasons literals.now)) variables }
    requires within { keep ≤ length literals.now }
    ensures tables { IsTrail variables (take keep literals.now) values.new.items vardata.new.levels
        vardata.new.positions vardata.new.reasons
        (depth_of (assigned_by vardata.old.reasons (take keep literals.now))) variables }
    ensures reasons { vardata.new.reasons ≡ vardata.old.reasons }
{
    let mut at = literals.len();
    while at > keep {
        at -= 1;
        let lit = literals[at];
        set_value(values, lit, None);
        vardata.clear(lit.variable() as usize);
    }
}

impl Trail {
    /// A trail over the variables from 1 to `variables`, on which nothing is true.
    ///
    /// # Errors
    ///
    /// `AllocError` where memory was refused; for 2^32 - 1 variables it always is.
    pub fn new(alloc: Global, variables: u32) -> Result<Self, AllocError>
        ensures { IfOk result (λ t. t ≡ record { variables = variables; assigned = [] }) }
    {
        if variables == u32::MAX {
            return Err(AllocError);
        }
        let count = variables as usize;
        let literals = Vec::with_capacity(alloc, count)?;
        let mut values = Vec::new(alloc);
        values.resize(2 * count, Truth::new(None))?;
        let vardata = VarTable::new(alloc, count + 1)?;
        Ok(Trail {
            variables,
            literals,
            values,
            vardata,
            depth: 0,
        })
    }

    /// The number of variables, at most 2^32 - 2.
    pub fn variables(&self) -> u32
        ensures { result ≡ self.now.variables }
    {
        self.variables
    }

    /// Whether a literal is true; none where it is open. In constant time, as all that is asked of
    /// one literal or variable.
    pub fn value(&self, lit: Lit) -> Option<bool>
        requires { lit.variable ≤ self.now.variables }
        ensures { result ≡ value_in self.now.assigned lit }
    {
        self.values[lit.index()].get()
    }

    /// Whether a literal is true: it is not where it is false or open.
    pub fn is_true(&self, lit: Lit) -> bool
        requires { lit.variable ≤ self.now.variables }
        ensures { IsTrue result ↔ (value_in self.now.assigned lit ≡ Some true) }
    {
        self.values[lit.index()].is_true()
    }

    /// Whether a literal is false, its negation true: it is not where it is true or open.
    pub fn is_false(&self, lit: Lit) -> bool
        requires { lit.variable ≤ self.now.variables }
        ensures { IsTrue result ↔ (value_in self.now.assigned lit ≡ Some false) }
    {
        self.values[lit.index()].is_false()
    }

    /// How many decisions stand up to the literal of a variable, from 0 to `depth`; none where it
    /// has no value.
    pub fn level(&self, variable: u32) -> Option<u32>
        requires { variable ≤ self.now.variables }
        ensures { result ≡ level_in self.now.assigned variable }
    {
        self.vardata.level(variable as usize)
    }

    /// How many literals stand before that of a variable, from 0; none where it has no value.
    pub fn position(&self, variable: u32) -> Option<u32>
        requires { variable ≤ self.now.variables }
        ensures { result ≡ position_in self.now.assigned variable }
    {
        match self.vardata.level(variable as usize) {
            Some(_) => Some(self.vardata.position(variable as usize)),
            None => None,
        }
    }

    /// The clause by which a variable has its value; none for a decision and where it has none.
    pub fn reason(&self, variable: u32) -> Option<CRef>
        requires { variable ≤ self.now.variables }
        ensures { result ≡ reason_in self.now.assigned variable }
    {
        match self.vardata.level(variable as usize) {
            Some(_) => self.vardata.reason(variable as usize),
            None => None,
        }
    }

    /// The literals that are true, in the order in which they became so.
    pub fn literals(&self) -> &[Lit]
        ensures literals { result.now ≡ literals_of self.now.assigned }
        ensures within { All (IsVariable self.now.variables) result.now }
    {
        &self.literals
    }

    /// How many literals are true: at most one for each variable.
    pub fn len(&self) -> usize
        ensures len { result ≡ length self.now.assigned }
        ensures room { result ≤ self.now.variables }
    {
        self.literals.len()
    }

    /// How many decisions are on the trail: the current level, from 0.
    pub fn depth(&self) -> u32
        ensures { result ≡ depth_of self.now.assigned }
    {
        self.depth
    }

    /// Makes an open literal true, by a decision where there is no reason. It takes no memory.
    #[inline(always)]
    pub fn push(&mut self, lit: Lit, reason: Option<CRef>)
        requires small { lit.variable ≤ self.old.variables }
        requires open { value_in self.old.assigned lit ≡ None }
        ensures pushed { self.new ≡ record self.old
            { assigned = self.old.assigned ++ record { literal = lit; reason = reason } ∷ [] } }
        ensures from_one { 0 < lit.variable }
    {
        let variable = lit.variable() as usize;
        let position = self.literals.len() as u32;
        self.depth += u32::from(reason.is_none());
        set_value(&mut self.values, lit, Some(true));
        self.vardata.set(variable, self.depth, position, reason);
        self.literals.push_reserved(lit);
    }

    /// The level of the literal at a place.
    fn level_at(&self, place: usize) -> u32
        requires { place < length self.now.assigned }
        ensures { result ≡ depth_of (take (place + 1) self.now.assigned) }
    {
        let variable = self.literals[place].variable();
        self.vardata.level(variable as usize).unwrap_or(0)
    }

    /// How many literals the levels up to `level` have: levels rise along the trail, so a few of
    /// them tell.
    pub fn first_above(&self, level: u32) -> usize
        ensures kept { kept_to level self.now.assigned ≡ take result self.now.assigned }
        ensures within { result ≤ length self.now.assigned }
    {
        let mut first = 0;
        let mut end = self.len();
        while first < end {
            let middle = first + (end - first) / 2;
            if self.level_at(middle) <= level {
                first = middle + 1;
            } else {
                end = middle;
            }
        }
        end
    }

    /// Keeps the literals of the levels up to `level`, at the cost of those that it takes away. It
    /// takes no memory.
    pub fn backtrack(&mut self, level: u32)
        requires { level ≤ depth_of self.old.assigned }
        ensures { self.new ≡ record self.old { assigned = kept_to level self.old.assigned } }
    {
        let keep = self.first_above(level);
        undo(
            &mut self.values,
            &mut self.vardata,
            self.literals.as_slice(),
            keep,
            self.variables,
        );
        self.literals.truncate(keep);
        self.depth = level;
    }

    /// Puts the new references of clauses into the reasons; one that was not kept stays as it is.
    pub fn rename(&mut self, moves: &Moves)
        ensures { self.new ≡ record self.old {
          assigned =
              named_trail moves.now self.old.assigned;
        } }
    {
        self.vardata.rename(moves);
    }
}
