// The clause that is being read. Repeats in a long clause are found by a mark for each literal, so
// that n literals take n steps. In a short one each literal is compared with those before it: the
// marks of a million variables lie far apart, and asking for them took more than half of the time
// of a large text with short clauses.
ghost use Rattle.std.specs.Prelude.{◌≡◌, false, ◌<◌, ◌≤◌, max, List, [], ◌∷◌, ◌++◌, length};
ghost use Rattle.std.specs.Prelude.{All, MatchResult, Ok, Err, OnOk, IfOk, ◌⊎◌};
ghost use Rattle.cnf.specs.declared.limits.TheConstants.{MOST_VARIABLES, MOST_LITERALS};
ghost use Rattle.cnf.specs.Clause.{contains_literal, has_repeat};
ghost use Rattle.cnf.specs.Literal.{Literal};
ghost use Rattle.cnf.specs.Marks.{HasPlace, IsMarked};
ghost use Rattle.wcnf.specs.declared.gathering.TheConstants.{UNMARKED_LENGTH};
ghost use Rattle.wcnf.specs.Drafts.{with_literal, emptied, ended_at, gathered_at};

use crate::faults::FaultKind;
use cnf::limits::MOST_LITERALS;
use cnf::marks::Marks;
use cnf::types::Lit;
use std::alloc::{AllocError, Global};
use std::marker::Model;
use text::pieces::Tokens;
use text::words::{Word, read_word};

/// The most literals of a clause that has no marks.
pub(crate) const UNMARKED_LENGTH: usize = 8;

/// The clause that is being read, each literal once, and the greatest variable of the text so far.
#[derive(Drop)]
pub(crate) struct Gathering {
    // The greatest variable of the text so far, at most 2^22; 0 where there is none.
    vars: u32,
    // Of the literals of these variables: whether the clause has them, if it is a long one.
    marks: Marks,
    // The literals of the clause, in their order.
    lits: Vec<Lit>,
}

impl Model for Gathering {
    ghost use Rattle.wcnf.specs.declared.gathering.TheConstants.{UNMARKED_LENGTH};
    ghost use Rattle.wcnf.specs.Drafts.{Gathered, AreMarked};

    ghost Value = { Gathered };

    ghost view = { λ g. record { variables = g.vars; literals = g.lits.items } };

    ghost invariant = { λ g. AreMarked g.vars g.marks g.lits.items };
}

impl Gathering {
    /// No clause yet, and no variable.
    pub(crate) fn new(alloc: Global) -> Self
        ensures { result ≡ record { variables = 0; literals = [] } }
    {
        Gathering {
            vars: 0,
            marks: Marks::empty(alloc),
            lits: Vec::new(alloc),
        }
    }

    /// The greatest variable of the text so far.
    pub(crate) fn vars(&self) -> u32
        ensures { result ≡ self.now.variables }
    {
        self.vars
    }

    /// Begins the next clause.
    fn clear(&mut self)
        ensures { self.new ≡ emptied self.old.variables }
    {
        self.lits.clear();
    }

    /// Makes room for the marks of the variables up to this one, unless it is above `most`.
    fn cover(&mut self, variable: u32, most: u32) -> Result<(), FaultKind>
        requires most { most ≤ MOST_VARIABLES }
        requires covered { self.now.variables ≤ most }
        ensures covered { self.new.variables ≤ most }
        ensures cover { MatchResult result
            (λ _. (variable ≤ most)
            × (self.new ≡ record {
              variables = max self.old.variables variable;
              literals = self.old.literals;
            }))
            (λ k. (k ≡ FaultKind.Memory) ⊎ ((k ≡ FaultKind.Variable) × (most < variable))) }
    {
        if variable > self.vars {
            if variable > most {
                return Err(FaultKind::Variable);
            }
            self.marks.grow(variable).map_err(|_| FaultKind::Memory)?;
            self.vars = variable;
        }
        Ok(())
    }

    /// Whether the clause has the literal.
    fn has(&self, lit: Lit) -> bool
        requires from_one { 0 < lit.variable }
        requires covered { lit.variable ≤ self.now.variables }
        ensures { result ≡ contains_literal lit self.now.literals }
    {
        if self.lits.len() > UNMARKED_LENGTH {
            self.marks.is_marked(lit)
        } else {
            self.lits.contains(&lit)
        }
    }

    /// One more literal, unless the clause has it.
    fn add(&mut self, lit: Lit) -> Result<(), AllocError>
        requires from_one { 0 < lit.variable }
        requires covered { lit.variable ≤ self.now.variables }
        ensures vars { self.new.variables ≡ self.old.variables }
        ensures add { OnOk result (self.new.literals ≡ with_literal self.old.literals lit) }
    {
        if self.has(lit) {
            return Ok(());
        }
        self.lits.push(lit)?;
        mark_last(&mut self.marks, &self.lits, lit);
        Ok(())
    }

    /// Reads the clause of a line, from its first literal to the 0 that has to end it.
    ///
    /// `before` is the number of literals in the text before this line, and the result that number
    /// after it; `most` is the greatest variable that a literal may have.
    pub(crate) fn read(
        &mut self,
        before: usize,
        most: u32,
        mut words: Tokens<'_>,
    ) -> Result<usize, FaultKind>
        requires before { before ≤ MOST_LITERALS }
        requires most { most ≤ MOST_VARIABLES }
        requires covered { self.now.variables ≤ most }
        ensures within { IfOk result (λ n. n ≤ MOST_LITERALS) }
        ensures covered { self.new.variables ≤ most }
        ensures read { MatchResult result
            (λ n. gathered_at most (emptied self.old.variables) before words.entry
            ≡ Ok (self.new, n))
            (λ k. (k ≡ FaultKind.Memory)
            ⊎ (gathered_at most (emptied self.old.variables) before words.entry ≡ Err k)) }
    {
        self.clear();
        let mut count = before;
        while let Some(word) = words.next_word() {
            match word {
                Word::Literal(lit) => {
                    self.cover(lit.variable(), most)?;
                    if count >= MOST_LITERALS {
                        return Err(FaultKind::TooMany);
                    }
                    self.add(lit).map_err(|_| FaultKind::Memory)?;
                }
                Word::End => {
                    refuse_rest(words)?;
                    return Ok(count);
                }
                Word::Above => return Err(FaultKind::Variable),
                Word::Other => return Err(FaultKind::Literal),
            }
            count += 1;
        }
        Err(FaultKind::NoZero)
    }

    /// The literals of the clause that was read.
    pub(crate) fn lits(&self) -> &[Lit]
        ensures lits { result.now ≡ self.now.literals }
        ensures no_repeat { has_repeat result.now ≡ false }
    {
        &self.lits
    }
}

/// Marks the literals of a clause, the last of which has just come: all of them, where it has
/// become a long one.
fn mark_last(marks: &mut Marks, lits: &[Lit], last: Lit)
    requires places { All (HasPlace (length marks.old)) lits.now }
    requires place { HasPlace (length marks.old) last }
    ensures len { length marks.new ≡ length marks.old }
    ensures marked { (c : List Literal) → lits.now ≡ c ++ last ∷ []
        → (UNMARKED_LENGTH < length c → IsMarked marks.old c)
        → UNMARKED_LENGTH < length lits.now → IsMarked marks.new lits.now }
{
    if lits.len() > UNMARKED_LENGTH + 1 {
        marks.mark(last);
    } else if lits.len() > UNMARKED_LENGTH {
        marks.mark_all(lits);
    }
}

/// Refuses whatever follows the 0.
fn refuse_rest(mut words: Tokens<'_>) -> Result<(), FaultKind>
    ensures { MatchResult result (λ _. ended_at words.entry ≡ Ok [])
        (λ k. ended_at words.entry ≡ Err k) }
{
    match words.next() {
        None => Ok(()),
        Some(token) => match read_word(token) {
            Word::Other => Err(FaultKind::Literal),
            _ => Err(FaultKind::AfterZero),
        },
    }
}
