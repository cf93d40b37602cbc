// Additions by RUP alone: a clause whose negation its hints refute.
ghost use Rattle.std.specs.Prelude.{◌≡◌, ◌+◌, ◌<◌, ◌≤◌, true, false, Some, None, IfOk, OnOk, OnErr};
ghost use Rattle.std.specs.Prelude.{All, IsSome, MatchOption, length, map};
ghost use Rattle.std.specs.Option.{option_copied};
ghost use Rattle.cnf.specs.Formula.{IsFormula};
ghost use Rattle.lrat_live.specs.Listed.{listed_at, listed_from};
ghost use Rattle.cnf.specs.Clause.{IsClauseWithin};
ghost use Rattle.lrat_machine.specs.Rup.{AddsByRup, IsRupFaultOf, deleted_from, end_fault};
ghost use Rattle.lrat_machine.specs.Rup.{with_listed};
ghost use Rattle.lrat_machine.specs.Steps.{IsBase};
ghost use Rattle.lrat_machine.specs.Verdict.{walk as walk_of};
ghost use Rattle.lrat_read.specs.Form.{leading as leading_of, groups_of};

use crate::additions::assume_negations;
use crate::assumed::AssumedLits;
use crate::deletions::delete_all;
use crate::hints::{Walked, leading, walk};
use crate::verdicts::Cause;
use cnf::types::{Formula, Lit};
use lrat_live::live::LiveClauses;
use lrat_read::line::LineView;
use lrat_read::types::SignedId;
use std::alloc::AllocError;
use std::marker::Model;

/// The live clauses of a certificate whose additions are RUP alone, beside which lines may make
/// clauses of their own. It is seen as the clauses with their ids, and the last id.
#[derive(Drop)]
pub struct RupBase {
    /// The live clauses under their ids, from 1 to `last`.
    live: LiveClauses,
    /// The id of the last clause that came, or of the formula's last.
    last: u64,
    /// What a line assumes true; the variables of the live clauses may be.
    assumed: AssumedLits,
}

impl Model for RupBase {
    ghost use Rattle.lrat_machine.specs.Rup.{RupState};
    ghost use Rattle.lrat_machine.specs.Steps.{IsBase};

    ghost Value = { RupState };

    ghost view = { λ b. record { clauses = b.live; last = b.last } };

    ghost invariant = { λ b. IsBase b.assumed.variables b.last b.live };
}

/// The first fault of the hints of a clause whose literals are false, if any.
fn end_fault(
    hints: &[SignedId],
    live: &LiveClauses,
    assumed: &mut AssumedLits,
) -> Result<Option<Cause>, AllocError>
    requires { All (λ e. IsClauseWithin assumed.old.variables e.1) live.now }
    ensures fault { IfOk result (λ f. f
        ≡ end_fault
        (walk_of (listed_at live.now) assumed.old.literals (leading_of hints.now))
        (groups_of hints.now)) }
    ensures variables { assumed.new.variables ≡ assumed.old.variables }
{
    let first = leading(hints);
    Ok(match walk(live, assumed, first)? {
        Walked::Fault(cause) => Some(cause),
        Walked::Refuted if first.len() < hints.len() => Some(Cause::HintAfterConflict),
        Walked::Refuted => None,
        Walked::Open => Some(Cause::NoConflict),
    })
}

/// The first fault of an addition, if any.
fn line_fault(
    line: &LineView,
    live: &LiveClauses,
    last: u64,
    assumed: &mut AssumedLits,
) -> Result<Option<Cause>, AllocError>
    requires { IsBase assumed.old.variables last live.now }
    ensures fault { IfOk result
        (λ f. IsRupFaultOf (record { clauses = live.now; last = last }) line.now f) }
    ensures within { IfOk result
        (λ f. f ≡ None → IsClauseWithin assumed.new.variables line.now.clause) }
    ensures rising { IfOk result (λ f. f ≡ None → last < line.now.id) }
    ensures small { IfOk result (λ f. f ≡ None → line.now.is_large ≡ false) }
    ensures more { assumed.old.variables ≤ assumed.new.variables }
{
    if line.id() <= last {
        return Ok(Some(Cause::IdOrder));
    }
    assumed.undo_to(0);
    if line.is_large() || !assume_negations(line.lits(), assumed)? {
        return Ok(Some(Cause::ClauseForm));
    }
    end_fault(line.hints(), live, assumed)
}

impl RupBase {
    /// The base before the first line: the formula's clauses are live under the ids from 1, in the
    /// formula's own memory. An AllocError comes where memory was refused, or where the formula
    /// has more than 2^32 - 2 literals.
    pub fn new(formula: Formula) -> Result<Self, AllocError>
        ensures state { IfOk result (λ b. b
            ≡ record { clauses = listed_from 1 formula.clauses; last = length formula.clauses }) }
        ensures limits { IsFormula formula }
    {
        let last = formula.clauses().len() as u64;
        let mut assumed = AssumedLits::new(formula.allocator());
        assumed.grow(formula.vars())?;
        Ok(RupBase {
            live: LiveClauses::new(formula)?,
            last,
            assumed,
        })
    }

    /// The id of the last clause that came.
    pub fn last(&self) -> u64
        ensures { result ≡ self.now.last }
    {
        self.last
    }

    /// The clause under an id, if it is live.
    #[inline]
    pub fn find(&self, id: u64) -> Option<&[Lit]>
        ensures { option_copied result ≡ listed_at self.now.clauses id }
    {
        self.live.find(id)
    }

    /// Adds the line's clause, if its hints refute the negation. Answers why not; then, and where
    /// memory was refused, the base is as before. An AllocError also comes where there would be
    /// more than 2^32 - 2 clauses or literals that came, dead ones too.
    pub fn add(&mut self, line: &LineView) -> Result<Option<Cause>, AllocError>
        ensures fault { IfOk result (λ f. IsRupFaultOf self.old line.now f) }
        ensures added { IfOk result (λ f. f ≡ None → AddsByRup self.old line.now self.new) }
        ensures refused { IfOk result (λ f. IsSome f → self.new ≡ self.old) }
        ensures err { OnErr result (self.new ≡ self.old) }
    {
        let fault = line_fault(line, &self.live, self.last, &mut self.assumed)?;
        if fault.is_none() {
            self.live.add(line.id(), line.lits())?;
            self.last = line.id();
        }
        Ok(fault)
    }

    /// Deletes the clauses of these ids in turn. `DeadId` where one is not live: those before it
    /// are gone then.
    pub fn delete(&mut self, ids: &[SignedId]) -> Option<Cause>
        ensures deleted { MatchOption result
            (deleted_from self.old.clauses (map (λ i. i.1) ids.now) ≡ Some self.new.clauses)
            (λ cause. (cause ≡ Cause.DeadId)
            × (deleted_from self.old.clauses (map (λ i. i.1) ids.now) ≡ None)) }
        ensures last { self.new.last ≡ self.old.last }
    {
        delete_all(&mut self.live, ids)
    }

    /// A clause that a line makes is live from now on, under the id that follows the last one. An
    /// AllocError comes where memory was refused, and as in `add`, or where no id of 64 bits
    /// follows; the base is then as before.
    pub fn put(&mut self, lits: &[Lit]) -> Result<(), AllocError>
        ensures ok { OnOk result
            (self.new ≡ with_listed (self.old.last + 1) lits.now self.old) }
        ensures err { OnErr result (self.new ≡ self.old) }
    {
        let id = self.last.checked_add(1).ok_or(AllocError)?;
        grow_to(&mut self.assumed, lits)?;
        self.live.add(id, lits)?;
        self.last = id;
        Ok(())
    }
}

/// Lets the variables of the literals be assumed.
fn grow_to(assumed: &mut AssumedLits, lits: &[Lit]) -> Result<(), AllocError>
    ensures ok { OnOk result (IsClauseWithin assumed.new.variables lits.now) }
    ensures more { assumed.old.variables ≤ assumed.new.variables }
{
    for lit in lits {
        assumed.grow(lit.variable())?;
    }
    Ok(())
}
