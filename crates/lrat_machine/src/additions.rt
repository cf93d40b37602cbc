// Additions: a clause whose negation its hints refute (RUP), or one whose resolvents on its first
// literal are refuted each by hints of their own (RAT).
ghost use Rattle.std.specs.Prelude.{◌≡◌, ◌<◌, ◌≤◌, true, false, not, ◌||◌, [], Some, None, IfOk};
ghost use Rattle.std.specs.Prelude.{map};
ghost use Rattle.cnf.specs.Literal.{negation};
ghost use Rattle.cnf.specs.Clause.{has_repeat, is_tautology, IsClauseWithin};
ghost use Rattle.lrat_machine.specs.Steps.{IsBase, live_of, IsFaultOf};
ghost use Rattle.lrat_machine.specs.Verdict.{clause_fault, walk as walk_of};
ghost use Rattle.lrat_read.specs.Form.{leading as leading_of, groups_of};

use crate::assumed::AssumedLits;
use crate::hints::{Walked, leading, walk};
use crate::rat::rat_fault;
use crate::state::{ClauseBase, Scratch};
use crate::verdicts::Cause;
use cnf::types::Lit;
use lrat_read::line::LineView;
use lrat_read::types::SignedId;
use std::alloc::AllocError;

/// Assumes the negation of each literal; false where a literal stands twice or with its negation.
pub(crate) fn assume_negations(
    clause: &[Lit],
    assumed: &mut AssumedLits,
) -> Result<bool, AllocError>
    requires { assumed.old.literals ≡ [] }
    ensures distinct { IfOk result
        (λ r. r ≡ not (has_repeat clause.now || is_tautology clause.now)) }
    ensures assumed { IfOk result (λ r. r ≡ true → assumed.new.literals ≡ map negation clause.now) }
    ensures within { IfOk result (λ r. r ≡ true → IsClauseWithin assumed.new.variables clause.now) }
    ensures more { assumed.old.variables ≤ assumed.new.variables }
{
    for lit in clause {
        assumed.grow(lit.variable())?;
        if assumed.is_true(*lit) || assumed.is_true(lit.negation()) {
            return Ok(false);
        }
        assumed.assume(lit.negation())?;
    }
    Ok(true)
}

/// The first fault of the hints of a clause whose literals are false, if any.
fn hints_fault(
    clause: &[Lit],
    hints: &[SignedId],
    base: &mut ClauseBase,
    scratch: &mut Scratch,
) -> Result<Option<Cause>, AllocError>
    requires base { IsBase scratch.old.assumed.variables base.old.last base.old.live }
    requires within { IsClauseWithin scratch.old.assumed.variables clause.now }
    requires negated { scratch.old.assumed.literals ≡ map negation clause.now }
    ensures fault { IfOk result (λ f. f
        ≡ clause_fault (live_of base.old.last base.old.live) clause.now
        (walk_of (live_of base.old.last base.old.live).clause_at (map negation clause.now)
        (leading_of hints.now)) (groups_of hints.now)) }
    ensures unchanged { base.new ≡ base.old }
    ensures variables { scratch.new.assumed.variables ≡ scratch.old.assumed.variables }
{
    let first = leading(hints);
    match walk(&base.live, &mut scratch.assumed, first)? {
        Walked::Fault(cause) => Ok(Some(cause)),
        Walked::Refuted if first.len() < hints.len() => Ok(Some(Cause::HintAfterConflict)),
        Walked::Refuted => Ok(None),
        Walked::Open => match clause.first() {
            None => Ok(Some(Cause::NoConflict)),
            Some(pivot) => rat_fault(*pivot, hints, base, scratch),
        },
    }
}

/// The first fault of an addition, if any.
pub(crate) fn addition_fault(
    line: &LineView,
    base: &mut ClauseBase,
    scratch: &mut Scratch,
) -> Result<Option<Cause>, AllocError>
    requires base { IsBase scratch.old.assumed.variables base.old.last base.old.live }
    ensures fault { IfOk result (λ f. IsFaultOf (live_of base.old.last base.old.live) line.now f) }
    ensures within { IfOk result
        (λ f. f ≡ None → IsClauseWithin scratch.new.assumed.variables line.now.clause) }
    ensures rising { IfOk result (λ f. f ≡ None → base.old.last < line.now.id) }
    ensures small { IfOk result (λ f. f ≡ None → line.now.is_large ≡ false) }
    ensures unchanged { base.new ≡ base.old }
    ensures more { scratch.old.assumed.variables ≤ scratch.new.assumed.variables }
{
    if line.id() <= base.last {
        return Ok(Some(Cause::IdOrder));
    }
    scratch.assumed.undo_to(0);
    if line.is_large() || !assume_negations(line.lits(), &mut scratch.assumed)? {
        return Ok(Some(Cause::ClauseForm));
    }
    hints_fault(line.lits(), line.hints(), base, scratch)
}
