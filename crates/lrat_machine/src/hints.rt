// Hints: what one does to the literals that are assumed true, and what several do in turn.
//
// A hint's clause is gone over whole: its false literals are counted and the last other one is
// kept, with no choice on the way. So a pair of literals takes 17 instructions; it takes 23 if the
// others are counted and the last one is an `Option`.
// Tried: a table that marks the false literals, so that no negation is computed. The compiler then
// unrolls by four in place of two: 1.4 % fewer to 0.9 % more instructions, and no less time.
ghost use Rattle.std.specs.Prelude.{◌≡◌, ◌+◌, ◌<◌, false, List, Some, IfOk};
ghost use Rattle.std.specs.Prelude.{length, get_or, map, take, All, IfSome};
ghost use Rattle.std.specs.Option.{option_copied};
ghost use Rattle.cnf.specs.Literal.{Literal};
ghost use Rattle.cnf.specs.Clause.{IsClauseWithin};
ghost use Rattle.lrat_live.specs.Listed.{listed_at};
ghost use Rattle.lrat_machine.specs.Verdict.{outcome_of, of_walk, walk as walk_of};
ghost use Rattle.lrat_machine.specs.Steps.{outcome_as, walked_as, EndAlike, IsFollowed};
ghost use Rattle.cnf.specs.Refute.{Clauses};
ghost use Rattle.lrat_read.specs.Form.{leading as leading_of};

use crate::assumed::AssumedLits;
use crate::verdicts::Cause;
use cnf::types::Lit;
use lrat_live::live::LiveClauses;
use lrat_read::types::SignedId;
use std::alloc::AllocError;

/// What a live clause does as a hint.
#[derive(Clone, Copy, Debug, PartialEq, Eq, Drop)]
pub(crate) enum Effect {
    /// All its literals are false.
    Conflict,
    /// All its literals but this one are false, and this one is neither false nor true.
    Makes(Lit),
    /// Neither.
    NotUnit,
}

/// Where hints end.
#[derive(Clone, Copy, Debug, PartialEq, Eq, Drop)]
pub(crate) enum Walked {
    /// There was no conflict.
    Open,
    /// The last hint, and no earlier one, was a conflict.
    Refuted,
    /// A hint can't be followed.
    Fault(Cause),
}

impl Walked {
    /// Why hints that have to end in a conflict do not.
    pub(crate) fn fault(self) -> Option<Cause>
        ensures { (A : List Literal) → result ≡ of_walk (walked_as self A) }
    {
        match self {
            Walked::Open => Some(Cause::NoConflict),
            Walked::Refuted => None,
            Walked::Fault(cause) => Some(cause),
        }
    }
}

/// What the clause does where these literals are true. The pass goes over all its literals and
/// decides nothing on the way, so that there is little for the processor to guess.
pub(crate) fn effect_of(clause: &[Lit], assumed: &AssumedLits) -> Effect
    requires { IsClauseWithin assumed.now.variables clause.now }
    ensures { outcome_as result ≡ outcome_of (Some clause.now) assumed.now.literals }
{
    let mut last = Lit::new(1, false);
    let mut falses = 0usize;
    for lit in clause {
        if assumed.is_true(lit.negation()) {
            falses += 1;
        } else {
            last = *lit;
        }
    }
    let open = clause.len() - falses;
    if open == 0 {
        Effect::Conflict
    } else if open > 1 || assumed.is_true(last) {
        Effect::NotUnit
    } else {
        Effect::Makes(last)
    }
}

/// The hints up to the first that has a dash.
pub(crate) fn leading(hints: &[SignedId]) -> &[SignedId]
    ensures { map (λ h. h.1) result.now ≡ leading_of hints.now }
{
    for (i, hint) in hints.iter().enumerate() {
        if hint.is_dashed() {
            return &hints[..i];
        }
    }
    hints
}

/// Follows hint i, whose clause this is if it is live. Answers how the hints end, if they end here.
#[inline(always)]
fn follow(
    clause: Option<&[Lit]>,
    hints: &[SignedId],
    i: usize,
    assumed: &mut AssumedLits,
) -> Result<Option<Walked>, AllocError>
    requires place { i < length hints.now }
    requires within { IfSome (option_copied clause) (λ c. IsClauseWithin assumed.old.variables c) }
    ensures followed { IfOk result (λ end. (at : Clauses)
        → option_copied clause.entry ≡ at (get_or hints.now i (false, 0)).1
        → IsFollowed at hints.now i assumed.old.literals assumed.new.literals end) }
    ensures kept { (A : List Literal) → take (length A) assumed.old.literals ≡ A
        → take (length A) assumed.new.literals ≡ A }
    ensures variables { assumed.new.variables ≡ assumed.old.variables }
{
    let Some(clause) = clause else {
        return Ok(Some(Walked::Fault(Cause::DeadId)));
    };
    match effect_of(clause, assumed) {
        Effect::Conflict if i + 1 < hints.len() => {
            Ok(Some(Walked::Fault(Cause::HintAfterConflict)))
        }
        Effect::Conflict => Ok(Some(Walked::Refuted)),
        Effect::NotUnit => Ok(Some(Walked::Fault(Cause::HintNotUnit))),
        Effect::Makes(lit) => {
            assumed.assume(lit)?;
            Ok(None)
        }
    }
}

/// Follows the hints in turn. What they make true is assumed.
pub(crate) fn walk(
    live: &LiveClauses,
    assumed: &mut AssumedLits,
    hints: &[SignedId],
) -> Result<Walked, AllocError>
    requires { All (λ e. IsClauseWithin assumed.old.variables e.1) live.now }
    ensures walked { IfOk result (λ w.
        EndAlike (walk_of (listed_at live.now) assumed.old.literals (map (λ h. h.1) hints.now))
        (walked_as w assumed.new.literals)) }
    ensures kept { take (length assumed.old.literals) assumed.new.literals ≡ assumed.old.literals }
    ensures variables { assumed.new.variables ≡ assumed.old.variables }
{
    for i in 0..hints.len() {
        let clause = live.find(hints[i].id());
        let end = follow(clause, hints, i, assumed)?;
        if let Some(walked) = end {
            return Ok(walked);
        }
    }
    Ok(Walked::Open)
}
