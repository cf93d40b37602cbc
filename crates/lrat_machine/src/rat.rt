// RAT: the clauses with the negated pivot, all of which a line has to name, and the hints of each.
//
// A candidate of n literals may be true only at its last one, and n lines may name it: to go over
// it for each takes n^2 steps. So where it is longer than what the line assumes, each literal that
// is assumed is first looked for in it, which is done by halving (`LiveClauses::shows`).
// Still slow: a long candidate that is not true, whose literals are all assumed for each group.
ghost use Rattle.std.specs.Prelude.{◌≡◌, ◌++◌, Some, IfOk, OnOk, length, take, map, All, true};
ghost use Rattle.std.specs.Prelude.{if◌then◌else◌};
ghost use Rattle.std.specs.List.{list_any};
ghost use Rattle.cnf.specs.Literal.{negation};
ghost use Rattle.cnf.specs.Clause.{contains_literal, without_literal, IsClauseWithin};
ghost use Rattle.lrat_live.specs.Listed.{listed_at, same_ids};
ghost use Rattle.lrat_machine.specs.Steps.{IsBase, HaveSame};
ghost use Rattle.lrat_machine.specs.Verdict.{ids_with, group_fault as group_fault_of};
ghost use Rattle.lrat_machine.specs.Verdict.{groups_fault as groups_fault_of};
ghost use Rattle.lrat_read.specs.Form.{groups_of};

use crate::assumed::AssumedLits;
use crate::hints::{leading, walk};
use crate::state::{ClauseBase, Scratch};
use crate::verdicts::Cause;
use cnf::types::Lit;
use lrat_live::live::LiveClauses;
use lrat_read::types::SignedId;
use std::alloc::AllocError;

/// The ids with a dash, in their order, in place of what ids held.
fn candidates_of(hints: &[SignedId], ids: &mut Vec<u64>) -> Result<(), AllocError>
    ensures { OnOk result (ids.new.items ≡ map (λ g. g.candidate) (groups_of hints.now)) }
{
    ids.clear();
    for hint in hints {
        if hint.is_dashed() {
            ids.push(hint.id())?;
        }
    }
    Ok(())
}

/// Whether one of the literals, other than the left out one, is known to stand in the clause under
/// an id. A false answer says nothing.
fn shows_true(live: &LiveClauses, id: u64, clause: &[Lit], left_out: Lit, lits: &[Lit]) -> bool
    ensures { result ≡ true → list_any (λ k. contains_literal k lits.now)
        (without_literal left_out clause.now) ≡ true }
{
    for lit in lits {
        if *lit != left_out && live.shows(id, *lit, clause) {
            return true;
        }
    }
    false
}

/// As `finds_true`, for the clause under an id.
fn has_true(
    live: &LiveClauses,
    id: u64,
    clause: &[Lit],
    left_out: Lit,
    assumed: &AssumedLits,
) -> bool
    requires { IsClauseWithin assumed.now.variables clause.now }
    ensures { result ≡ list_any (λ k. contains_literal k assumed.now.literals)
        (without_literal left_out clause.now) }
{
    if assumed.len() < clause.len() / 16
        && shows_true(live, id, clause, left_out, assumed.literals())
    {
        return true;
    }
    finds_true(clause, left_out, assumed)
}

/// Whether a literal other than the left out one is true.
fn finds_true(clause: &[Lit], left_out: Lit, assumed: &AssumedLits) -> bool
    requires { IsClauseWithin assumed.now.variables clause.now }
    ensures { result ≡ list_any (λ k. contains_literal k assumed.now.literals)
        (without_literal left_out clause.now) }
{
    for lit in clause {
        if *lit != left_out && assumed.is_true(*lit) {
            return true;
        }
    }
    false
}

/// Assumes the negations of all literals but the left out one.
fn assume_others(clause: &[Lit], left_out: Lit, assumed: &mut AssumedLits) -> Result<(), AllocError>
    requires { IsClauseWithin assumed.old.variables clause.now }
    ensures negated { IfOk result (λ _.
        HaveSame (map negation (without_literal left_out clause.now) ++ assumed.old.literals)
        assumed.new.literals) }
    ensures kept { take (length assumed.old.literals) assumed.new.literals ≡ assumed.old.literals }
    ensures variables { assumed.new.variables ≡ assumed.old.variables }
{
    for lit in clause {
        if *lit != left_out && !assumed.is_true(lit.negation()) {
            assumed.assume(lit.negation())?;
        }
    }
    Ok(())
}

/// The first fault of a candidate's hints, if any.
fn group_fault(
    candidate: u64,
    hints: &[SignedId],
    pivot: Lit,
    live: &LiveClauses,
    assumed: &mut AssumedLits,
) -> Result<Option<Cause>, AllocError>
    requires { All (λ e. IsClauseWithin assumed.old.variables e.1) live.now }
    ensures fault { IfOk result (λ f. f
        ≡ group_fault_of (listed_at live.now) pivot assumed.old.literals
        (record { candidate = candidate; hints = map (λ h. h.1) hints.now })) }
    ensures unchanged { OnOk result (assumed.new ≡ assumed.old) }
    ensures variables { assumed.new.variables ≡ assumed.old.variables }
{
    let left_out = pivot.negation();
    let Some(clause) = live.find(candidate) else {
        return Ok(Some(Cause::DeadId));
    };
    if has_true(live, candidate, clause, left_out, assumed) {
        return Ok((!hints.is_empty()).then_some(Cause::HintAfterConflict));
    }
    let before = assumed.len();
    assume_others(clause, left_out, assumed)?;
    let walked = walk(live, assumed, hints)?;
    assumed.undo_to(before);
    Ok(walked.fault())
}

/// The first fault of the groups of hints, each of which begins with a dash, if any.
fn groups_fault(
    hints: &[SignedId],
    pivot: Lit,
    live: &LiveClauses,
    assumed: &mut AssumedLits,
) -> Result<Option<Cause>, AllocError>
    requires { All (λ e. IsClauseWithin assumed.old.variables e.1) live.now }
    ensures fault { IfOk result (λ f. f
        ≡ groups_fault_of (listed_at live.now) pivot assumed.old.literals
        (groups_of hints.now)) }
    ensures variables { assumed.new.variables ≡ assumed.old.variables }
{
    for (i, hint) in hints.iter().enumerate() {
        if hint.is_dashed() {
            let own = leading(&hints[i + 1..]);
            let fault = group_fault(hint.id(), own, pivot, live, assumed)?;
            if fault.is_some() {
                return Ok(fault);
            }
        }
    }
    Ok(None)
}

/// The first fault of a line whose clause was not refuted, if any. The clause begins with the
/// pivot.
pub(crate) fn rat_fault(
    pivot: Lit,
    hints: &[SignedId],
    base: &mut ClauseBase,
    scratch: &mut Scratch,
) -> Result<Option<Cause>, AllocError>
    requires base { IsBase scratch.old.assumed.variables base.old.last base.old.live }
    ensures fault { IfOk result (λ f. f
        ≡ (if same_ids (map (λ g. g.candidate) (groups_of hints.now))
        (ids_with (listed_at base.old.live) (negation pivot) base.old.last) then groups_fault_of
        (listed_at base.old.live) pivot scratch.old.assumed.literals (groups_of hints.now)
        else Some Cause.Candidates)) }
    ensures unchanged { base.new ≡ base.old }
    ensures variables { scratch.new.assumed.variables ≡ scratch.old.assumed.variables }
{
    candidates_of(hints, &mut scratch.candidates)?;
    let named_all = base
        .live
        .are_all_with(pivot.negation(), &scratch.candidates)?;
    if !named_all {
        return Ok(Some(Cause::Candidates));
    }
    groups_fault(hints, pivot, &base.live, &mut scratch.assumed)
}
