// What was written before, as a log and a search see it.
ghost use Rattle.std.specs.Prelude.{◌≡◌, ℕ, ◌+◌, ◌<◌, ◌≤◌, ◌^◌, true, false, [], length, slice_get};
ghost use Rattle.std.specs.Prelude.{IfNone, IfSome, Some};
ghost use Rattle.lrat_live.specs.Listed.{listed_at};
ghost use Rattle.lrat_log.specs.declared.log.TheConstants.{LINE_LIMIT};
ghost use Rattle.lrat_log.specs.Steps.{AddsNoEmptyClause};
ghost use Rattle.cuts_log.specs.Given.{AreLive, all_live};
ghost use Rattle.cuts_log.specs.Starts.{earlier_lines, lines_for};

use cnf::clause_list::ClauseList;
use lrat_cuts::machine::CutsMachine;

/// Whether each of these clauses is live for the checker, under its number from 1.
pub(crate) fn are_live(machine: &CutsMachine, clauses: &ClauseList) -> bool
    ensures yes { result ≡ true → AreLive (all_live clauses.now) machine.now.state.live }
    ensures no { result ≡ false
        → AreLive (all_live clauses.now) machine.now.state.live → ⊥ }
{
    for place in 0..clauses.len() {
        if !is_live(machine, clauses, place) {
            return false;
        }
    }
    true
}

/// Whether the clause at this place is.
fn is_live(machine: &CutsMachine, clauses: &ClauseList, place: usize) -> bool
    requires place { place < length clauses.now }
    requires small { place + 1 < 2 ^ 64 }
    ensures yes { result ≡ true
        → listed_at machine.now.state.live (place + 1) ≡ slice_get clauses.now place }
    ensures no { result ≡ false
        → listed_at machine.now.state.live (place + 1) ≡ slice_get clauses.now place → ⊥ }
{
    match machine.find(place as u64 + 1) {
        Some(found) => found == clauses.get(place),
        None => false,
    }
}

/// How many lines stand for what the checker has judged, over a formula with `base` clauses. None
/// where one is the empty clause.
pub(crate) fn count_lines(machine: &CutsMachine, base: u64) -> Option<usize>
    requires last { base ≤ machine.now.state.last }
    requires small { machine.now.state.last < LINE_LIMIT }
    ensures count { IfSome result
        (λ lines. lines ≡ length (earlier_lines base machine.now.state)) }
    ensures unrefuted { IfSome result
        (λ lines. AddsNoEmptyClause (earlier_lines base machine.now.state)) }
    ensures refuted { IfNone result
        (AddsNoEmptyClause (earlier_lines base machine.now.state) → ⊥) }
{
    let mut lines = 0;
    for number in 0..machine.last() - base {
        lines += count_at(machine, base + number + 1)?;
    }
    Some(lines)
}

/// How many lines stand for the addition with an id: one where it is live, and else two. None where
/// it is live and empty.
fn count_at(machine: &CutsMachine, id: u64) -> Option<usize>
    ensures count { IfSome result
        (λ lines. (j : ℕ) → lines ≡ length (lines_for (listed_at machine.now.state.live id) j)) }
    ensures unrefuted { IfSome result (λ lines. (j : ℕ)
        → AddsNoEmptyClause (lines_for (listed_at machine.now.state.live id) j)) }
    ensures few { IfSome result (λ lines. lines ≤ 2) }
    ensures refuted { IfNone result (listed_at machine.now.state.live id ≡ Some []) }
{
    match machine.find(id) {
        Some([]) => None,
        Some(_) => Some(1),
        None => Some(2),
    }
}
