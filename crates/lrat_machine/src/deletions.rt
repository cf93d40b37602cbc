// Deletions: the clauses of a line's ids go, in turn.
ghost use Rattle.std.specs.Prelude.{◌≡◌, ℕ, map, MatchOption, Some, None};
ghost use Rattle.lrat_machine.specs.Rup.{deleted_from};
ghost use Rattle.lrat_machine.specs.Steps.{IsBase, live_of};
ghost use Rattle.lrat_machine.specs.Verdict.{deleted};

use crate::verdicts::Cause;
use lrat_live::live::LiveClauses;
use lrat_read::types::SignedId;

/// Deletes the clauses of these ids in turn, up to one that is not live.
pub(crate) fn delete_all(live: &mut LiveClauses, hints: &[SignedId]) -> Option<Cause>
    ensures deleted { (last : ℕ) → MatchOption result
        (deleted (live_of last live.old) (map (λ h. h.1) hints.now)
        ≡ Some (live_of last live.new))
        (λ cause. (cause ≡ Cause.DeadId)
        × (deleted (live_of last live.old) (map (λ h. h.1) hints.now) ≡ None)) }
    ensures listed { MatchOption result
        (deleted_from live.old (map (λ h. h.1) hints.now) ≡ Some live.new)
        (λ cause. (cause ≡ Cause.DeadId)
        × (deleted_from live.old (map (λ h. h.1) hints.now) ≡ None)) }
    ensures base { (variables : ℕ) (last : ℕ) → IsBase variables last live.old
        → IsBase variables last live.new }
{
    for hint in hints {
        if !live.delete(hint.id()) {
            return Some(Cause::DeadId);
        }
    }
    None
}
