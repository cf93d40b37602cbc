// Which learned clauses are deleted, and when: the tiers of Glucose and CaDiCaL (Audemard and Simon
// 2009; Oh 2015). A clause of low LBD, whose literals stood in few levels, stays, one that served
// in a conflict lately outlives a deletion or two, and of the others the worse half goes.
ghost use Rattle.std.specs.Prelude.{◌≡◌, ◌+◌, ◌<◌, ◌≤◌, ◌↔◌, IsTrue, OnOk, IfOk};
ghost use Rattle.cdcl_order.specs.Deletions.{due_at, conflicts_until, sifted};
ghost use Rattle.cdcl_order.specs.Deletions.{IsWorseHalf, IsChosen};

use crate::standings::{ClauseStanding, KEPT, Standings};
use clauses::store::CRef;
use std::alloc::{AllocError, Global};

/// The conflicts after which the first deletion comes.
const FIRST_DELETION: u64 = 1000;

/// By how many conflicts the time between two deletions grows.
const DELETION_STEP: u64 = 100;

/// How many times the time between two deletions grows.
const DELETION_STEPS: u64 = 40;

/// A learned clause that may be deleted.
#[derive(Drop)]
pub struct Candidate {
    /// How many literals it has.
    pub length: usize,
    /// Its reference.
    pub reference: CRef,
}

/// A clause that may be deleted, with what tells how bad it is.
#[derive(Drop)]
pub(crate) struct Ranked {
    // Its LBD.
    lbd: u32,
    // How many literals it has.
    length: usize,
    // Its reference.
    reference: CRef,
}

/// How many conflicts come between the last of `deletions` deletions and the next one.
fn pause(deletions: u64) -> u64
    ensures { result ≡ due_at deletions }
{
    FIRST_DELETION + DELETION_STEP * deletions.min(DELETION_STEPS)
}

/// Whether it is time to delete, `conflicts` conflicts after the last of `deletions` deletions.
pub(crate) fn is_due(conflicts: u64, deletions: u64) -> bool
    ensures { IsTrue result ↔ due_at deletions ≤ conflicts }
{
    conflicts >= pause(deletions)
}

/// How many deletions a search makes within its first `conflicts` conflicts.
pub(crate) fn deletions_within(conflicts: u64) -> u64
    ensures made { conflicts_until result ≤ conflicts }
    ensures no_more { conflicts < conflicts_until (result + 1) }
{
    let mut left = conflicts;
    let mut deletions = 0;
    while left >= pause(deletions) {
        left -= pause(deletions);
        deletions += 1;
    }
    deletions
}

/// Of these clauses, the older first, those that are to go. Where memory is refused some may have
/// lost a use.
pub(crate) fn choose(
    alloc: Global,
    standings: &mut Standings,
    candidates: &[Candidate],
) -> Result<Vec<CRef>, AllocError>
    ensures { IfOk result
        (λ chosen. IsChosen standings.old standings.new candidates.now chosen.items) }
{
    let mut rest = sift(alloc, standings, candidates)?;
    worse_half(&mut rest)?;
    rest.iter().map(|ranked| ranked.reference).collect(alloc)
}

/// Takes a use from each clause that has one left, and answers those that had none and are not kept
/// for their LBD.
fn sift(
    alloc: Global,
    standings: &mut Standings,
    candidates: &[Candidate],
) -> Result<Vec<Ranked>, AllocError>
    ensures { IfOk result (λ rest. sifted standings.old candidates.now
        ≡ record { standings = standings.new; rest = rest.items }) }
{
    let mut rest = Vec::new(alloc);
    for candidate in candidates {
        let standing = standings.get(candidate.reference);
        if standing.used > 0 {
            let less = ClauseStanding {
                lbd: standing.lbd,
                used: standing.used - 1,
            };
            standings.set(candidate.reference, less);
        } else if standing.lbd > KEPT {
            rest.push(Ranked {
                lbd: standing.lbd,
                length: candidate.length,
                reference: candidate.reference,
            })?;
        }
    }
    Ok(rest)
}

/// Keeps the worse half of these clauses, rounded down: the greater LBD first, then the longer,
/// then the older, which stands before. Where memory is refused they stay.
fn worse_half(clauses: &mut Vec<Ranked>) -> Result<(), AllocError>
    ensures half { OnOk result (IsWorseHalf clauses.old.items clauses.new.items) }
{
    clauses.sort_by(|one, other| (other.lbd, other.length).cmp(&(one.lbd, one.length)))?;
    let half = clauses.len() / 2;
    clauses.truncate(half);
    Ok(())
}
