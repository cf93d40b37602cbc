// How often each literal occurs in the live clauses. The candidates that a RAT line names are
// complete if together they contain the literal as often as it is counted, so no search is needed.
ghost use Rattle.std.specs.Prelude.{◌≡◌, ℕ, ◌<◌, ◌++◌, ◌∷◌, [], List, true, length, OnOk};
ghost use Rattle.cnf.specs.Literal.{Literal, index_of};
ghost use Rattle.lrat_live.specs.Counts.{times_in, is_next, AreCounts, AreRaised};
ghost use Rattle.lrat_live.specs.Counts.{AreLowered};
ghost use Rattle.lrat_live.specs.Pages.{count_in};
ghost use Rattle.lrat_live.specs.Table.{entry_spans, clauses_in, IsLaid};

use crate::entries::AddedEntry;
use crate::pages::Counts;
use cnf::types::Lit;
use std::alloc::AllocError;

/// How often the literal stands in the clause.
pub(crate) fn times_in(lit: Lit, clause: &[Lit]) -> usize
    ensures { result ≡ times_in lit clause.now }
{
    let mut times = 0;
    for own in clause {
        if *own != lit {
            continue;
        }
        times += 1;
    }
    times
}

/// How often the literal was counted.
pub(crate) fn count_of(counts: &Counts, lit: Lit) -> usize
    ensures count { result ≡ count_in counts.now (index_of lit) }
    ensures from_one { 0 < lit.variable }
{
    counts.get(lit.index()) as usize
}

/// Whether an id may be the next candidate: it is above the last one, and its clause has the
/// literal, though not more often than is left.
pub(crate) fn is_next(before: u64, id: u64, times: usize, left: usize) -> bool
    ensures { result ≡ is_next before id times left }
{
    before < id && 0 < times && times <= left
}

/// Counts the literals of a clause that comes. After an AllocError the counts are of no use.
pub(crate) fn raise(counts: &mut Counts, clause: &[Lit]) -> Result<(), AllocError>
    ensures { OnOk result (AreRaised (count_in counts.old) clause.now (count_in counts.new)) }
{
    for lit in clause {
        counts.raise(lit.index())?;
    }
    Ok(())
}

/// Counts the literals of a clause that goes.
pub(crate) fn lower(counts: &mut Counts, clause: &[Lit])
    ensures { AreLowered (count_in counts.old) clause.now (count_in counts.new) }
{
    for lit in clause {
        counts.lower(lit.index());
    }
}

/// Counts the literals of a clause that came last, if the others are counted; whether all are
/// counted then.
pub(crate) fn count_last(is_counted: bool, counts: &mut Counts, clause: &[Lit]) -> bool
    ensures { (es : List (ℕ × List Literal)) (id : ℕ)
        → (is_counted ≡ true → AreCounts (count_in counts.old) es)
        → result ≡ true → AreCounts (count_in counts.new) (es ++ (id, clause.now) ∷ []) }
{
    if !is_counted {
        return false;
    }
    match raise(counts, clause) {
        Ok(()) => true,
        Err(_) => false,
    }
}

/// Counts the literals of the live entries, beside those that are counted.
pub(crate) fn count_entries(
    counts: &mut Counts,
    lits: &[Lit],
    entries: &[AddedEntry],
) -> Result<(), AllocError>
    requires { IsLaid 0 (entry_spans entries.now) (length lits.now) }
    ensures { OnOk result ((es : List (ℕ × List Literal)) → AreCounts (count_in counts.old) es
        → AreCounts (count_in counts.new) (es ++ clauses_in lits.now (entry_spans entries.now))) }
{
    for entry in entries {
        if !entry.live {
            continue;
        }
        let start = entry.start as usize;
        let end = start + entry.length as usize;
        raise(counts, &lits[start..end])?;
    }
    Ok(())
}
