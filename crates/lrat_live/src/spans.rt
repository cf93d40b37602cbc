// Where the literals of clauses lie that are found by their ids alone: a span for each id.
ghost use Rattle.std.specs.Prelude.{◌≡◌, ℕ, List, ◌∷◌, ◌+◌, ◌≤◌, ◌++◌, length};
ghost use Rattle.std.specs.Prelude.{IfOk, OnOk};
ghost use Rattle.std.specs.List.{flat_map};
ghost use Rattle.cnf.specs.Literal.{Literal};
ghost use Rattle.lrat_live.specs.Counts.{AreCounts};
ghost use Rattle.lrat_live.specs.Near.{is_live, nowhere, literals_at, spanned, spans_from};
ghost use Rattle.lrat_live.specs.Near.{AreWithin};
ghost use Rattle.lrat_live.specs.Pages.{count_in};
ghost use Rattle.lrat_live.specs.declared.spans.TheConstants.{MOST_KEPT};

use crate::counts::raise;
use crate::pages::Counts;
use cnf::clause_list::ClauseList;
use cnf::types::Lit;
use std::alloc::AllocError;

/// Where a clause's literals lie.
#[derive(Clone, Copy, Drop)]
pub(crate) struct LiveSpan {
    /// The place of its first literal, at most `MOST_KEPT`, or `DEAD` where no clause is live.
    pub(crate) start: u32,
    /// How many literals it has.
    pub(crate) length: u32,
}

/// The start of a clause that is not live; no literal has this place.
pub(crate) const DEAD: u32 = 4_294_967_295;

/// The most literals, and the most entries, that are kept, so that each place is below `DEAD`.
pub(crate) const MOST_KEPT: usize = 4_294_967_294;

/// The span of no clause.
pub(crate) fn nowhere() -> LiveSpan
    ensures { result ≡ nowhere }
{
    LiveSpan {
        start: DEAD,
        length: 0,
    }
}

/// Whether the clause is live.
#[inline]
pub(crate) fn is_live(span: LiveSpan) -> bool
    ensures { result ≡ is_live span }
{
    span.start != DEAD
}

/// The literals of a live clause.
#[inline]
pub(crate) fn literals_at(lits: &[Lit], span: LiveSpan) -> &[Lit]
    requires { span.start + span.length ≤ length lits.now }
    ensures { result.now ≡ literals_at lits.now span }
{
    let start = span.start as usize;
    &lits[start..start + span.length as usize]
}

/// The spans of a formula's clauses by their ids, from 1; no clause has the id 0. An AllocError
/// comes where memory was refused, or where there are more than `MOST_KEPT` literals.
pub(crate) fn spans_of(clauses: &ClauseList) -> Result<Vec<LiveSpan>, AllocError>
    ensures spans { IfOk result (λ spans. spans.items ≡ nowhere ∷ spans_from 0 clauses.now) }
    ensures few { OnOk result (length (flat_map (λ c. c) clauses.now) ≤ MOST_KEPT) }
{
    let mut spans = Vec::new(clauses.allocator());
    spans.reserve(clauses.len().saturating_add(1))?;
    spans.push(nowhere())?;
    let mut start = 0;
    for place in 0..clauses.len() {
        let length = clauses.get(place).len();
        if length > MOST_KEPT - start {
            return Err(AllocError);
        }
        spans.push(LiveSpan {
            start: start as u32,
            length: length as u32,
        })?;
        start += length;
    }
    Ok(spans)
}

/// Counts the literals of the live clauses, beside those that are counted.
pub(crate) fn count_live(
    counts: &mut Counts,
    lits: &[Lit],
    spans: &[LiveSpan],
) -> Result<(), AllocError>
    requires { AreWithin spans.now (length lits.now) }
    ensures { OnOk result ((es : List (ℕ × List Literal)) (n : ℕ)
        → AreCounts (count_in counts.old) es
        → AreCounts (count_in counts.new) (es ++ spanned lits.now n spans.now)) }
{
    for span in spans {
        if !is_live(*span) {
            continue;
        }
        raise(counts, literals_at(lits, *span))?;
    }
    Ok(())
}
