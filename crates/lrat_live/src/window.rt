// The recent clauses of a certificate: one more, all of them moved on, and dead literals dropped.
ghost use Rattle.std.specs.Prelude.{◌≡◌, ℕ, ◌+◌, ◌≤◌, ◌<◌, ◌^◌, ◌∷◌, [], ◌++◌, length, take};
ghost use Rattle.std.specs.Prelude.{OnOk, OnErr, IfSome, ◌⊎◌};
ghost use Rattle.lrat_live.specs.Listed.{IsRising};
ghost use Rattle.lrat_live.specs.Near.{spanned, padded, nowhere, AreWithin, AreSpread};
ghost use Rattle.lrat_live.specs.declared.spans.TheConstants.{MOST_KEPT};

use crate::added::Added;
use crate::reclaim::move_down;
use crate::spans::{DEAD, LiveSpan, is_live, literals_at, nowhere};
use cnf::types::Lit;
use std::alloc::AllocError;

/// The most ids that are skipped, each with a span of no clause.
const PASSED: u64 = 16;

/// A window of up to this many spans may be empty.
const EMPTY_WINDOW: usize = 65_536;

/// The place of an id's span in a window that begins at `head` and with the id `first`, unless it
/// is far behind the end of the window, or the window is mostly empty.
pub(crate) fn place_for(
    spans: usize,
    head: usize,
    first: u64,
    live: usize,
    id: u64,
) -> Option<usize>
    requires head { head ≤ spans }
    requires few { spans < 2 ^ 63 }
    ensures place { IfSome result (λ p. p + first ≡ head + id) }
    ensures head { IfSome result (λ p. head ≤ p) }
{
    let window = spans - head;
    if id < first || window.saturating_sub(EMPTY_WINDOW) / 4 > live {
        return None;
    }
    let back = id - first;
    if back > window as u64 + PASSED {
        None
    } else {
        Some(head + back as usize)
    }
}

/// Adds a clause with its span at a place from which on no clause is live. When memory is refused
/// the clauses stay as they are.
pub(crate) fn extend(
    lits: &mut Vec<Lit>,
    spans: &mut Vec<LiveSpan>,
    place: usize,
    clause: &[Lit],
) -> Result<(), AllocError>
    requires few { length lits.old.items + length clause.now ≤ MOST_KEPT }
    ensures lits { OnOk result (lits.new.items ≡ lits.old.items ++ clause.now) }
    ensures lits_stay { OnErr result (lits.new.items ≡ lits.old.items) }
    ensures ok { OnOk result (spans.new.items ≡ padded place spans.old.items
        ++ (record { start = length lits.old.items; length = length clause.now }) ∷ []) }
    ensures err { OnErr result ((spans.new.items ≡ spans.old.items)
        ⊎ (spans.new.items ≡ padded place spans.old.items)) }
{
    spans.resize(place, nowhere())?;
    spans.reserve(1)?;
    let start = lits.len();
    lits.extend_from_slice(clause)?;
    spans.push(LiveSpan {
        start: start as u32,
        length: clause.len() as u32,
    })?;
    Ok(())
}

/// Moves all clauses on, in rising id. When memory is refused, the rest of them stays.
pub(crate) fn move_on(
    far: &mut Added,
    lits: &[Lit],
    spans: &mut [LiveSpan],
    first: u64,
) -> Result<(), AllocError>
    requires within { AreWithin spans.old (length lits.now) }
    requires ids { first + length spans.old ≤ 2 ^ 64 }
    requires rising { IsRising (far.old ++ spanned lits.now first spans.old) }
    ensures all { far.new ++ spanned lits.now first spans.new
        ≡ far.old ++ spanned lits.now first spans.old }
    ensures none { OnOk result (spanned lits.now first spans.new ≡ []) }
    ensures spread { (from to : ℕ) → AreSpread from spans.old to → AreSpread from spans.new to }
    ensures count { length spans.new ≡ length spans.old }
{
    for place in 0..spans.len() {
        let span = spans[place];
        if !is_live(span) {
            continue;
        }
        far.add(first + place as u64, literals_at(lits, span))?;
        spans[place].start = DEAD;
    }
    Ok(())
}

/// Moves the literals of live clauses down over dead ones, as far as a place.
pub(crate) fn squeeze(lits: &mut Vec<Lit>, spans: &mut [LiveSpan], from: usize)
    requires spread { AreSpread from spans.old (length lits.old.items) }
    requires few { length lits.old.items ≤ MOST_KEPT }
    ensures spread { AreSpread from spans.new (length lits.new.items) }
    ensures below { take from lits.new.items ≡ take from lits.old.items }
    ensures fewer { length lits.new.items ≤ length lits.old.items }
    ensures clauses { (n : ℕ)
        → spanned lits.new.items n spans.new ≡ spanned lits.old.items n spans.old }
    ensures count { length spans.new ≡ length spans.old }
{
    let mut end = from;
    for place in 0..spans.len() {
        let span = spans[place];
        if !is_live(span) {
            continue;
        }
        let length = span.length as usize;
        move_down(lits, span.start as usize, length, end);
        spans[place].start = end as u32;
        end += length;
    }
    lits.truncate(end);
}
