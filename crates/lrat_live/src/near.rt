// The clauses whose ids lead straight to their places: those of the formula, and those added of
// late, in one vector of spans and one of literals.
//
// The look-up of a hint's clause is where a check spends most of its time, and the hints come from
// the formula and from the added clauses in no order, so that each branch between the two is
// guessed wrong for every third hint. Hence both kinds are in the same vectors, and an id comes to
// its place by a move that depends on a condition, and not by a branch. What was tried: by chains
// alone a whole check takes 6 to 8 % longer; two vectors, chosen by a branch or a pointer, gain
// nothing; nor does a table of the newest ids by their low bits in front of all.
ghost use Rattle.std.specs.Prelude.{◌≡◌, ℕ, List, ◌+◌, ◌<◌, ◌≤◌, ◌^◌, ◌↔◌, ◌∷◌, [], ◌++◌, length};
ghost use Rattle.std.specs.Prelude.{All, IfOk, IsTrue, IsSome, MatchOption, OnOk, OnErr};
ghost use Rattle.std.specs.Prelude.{if◌then◌else◌};
ghost use Rattle.std.specs.Option.{option_copied};
ghost use Rattle.cnf.specs.Literal.{Literal};
ghost use Rattle.lrat_live.specs.Counts.{AreCounts};
ghost use Rattle.lrat_live.specs.Listed.{listed_at, listed_from, without_id, IsRising};
ghost use Rattle.lrat_live.specs.Near.{given_in, recent_in, IsPlace};
ghost use Rattle.lrat_live.specs.Pages.{count_in};

use crate::added::{Added, is_mostly_dead};
use crate::pages::Counts;
use crate::spans::{DEAD, LiveSpan, MOST_KEPT, count_live, is_live, literals_at, spans_of};
use crate::window::{extend, move_on, place_for, squeeze};
use cnf::types::{Formula, Lit};
use std::alloc::AllocError;
use std::marker::Model;

/// The clauses whose ids lead straight to their places.
#[derive(Drop)]
pub(crate) struct Near {
    /// The formula's literals, then those of the recent clauses in rising id; at most `MOST_KEPT`.
    lits: Vec<Lit>,
    /// At place 0 that of no clause; then those of the formula's ids, from 1; then those of the
    /// recent ids, each of them one more than the one before.
    spans: Vec<LiveSpan>,
    /// How many clauses the formula has, dead ones too.
    given: u64,
    /// How many literals they have.
    given_lits: usize,
    /// How many ids after the formula's have no span; the id after them is that of the first recent
    /// span.
    gap: u64,
    /// How many recent clauses are live; more than that only after a refusal of memory.
    live: usize,
    /// How many literals died since the last reclaiming, at least the recent ones.
    dead: usize,
}

impl Model for Near {
    ghost use Rattle.lrat_live.specs.Near.{NearParts};

    ghost Value = { NearParts };

    ghost use Rattle.lrat_live.specs.Near.{given_in, recent_in, IsNear};

    ghost view = { λ n. record {
      given = given_in n.lits.items n.spans.items n.given;
      recent = recent_in n.lits.items n.spans.items n.given n.gap;
    } };

    ghost invariant = { λ n. IsNear n.lits.items n.spans.items n.given n.given_lits n.gap };
}

/// The place of a live clause by its id.
#[inline]
fn place_of(spans: &[LiveSpan], given: u64, gap: u64, id: u64) -> Option<usize>
    requires covers { given + 1 ≤ length spans.now }
    requires gap { given + 1 + gap < 2 ^ 64 }
    ensures { MatchOption result ((ls : List Literal)
        → listed_at (given_in ls spans.now given ++ recent_in ls spans.now given gap) id ≡ None)
        (λ p. IsPlace spans.now given gap id p) }
{
    if id.wrapping_sub(given + 1) < gap {
        return None;
    }
    let place = if id > given { id - gap } else { id };
    if place >= spans.len() as u64 {
        return None;
    }
    let place = place as usize;
    if is_live(spans[place]) {
        Some(place)
    } else {
        None
    }
}

impl Near {
    /// The formula's clauses; its literals stay where they are. An AllocError comes where memory
    /// was refused, or where there are more than `MOST_KEPT` literals.
    pub(crate) fn new(formula: Formula) -> Result<Self, AllocError>
        ensures given { IfOk result (λ near. near.given ≡ listed_from 1 formula.clauses) }
        ensures recent { IfOk result (λ near. near.recent ≡ []) }
    {
        let clauses = formula.into_clauses();
        let spans = spans_of(&clauses)?;
        let lits = clauses.into_lits();
        Ok(Near {
            given: spans.len() as u64 - 1,
            given_lits: lits.len(),
            lits,
            spans,
            gap: 0,
            live: 0,
            dead: 0,
        })
    }

    /// How many ids have a span.
    pub(crate) fn entries(&self) -> usize
        ensures all { length self.now.given + length self.now.recent ≤ result }
        ensures few { result < 2 ^ 63 }
    {
        self.spans.len()
    }

    /// The clause under an id, if it is live and near.
    #[inline]
    pub(crate) fn find(&self, id: u64) -> Option<&[Lit]>
        ensures { option_copied result ≡ listed_at (self.now.given ++ self.now.recent) id }
    {
        let place = place_of(&self.spans, self.given, self.gap, id)?;
        Some(literals_at(&self.lits, self.spans[place]))
    }

    /// Takes the clause out; false where there is none near under the id.
    pub(crate) fn delete(&mut self, id: u64) -> bool
        ensures found { IsTrue result ↔ IsSome (listed_at (self.old.given ++ self.old.recent) id) }
        ensures given { self.new.given ≡ without_id id self.old.given }
        ensures recent { self.new.recent ≡ without_id id self.old.recent }
    {
        let Some(place) = place_of(&self.spans, self.given, self.gap, id) else {
            return false;
        };
        let span = &mut self.spans[place];
        span.start = DEAD;
        let length = span.length as usize;
        self.live = self.live.saturating_sub(usize::from(id > self.given));
        self.dead = self.dead.saturating_add(length);
        true
    }

    /// Adds a clause under an id above those of all recent ones; false where the window does not
    /// reach the id, or where there would be more than `MOST_KEPT` literals. The clauses then stay
    /// as they are, as they do where memory is refused.
    pub(crate) fn push(&mut self, id: u64, lits: &[Lit]) -> Result<bool, AllocError>
        requires rising { All (λ e. e.0 < id) self.old.recent }
        ensures given { self.new.given ≡ self.old.given }
        ensures recent { IfOk result (λ done. self.new.recent
            ≡ (if done then self.old.recent ++ (id, lits.now) ∷ [] else self.old.recent)) }
        ensures err { OnErr result (self.new.recent ≡ self.old.recent) }
    {
        let head = self.given as usize + 1;
        let first = self.given + 1 + self.gap;
        if lits.len() > MOST_KEPT - self.lits.len() {
            return Ok(false);
        }
        let Some(place) = place_for(self.spans.len(), head, first, self.live, id) else {
            return Ok(false);
        };
        extend(&mut self.lits, &mut self.spans, place, lits)?;
        self.live = self.live.saturating_add(1);
        Ok(true)
    }

    /// Adds the recent clauses to the far ones, which have lower ids, and begins the window anew
    /// with an id above the formula's. When memory is refused, some of them stay recent.
    pub(crate) fn flush(&mut self, far: &mut Added, id: u64) -> Result<(), AllocError>
        requires rising { IsRising (far.old ++ self.old.recent) }
        ensures given { self.new.given ≡ self.old.given }
        ensures all { far.new ++ self.new.recent ≡ far.old ++ self.old.recent }
        ensures none { OnOk result (self.new.recent ≡ []) }
    {
        let head = self.given as usize + 1;
        let first = self.given + 1 + self.gap;
        move_on(far, &self.lits, &mut self.spans[head..], first)?;
        self.spans.truncate(head);
        self.lits.truncate(self.given_lits);
        self.gap = id.saturating_sub(self.given + 1);
        self.live = 0;
        self.dead = 0;
        Ok(())
    }

    /// Drops the literals of dead recent clauses, where these are mostly dead.
    pub(crate) fn reclaim(&mut self)
        ensures unchanged { self.new ≡ self.old }
    {
        let head = self.given as usize + 1;
        let all = self.lits.len() - self.given_lits + (self.spans.len() - head);
        if is_mostly_dead(self.dead, all) {
            squeeze(&mut self.lits, &mut self.spans[head..], self.given_lits);
            self.dead = 0;
        }
    }

    /// Counts the literals of the formula's clauses, beside those that are counted.
    pub(crate) fn count_given(&self, counts: &mut Counts) -> Result<(), AllocError>
        ensures { OnOk result ((es : List (ℕ × List Literal)) → AreCounts (count_in counts.old) es
            → AreCounts (count_in counts.new) (es ++ self.now.given)) }
    {
        count_live(counts, &self.lits, &self.spans[..self.given as usize + 1])
    }

    /// Counts the literals of the recent clauses, beside those that are counted.
    pub(crate) fn count_recent(&self, counts: &mut Counts) -> Result<(), AllocError>
        ensures { OnOk result ((es : List (ℕ × List Literal)) → AreCounts (count_in counts.old) es
            → AreCounts (count_in counts.new) (es ++ self.now.recent)) }
    {
        count_live(counts, &self.lits, &self.spans[self.given as usize + 1..])
    }
}
