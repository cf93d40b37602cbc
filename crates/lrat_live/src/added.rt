// The added clauses that are recent no longer, in flat memory: it grows with what is live, and not
// with the length of the certificate.
ghost use Rattle.std.specs.Prelude.{◌≡◌, ℕ, List, ◌<◌, ◌≤◌, ◌↔◌, ◌∷◌, [], ◌++◌, ◌/◌, length};
ghost use Rattle.std.specs.Prelude.{All, IsTrue};
ghost use Rattle.std.specs.Prelude.{IsSome, OnOk, OnErr};
ghost use Rattle.std.specs.Option.{option_copied};
ghost use Rattle.cnf.specs.Literal.{Literal};
ghost use Rattle.lrat_live.specs.Counts.{AreCounts};
ghost use Rattle.lrat_live.specs.Listed.{listed_at, without_id};
ghost use Rattle.lrat_live.specs.Pages.{count_in};
ghost use Rattle.lrat_live.specs.declared.spans.TheConstants.{MOST_KEPT};

use crate::append::append;
use crate::counts::count_entries;
use crate::entries::{AddedEntry, find, is_above};
use crate::pages::Counts;
use crate::reclaim::reclaim;
use cnf::types::Lit;
use std::alloc::{AllocError, Global};
use std::marker::Model;

/// An entry takes as much memory as six literals.
const ENTRY: usize = 6;

/// Garbage of no more literals than this is left where it is.
const LITTLE: usize = 4096;

/// The live ones of the added clauses that are recent no longer, with their ids.
#[derive(Drop)]
pub(crate) struct Added {
    /// The clauses' literals, one after another.
    lits: Vec<Lit>,
    /// In rising id; their clauses lie in this order.
    entries: Vec<AddedEntry>,
    /// For each bucket the place of its newest entry, from 1, or 0.
    heads: Vec<u32>,
    /// The garbage: what reclaiming would free, in literals.
    dead: usize,
}

impl Model for Added {
    ghost use Rattle.std.specs.Prelude.{ℕ, List};
    ghost use Rattle.cnf.specs.Literal.{Literal};

    ghost Value = { List (ℕ × List Literal) };

    ghost use Rattle.lrat_live.specs.Table.{entry_spans, clauses_in, IsTable};

    ghost view = { λ s. clauses_in s.lits.items (entry_spans s.entries.items) };

    ghost invariant = { λ s. IsTable s.lits.items s.entries.items s.heads.items };
}

impl Added {
    /// No clauses. Memory comes from alloc when clauses are added.
    pub(crate) fn new(alloc: Global) -> Self
        ensures { result ≡ [] }
    {
        Added {
            lits: Vec::new(alloc),
            entries: Vec::new(alloc),
            heads: Vec::new(alloc),
            dead: 0,
        }
    }

    /// Adds a clause under an id above all others. An AllocError comes where memory was refused, or
    /// where there would be more than `MOST_KEPT` clauses or literals, dead ones too; the clauses
    /// then stay as they are.
    pub(crate) fn add(&mut self, id: u64, lits: &[Lit]) -> Result<(), AllocError>
        requires rising { All (λ e. e.0 < id) self.old }
        ensures ok { OnOk result (self.new ≡ self.old ++ (id, lits.now) ∷ []) }
        ensures err { OnErr result (self.new ≡ self.old) }
    {
        let all = self.lits.len() + ENTRY * self.entries.len();
        // a dead entry may have a later id, and ids rise
        if !is_above(&self.entries, id) || is_mostly_dead(self.dead, all) {
            reclaim(&mut self.lits, &mut self.entries, &mut self.heads);
            self.dead = 0;
        }
        append(&mut self.lits, &mut self.entries, &mut self.heads, id, lits)
    }

    /// How many clauses take room, dead ones too.
    pub(crate) fn entries(&self) -> usize
        ensures all { length self.now ≤ result }
        ensures few { result ≤ MOST_KEPT }
    {
        self.entries.len()
    }

    /// The clause under an id, if it is live.
    #[inline]
    pub(crate) fn find(&self, id: u64) -> Option<&[Lit]>
        ensures { option_copied result ≡ listed_at self.now id }
    {
        let place = find(&self.heads, &self.entries, id)?;
        let entry = self.entries[place];
        if !entry.live {
            return None;
        }
        let start = entry.start as usize;
        Some(&self.lits[start..start + entry.length as usize])
    }

    /// Takes the clause out; false where there is none under the id.
    pub(crate) fn delete(&mut self, id: u64) -> bool
        ensures found { IsTrue result ↔ IsSome (listed_at self.old id) }
        ensures left { self.new ≡ without_id id self.old }
    {
        let Some(place) = find(&self.heads, &self.entries, id) else {
            return false;
        };
        let entry = &mut self.entries[place];
        if !entry.live {
            return false;
        }
        entry.live = false;
        let length = entry.length as usize;
        self.dead = self.dead.saturating_add(ENTRY + length);
        true
    }

    /// Counts the literals of the clauses, beside those that are counted.
    pub(crate) fn count(&self, counts: &mut Counts) -> Result<(), AllocError>
        ensures { OnOk result ((es : List (ℕ × List Literal)) → AreCounts (count_in counts.old) es
            → AreCounts (count_in counts.new) (es ++ self.now)) }
    {
        count_entries(counts, &self.lits, &self.entries)
    }
}

/// Then reclaiming, which goes over all, costs no more than what died since.
pub(crate) fn is_mostly_dead(dead: usize, all: usize) -> bool
    ensures { IsTrue result ↔ (LITTLE < dead) × (all / 2 < dead) }
{
    dead > LITTLE && dead > all / 2
}
