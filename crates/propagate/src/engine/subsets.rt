// Attached clauses whose literals are all in a given clause.
//
// A clause that has watches and is such a subset watches two literals of the given clause, so it
// stands in the rows of these. The literal in its entry is one of its own: where that one is not
// marked, the clause has another literal, and the store is not asked. Clauses that wait have no
// watches, and are few. Those that are satisfied at level 0 have a literal that is true there,
// which the given clause has not.
ghost use Rattle.std.specs.Prelude.{◌≡◌, ℕ, ◌*◌, ◌<◌, ◌≤◌, true, false, List, Some, length};
ghost use Rattle.std.specs.Prelude.{slice_get, Contains};
ghost use Rattle.cnf.specs.Literal.{Literal, index_of};
ghost use Rattle.cnf.specs.Clause.{is_subset};
ghost use Rattle.cnf.specs.Marks.{IsMarked};
ghost use Rattle.clauses.specs.Slots.{clause_at};
ghost use Rattle.propagate_watches.specs.Pool.{row_at};
ghost use Rattle.propagate_trail.specs.Trail.{literals_of, kept_to};
ghost use Rattle.propagate.specs.Watches.{is_attached};
ghost use Rattle.propagate.specs.Fits.{Fits, HasBlocker, HasTrue, IsWithin};
ghost use Rattle.propagate.specs.Subsets.{HasSubset, HasMarked, IsUnmarked, AreUnmarked};

use super::Engine;
use clauses::store::{CRef, Store};
use cnf::marks::Marks;
use cnf::types::Lit;
use propagate_watches::pool::WatchEntry;
use propagate_watches::table::Attachment;

impl Engine {
    /// Whether an attached clause has no literals but these, which are marked and of which none is
    /// true at level 0. It takes the time of the rows of the clauses that watch one of them.
    pub fn has_subset(&self, store: &Store, lits: &[Lit], marks: &Marks) -> bool
        requires fits { Fits self.now store.now.slots }
        requires within { IsWithin self.now.variables lits.now }
        requires marked { IsMarked marks.now lits.now }
        requires room { 2 * self.now.variables ≤ length marks.now }
        requires untrue { HasTrue lits.now (literals_of (kept_to 0 self.now.trail)) → ⊥ }
        ensures some { result ≡ true → HasSubset store.now.slots lits.now }
        ensures none { result ≡ false → (r : ℕ) (c : List Literal) → is_attached self.now r ≡ true
            → clause_at store.now.slots r ≡ Some c → is_subset c lits.now ≡ false }
    {
        for lit in lits {
            if self.row_has_marked(store, *lit, marks) {
                return true;
            }
        }
        self.waiting_has_marked(store, marks)
    }

    /// Whether a clause that watches this literal has no literals but those that are marked.
    fn row_has_marked(&self, store: &Store, lit: Lit, marks: &Marks) -> bool
        requires fits { Fits self.now store.now.slots }
        requires in_range { lit.variable ≤ self.now.variables }
        requires room { 2 * self.now.variables ≤ length marks.now }
        ensures some { result ≡ true → HasMarked self.now store.now.slots marks.now }
        ensures none { result ≡ false → AreUnmarked store.now.slots marks.now
            (row_at self.now.watches.rows (index_of lit)) }
    {
        for at in 0..self.row_len(lit) {
            if self.entry_is_marked(store, self.entry(lit, at), marks) {
                return true;
            }
        }
        false
    }

    /// The entry at a place of a row.
    fn entry(&self, lit: Lit, at: usize) -> WatchEntry
        requires in_range { lit.variable ≤ self.now.variables }
        requires within { at < length (row_at self.now.watches.rows (index_of lit)) }
        ensures { slice_get (row_at self.now.watches.rows (index_of lit)) at ≡ Some result }
    {
        self.pool.get(lit.index(), at)
    }

    /// Whether the clause of the entry has no literals but those that are marked.
    fn entry_is_marked(&self, store: &Store, entry: WatchEntry, marks: &Marks) -> bool
        requires fits { Fits self.now store.now.slots }
        requires blocker { HasBlocker self.now store.now.slots entry }
        requires room { 2 * self.now.variables ≤ length marks.now }
        ensures some { result ≡ true → HasMarked self.now store.now.slots marks.now }
        ensures none { result ≡ false → IsUnmarked store.now.slots marks.now entry.reference }
    {
        marks.is_marked(entry.blocker) && self.is_marked(store, entry.reference, marks)
    }

    /// Whether a clause that waits has no literals but those that are marked.
    fn waiting_has_marked(&self, store: &Store, marks: &Marks) -> bool
        requires fits { Fits self.now store.now.slots }
        requires room { 2 * self.now.variables ≤ length marks.now }
        ensures some { result ≡ true → HasMarked self.now store.now.slots marks.now }
        ensures none { result ≡ false → (r : ℕ) → Contains self.now.watches.waiting r
            → is_attached self.now r ≡ true → IsUnmarked store.now.slots marks.now r }
    {
        for at in 0..self.waiting_len() {
            if self.is_marked(store, self.waiting_at(at), marks) {
                return true;
            }
        }
        false
    }

    /// Whether the clause is attached and has no literals but those that are marked.
    fn is_marked(&self, store: &Store, reference: CRef, marks: &Marks) -> bool
        requires fits { Fits self.now store.now.slots }
        requires room { 2 * self.now.variables ≤ length marks.now }
        ensures some { result ≡ true → HasMarked self.now store.now.slots marks.now }
        ensures none { result ≡ false → is_attached self.now reference ≡ true
            → IsUnmarked store.now.slots marks.now reference }
    {
        self.is_attached(reference) && marks.has_all(store.lits(reference))
    }

    /// Whether the clause is attached.
    fn is_attached(&self, reference: CRef) -> bool
        ensures { result ≡ is_attached self.now reference }
    {
        match self.attachment(reference) {
            Attachment::Detached => false,
            Attachment::Waiting => true,
            Attachment::Satisfied => true,
            Attachment::Watching(_, _, _) => true,
        }
    }
}
