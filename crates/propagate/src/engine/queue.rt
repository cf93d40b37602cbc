// The propagation queue: the literals that became true, each with the clauses that watch its
// negation.
//
// This is the loop in which a search spends most of its time. For each literal that became false it
// goes along the row of entries of the clauses that watch it. An entry whose blocker is true stays,
// and its clause is not looked at. Else the clause is asked for its other watch and, if that is not
// true either, for a literal that is not false: to watch that one the entry goes to another row.
// Where there is none, the clause is unit, with the other watch left, or false. Entries that stay
// are written over those that left, by two places `read` and `write`, and the gap between these is
// taken out at the end, also after a conflict or a refused growth: so each return leaves a whole
// row. Memory is allocated only where another row grows.
//
// Most blockers are true: 85 % in a search on sums. So the front of a row, up to the first entry
// that its blocker does not settle, is skipped by `skip_true`, a loop that writes nothing, and so
// reads the place of the row only once. The same at each later place, with a second loop that moves
// true entries down, takes eighteen instructions more for each entry that is not settled, as much
// as it saves. Where the row ends by itself its end is cut off, and `close_row` stays out of the
// loop.
ghost use Rattle.std.specs.Prelude.{◌≡◌, ◌≢◌, ◌+◌, ◌<◌, ◌≤◌, true, Some, None, length, IfOk};
ghost use Rattle.std.specs.Prelude.{IfNone, MatchOption, OnOk, OnErr, slice_index_or, slice_set};
ghost use Rattle.std.specs.List.{AllByRecursion};
ghost use Rattle.cnf.specs.Literal.{Literal, negation, index_of};
ghost use Rattle.cnf.specs.Clause.{contains_literal};
ghost use Rattle.propagate_watches.specs.Pool.{row_at, with_row};
ghost use Rattle.propagate_watches.specs.Table.{IsWatching, attachment_in, rest_in, IsWatchedBy};
ghost use Rattle.propagate_trail.specs.Trail.{literals_of};
ghost use Rattle.propagate.specs.Watches.{IsEngine, IsVariable};
ghost use Rattle.propagate.specs.Fits.{Fits};
ghost use Rattle.propagate.specs.Steps.{Continues, GoesOn, Settles, AreTrueWaiting};
ghost use Rattle.propagate.specs.Steps.{IsTrueEntry, FindsConflict, IsWatched, LeavesOne};
ghost use Rattle.propagate.specs.Steps.{MayBeWatched, InRow, with_rows, closed, moved};
ghost use Rattle.propagate.specs.Queue.{LookSays, StepSays};

use super::Engine;
use crate::not_false::find_other_not_false;
use clauses::store::{CRef, Store};
use cnf::types::Lit;
use propagate_watches::pool::WatchEntry;
use propagate_watches::table::Rest;
use std::alloc::AllocError;

/// What is found of a clause whose watched literal is false.
#[derive(Clone, Copy, Drop)]
pub(crate) enum Look {
    /// This literal of it is true.
    True(Lit),
    /// Beside the other watch, the first, the second literal may be watched.
    Watch(Lit, Lit),
    /// All literals but this one, which is open, are false.
    Unit(Lit),
    /// All literals are false.
    False,
}

/// What became of an entry.
#[derive(Clone, Copy, Drop)]
pub(crate) enum EntryFate {
    /// It stays in its row.
    Kept,
    /// It went to another row.
    Moved,
    /// The clause is false.
    Conflict(CRef),
    /// The other row could not grow.
    Refused,
}

impl Engine {
    /// Propagates the literals that became true, up to a conflict or the fixpoint.
    pub(super) fn look_at_queue(&mut self, store: &Store) -> Result<Option<CRef>, AllocError>
        requires fits { Fits self.old store.now.slots }
        requires waiting { AreTrueWaiting store.now.slots self.old }
        ensures goes_on { GoesOn store.now.slots self.old self.new }
        ensures settles { IfOk result (Settles store.now.slots self.new) }
    {
        while let Some(falsified) = self.next_falsified() {
            if let Some(conflict) = self.look_at_row(store, falsified)? {
                return Ok(Some(conflict));
            }
            self.advance();
        }
        Ok(None)
    }

    /// The negation of the first literal that was not looked at.
    fn next_falsified(&self) -> Option<Lit>
        ensures { MatchOption result (self.now.watches.qhead ≡ length self.now.trail)
            (λ w. (self.now.watches.qhead < length self.now.trail)
            × (self.now.watches.qhead < self.now.variables) × IsVariable self.now.variables w
            × (w ≡ negation (slice_index_or (literals_of self.now.trail) self.now.watches.qhead
            w))) }
    {
        if self.qhead < self.trail.len() {
            Some(self.trail.literals()[self.qhead].negation())
        } else {
            None
        }
    }

    /// One more literal was looked at.
    fn advance(&mut self)
        requires { self.old.watches.qhead < length self.old.trail }
        ensures { self.new ≡ record self.old {
          watches =
              record self.old.watches { qhead = self.old.watches.qhead + 1 };
        } }
    {
        if self.qhead < self.trail.len() {
            self.qhead += 1;
        }
    }

    /// Filters the row of a literal that is false: what stays has a true literal.
    fn look_at_row(&mut self, store: &Store, falsified: Lit) -> Result<Option<CRef>, AllocError>
        requires fits { Fits self.old store.now.slots }
        requires waiting { AreTrueWaiting store.now.slots self.old }
        requires falsified { contains_literal (negation falsified) (literals_of self.old.trail)
            ≡ true }
        requires in_range { IsVariable self.old.variables falsified }
        ensures goes_on { GoesOn store.now.slots self.old self.new }
        ensures waiting { AreTrueWaiting store.now.slots self.new }
        ensures qhead { self.new.watches.qhead ≡ self.old.watches.qhead }
        ensures conflict { IfOk result (FindsConflict store.now.slots self.new) }
        ensures done { IfOk result (λ found. IfNone found
            (AllByRecursion (IsTrueEntry store.now.slots (literals_of self.new.trail))
            (row_at self.new.watches.rows (index_of falsified)))) }
    {
        let len = self.row_len(falsified);
        let mut write = self.skip_true(store, falsified);
        let mut read = write;
        while read < len {
            match self.step(store, falsified, write, read) {
                EntryFate::Kept => {
                    read += 1;
                    write += 1;
                }
                EntryFate::Moved => read += 1,
                EntryFate::Conflict(reference) => {
                    self.close_row(falsified, write, read);
                    return Ok(Some(reference));
                }
                EntryFate::Refused => {
                    self.close_row(falsified, write, read);
                    return Err(AllocError);
                }
            }
        }
        self.end_row(falsified, write);
        Ok(None)
    }

    /// How many clauses watch this literal.
    pub(super) fn row_len(&self, lit: Lit) -> usize
        requires { lit.variable ≤ self.now.variables }
        ensures { result ≡ length (row_at self.now.watches.rows (index_of lit)) }
    {
        self.pool.len(lit.index())
    }

    /// Takes out of a row what stands from place `write` up to place `read`. It stands apart from
    /// the loop, which seldom ends before the row does.
    #[cold]
    #[inline(never)]
    fn close_row(&mut self, lit: Lit, write: usize, read: usize)
        requires in_range { lit.variable ≤ self.old.variables }
        requires order { write ≤ read }
        requires within { read ≤ length (row_at self.old.watches.rows (index_of lit)) }
        ensures { self.new ≡ closed self.old (index_of lit) write read }
    {
        self.pool.close(lit.index(), write, read);
    }

    /// How many entries at the front of a row have true blockers: these stay, and are not written.
    fn skip_true(&self, store: &Store, falsified: Lit) -> usize
        requires { InRow store.now.slots self.now falsified 0 0 }
        ensures { InRow store.now.slots self.now falsified result result }
    {
        let len = self.row_len(falsified);
        let mut kept = 0;
        while kept < len {
            let entry = self.entry_at(store, falsified, kept, kept);
            if !self.trail.is_true(entry.blocker) {
                break;
            }
            kept += 1;
        }
        kept
    }

    /// The entry at place `read` of a row that is being filtered. Only the contract reads `store`
    /// and `write`.
    fn entry_at(&self, store: &Store, falsified: Lit, write: usize, read: usize) -> WatchEntry
        requires state { InRow store.now.slots self.now falsified write read }
        requires more { read < length (row_at self.now.watches.rows (index_of falsified)) }
        ensures at { result ≡ slice_index_or (row_at self.now.watches.rows (index_of falsified))
            read result }
        ensures known { IsWatched store.now.slots self.now falsified result }
        ensures sound { IsEngine self.now }
    {
        self.pool.get(falsified.index(), read)
    }

    /// Takes out of a row what stands from place `write` up to its end.
    fn end_row(&mut self, lit: Lit, write: usize)
        requires in_range { lit.variable ≤ self.old.variables }
        requires within { write ≤ length (row_at self.old.watches.rows (index_of lit)) }
        ensures { self.new ≡ closed self.old (index_of lit) write
            (length (row_at self.old.watches.rows (index_of lit))) }
    {
        self.pool.truncate(lit.index(), write);
    }

    /// Looks at the entry at place `read`, and keeps it at place `write` where it stays.
    fn step(&mut self, store: &Store, falsified: Lit, write: usize, read: usize) -> EntryFate
        requires state { InRow store.now.slots self.old falsified write read }
        requires more { read < length (row_at self.old.watches.rows (index_of falsified)) }
        ensures continues { Continues self.old self.new }
        ensures qhead { self.new.watches.qhead ≡ self.old.watches.qhead }
        ensures len { length (row_at self.new.watches.rows (index_of falsified))
            ≡ length (row_at self.old.watches.rows (index_of falsified)) }
        ensures after { StepSays store.now.slots self.new falsified write read result }
    {
        let entry = self.entry_at(store, falsified, write, read);
        let reference = entry.reference;
        match self.look_at(store, falsified, entry) {
            Look::True(blocker) => {
                self.write_entry(falsified, write, WatchEntry { reference, blocker });
                EntryFate::Kept
            }
            Look::Unit(blocker) => {
                self.imply(blocker, reference);
                self.write_entry(falsified, write, WatchEntry { reference, blocker });
                EntryFate::Kept
            }
            Look::Watch(other, lit) => match self.rewatch(reference, falsified, other, lit) {
                Ok(()) => EntryFate::Moved,
                Err(_) => EntryFate::Refused,
            },
            Look::False => EntryFate::Conflict(reference),
        }
    }

    /// Writes the entry at a place of a row.
    fn write_entry(&mut self, lit: Lit, at: usize, entry: WatchEntry)
        requires in_range { lit.variable ≤ self.old.variables }
        requires within { at < length (row_at self.old.watches.rows (index_of lit)) }
        ensures { self.new ≡ with_rows self.old
            (with_row self.old.watches.rows (index_of lit)
            (slice_set (row_at self.old.watches.rows (index_of lit)) at entry)) }
    {
        self.pool.set(lit.index(), at, entry);
    }

    /// Finds out what a clause that watches a false literal asks for.
    fn look_at(&self, store: &Store, falsified: Lit, entry: WatchEntry) -> Look
        requires { IsWatched store.now.slots self.now falsified entry }
        ensures { LookSays store.now.slots self.now falsified entry.reference result }
    {
        if self.trail.is_true(entry.blocker) {
            return Look::True(entry.blocker);
        }
        let (other, rest) = self.table.other(entry.reference, falsified);
        if self.trail.is_true(other) {
            return Look::True(other);
        }
        match self.beside(store, entry, other, rest) {
            Some(lit) => Look::Watch(other, lit),
            None if self.trail.is_false(other) => Look::False,
            None => Look::Unit(other),
        }
    }

    /// A literal that is not false, beside the two that a clause watches. The store is not asked
    /// for a clause of up to three.
    fn beside(&self, store: &Store, entry: WatchEntry, other: Lit, rest: Rest) -> Option<Lit>
        requires watched { (falsified : Literal)
            × IsWatched store.now.slots self.now falsified entry
            × IsWatchedBy (attachment_in self.now.watches.table entry.reference) falsified other }
        requires rest { rest ≡ rest_in (attachment_in self.now.watches.table entry.reference) }
        ensures { MatchOption result (LeavesOne store.now.slots self.now entry.reference other)
            (λ l. (l ≢ other) × MayBeWatched store.now.slots self.now entry.reference l) }
    {
        match rest {
            Rest::Nothing => None,
            Rest::One(third) => {
                if self.trail.is_false(third) {
                    None
                } else {
                    Some(third)
                }
            }
            Rest::Many => find_other_not_false(&self.trail, store.lits(entry.reference), other),
        }
    }

    /// The clause watches `lit` in the place of a false literal from now on. A refused growth
    /// changes nothing.
    fn rewatch(
        &mut self,
        reference: CRef,
        falsified: Lit,
        other: Lit,
        lit: Lit,
    ) -> Result<(), AllocError>
        requires watching { (a b : Literal) × IsWatching
            (attachment_in self.old.watches.table reference) a b }
        requires lit { IsVariable self.old.variables lit }
        requires other { IsVariable self.old.variables other }
        ensures ok { OnOk result (self.new ≡ moved self.old falsified reference other lit) }
        ensures err { OnErr result (self.new ≡ self.old) }
    {
        let entry = WatchEntry {
            reference,
            blocker: other,
        };
        self.pool.push(lit.index(), entry)?;
        self.table.rewatch(reference, falsified, lit, other);
        Ok(())
    }
}
