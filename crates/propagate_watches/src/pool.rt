// Rows of watches, in one block of memory.
//
// Propagation goes along the row of each literal that became false: `get` reads its entries one
// after another, `set` writes those that stay over those that leave, and `push` adds an entry to
// another row. What is left over at the end of the row `truncate` cuts off; where propagation stops
// before it, `close` takes the gap out. Where the rows lie is the business of `FlatRows`.
ghost use Rattle.std.specs.Prelude.{◌≡◌, ◌<◌, ◌≤◌, List, [], ◌∷◌, ◌++◌, length, map, replicate};
ghost use Rattle.std.specs.Prelude.{take, Some, slice_get, slice_set, OnOk, OnErr, IfOk};
ghost use Rattle.std.specs.Prelude.{filter, not, ◌==◌};
ghost use Rattle.propagate_watches.specs.Pool.{row_at, with_row, closed_row};
ghost use Rattle.propagate_watches.specs.Doomed.{spared_entries, spared_rows};
ghost use Rattle.propagate_watches.specs.Renames.{named_entry, named_rows};

use crate::doomed::is_doomed;
use crate::moved::new_entry;
use clauses::store::{CRef, Moves};
use cnf::types::Lit;
use flat_rows::rows::FlatRows;
use std::alloc::{AllocError, Global};
use std::marker::Model;

/// A clause that watches a literal, and another literal of it.
#[derive(Clone, Copy, Debug, PartialEq, Eq, Drop)]
pub struct WatchEntry {
    /// The clause.
    pub reference: CRef,
    /// The blocker: where this literal is true the clause need not be looked at. It may also be the
    /// other one that is watched.
    pub blocker: Lit,
}

/// A list of entries for each row, all in one block: a row without room left moves to the end of
/// what is in use, where it has twice its room.
#[derive(Drop)]
pub struct WatchPool {
    // The entries, by row.
    rows: FlatRows<WatchEntry>,
}

impl Model for WatchPool {
    ghost use Rattle.std.specs.Prelude.{List};
    ghost use Rattle.propagate_watches.specs.declared.pool.WatchEntry.{WatchEntry};

    ghost Value = { List (List WatchEntry) };

    ghost view = { λ p. p.rows.rows };
}

impl WatchPool {
    /// `rows` empty rows.
    ///
    /// # Errors
    ///
    /// `AllocError` where the memory for the heads of the rows was refused.
    pub fn new(alloc: Global, rows: usize) -> Result<Self, AllocError>
        ensures { IfOk result (λ p. p ≡ replicate rows []) }
    {
        Ok(WatchPool {
            rows: FlatRows::new(alloc, rows)?,
        })
    }

    /// The number of rows.
    pub fn rows(&self) -> usize
        ensures { result ≡ length self.now }
    {
        self.rows.rows()
    }

    /// The number of entries in a row.
    pub fn len(&self, row: usize) -> usize
        requires { row < length self.now }
        ensures { result ≡ length (row_at self.now row) }
    {
        self.rows.len(row)
    }

    /// The entry at place `i` of a row.
    pub fn get(&self, row: usize, i: usize) -> WatchEntry
        requires row { row < length self.now }
        requires place { i < length (row_at self.now row) }
        ensures { slice_get (row_at self.now row) i ≡ Some result }
    {
        self.rows.get(row, i)
    }

    /// Puts an entry at the end of a row.
    ///
    /// # Errors
    ///
    /// `AllocError` where a growth was refused; for a row of 2^32 - 1 entries it always is. All
    /// rows are then as they were.
    #[inline]
    pub fn push(&mut self, row: usize, entry: WatchEntry) -> Result<(), AllocError>
        requires { row < length self.old }
        ensures ok { OnOk result (self.new ≡ with_row self.old row
            (row_at self.old row ++ entry ∷ [])) }
        ensures err { OnErr result (self.new ≡ self.old) }
    {
        self.rows.push(row, entry)
    }

    /// Writes an entry at place `i` of a row.
    pub fn set(&mut self, row: usize, i: usize, entry: WatchEntry)
        requires row { row < length self.old }
        requires place { i < length (row_at self.old row) }
        ensures { self.new ≡ with_row self.old row (slice_set (row_at self.old row) i entry) }
    {
        self.rows.set(row, i, entry);
    }

    /// Keeps the first `len` entries of a row.
    pub fn truncate(&mut self, row: usize, len: usize)
        requires row { row < length self.old }
        requires shorter { len ≤ length (row_at self.old row) }
        ensures { self.new ≡ with_row self.old row (take len (row_at self.old row)) }
    {
        self.rows.truncate(row, len);
    }

    /// Moves the entries of a row from place `read` on down to place `write`: those between the two
    /// are gone, and the others keep their order.
    pub fn close(&mut self, row: usize, write: usize, read: usize)
        requires row { row < length self.old }
        requires order { write ≤ read }
        requires within { read ≤ length (row_at self.old row) }
        ensures { self.new ≡ with_row self.old row (closed_row write read (row_at self.old row)) }
    {
        let len = self.len(row);
        for moved in 0..len - read {
            let entry = self.get(row, read + moved);
            self.set(row, write + moved, entry);
        }
        self.truncate(row, write + (len - read));
    }

    /// Takes the entries of a clause out of a row. The others keep their order.
    pub fn remove(&mut self, row: usize, reference: CRef)
        requires row { row < length self.old }
        ensures { self.new ≡ with_row self.old row
            (filter (λ w. not (w.reference == reference)) (row_at self.old row)) }
    {
        let mut write = 0;
        for read in 0..self.len(row) {
            let entry = self.get(row, read);
            if entry.reference != reference {
                self.set(row, write, entry);
                write += 1;
            }
        }
        self.truncate(row, write);
    }

    /// Takes the entries of the clauses that are marked out of all rows: `doomed` has a mark by
    /// reference, and clauses past its end have none.
    pub fn drop_doomed(&mut self, doomed: &[bool])
        ensures { self.new ≡ spared_rows doomed.now self.old }
    {
        for row in 0..self.rows() {
            self.drop_doomed_of(row, doomed);
        }
    }

    fn drop_doomed_of(&mut self, row: usize, doomed: &[bool])
        requires row { row < length self.old }
        ensures { self.new ≡ with_row self.old row
            (spared_entries doomed.now (row_at self.old row)) }
    {
        let mut write = 0;
        for read in 0..self.len(row) {
            let entry = self.get(row, read);
            if !is_doomed(doomed, entry.reference) {
                self.set(row, write, entry);
                write += 1;
            }
        }
        self.truncate(row, write);
    }

    /// Puts the new reference of its clause into each entry. Then rows that lie far apart move
    /// together, if there is memory for that.
    pub fn rename(&mut self, moves: &Moves)
        ensures { self.new ≡ named_rows moves.now self.old }
    {
        for row in 0..self.rows() {
            self.rename_row(row, moves);
        }
        let _ = self.rows.pack();
    }

    fn rename_row(&mut self, row: usize, moves: &Moves)
        requires row { row < length self.old }
        ensures { self.new ≡ with_row self.old row
            (map (named_entry moves.now) (row_at self.old row)) }
    {
        for i in 0..self.len(row) {
            let entry = self.get(row, i);
            self.set(row, i, new_entry(moves, entry));
        }
    }

    /// Gives each row room for as many entries as `rooms` says, where it has no more, all side by
    /// side: rows that grow one by one leave their old places empty.
    ///
    /// # Errors
    ///
    /// `AllocError` where a growth was refused.
    pub fn make_rooms(&mut self, rooms: &[u32], fill: &WatchEntry) -> Result<(), AllocError>
        ensures unchanged { self.new ≡ self.old }
    {
        self.rows.make_rooms(rooms, fill)
    }
}
