// Occurrence lists: in which clauses each literal occurs, by a row of references for each literal,
// all rows in one block of memory. Rows keep references of clauses that were deleted since, until
// they are cleaned.
//
// The rows of a formula get their room at once, an eighth more than its clauses need. A vector for
// each row took 24 bytes a row, with room that doubles, and left its pieces between the blocks that
// came later.
ghost use Rattle.std.specs.Prelude.{◌≡◌, ℕ, ◌<◌, [], ◌∷◌, ◌++◌, ◌⊎◌, length, replicate, max, Some};
ghost use Rattle.std.specs.Prelude.{slice_get, IfOk, OnOk, OnErr, All};
ghost use Rattle.cnf.specs.Marks.{HasPlace};
ghost use Rattle.eliminate_tables.specs.Rows.{row_at, with_row, with_clause_rows, has_clause};
ghost use Rattle.eliminate_tables.specs.Rows.{cleaned, room_at, with_space, IsFull};

use clauses::store::{CRef, Store};
use cnf::types::Lit;
use flat_rows::rows::FlatRows;
use std::alloc::{AllocError, Global};
use std::marker::Model;

/// A row of references for each literal.
#[derive(Drop)]
pub struct Rows {
    // By a literal's index: the clauses with the literal, also such as were deleted since.
    rows: FlatRows<CRef>,
}

impl Model for Rows {
    ghost use Rattle.std.specs.Prelude.{ℕ};
    ghost use Rattle.flat_rows.specs.Rows.{Roomed};

    ghost Value = { Roomed ℕ };

    ghost view = { λ r. r.rows };
}

impl Rows {
    /// `count` empty rows.
    pub fn new(alloc: Global, count: usize) -> Result<Self, AllocError>
        ensures { IfOk result (λ r. r ≡ record {
          rows = replicate count [];
          rooms = replicate count 0;
        }) }
    {
        Ok(Rows {
            rows: FlatRows::new(alloc, count)?,
        })
    }

    /// How many rows there are.
    pub fn count(&self) -> usize
        ensures { result ≡ length self.now.rows }
    {
        self.rows.rows()
    }

    /// The number of references in a row.
    pub fn len(&self, row: usize) -> usize
        requires { row < length self.now.rows }
        ensures { result ≡ length (row_at self.now.rows row) }
    {
        self.rows.len(row)
    }

    /// The reference at a place of a row.
    pub fn get(&self, row: usize, place: usize) -> CRef
        requires row { row < length self.now.rows }
        requires place { place < length (row_at self.now.rows row) }
        ensures { slice_get (row_at self.now.rows row) place ≡ Some result }
    {
        self.rows.get(row, place)
    }

    /// Gives each row room for as many references as `rooms` says, where it has no more.
    pub fn make_rooms(&mut self, rooms: &[u32], fill: CRef) -> Result<(), AllocError>
        ensures rows { self.new.rows ≡ self.old.rows }
        ensures rooms { OnOk result ((i : ℕ) → i < length self.old.rows
            → room_at self.new.rooms i ≡ max (room_at self.old.rooms i) (room_at rooms.now i)) }
    {
        self.rows.make_rooms(rooms, &fill)
    }

    /// Puts a reference at the end of a row.
    ///
    /// # Errors
    ///
    /// `AllocError` where the row has no room and a growth was refused. All rows are then as they
    /// were.
    pub fn push(&mut self, row: usize, reference: CRef) -> Result<(), AllocError>
        requires { row < length self.old.rows }
        ensures ok { IfOk result (λ _. self.new.rows
            ≡ with_row self.old.rows row (row_at self.old.rows row ++ reference ∷ [])) }
        ensures err { OnErr result (self.new.rows ≡ self.old.rows) }
        ensures full { OnErr result (IsFull self.old row) }
        ensures rooms { ¬ IsFull self.old row → self.new.rooms ≡ self.old.rooms }
    {
        self.rows.push(row, reference)
    }

    /// Puts a clause into the rows of its literals.
    pub fn add(&mut self, lits: &[Lit], reference: CRef) -> Result<(), AllocError>
        requires { All (HasPlace (length self.old.rows)) lits.now }
        ensures { IfOk result
            (λ _. self.new.rows ≡ with_clause_rows self.old.rows lits.now reference) }
    {
        for lit in lits {
            self.push(lit.index(), reference)?;
        }
        Ok(())
    }

    /// Takes what was deleted out of a row.
    pub fn clean(&mut self, row: usize, store: &Store)
        requires { row < length self.old.rows }
        ensures rows { self.new.rows ≡ cleaned self.old.rows store.now.slots row }
        ensures rooms { self.new.rooms ≡ self.old.rooms }
    {
        let mut write = 0;
        for read in 0..self.len(row) {
            let reference = self.get(row, read);
            if has_clause(store, reference) {
                self.rows.set(row, write, reference);
                write += 1;
            }
        }
        self.rows.truncate(row, write);
    }

    /// Makes space in a row that is full: what was deleted is taken out of it. Where that leaves
    /// less than an eighth of its room it gets twice as much, so that a long row is not cleaned at
    /// each reference that it gets. A row with room for fewer than eight does not grow here: the
    /// next push moves it, where it is full still.
    ///
    /// # Errors
    ///
    /// `AllocError` where a growth was refused. The row is then cleaned.
    pub fn make_space(&mut self, row: usize, store: &Store, fill: CRef) -> Result<(), AllocError>
        requires { row < length self.old.rows }
        ensures ok { OnOk result (self.new ≡ with_space self.old store.now.slots row) }
        ensures err { OnErr result (self.new ≡ record self.old {
          rows = cleaned self.old.rows store.now.slots row;
        }) }
        ensures rows { (self.new.rows ≡ self.old.rows)
            ⊎ (self.new.rows ≡ cleaned self.old.rows store.now.slots row) }
    {
        let room = self.rows.room(row);
        if self.rows.len(row) < room {
            return Ok(());
        }
        self.clean(row, store);
        if self.rows.len(row) > room - room / 8 {
            self.rows.make_room(row, &fill)?;
        }
        Ok(())
    }

    /// Puts the references of a row at the end of a list.
    pub fn collect(&self, row: usize, references: &mut Vec<CRef>) -> Result<(), AllocError>
        requires { row < length self.now.rows }
        ensures { IfOk result (λ _.
            references.new.items ≡ references.old.items ++ row_at self.now.rows row) }
    {
        for place in 0..self.len(row) {
            references.push(self.get(row, place))?;
        }
        Ok(())
    }
}

/// Whether the store has a clause under this reference.
fn has_clause(store: &Store, reference: CRef) -> bool
    ensures { result ≡ has_clause store.now.slots reference }
{
    store.is_live(reference)
}
