//! Rows of entries, all in one block of memory.
//!
//! An entry is found by two reads, of its row's head and of its place, and the entries of a row lie
//! side by side. The rare case that a row has no room left is left to `make_room`. Rows that move
//! leave their old places empty; these are not used again.
ghost use Rattle.std.specs.Prelude.{◌≡◌, ℕ, ◌<◌, ◌≤◌, [], ◌∷◌, ◌++◌, length, replicate, take};
ghost use Rattle.std.specs.Prelude.{Some, max, slice_get, slice_set, OnOk, OnErr, IfOk, IsTrue};
ghost use Rattle.flat_rows.specs.Rows.{row_at, with_row, room_at, doubled_room, IsFull};

use crate::block::FlatBlock;
use std::alloc::{AllocError, Global};
use std::marker::Model;

/// Where a row lies in the block. It takes sixteen bytes, so that none lies across the lines of a
/// cache.
#[derive(Clone, Copy, Drop)]
pub(crate) struct RowHead {
    // The place of its first entry in the block.
    start: usize,
    // The number of its entries, at most `room`.
    length: u32,
    // The number of places from the first on that are the row's own.
    room: u32,
}

const _: () = prove!(size_of::<RowHead>() == 16);

const NO_ROW: RowHead = RowHead {
    start: 0,
    length: 0,
    room: 0,
};

/// The room, in entries, that a row gets with its first entry.
pub const FIRST_ROOM: u32 = 4;

/// A list of entries for each row. A row without room left moves to the end of what is in use,
/// where it has twice its room; a block without room left is copied to a larger one.
#[derive(Drop)]
pub struct FlatRows<T> {
    // The rows, and the places between them that none has.
    block: FlatBlock<T>,
    // For each row, where it lies in the block.
    heads: Vec<RowHead>,
    // The number of places at the block's front in which all rows lie; at most the block's length,
    // and below 2^63.
    used: usize,
}

impl<T> Model for FlatRows<T> {
    ghost use Rattle.flat_rows.specs.Rows.{Roomed};
    ghost use Rattle.flat_rows.specs.RowLayout.{roomed, IsLaid};

    ghost Value = { Roomed T };

    ghost view = { λ p. roomed p.block p.heads.items };

    ghost invariant = { λ p. IsLaid p.block p.heads.items p.used };
}

impl<T: Copy> FlatRows<T> {
    /// `rows` empty rows, without room.
    ///
    /// # Errors
    ///
    /// `AllocError` where the memory for the heads of the rows was refused.
    pub fn new(alloc: Global, rows: usize) -> Result<Self, AllocError>
        ensures { IfOk result (λ p. p ≡ record {
          rows = replicate rows [];
          rooms = replicate rows 0;
        }) }
    {
        let block = FlatBlock::empty(alloc);
        let heads = Vec::from_elem(alloc, NO_ROW, rows)?;
        Ok(FlatRows {
            block,
            heads,
            used: 0,
        })
    }

    /// The number of rows.
    pub fn rows(&self) -> usize
        ensures { result ≡ length self.now.rows }
    {
        self.heads.len()
    }

    /// The number of entries in a row.
    pub fn len(&self, row: usize) -> usize
        requires { row < length self.now.rows }
        ensures { result ≡ length (row_at self.now.rows row) }
    {
        self.heads[row].length as usize
    }

    /// How many entries a row can have before it moves.
    pub fn room(&self, row: usize) -> usize
        requires { row < length self.now.rows }
        ensures room { result ≡ room_at self.now.rooms row }
        ensures within { length (row_at self.now.rows row) ≤ result }
    {
        self.heads[row].room as usize
    }

    /// The entry at place `i` of a row.
    pub fn get(&self, row: usize, i: usize) -> T
        requires row { row < length self.now.rows }
        requires place { i < length (row_at self.now.rows row) }
        ensures { slice_get (row_at self.now.rows row) i ≡ Some result }
    {
        let start = self.heads[row].start;
        self.block.get(start + i)
    }

    /// Puts an entry at the end of a row.
    ///
    /// # Errors
    ///
    /// `AllocError` where the row has no room and a growth was refused; for a row of 2^32 - 1
    /// entries it always is. All rows are then as they were.
    #[inline]
    pub fn push(&mut self, row: usize, entry: T) -> Result<(), AllocError>
        requires { row < length self.old.rows }
        ensures ok { OnOk result (self.new.rows ≡ with_row self.old.rows row
            (row_at self.old.rows row ++ entry ∷ [])) }
        ensures err { OnErr result (self.new.rows ≡ self.old.rows) }
        ensures full { OnErr result (IsFull self.old row) }
        ensures rooms { ¬ IsFull self.old row → self.new.rooms ≡ self.old.rooms }
    {
        if self.put(row, &entry) {
            return Ok(());
        }
        self.make_room(row, &entry)?;
        if self.put(row, &entry) {
            Ok(())
        } else {
            Err(AllocError)
        }
    }

    /// Writes an entry at place `i` of a row.
    pub fn set(&mut self, row: usize, i: usize, entry: T)
        requires row { row < length self.old.rows }
        requires place { i < length (row_at self.old.rows row) }
        ensures rows { self.new.rows
            ≡ with_row self.old.rows row (slice_set (row_at self.old.rows row) i entry) }
        ensures rooms { self.new.rooms ≡ self.old.rooms }
    {
        let start = self.heads[row].start;
        self.block.set(start + i, entry);
    }

    /// Keeps the first `len` entries of a row.
    pub fn truncate(&mut self, row: usize, len: usize)
        requires row { row < length self.old.rows }
        requires shorter { len ≤ length (row_at self.old.rows row) }
        ensures rows { self.new.rows
            ≡ with_row self.old.rows row (take len (row_at self.old.rows row)) }
        ensures rooms { self.new.rooms ≡ self.old.rooms }
    {
        if len < self.heads[row].length as usize {
            self.heads[row].length = len as u32;
        }
    }

    /// Gives each row room for as many entries as `rooms` says, where it has no more, all side by
    /// side: rows that grow one by one leave their old places empty. The block gets an eighth more,
    /// so that it is not copied as soon as one row grows.
    ///
    /// # Errors
    ///
    /// `AllocError` where a growth was refused. Some rows may have got their room then.
    pub fn make_rooms(&mut self, rooms: &[u32], fill: &T) -> Result<(), AllocError>
        ensures rows { self.new.rows ≡ self.old.rows }
        ensures rooms { OnOk result ((i : ℕ) → i < length self.old.rows
            → room_at self.new.rooms i ≡ max (room_at self.old.rooms i) (room_at rooms.now i)) }
    {
        let mut count = self.used;
        for room in rooms {
            count = count.saturating_add(*room as usize);
        }
        if count > self.block.len() {
            self.grow(count.saturating_add(count / 8), fill)?;
        }
        for row in 0..self.rows().min(rooms.len()) {
            if self.room(row) < rooms[row] as usize {
                self.give_room(row, rooms[row], fill)?;
            }
        }
        Ok(())
    }

    /// Where less than a quarter of the places in use have an entry, moves all rows to the front of
    /// the block, side by side, each with room for half as many entries again. Rows that have
    /// shrunk keep their room otherwise, and those that moved have left places behind. In between
    /// the entries lie in a block that has no room for more.
    ///
    /// # Errors
    ///
    /// `AllocError` where memory was refused. All is then as it was.
    pub fn pack(&mut self) -> Result<(), AllocError>
        ensures rows { self.new.rows ≡ self.old.rows }
        ensures err { OnErr result (self.new ≡ self.old) }
    {
        if self.used == 0 || !self.is_sparse() {
            return Ok(());
        }
        let fill = self.block.get(0);
        let packed = self.packed(&fill)?;
        if self.take_rows(&packed, &fill).is_err() {
            *self = packed;
        }
        Ok(())
    }

    /// Whether less than a quarter of the places in use have an entry.
    fn is_sparse(&self) -> bool {
        let mut entries: usize = 0;
        for head in &self.heads {
            entries = entries.saturating_add(head.length as usize);
        }
        entries < self.used / 4
    }

    /// The same rows side by side in another block, without room for further entries.
    fn packed(&self, fill: &T) -> Result<Self, AllocError>
        ensures { IfOk result (λ packed. packed.rows ≡ self.now.rows) }
    {
        let alloc = *self.heads.allocator();
        let mut rooms = Vec::new(alloc);
        for head in &self.heads {
            rooms.push(head.length)?;
        }
        let mut packed = FlatRows::new(alloc, self.rows())?;
        packed.make_rooms(&rooms, fill)?;
        for row in 0..self.rows() {
            packed.copy_row(row, self)?;
        }
        Ok(packed)
    }

    /// The rows become those of the other one, side by side, each with room for half as many
    /// entries again.
    fn take_rows(&mut self, other: &Self, fill: &T) -> Result<(), AllocError>
        requires even { length self.old.rows ≡ length other.now.rows }
        ensures { OnOk result (self.new.rows ≡ other.now.rows) }
    {
        self.clear();
        for row in 0..self.rows() {
            let entries = other.heads[row].length;
            self.give_room(row, entries.saturating_add(entries / 2), fill)?;
            self.copy_row(row, other)?;
        }
        Ok(())
    }

    /// Takes all entries and all room from the rows.
    fn clear(&mut self)
        ensures { length self.new.rows ≡ length self.old.rows }
    {
        self.heads.fill(NO_ROW);
        self.used = 0;
    }

    /// The row becomes that of the other one.
    fn copy_row(&mut self, row: usize, other: &Self) -> Result<(), AllocError>
        requires here { row < length self.old.rows }
        requires there { row < length other.now.rows }
        ensures { OnOk result (self.new.rows
            ≡ with_row self.old.rows row (row_at other.now.rows row)) }
    {
        self.truncate(row, 0);
        for i in 0..other.len(row) {
            self.push(row, other.get(row, i))?;
        }
        Ok(())
    }

    /// Adds the entry where its row has room, and says whether it had.
    #[inline]
    fn put(&mut self, row: usize, entry: &T) -> bool
        requires { row < length self.old.rows }
        ensures added { IsTrue result → self.new ≡ record self.old {
          rows = with_row self.old.rows row (row_at self.old.rows row ++ entry.now ∷ []);
        } }
        ensures full { ¬ IsTrue result → IsFull self.old row }
        ensures same { ¬ IsTrue result → self.new ≡ self.old }
    {
        let RowHead {
            start,
            length,
            room,
        } = self.heads[row];
        if length == room {
            return false;
        }
        self.block.set(start + length as usize, *entry);
        self.heads[row].length = length + 1;
        true
    }

    /// Gives a row twice its room. A row seldom needs it, so it stands apart from the loop that
    /// pushes.
    ///
    /// # Errors
    ///
    /// `AllocError` where a growth was refused. All is then as it was.
    #[cold]
    #[inline(never)]
    pub fn make_room(&mut self, row: usize, fill: &T) -> Result<(), AllocError>
        requires { row < length self.old.rows }
        ensures ok { OnOk result (self.new ≡ record self.old {
          rooms = slice_set self.old.rooms row (doubled_room (room_at self.old.rooms row));
        }) }
        ensures err { OnErr result (self.new ≡ self.old) }
    {
        let room = self.heads[row].room.saturating_mul(2).max(FIRST_ROOM);
        self.give_room(row, room, fill)
    }

    /// Gives a row `room` places, in a larger block where this one has too few left: half as large
    /// again, or by that room if it is more.
    ///
    /// # Errors
    ///
    /// `AllocError` where a growth was refused. All is then as it was.
    fn give_room(&mut self, row: usize, room: u32, fill: &T) -> Result<(), AllocError>
        requires { row < length self.old.rows }
        ensures ok { OnOk result (self.new ≡ record self.old {
          rooms = slice_set self.old.rooms row room;
        }) }
        ensures err { OnErr result (self.new ≡ self.old) }
    {
        let len = self.block.len();
        if room as usize > len - self.used {
            let more = (len / 2).max(room as usize);
            self.grow(len.saturating_add(more), fill)?;
        }
        if self.move_row(row, room) {
            Ok(())
        } else {
            Err(AllocError)
        }
    }

    /// Moves a row to the end of what is in use, where it gets `room` places. Where the block has
    /// fewer left, or the row more entries, it says no, and all stays as it is.
    fn move_row(&mut self, row: usize, room: u32) -> bool
        requires { row < length self.old.rows }
        ensures moved { IsTrue result → self.new ≡ record self.old {
          rooms = slice_set self.old.rooms row room;
        } }
        ensures same { ¬ IsTrue result → self.new ≡ self.old }
    {
        let RowHead {
            start,
            length,
            room: _,
        } = self.heads[row];
        let to = self.used;
        if room < length || room as usize > self.block.len() - to {
            return false;
        }
        self.block.copy_within(start, to, length as usize);
        self.heads[row] = RowHead {
            start: to,
            length,
            room,
        };
        self.used = to + room as usize;
        true
    }

    /// Moves all rows, each to the same places, to a block of `count` places.
    fn grow(&mut self, count: usize, fill: &T) -> Result<(), AllocError>
        ensures unchanged { self.new ≡ self.old }
    {
        if count < self.used {
            return Err(AllocError);
        }
        let mut next = FlatBlock::new(*self.heads.allocator(), count, fill)?;
        for place in 0..self.used {
            next.set(place, self.block.get(place));
        }
        self.block = next;
        Ok(())
    }
}
