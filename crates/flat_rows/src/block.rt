// A list of values in one block of memory, all of whose places are filled.
//
// A vector whose length never changes does the same, with a length and a capacity. Here a block is
// one pointer and a count.
ghost use Rattle.std.specs.Prelude.{◌≡◌, ℕ, ◌+◌, ◌^◌, ◌<◌, ◌≤◌, [], length, get_or, slice_set};
ghost use Rattle.std.specs.Prelude.{replicate, IfOk};

use crate::places::{Deed, Places, allocate, close, deallocate};
use std::alloc::{AllocError, Global};
use std::marker::Model;
use std::ptr;
use std_alloc::room::may_hold;

/// As many values as were asked for.
pub struct FlatBlock<T> {
    // The first place; null where there is none.
    base: *mut T,
    // The number of places, below 2^63: it never changes.
    count: usize,
    // What lies in the places. It takes no space.
    places: Places<T>,
    // The right to free the block. It takes no space.
    deed: Deed<T, Global>,
    // Where the block comes from.
    alloc: Global,
}

impl<T> Model for FlatBlock<T> {
    ghost use Rattle.std.specs.Prelude.{List};
    ghost use Rattle.flat_rows.specs.Block.{IsBlock};

    ghost Value = { List T };

    ghost view = { λ b. b.places.items };

    ghost invariant = { λ b. IsBlock b };
}

impl<T: Copy> FlatBlock<T> {
    /// A block without values. It takes no memory.
    pub fn empty(alloc: Global) -> Self
        ensures { result ≡ [] }
    {
        FlatBlock {
            base: ptr::null_mut(),
            count: 0,
            places: Places::none(),
            deed: Deed::none(&alloc),
            alloc,
        }
    }

    /// `count` times the same value.
    ///
    /// # Errors
    ///
    /// `AllocError` where the memory was refused, or where `count` values would take 2^63 bytes or
    /// more.
    pub fn new(alloc: Global, count: usize, fill: &T) -> Result<Self, AllocError>
        ensures { IfOk result (λ b. b ≡ replicate count fill.now) }
    {
        if count == 0 {
            return Ok(FlatBlock::empty(alloc));
        }
        if !may_hold::<T>(count) {
            return Err(AllocError);
        }
        let (base, mut places, deed) = allocate(&alloc, count, fill)?;
        for place in 0..count {
            places.put(base, place, *fill);
        }
        Ok(FlatBlock {
            base,
            count,
            places,
            deed,
            alloc,
        })
    }

    /// The number of places.
    pub fn len(&self) -> usize
        ensures count { result ≡ length self.now }
        ensures small { result < 2 ^ 63 }
    {
        self.count
    }

    /// The value at a place, counted from 0.
    pub fn get(&self, place: usize) -> T
        requires { place < length self.now }
        ensures { (d : T) → result ≡ get_or self.now place d }
    {
        *self.places.get(self.base, place)
    }

    /// Writes the value at a place, counted from 0.
    pub fn set(&mut self, place: usize, value: T)
        requires { place < length self.old }
        ensures { self.new ≡ slice_set self.old place value }
    {
        self.places.put(self.base, place, value);
    }

    /// Copies the `count` values from place `from` on to the places from `to` on, all of which lie
    /// after them. Nothing else changes.
    pub fn copy_within(&mut self, from: usize, to: usize, count: usize)
        requires before { from + count ≤ to }
        requires room { to + count ≤ length self.old }
        requires small { to + count < 2 ^ 64 }
        ensures long { length self.new ≡ length self.old }
        ensures kept { (k : ℕ) (d : T) → k < to → get_or self.new k d ≡ get_or self.old k d }
        ensures copied { (k : ℕ) (d : T) → k < count → get_or self.new (to + k) d
            ≡ get_or self.old (from + k) d }
        ensures behind { (k : ℕ) (d : T) → to + count ≤ k
            → get_or self.new k d ≡ get_or self.old k d }
    {
        for moved in 0..count {
            let value = self.get(from + moved);
            self.set(to + moved, value);
        }
    }
}

impl<T> Drop for FlatBlock<T> {
    fn drop(self) {
        let FlatBlock {
            base,
            count,
            places,
            deed,
            alloc,
        } = self;
        if count == 0 {
            close(places, deed);
        } else {
            deallocate(&alloc, base, count, places, deed);
        }
    }
}
