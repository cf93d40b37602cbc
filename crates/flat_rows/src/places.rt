// Places behind a pointer, side by side: each is empty or holds a value. Only here is a raw pointer
// followed, so only these few functions are proved by hand.
//
// The owner of the places takes no space, and the pointer is passed along with it: a proof that
// reads a pointer out of an owner of memory is much longer. Values that own nothing may be
// forgotten, so `put` writes over what a place held, and `deallocate` takes places in any state.
// Only the proofs know which places are filled; a state without empty places would need a loop in
// the proof of `allocate`.
ghost use Rattle.std.specs.Prelude.{◌≡◌, ℕ, ◌<◌, List, [], Bool, true, false, length, replicate};
ghost use Rattle.std.specs.Prelude.{get_or, slice_set, IfOk};
ghost use Rattle.std.specs.Vec.Ownership.{FitsInBlock};
ghost use base.Fml.{ftrue};
ghost use denote.RawPtr.{Ptr, null_ptr};
ghost use Rattle.flat_rows.specs.Ownership.{places_own, places_lent, deed_own};

use std::alloc::{AllocError, Allocator};
use std::marker::{Model, PhantomData};
use std::mem::{align_of, size_of};

/// The owner of the places. It takes no space: whoever has it has the pointer too.
pub struct Places<T> {
    // It stands for the values, which lie elsewhere.
    mark: PhantomData<*const T>,
    // The first place.
    ghost at: { Ptr },
    // A value for each place: the one that it holds, or any.
    ghost items: { List T },
    // Which places hold theirs.
    ghost filled: { List Bool },
    // There are as many of both.
    ghost even: { length filled ≡ length items },
}

impl<T> Model for Places<T> {
    ghost also_owns = { λ c. places_own T.row c.at c.items c.filled };

    ghost also_shares = { λ c _ κ. places_lent T.row c.at c.items c.filled κ };
}

/// The right to give the block of `len` places back to its allocator.
pub struct Deed<T, A: Allocator> {
    // It stands for the block, which lies elsewhere.
    mark: PhantomData<*const (T, A)>,
    // Where the block begins.
    ghost at: { Ptr },
    // The number of its places.
    ghost len: { ℕ },
    // The allocator that takes it back.
    ghost heap: { A },
}

impl<T, A: Allocator> Model for Deed<T, A> {
    ghost also_owns = { λ d. deed_own T.row (A.dealloc_token d.heap) d.at d.len };

    ghost also_shares = { λ _ _ _. ftrue };
}

/// `len` empty places. Each is to hold a value like `fill`.
pub(crate) fn allocate<T, A: Allocator>(
    alloc: &A,
    len: usize,
    fill: &T,
) -> Result<(*mut T, Places<T>, Deed<T, A>), AllocError>
    requires { (0 < len) × FitsInBlock T.row len }
    ensures { IfOk result (λ r. (r.1.at ≡ r.0) × (r.1.items ≡ replicate len fill.now)
        × (r.2.at ≡ r.0) × (r.2.len ≡ len) × (r.2.heap ≡ alloc.now)) }
{
    match alloc.allocate(len * size_of::<T>(), align_of::<T>()) {
        Ok(block) => Ok((
            block as *mut T,
            Places { mark: PhantomData },
            Deed { mark: PhantomData },
        )),
        Err(error) => Err(error),
    }
}

/// Gives the block back. What its places hold is forgotten.
pub(crate) fn deallocate<T, A: Allocator>(
    alloc: &A,
    base: *mut T,
    len: usize,
    places: Places<T>,
    deed: Deed<T, A>,
)
    requires { (0 < len) × (places.at ≡ base) × (length places.items ≡ len)
        × (deed.at ≡ base) × (deed.len ≡ len) × (deed.heap ≡ alloc.now) }
{
    let Places { mark: _ } = places;
    let Deed { mark: _ } = deed;
    unsafe {
        alloc.deallocate(base as *mut u8, len * size_of::<T>(), align_of::<T>());
    }
}

/// Ends what has no place and no block.
pub(crate) fn close<T, A: Allocator>(places: Places<T>, deed: Deed<T, A>)
    requires { (places.items ≡ []) × (deed.len ≡ 0) }
{
    let Places { mark: _ } = places;
    let Deed { mark: _ } = deed;
}

impl<T> Places<T> {
    /// No place at all.
    pub(crate) fn none() -> Self
        ensures { (result.items ≡ []) × (result.at ≡ null_ptr) }
    {
        Places { mark: PhantomData }
    }

    /// Writes a place. What it held is forgotten.
    pub(crate) fn put(&mut self, base: *mut T, index: usize, item: T)
        requires { (base ≡ self.old.at) × (index < length self.old.items) }
        ensures { (self.new.at ≡ self.old.at)
            × (self.new.items ≡ slice_set self.old.items index item)
            × (self.new.filled ≡ slice_set self.old.filled index true) }
    {
        unsafe { base.add(index).write(item) }
    }

    /// The value that a filled place holds.
    pub(crate) fn get(&self, base: *mut T, index: usize) -> &T
        requires { (base ≡ self.now.at) × (index < length self.now.items)
            × (get_or self.now.filled index false ≡ true) }
        ensures { result.now ≡ get_or self.now.items index result.now }
    {
        unsafe { &*base.add(index) }
    }
}

impl<T, A: Allocator> Deed<T, A> {
    /// The right to no block.
    pub(crate) fn none(_alloc: &A) -> Self
        ensures { (result.len ≡ 0) × (result.at ≡ null_ptr) × (result.heap ≡ _alloc.now) }
    {
        Deed { mark: PhantomData }
    }
}
