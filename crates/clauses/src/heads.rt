//! Where the literals of each clause lie, and which clauses are still there.
ghost use Rattle.std.specs.Prelude.{◌≡◌, ◌<◌, true, false, List, [], ◌∷◌, ◌++◌, Some, map};
ghost use Rattle.std.specs.Prelude.{length, take, slice_get, slice_set, IsTrue, ◌↔◌, OnErr, IfOk};
ghost use Rattle.clauses.specs.Heads.{Head, head_of, span_of};

use std::alloc::{AllocError, Global};
use std::marker::Model;

/// Where the literals of a clause lie among all literals: the place of the first, and how many they
/// are.
#[derive(Clone, Copy, Debug, PartialEq, Eq, Drop)]
pub(crate) struct ClauseSpan {
    // The place of the first literal, from 0 up to the number of all literals.
    pub(crate) start: u32,
    // How many literals the clause has: 0 for the empty clause.
    pub(crate) length: u32,
}

const _: () = prove!(size_of::<ClauseSpan>() == 8);

/// A head for each clause: its span, and whether it is live. The spans have a vector of their own,
/// since reading a clause needs no more.
#[derive(Drop)]
pub(crate) struct Heads {
    // By reference, where the literals of the clause lie.
    spans: Vec<ClauseSpan>,
    // By reference, whether the clause is live; as many as spans.
    live: Vec<bool>,
}

impl Model for Heads {
    ghost use Rattle.std.specs.Prelude.{◌≡◌, List, length};
    ghost use Rattle.clauses.specs.Heads.{Head, head_of};
    ghost use Rattle.clauses.specs.Zipped.{zipped};

    ghost Value = { List Head };

    ghost view = { λ h. zipped head_of h.spans.items h.live.items };

    ghost invariant = { λ h. length h.live.items ≡ length h.spans.items };
}

impl Heads {
    /// No heads. They take no memory.
    pub(crate) fn new(alloc: Global) -> Self
        ensures { result ≡ [] }
    {
        Heads {
            spans: Vec::new(alloc),
            live: Vec::new(alloc),
        }
    }

    /// How many there are.
    pub(crate) fn len(&self) -> usize
        ensures { result ≡ length self.now }
    {
        self.spans.len()
    }

    /// Where the literals of the clause under this place lie, also those of a dead one.
    pub(crate) fn span(&self, at: usize) -> ClauseSpan
        requires { at < length self.now }
        ensures { slice_get (map span_of self.now) at ≡ Some result }
    {
        self.spans[at]
    }

    /// Whether there is a head at this place, and it is live.
    pub(crate) fn is_live(&self, at: usize) -> bool
        ensures { IsTrue result ↔ (slice_get (map (λ h. h.live) self.now) at ≡ Some true) }
    {
        match self.live.get(at) {
            Some(live) => *live,
            None => false,
        }
    }

    /// Adds a live head at the end.
    ///
    /// # Errors
    ///
    /// `AllocError` where a growth was refused. The heads are then unchanged.
    pub(crate) fn push(&mut self, span: ClauseSpan) -> Result<(), AllocError>
        ensures ok { IfOk result (λ _. self.new ≡ self.old ++ head_of span true ∷ []) }
        ensures err { OnErr result (self.new ≡ self.old) }
    {
        // Room for the span comes first, so that a refused growth changes nothing.
        self.spans.reserve(1)?;
        self.live.push(true)?;
        self.spans.push(span)?;
        Ok(())
    }

    /// Puts a live head at this place, over what stood there.
    pub(crate) fn set(&mut self, at: usize, span: ClauseSpan)
        requires { at < length self.old }
        ensures { self.new ≡ slice_set self.old at (head_of span true) }
    {
        self.spans[at] = span;
        self.live[at] = true;
    }

    /// Makes the head at this place dead.
    pub(crate) fn kill(&mut self, at: usize)
        requires { at < length self.old }
        ensures { (h : Head) → slice_get self.old at ≡ Some h
            → self.new ≡ slice_set self.old at (record h { live = false }) }
    {
        self.live[at] = false;
    }

    /// Keeps the first `count` heads, or all where there are no more.
    pub(crate) fn truncate(&mut self, count: usize)
        ensures { self.new ≡ take count self.old }
    {
        self.spans.truncate(count);
        self.live.truncate(count);
    }

    /// Gives back the memory beyond that of the heads.
    pub(crate) fn shrink_to_fit(&mut self)
        ensures unchanged { self.new ≡ self.old }
    {
        self.spans.shrink_to_fit();
        self.live.shrink_to_fit();
    }
}
