//! The store of clauses: literals in one flat vector, a head for each clause in another. References
//! stay valid until a compaction, which collects the garbage, moves the live clauses together and
//! tells where each went.
ghost use Rattle.std.specs.Prelude.{◌≡◌, ℕ, ◌+◌, ◌-◌, ◌<◌, ◌≤◌, ◌^◌, All, List, [], ◌∷◌, ◌++◌};
ghost use Rattle.std.specs.Prelude.{Some, None, map, length, slice_set, IsTrue, ◌↔◌, OnErr};
ghost use Rattle.std.specs.Prelude.{IfOk, IfSome};
ghost use Rattle.std.specs.List.Sorted.{IsStrictlyIncreasing};
ghost use Rattle.cnf.specs.Literal.{Literal};
ghost use Rattle.clauses.specs.Heads.{slots_of};
ghost use Rattle.clauses.specs.Slots.{IsLive, clause_at, live_clauses, moves_of, room_of, renamed};
ghost use Rattle.clauses.specs.Slots.{IsRenaming};

use crate::compaction::compact;
use crate::heads::{ClauseSpan, Heads};
use crate::words::MaybeWord;
use cnf::limits::MOST_PLACES;
use cnf::types::Lit;
use std::alloc::{AllocError, Global};
use std::marker::Model;

/// Names a clause of a store: its place among all that were added, counted from 0, where a
/// compaction closes the gaps of those that were deleted. It takes four bytes.
#[derive(Clone, Copy, Debug, PartialEq, Eq, Drop)]
pub struct CRef {
    // From 0; below 2^32 - 1, so that a reference or none fits a word.
    place: u32,
}

impl Model for CRef {
    ghost Value = { ℕ };

    ghost view = { λ r. r.place };

    ghost invariant = { λ r. r.place < 2 ^ 32 - 1 };

    ghost inverse = { λ v. record { place = v } };
}

const _: () = prove!(size_of::<CRef>() == 4);

impl CRef {
    /// The clause's place in a table by reference, from 0.
    pub fn index(self) -> usize
        ensures { result ≡ self }
    {
        self.place as usize
    }
}

/// A reference or none, in four bytes.
#[derive(Clone, Copy, Debug, PartialEq, Eq, Drop)]
pub struct MaybeCRef {
    // The place, where there is one.
    word: MaybeWord,
}

impl Model for MaybeCRef {
    ghost use Rattle.std.specs.Prelude.{ℕ, Option};

    ghost Value = { Option ℕ };

    ghost view = { λ m. m.word };

    ghost inverse = { λ v. record { word = v } };
}

const _: () = prove!(size_of::<MaybeCRef>() == 4);

impl MaybeCRef {
    /// The reference, or none, packed.
    pub fn new(reference: Option<CRef>) -> Self
        ensures { result ≡ reference }
    {
        let word = match reference {
            Some(reference) => MaybeWord::new(Some(reference.place)),
            None => MaybeWord::new(None),
        };
        MaybeCRef { word }
    }

    /// The reference, where there is one.
    pub fn get(self) -> Option<CRef>
        ensures { result ≡ self }
    {
        match self.word.get() {
            Some(place) => Some(CRef { place }),
            None => None,
        }
    }
}

/// A map from references to clauses, which are lists of literals; one region of memory holds them
/// all, as in MiniSat (Eén and Sörensson 2003).
#[derive(Drop)]
pub struct Store {
    // The literals of all clauses, also of dead ones, which are garbage, one clause after another
    // by reference; fewer than 2^32.
    literals: Vec<Lit>,
    // By reference, where the literals of the clause lie, and whether it is live; fewer than 2^32.
    heads: Heads,
}

impl Model for Store {
    ghost use Rattle.clauses.specs.Slots.{StoreState};

    ghost Value = { StoreState };

    ghost use Rattle.clauses.specs.Heads.{state_of, IsStore};

    ghost view = { λ s. state_of s.literals.items s.heads };

    ghost invariant = { λ s. IsStore s.literals.items s.heads };
}

impl Store {
    /// A store without clauses. It takes no memory.
    pub fn new(alloc: Global) -> Self
        ensures { result ≡ record { slots = []; used = 0 } }
    {
        Store {
            literals: Vec::new(alloc),
            heads: Heads::new(alloc),
        }
    }

    /// Adds a clause under a reference above all others.
    ///
    /// # Errors
    ///
    /// `AllocError` where memory was refused, or where more than 2^32 - 1 references or literals
    /// would be held, dead ones too. The store is then unchanged.
    pub fn add(&mut self, lits: &[Lit]) -> Result<CRef, AllocError>
        ensures reference { IfOk result (λ r. r ≡ length self.old.slots) }
        ensures ok { IfOk result (λ _. self.new ≡ record {
          slots = self.old.slots ++ Some lits.now ∷ [];
          used = self.old.used + (length lits.now + 1);
        }) }
        ensures err { OnErr result (self.new ≡ self.old) }
    {
        let start = self.literals.len();
        let place = self.heads.len();
        if place >= MOST_PLACES || lits.len() > MOST_PLACES - start {
            return Err(AllocError);
        }
        let span = ClauseSpan {
            start: start as u32,
            length: lits.len() as u32,
        };
        // Room comes first, so that a refused growth changes nothing.
        self.literals.reserve(lits.len())?;
        self.heads.push(span)?;
        self.literals.extend_from_slice(lits)?;
        Ok(CRef {
            place: place as u32,
        })
    }

    /// The literals of a live clause, in the order in which they were added.
    pub fn lits(&self, reference: CRef) -> &[Lit]
        requires { IsLive self.now.slots reference }
        ensures { clause_at self.now.slots reference ≡ Some result.now }
    {
        let span = self.heads.span(reference.place as usize);
        let start = span.start as usize;
        &self.literals[start..start + span.length as usize]
    }

    /// Takes a live clause out. Its reference is not given again before the next compaction, which
    /// takes its room back.
    pub fn delete(&mut self, reference: CRef)
        requires { IsLive self.old.slots reference }
        ensures { self.new ≡ record self.old { slots = slice_set self.old.slots reference None } }
    {
        self.heads.kill(reference.place as usize);
    }

    /// Whether the reference names a clause that was added and not deleted.
    pub fn is_live(&self, reference: CRef) -> bool
        ensures { IsTrue result ↔ IsLive self.now.slots reference }
    {
        self.heads.is_live(reference.place as usize)
    }

    /// How many references were given: the places from 0 up to this number.
    pub fn places(&self) -> usize
        ensures { result ≡ length self.now.slots }
    {
        self.heads.len()
    }

    /// The reference of the clause at this place, where it is live.
    pub fn live_at(&self, place: usize) -> Option<CRef>
        ensures live { IfSome result (λ r. (r ≡ place) × IsLive self.now.slots r) }
        ensures none { result ≡ None → clause_at self.now.slots place ≡ None }
    {
        if place < MOST_PLACES && self.heads.is_live(place) {
            Some(CRef {
                place: place as u32,
            })
        } else {
            None
        }
    }

    /// The room that clauses take, also deleted ones, up to the last compaction: a clause takes its
    /// length and one more.
    pub fn used(&self) -> usize
        ensures { result ≡ self.now.used }
    {
        self.literals.len() + self.heads.len()
    }

    /// Moves the live clauses together, in place, each to a new reference that is not above its old
    /// one, and keeps their order.
    ///
    /// # Errors
    ///
    /// `AllocError` where the list of moves found no room. The store is then unchanged.
    pub fn compact(&mut self) -> Result<Moves, AllocError>
        ensures moves { IfOk result (λ moves. IsRenaming self.old.slots self.new.slots moves) }
        ensures together { IfOk result (λ _. self.new.slots
            ≡ map Some (live_clauses self.old.slots)) }
        ensures used { IfOk result (λ _. self.new.used ≡ room_of (live_clauses self.new.slots)) }
        ensures err { OnErr result (self.new ≡ self.old) }
    {
        let pairs = list_moves(*self.literals.allocator(), &self.heads)?;
        self.move_together();
        Ok(Moves { pairs })
    }

    /// Moves the live clauses together as `compact` does, for a caller that needs no list of the
    /// moves: the new reference of a clause is the number of live clauses before it. It takes no
    /// memory.
    pub fn move_together(&mut self)
        ensures together { self.new.slots ≡ map Some (live_clauses self.old.slots) }
        ensures used { self.new.used ≡ room_of (live_clauses self.new.slots) }
    {
        compact(&mut self.heads, &mut self.literals);
    }

    /// Gives back the memory that the clauses do not need. A compaction keeps it, for clauses that
    /// come after it.
    pub fn shrink_to_fit(&mut self)
        ensures unchanged { self.new ≡ self.old }
    {
        self.literals.shrink_to_fit();
        self.heads.shrink_to_fit();
    }

    /// The allocator that the store was made with.
    pub fn allocator(&self) -> Global {
        *self.literals.allocator()
    }
}

// The old and the new reference of each live clause.
fn list_moves(alloc: Global, heads: &Heads) -> Result<Vec<(CRef, CRef)>, AllocError>
    requires { length heads.now < 2 ^ 32 }
    ensures { IfOk result (λ pairs. (literals : List Literal)
        → pairs.items ≡ moves_of (slots_of literals heads.now)) }
{
    let mut pairs = Vec::new(alloc);
    for old in 0..heads.len() {
        if heads.is_live(old) {
            let new = pairs.len();
            pairs.push((CRef { place: old as u32 }, CRef { place: new as u32 }))?;
        }
    }
    Ok(pairs)
}

/// The old and the new reference of each clause that a compaction kept, in rising order.
#[derive(Drop)]
pub struct Moves {
    // The old reference, then the new one, which is not above it; both sides rise.
    pairs: Vec<(CRef, CRef)>,
}

impl Model for Moves {
    ghost Value = { List (ℕ × ℕ) };

    ghost view = { λ m. m.pairs.items };

    ghost invariant = { λ m. IsStrictlyIncreasing (map (λ p. p.0) m.pairs.items)
        × IsStrictlyIncreasing (map (λ p. p.1) m.pairs.items)
        × All (λ p. p.1 ≤ p.0) m.pairs.items };
}

impl Moves {
    /// The pairs of old and new references, both sides rising.
    pub fn pairs(&self) -> &[(CRef, CRef)]
        ensures pairs { result.now ≡ self.now }
        ensures old_rise { IsStrictlyIncreasing (map (λ p. p.0) result.now) }
        ensures new_rise { IsStrictlyIncreasing (map (λ p. p.1) result.now) }
        ensures lower { All (λ p. p.1 ≤ p.0) result.now }
    {
        &self.pairs
    }

    /// The new reference of the clause that had this one; none where it was not kept. By halving,
    /// in a logarithmic number of steps.
    pub fn to(&self, reference: CRef) -> Option<CRef>
        ensures { result ≡ renamed self.now reference }
    {
        match self
            .pairs
            .binary_search_by_key(&reference.place, |(old, _)| old.place)
        {
            Ok(at) => Some(self.pairs[at].1),
            Err(_) => None,
        }
    }
}
