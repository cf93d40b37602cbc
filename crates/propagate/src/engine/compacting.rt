// The engine and its store under new references.
ghost use Rattle.std.specs.Prelude.{◌≡◌, Some, map, IfOk, OnErr};
ghost use Rattle.clauses.specs.Slots.{live_clauses, room_of, IsRenaming};
ghost use Rattle.propagate.specs.Watches.{SameFrame};
ghost use Rattle.propagate.specs.Fits.{Fits, MovesAttached, renamed_trail};

use super::Engine;
use clauses::store::{Moves, Store};
use std::alloc::AllocError;

impl Engine {
    /// Compacts the store, and goes over to the new references of its clauses. What is attached and
    /// assigned stays the same.
    ///
    /// # Errors
    ///
    /// `AllocError` where the list of moves found no room. The engine and the store are then
    /// unchanged.
    pub fn compact(&mut self, store: &mut Store) -> Result<Moves, AllocError>
        requires fits { Fits self.old store.old.slots }
        ensures moves { IfOk result (λ moves. IsRenaming store.old.slots store.new.slots moves) }
        ensures together { IfOk result (λ _. store.new.slots
            ≡ map Some (live_clauses store.old.slots)) }
        ensures used { IfOk result (λ _. store.new.used ≡ room_of (live_clauses store.new.slots)) }
        ensures attached { IfOk result (MovesAttached self.old self.new) }
        ensures trail { IfOk result (λ moves. self.new.trail ≡ renamed_trail moves self.old.trail) }
        ensures frame { SameFrame self.old self.new }
        ensures fits { Fits self.new store.new.slots }
        ensures err { OnErr result ((self.new ≡ self.old) × (store.new ≡ store.old)) }
    {
        let moves = store.compact()?;
        self.rename(&moves);
        Ok(moves)
    }
}
