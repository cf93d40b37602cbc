// Garbage collection: the room of deleted clauses is taken back.
ghost use Rattle.std.specs.Prelude.{◌≡◌, Some, map, length, OnOk, OnErr};
ghost use Rattle.clauses.specs.Slots.{live_clauses};
ghost use Rattle.cdcl_search.specs.Running.{IsReady, KeepsRunning};

use crate::search::Search;
use crate::tables::{move_names, move_units};
use std::alloc::AllocError;

impl Search {
    /// Whether garbage, the deleted clauses, takes more than half of the store's room.
    pub(crate) fn is_sparse(&self) -> bool {
        let mut live: usize = 0;
        for place in 0..self.store.places() {
            if let Some(reference) = self.store.live_at(place) {
                live = live
                    .saturating_add(self.store.lits(reference).len())
                    .saturating_add(1);
            }
        }
        live < self.store.used() / 2
    }

    /// Moves the live clauses together; the engine and the tables go over to their new references.
    pub(crate) fn compact(&mut self) -> Result<(), AllocError>
        requires { IsReady self.old }
        ensures runs { OnOk result (KeepsRunning self.old self.new) }
        ensures variables { OnOk result (self.new.engine.variables ≡ self.old.engine.variables) }
        ensures long { OnOk result (length self.new.engine.trail ≡ length self.old.engine.trail) }
        ensures policy { self.new.policy ≡ self.old.policy }
        ensures together { OnOk result (self.new.store.slots
            ≡ map Some (live_clauses self.old.store.slots)) }
        ensures err { OnErr result (self.new ≡ self.old) }
    {
        let moves = self.engine.compact(&mut self.store)?;
        move_names(&mut self.names, moves.pairs(), self.store.places());
        move_units(&mut self.units, &moves);
        self.policy.rename(&moves);
        Ok(())
    }
}
