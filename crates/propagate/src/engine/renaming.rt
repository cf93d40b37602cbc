// The engine under the new references of the clauses.
ghost use Rattle.std.specs.Prelude.{◌≡◌, ℕ, true, Some, All, IfSome};
ghost use Rattle.clauses.specs.Slots.{renamed};
ghost use Rattle.propagate.specs.Watches.{is_attached, SameFrame};
ghost use Rattle.propagate.specs.Fits.{MovesAttached, renamed_trail, FitsMoved};

use super::Engine;
use clauses::moved::rename_references;
use clauses::store::Moves;
use propagate_watches::moved::move_attachments;

impl Engine {
    /// Goes over to the new references of the clauses, after a store was compacted. It takes no
    /// memory.
    pub fn rename(&mut self, moves: &Moves)
        requires listed { (r : ℕ) → is_attached self.old r ≡ true → (q : ℕ)
            × (renamed moves.now r ≡ Some q) }
        requires reasons { All (λ a. IfSome a.reason
            (λ r. (q : ℕ) × (renamed moves.now r ≡ Some q))) self.old.trail }
        ensures attached { MovesAttached self.old self.new moves.now }
        ensures trail { self.new.trail ≡ renamed_trail moves.now self.old.trail }
        ensures frame { SameFrame self.old self.new }
        ensures fits { FitsMoved self.old self.new moves.now }
    {
        move_attachments(&mut self.table, moves.pairs());
        rename_references(&mut self.waiting, moves);
        self.pool.rename(moves);
        self.trail.rename(moves);
    }
}
