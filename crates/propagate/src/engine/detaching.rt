// Many clauses that are detached at once.
ghost use Rattle.std.specs.Prelude.{◌≡◌, ℕ, ◌&&◌, not, false, All, IfSome};
ghost use Rattle.propagate_watches.specs.Doomed.{is_doomed};
ghost use Rattle.propagate.specs.Watches.{is_attached};
ghost use Rattle.propagate.specs.Fits.{StaysFit};
ghost use Rattle.propagate.specs.Doomed.{spared};

use super::Engine;
use clauses::store::CRef;
use propagate_watches::doomed::is_doomed;

/// Takes what is doomed out of a list.
fn drop_doomed(references: &mut Vec<CRef>, doomed: &[bool])
    ensures { references.new.items ≡ spared doomed.now references.old.items }
{
    references.retain(|r| !is_doomed(doomed, *r));
}

impl Engine {
    /// From now on `propagate` looks past the clauses that are marked here by their references'
    /// places, none of which is the reason of a literal; references past the end are not marked.
    /// One pass over what is attached, which takes no memory.
    pub fn detach_all(&mut self, doomed: &[bool])
        requires no_reason { All (λ a. IfSome a.reason (λ r. is_doomed doomed.now r ≡ false))
            self.old.trail }
        ensures detached { (r : ℕ) → is_attached self.new r
            ≡ (is_attached self.old r && not (is_doomed doomed.now r)) }
        ensures frame { (self.new.trail ≡ self.old.trail)
            × (self.new.variables ≡ self.old.variables) × (self.new.failed ≡ self.old.failed) }
        ensures fits { StaysFit self.old self.new }
    {
        self.table.drop_doomed(doomed);
        drop_doomed(&mut self.waiting, doomed);
        self.pool.drop_doomed(doomed);
    }
}
