// Whether all literals of some live clause are among given ones.
//
// It looks at the clauses that watch one of the literals, and at the few without watches
// (`Engine::has_subset`). The literals are marked in a table that is kept from one core to the
// next, with a stamp that all lose in one step, so that each literal is written once.
ghost use Rattle.std.specs.Prelude.{◌≡◌, ℕ, ◌*◌, ◌≤◌, true, false, length, IfOk, OnOk};
ghost use Rattle.clauses.specs.Slots.{IsLive};
ghost use Rattle.propagate.specs.Trail.{literals_of, kept_to};
ghost use Rattle.propagate.specs.Watches.{is_attached};
ghost use Rattle.propagate.specs.Fits.{Fits, HasTrue, IsWithin};
ghost use Rattle.cdcl_search.specs.Cores.{HasSubset, HasNoSubset};

use clauses::store::Store;
use cnf::marks::Marks;
use cnf::types::Lit;
use propagate::engine::Engine;
use std::alloc::{AllocError, Global};
use std::marker::Model;

/// Looks for subsets of clauses, with memory that it keeps between calls.
#[derive(Drop)]
pub struct Subsets {
    // By literal, whether it was one of those of the last call; no literal has a place before the
    // first call.
    marks: Marks,
}

impl Model for Subsets {
    ghost use Rattle.std.specs.Prelude.{⊤};

    ghost Value = { ⊤ };

    ghost view = { λ s. tt };
}

impl Subsets {
    /// One without memory, which the first call takes.
    pub fn new(alloc: Global) -> Self {
        Subsets {
            marks: Marks::empty(alloc),
        }
    }

    /// Whether a clause of the store, all of which are attached, has no literals but these, none of
    /// which is true at level 0. It takes the time of the rows of the clauses that watch them.
    ///
    /// # Errors
    ///
    /// `AllocError` where memory was refused, which only the first call asks for.
    pub fn find(&mut self, engine: &Engine, store: &Store, lits: &[Lit]) -> Result<bool, AllocError>
        requires fits { Fits engine.now store.now.slots }
        requires attached { (r : ℕ) → IsLive store.now.slots r → is_attached engine.now r ≡ true }
        requires within { IsWithin engine.now.variables lits.now }
        requires untrue { HasTrue lits.now (literals_of (kept_to 0 engine.now.trail)) → ⊥ }
        ensures some { IfOk result (λ found. found ≡ true → HasSubset store.now.slots lits.now) }
        ensures none { IfOk result (λ found. found ≡ false
            → HasNoSubset store.now.slots lits.now) }
        ensures unchanged { self.new ≡ self.old }
    {
        make_room(&mut self.marks, engine.variables())?;
        self.marks.mark_all(lits);
        Ok(engine.has_subset(store, lits, &self.marks))
    }
}

/// Makes room for the marks of `variables` variables.
fn make_room(marks: &mut Marks, variables: u32) -> Result<(), AllocError>
    ensures { OnOk result (2 * variables ≤ length marks.new) }
{
    if marks.len() < 2 * variables as usize {
        marks.grow(variables)?;
    }
    Ok(())
}
