// Whether a pair that was counted still stands together in enough clauses, and whether a clause has
// it: what is read of the store before anything changes.
ghost use Rattle.std.specs.Prelude.{◌≡◌, IsTrue};
ghost use Rattle.std.specs.List.{AllByRecursion};
ghost use Rattle.cnf.specs.Clause.{contains_literal};
ghost use Rattle.eliminate_pairs.specs.Pairs.{together, IsOnOther, StandAt, StandOften, HasPairOf};

use crate::frequencies::{FEWEST, SHORTEST};
use crate::pairs::PairDefinition;
use clauses::store::Store;
use cnf::types::Lit;

/// A pair that may get the variable `vars + 1`.
#[derive(Drop)]
pub(crate) struct NextPair {
    /// The last variable of the clauses, below 2^27 - 1.
    pub(crate) vars: u32,
    /// The literal of the pair with the lower index.
    pub(crate) left: Lit,
    /// The other one.
    pub(crate) right: Lit,
}

/// Whether the pair stands together in `FEWEST` clauses, by those that were found.
pub(crate) fn stand_often(store: &Store, pair: &NextPair, found: &[(u32, u32)]) -> bool
    ensures { IsTrue result → StandOften store.now.slots pair.now.left pair.now.right }
{
    if pair.left == pair.right {
        return false;
    }
    // Below `FEWEST`.
    let mut count = 0usize;
    // The clauses of lower places were looked at.
    let mut from = 0usize;
    for (place, _) in found {
        let place = *place as usize;
        if place >= from && stand_at(store, pair, place) {
            count += 1;
            from = place + 1;
            if count == FEWEST {
                return true;
            }
        }
    }
    false
}

/// Whether a live clause with the pair and another literal stands at this place.
fn stand_at(store: &Store, pair: &NextPair, place: usize) -> bool
    ensures { IsTrue result
        → StandAt store.now.slots pair.now.left pair.now.right place }
{
    match store.live_at(place) {
        Some(reference) => {
            let lits = store.lits(reference);
            has_both(lits, pair.left, pair.right)
        }
        None => false,
    }
}

/// Whether a clause has both literals, and is long enough.
fn has_both(lits: &[Lit], left: Lit, right: Lit) -> bool
    ensures { result ≡ together left right lits.now }
{
    has(lits, left) && has(lits, right) && lits.len() >= SHORTEST
}

/// Whether the literal is one of these, in the words of the definitions.
fn has(lits: &[Lit], lit: Lit) -> bool
    ensures { result ≡ contains_literal lit lits.now }
{
    lits.contains(&lit)
}

/// Whether both literals are among these, and the variable is not.
pub(crate) fn has_pair(lits: &[Lit], definition: &PairDefinition) -> bool
    ensures { IsTrue result
        → HasPairOf definition.now.variable definition.now.left definition.now.right lits.now }
{
    has(lits, definition.left) && has(lits, definition.right) && lacks(lits, definition.variable)
}

/// Whether none of the literals has the variable.
fn lacks(lits: &[Lit], variable: u32) -> bool
    ensures { IsTrue result → AllByRecursion (IsOnOther variable) lits.now }
{
    for lit in lits {
        if lit.variable() == variable {
            return false;
        }
    }
    true
}
