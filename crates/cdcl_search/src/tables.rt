// The solver's tables after a compaction, each in one pass and in place.
ghost use Rattle.std.specs.Prelude.{◌≡◌, ◌<◌, ◌≤◌, length, map, All};
ghost use Rattle.std.specs.List.Sorted.{IsStrictlyIncreasing};
ghost use Rattle.propagate.specs.Fits.{renamed_reason};
ghost use Rattle.cdcl_search.specs.Moves.{NamesMoved, UnitsMoved};

use clauses::store::{CRef, MaybeCRef, Moves};
use lrat_log::packed_name::PackedName;

/// Moves each name to its clause's new place, of which there are `places`. No place is written
/// before it is read, since no reference rises.
pub(crate) fn move_names(names: &mut Vec<PackedName>, pairs: &[(CRef, CRef)], places: usize)
    requires rising { IsStrictlyIncreasing (map (λ p. p.1) pairs.now) }
    requires lower { All (λ p. p.1 ≤ p.0) pairs.now }
    requires old_within { All (λ p. p.0 < length names.old.items) pairs.now }
    requires new_within { All (λ p. p.1 < places) pairs.now }
    requires fewer { places ≤ length names.old.items }
    ensures long { length names.new.items ≡ places }
    ensures moved { NamesMoved names.old.items names.new.items pairs.now }
{
    for (old, new) in pairs {
        names[new.index()] = names[old.index()];
    }
    names.truncate(places);
}

/// Renames the unit clauses.
pub(crate) fn move_units(units: &mut [MaybeCRef], moves: &Moves)
    ensures long { length units.new ≡ length units.old }
    ensures moved { UnitsMoved units.old units.new moves.now }
{
    for unit in units.iter_mut() {
        *unit = moved_unit(*unit, moves);
    }
}

fn moved_unit(unit: MaybeCRef, moves: &Moves) -> MaybeCRef
    ensures { result ≡ renamed_reason moves.now unit }
{
    match unit.get() {
        Some(reference) => MaybeCRef::new(moves.to(reference)),
        None => unit,
    }
}
