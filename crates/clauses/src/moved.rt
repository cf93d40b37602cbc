// The new references of clauses: of one, and in a list.
ghost use Rattle.std.specs.Prelude.{◌≡◌, map};
ghost use Rattle.clauses.specs.Moved.{named};

use crate::store::{CRef, Moves};

/// The new reference of a clause; one that was not kept stays as it is.
pub fn new_reference(moves: &Moves, reference: CRef) -> CRef
    ensures { result ≡ named moves.now reference }
{
    match moves.to(reference) {
        Some(new) => new,
        None => reference,
    }
}

/// Renames each reference of a list.
pub fn rename_references(references: &mut [CRef], moves: &Moves)
    ensures { references.new ≡ map (named moves.now) references.old }
{
    for reference in references.iter_mut() {
        *reference = new_reference(moves, *reference);
    }
}
