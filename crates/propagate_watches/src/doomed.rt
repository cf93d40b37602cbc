// Clauses that are to be detached, marked by reference.
ghost use Rattle.std.specs.Prelude.{◌≡◌};
ghost use Rattle.propagate_watches.specs.Doomed.{is_doomed};

use clauses::store::CRef;

/// Whether the clause is marked; those past the end are not.
pub fn is_doomed(doomed: &[bool], reference: CRef) -> bool
    ensures { result ≡ is_doomed doomed.now reference }
{
    let at = reference.index();
    at < doomed.len() && doomed[at]
}
