//! Whether a literal occurs twice.
ghost use Rattle.std.specs.Prelude.{◌≡◌};
ghost use Rattle.cnf.specs.Clause.{has_repeat};

use cnf::types::Lit;

/// Whether some literal stands twice: pair by pair, for a few literals.
pub fn has_repeat(lits: &[Lit]) -> bool
    ensures { result ≡ has_repeat lits.now }
{
    let mut rest = lits;
    while let [first, more @ ..] = rest {
        if more.contains(first) {
            return true;
        }
        rest = more;
    }
    false
}
