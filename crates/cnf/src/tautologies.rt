// Whether a clause has complementary literals.
ghost use Rattle.std.specs.Prelude.{◌≡◌, length, All};
ghost use Rattle.cnf.specs.Clause.{is_tautology};
ghost use Rattle.cnf.specs.Marks.{HasPlace};

use crate::marks::Marks;
use crate::types::Lit;

/// Clauses up to this length are searched for complementary literals pair by pair, which takes
/// fewer steps than marks do.
const PAIRWISE_LENGTH: usize = 8;

/// Whether some literal stands with its negation, in time linear in their number.
pub fn is_tautology_by(marks: &mut Marks, lits: &[Lit]) -> bool
    requires { All (HasPlace (length marks.old)) lits.now }
    ensures value { result ≡ is_tautology lits.now }
    ensures marks { length marks.new ≡ length marks.old }
{
    if lits.len() <= PAIRWISE_LENGTH {
        is_tautology(lits)
    } else {
        meets_negation(marks, lits)
    }
}

/// Whether some literal occurs with its negation: each is compared with the marks of those before
/// it. A clause may have millions of literals.
fn meets_negation(marks: &mut Marks, lits: &[Lit]) -> bool
    requires { All (HasPlace (length marks.old)) lits.now }
    ensures value { result ≡ is_tautology lits.now }
    ensures marks { length marks.new ≡ length marks.old }
{
    marks.clear();
    let mut found = false;
    for lit in lits {
        found |= marks.is_marked(lit.negation());
        marks.mark(*lit);
    }
    found
}

/// Whether some literal stands with its negation: pair by pair, for a few literals.
pub fn is_tautology(lits: &[Lit]) -> bool
    ensures { result ≡ is_tautology lits.now }
{
    let mut rest = lits;
    while let [first, more @ ..] = rest {
        if more.contains(&first.negation()) {
            return true;
        }
        rest = more;
    }
    false
}
