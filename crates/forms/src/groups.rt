// Whether clauses say that at most one of some literals is true.
ghost use Rattle.std.specs.Prelude.{◌≡◌, ◌++◌, List, false, MatchOption};
ghost use Rattle.cnf.specs.Literal.{Literal};
ghost use Rattle.forms.specs.Forms.{are_excluded, excludes, pairs_of, pairs_with};

use crate::table::ClauseTable;
use cnf::types::Lit;

/// Whether each pair of the literals is excluded by a clause of its own; the clauses of the pairs
/// (1, 2), (1, 3), (2, 3), (1, 4), .. have these numbers.
pub(crate) fn are_excluded<T: ClauseTable>(table: &T, lits: &[Lit], ids: &[u64]) -> bool
    ensures { result ≡ are_excluded (T.at table.now) (pairs_of lits.now) ids.now }
{
    let mut left = ids;
    for (before, lit) in lits.iter().enumerate() {
        match exclude_with(table, *lit, &lits[..before], left) {
            Some(more) => left = more,
            None => return false,
        }
    }
    left.is_empty()
}

/// The numbers behind those of the clauses that exclude the literal beside each of those before it;
/// None where one of them does not.
fn exclude_with<'a, T: ClauseTable>(
    table: &T,
    lit: Lit,
    before: &[Lit],
    ids: &'a [u64],
) -> Option<&'a [u64]>
    ensures { (more : List (Literal × Literal)) → MatchOption result
        (are_excluded (T.at table.now) (pairs_with lit before.now ++ more) ids.now ≡ false)
        (λ left. are_excluded (T.at table.now) (pairs_with lit before.now ++ more) ids.now
        ≡ are_excluded (T.at table.now) more left.now) }
{
    let mut left = ids;
    for first in before {
        let [id, more @ ..] = left else {
            return None;
        };
        if !excludes(*first, lit, table.find(*id)?) {
            return None;
        }
        left = more;
    }
    Some(left)
}

/// Whether the clause has no literal but the negations of these two.
fn excludes(first: Lit, second: Lit, clause: &[Lit]) -> bool
    ensures { result ≡ excludes (first, second) clause.now }
{
    clause.iter().all(|lit| *lit == first.negation() || *lit == second.negation())
}
