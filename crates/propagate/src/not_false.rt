// Searches in the literals of a clause, from the first on.
ghost use Rattle.std.specs.Prelude.{◌≡◌, ◌≢◌, ◌≤◌, true, false, Some, None, All, IfSome};
ghost use Rattle.std.specs.Prelude.{MatchOption, ◌⊎◌};
ghost use Rattle.cnf.specs.Clause.{contains_literal};
ghost use Rattle.propagate_trail.specs.Trail.{value_in, level_in};
ghost use Rattle.propagate.specs.Fits.{IsRest};

use cnf::types::Lit;
use propagate_trail::trail::Trail;
use propagate_watches::table::Rest;

/// The first literal that is not false; none where all are.
pub(crate) fn find_not_false(trail: &Trail, lits: &[Lit]) -> Option<Lit>
    requires { All (λ l. l.variable ≤ trail.now.variables) lits.now }
    ensures { MatchOption result
        (All (λ l. value_in trail.now.assigned l ≡ Some false) lits.now)
        (λ l. (contains_literal l lits.now ≡ true) × (value_in trail.now.assigned l ≢ Some false)) }
{
    for lit in lits {
        if !trail.is_false(*lit) {
            return Some(*lit);
        }
    }
    None
}

/// The first literal that is not false, other than this one; none where all others are.
pub(crate) fn find_other_not_false(trail: &Trail, lits: &[Lit], but: Lit) -> Option<Lit>
    requires { All (λ l. l.variable ≤ trail.now.variables) lits.now }
    ensures { MatchOption result
        (All (λ l. (l ≡ but) ⊎ (value_in trail.now.assigned l ≡ Some false)) lits.now)
        (λ l. (contains_literal l lits.now ≡ true) × (l ≢ but)
        × (value_in trail.now.assigned l ≢ Some false)) }
{
    for lit in lits {
        if !trail.is_false(*lit) && *lit != but {
            return Some(*lit);
        }
    }
    None
}

/// A literal whose variable got its value at this level, other than this one.
pub(crate) fn find_other_of_level(trail: &Trail, lits: &[Lit], but: Lit, level: u32) -> Option<Lit>
    requires { All (λ l. l.variable ≤ trail.now.variables) lits.now }
    ensures { IfSome result (λ l. (contains_literal l lits.now ≡ true) × (l ≢ but)
        × (level_in trail.now.assigned l.variable ≡ Some level)) }
{
    for lit in lits {
        if *lit != but && trail.level(lit.variable()) == Some(level) {
            return Some(*lit);
        }
    }
    None
}

/// What a clause has beside these two literals of it.
pub(crate) fn gather_rest(lits: &[Lit], one: Lit, other: Lit) -> Rest
    ensures { IsRest lits.now one other result }
{
    let mut rest = Rest::Nothing;
    for lit in lits {
        if *lit == one || *lit == other {
            continue;
        }
        rest = match rest {
            Rest::Nothing => Rest::One(*lit),
            _ => return Rest::Many,
        };
    }
    rest
}
