// The clauses of the bounds before the last one, each with a clause of the last one that is a
// subset of it: it follows from that clause. A comparator has at most one clause for each digit of
// the total weight, so 62 clauses of at most 62 literals: each clause is compared with all of them.
ghost use Rattle.std.specs.Prelude.{◌≡◌, ◌+◌, ◌-◌, ◌<◌, ◌≤◌, length, take, drop, IfOk};
ghost use Rattle.cnf.specs.declared.limits.TheConstants.{NUMBER_LIMIT};
ghost use Rattle.cnf.specs.Clause.{is_subset};
ghost use Rattle.lrat_log.specs.Log.{clauses_in};
ghost use Rattle.lrat_log.specs.Rebase.{weaker_list};
ghost use Rattle.improve.specs.Weaker.{first_subset, weaker_among};

use cdcl::given::GivenClauses;
use cnf::types::Lit;
use std::alloc::{AllocError, Global};

/// The clauses from the place `start` to the place `end`, each with the number of the first of
/// those from `end` on, the last ones, that is a subset of it, where the last ones have the numbers
/// from `first` on. It is compared with each of those, which are few.
pub fn pair_with_subsets(
    alloc: Global,
    given: &GivenClauses,
    start: usize,
    end: usize,
    first: u64,
) -> Result<Vec<(Vec<Lit>, u64)>, AllocError>
    requires order { start ≤ end }
    requires within { end ≤ length given.now }
    requires few { first + length given.now < NUMBER_LIMIT }
    ensures { IfOk result (λ weaker. weaker_list weaker.items
        ≡ weaker_among first (drop end (clauses_in given.now))
        (take (end - start) (drop start (clauses_in given.now)))) }
{
    let mut weaker = Vec::new(alloc);
    for place in start..end {
        let lits = given.lits(place);
        let number = first_subset(given, end, first, lits);
        weaker.push((Vec::from_slice(alloc, lits)?, number))?;
    }
    Ok(weaker)
}

/// The number of the first clause from the place `start` on that is a subset of these literals,
/// where these clauses have the numbers from `first` on; the number after them where none is.
fn first_subset(given: &GivenClauses, start: usize, first: u64, lits: &[Lit]) -> u64
    requires within { start ≤ length given.now }
    requires few { first + length given.now < NUMBER_LIMIT }
    ensures { result ≡ first_subset first (drop start (clauses_in given.now)) lits.now }
{
    let mut number = first;
    for place in start..given.len() {
        if is_subset(given.lits(place), lits) {
            return number;
        }
        number += 1;
    }
    number
}

/// Whether each literal of a clause is one of these: pair by pair, for a few literals.
fn is_subset(clause: &[Lit], lits: &[Lit]) -> bool
    ensures { result ≡ is_subset clause.now lits.now }
{
    let mut rest = clause;
    while let [first, more @ ..] = rest {
        if !lits.contains(first) {
            return false;
        }
        rest = more;
    }
    true
}
