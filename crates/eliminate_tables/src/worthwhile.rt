// Whether a variable is worth eliminating: few clauses have it, and their resolvents are no more
// and none is long. It is found by counting over marks, so that no clause is built in vain.
ghost use Rattle.std.specs.Prelude.{◌≡◌, true, false, length, All, IfSome, None};
ghost use Rattle.clauses.specs.Slots.{IsLive};
ghost use Rattle.eliminate_tables.specs.Bins.{ArePlaced};
ghost use Rattle.clauses.specs.Slots.{clause_under, clauses_under};
ghost use Rattle.eliminate_tables.specs.Schedule.{is_candidate};
ghost use Rattle.eliminate_tables.specs.Worthwhile.{are_short, resolvent_count};
ghost use Rattle.eliminate_tables.specs.Worthwhile.{are_few_and_short, is_worthwhile};

use crate::resolvents::count_rest;
use crate::schedule::Schedule;
use clauses::store::{CRef, Store};
use cnf::marks::Marks;
use cnf::types::Lit;

/// The most clauses that have a variable that goes, and the most that have its negation.
const MOST_OF_A_SIGN: usize = 10;

/// No resolvent may have more literals.
const LONGEST_RESOLVENT: usize = 32;

/// Clauses that are longer are not tried: their resolvents are too long, but where each has
/// complementary literals.
const LONGEST_PARENT: usize = 100;

/// Whether the literal's variable occurs, and each of its signs in few clauses.
pub fn is_candidate(schedule: &Schedule, pivot: Lit) -> bool
    ensures { result ≡ is_candidate schedule.now pivot }
{
    let positive = schedule.count(pivot) as usize;
    let negative = schedule.count(pivot.negation()) as usize;
    positive <= MOST_OF_A_SIGN && negative <= MOST_OF_A_SIGN && (positive > 0 || negative > 0)
}

/// Whether the resolvents are no more than the clauses, and none of them is long. The marks are
/// used.
pub fn is_worthwhile(
    marks: &mut Marks,
    store: &Store,
    pivot: Lit,
    firsts: &[CRef],
    seconds: &[CRef],
) -> bool
    requires placed { ArePlaced (length marks.old) store.now.slots }
    requires live { All (IsLive store.now.slots) firsts.now }
    requires live_too { All (IsLive store.now.slots) seconds.now }
    ensures len { length marks.new ≡ length marks.old }
    ensures worthwhile { result ≡ is_worthwhile pivot (clauses_under store.now.slots firsts.now)
        (clauses_under store.now.slots seconds.now) }
{
    if firsts.is_empty() || seconds.is_empty() {
        return true;
    }
    if !are_few_and_short(store, firsts) || !are_few_and_short(store, seconds) {
        return false;
    }
    let mut count = 0usize;
    for first in firsts {
        match count_resolvents(marks, store, pivot, *first, seconds) {
            Some(more) => count = count.saturating_add(more),
            None => return false,
        }
    }
    count <= firsts.len().saturating_add(seconds.len())
}

/// Whether these are few clauses, none of them very long.
fn are_few_and_short(store: &Store, references: &[CRef]) -> bool
    requires { All (IsLive store.now.slots) references.now }
    ensures { result ≡ are_few_and_short (clauses_under store.now.slots references.now) }
{
    for reference in references {
        if store.lits(*reference).len() > LONGEST_PARENT {
            return false;
        }
    }
    references.len() <= MOST_OF_A_SIGN
}

/// How many resolvents without complementary literals the first clause has with the others; none
/// where one of them is long.
fn count_resolvents(
    marks: &mut Marks,
    store: &Store,
    pivot: Lit,
    first: CRef,
    seconds: &[CRef],
) -> Option<usize>
    requires placed { ArePlaced (length marks.old) store.now.slots }
    requires live { IsLive store.now.slots first }
    requires live_too { All (IsLive store.now.slots) seconds.now }
    ensures len { length marks.new ≡ length marks.old }
    ensures long { result ≡ None → are_short pivot (clause_under store.now.slots first)
        (clauses_under store.now.slots seconds.now) ≡ false }
    ensures short { IfSome result (λ _. are_short pivot (clause_under store.now.slots first)
        (clauses_under store.now.slots seconds.now) ≡ true) }
    ensures count { IfSome result (λ n. n ≡ resolvent_count pivot
        (clause_under store.now.slots first) (clauses_under store.now.slots seconds.now)) }
{
    let lits = store.lits(first);
    marks.mark_without(lits, pivot);
    let mut count = 0usize;
    for second in seconds {
        match count_rest(marks, pivot.negation(), store.lits(*second)) {
            Some(rest) => {
                if rest.saturating_add(lits.len()) > LONGEST_RESOLVENT + 1 {
                    return None;
                }
                count += 1;
            }
            None => {}
        }
    }
    Some(count)
}
