// Making a first solution cheaper: a priced walk over all clauses, where hard clauses that stay
// false become heavier (after Lei and Cai, "Solving (Weighted) Partial MaxSAT by Dynamic Local
// Search for SAT", IJCAI 2018, where soft ones become heavier too).
ghost use Rattle.std.specs.Prelude.{◌≡◌, ◌≤◌, ◌<◌, IfSome, length};
ghost use Rattle.cnf.specs.Literal.{Assignment};
ghost use Rattle.cnf.specs.Bits.{Extends};
ghost use Rattle.cnf.specs.Problem.{IsFeasible, cost_under};

use crate::kinds::WalkKind;
use crate::walking::LocalSearch;
use cnf::types::Instance;

/// The visits that a round takes for each literal of the instance.
const VISITS: u64 = 120;

/// The most visits that both rounds take.
const MOST_VISITS: u64 = 10_000_000;

/// A solution that costs no more than this one; where memory is refused, this one. The time is
/// linear in the instance.
pub fn polish(instance: &Instance, bits: Vec<bool>) -> Vec<bool>
    requires as_many { length bits.items ≡ instance.now.variables }
    requires feasible { (t : Assignment) → Extends bits.items t → IsFeasible instance.now t }
    ensures as_many { length result.items ≡ instance.now.variables }
    ensures feasible { (t : Assignment) → Extends result.items t → IsFeasible instance.now t }
    ensures no_dearer { (old new : Assignment) → Extends bits.items old
        → Extends result.items new
        → cost_under instance.now new ≤ cost_under instance.now old }
{
    let cost = instance.cost(&bits);
    if cost == 0 {
        return bits;
    }
    match walk_from(instance, &bits, cost) {
        Some(better) => better,
        None => bits,
    }
}

/// The best bits that a search from these meets, if they are a solution that costs less than this.
fn walk_from(instance: &Instance, bits: &[bool], cost: u64) -> Option<Vec<bool>>
    ensures as_many { IfSome result (λ b. length b.items ≡ instance.now.variables) }
    ensures feasible { IfSome result (λ b. (t : Assignment) → Extends b.items t
        → IsFeasible instance.now t) }
    ensures cheaper { IfSome result (λ b. (t : Assignment) → Extends b.items t
        → cost_under instance.now t < cost) }
{
    let mut search = LocalSearch::new(instance, WalkKind::Priced).ok()?;
    let visits = search.size().saturating_mul(VISITS);
    let ends = [
        visits.min(MOST_VISITS),
        visits.saturating_mul(2).min(MOST_VISITS),
    ];
    let found = search.walk_rounds(instance, bits, cost, &ends);
    // By a call: that is proved once, and not field by field here.
    drop(search);
    found.better
}
