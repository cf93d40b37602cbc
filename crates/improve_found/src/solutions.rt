// Solutions with their cost.
ghost use Rattle.std.specs.Prelude.{◌≡◌, ◌≤◌, length};
ghost use Rattle.cnf.specs.Literal.{Assignment};
ghost use Rattle.cnf.specs.Bits.{Extends};
ghost use Rattle.cnf.specs.Problem.{IsFeasible, cost_under};
ghost use Rattle.improve_found.specs.Solutions.{IsSolution};

use cnf::types::Instance;
use improve_local::polishing::polish;

/// A solution: its bits satisfy the hard clauses.
#[derive(Drop)]
pub struct Solution {
    /// The weights of the soft clauses that the bits falsify, below 2^62 together.
    pub cost: u64,
    /// One for each variable of the instance, from variable 1.
    pub bits: Vec<bool>,
}

/// The solution that these bits begin with, and what it costs. The bits may be those of more
/// variables.
pub fn price(instance: &Instance, mut bits: Vec<bool>) -> Solution
    requires long { instance.now.variables ≤ length bits.items }
    requires feasible { (t : Assignment) → Extends bits.items t → IsFeasible instance.now t }
    ensures solution { IsSolution instance.now result.bits.items result.cost }
    ensures cost { (t : Assignment) → Extends bits.items t
        → cost_under instance.now t ≡ result.cost }
{
    bits.truncate(instance.vars() as usize);
    prove!(instance.feasible(&bits));
    let cost = instance.cost(&bits);
    Solution { cost, bits }
}

/// The solution that these bits begin with, made cheaper where a search around it finds one that
/// is.
pub fn price_polished(instance: &Instance, bits: Vec<bool>) -> Solution
    requires long { instance.now.variables ≤ length bits.items }
    requires feasible { (t : Assignment) → Extends bits.items t → IsFeasible instance.now t }
    ensures { IsSolution instance.now result.bits.items result.cost }
{
    let first = price(instance, bits);
    let polished = polish(instance, first.bits);
    price(instance, polished)
}
