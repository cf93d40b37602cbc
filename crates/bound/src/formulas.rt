// The formula that a solution costs below a bound.
ghost use Rattle.std.specs.Prelude.{◌≡◌, ◌<◌, ◌≤◌, [], ◌++◌, length, IfOk, OnOk};
ghost use Rattle.cnf.specs.declared.limits.TheConstants.{CLAUSE_LIMIT, NUMBER_LIMIT};
ghost use Rattle.adder.specs.Network.{relaxed_variables};
ghost use Rattle.bound.specs.Bound.{kept, relaxed_clauses, bound_as, comparator_for, SaysCheaper};

use crate::cells::keep_cells;
pub use crate::comparators::comparator;
use crate::comparators::keep_comparator;
pub use crate::dimacs::write_dimacs;
pub use crate::hard::hard_formula;
use crate::hard::keep_hard;
use crate::relaxing::keep_relaxed;
use adder::building::network_as;
use adder::profiles::Profile;
use cnf::clause_list::ClauseList;
use cnf::marks::Marks;
use cnf::types::{Formula, Instance};
use std::alloc::AllocError;

/// The formula for a cost below `k`, a bound from 0 to 2^62: the hard clauses, each soft clause
/// with its relaxation variable, the cells of the adder network of what is relaxed, and the
/// comparator of its outputs with `k` (Eén and Sörensson, "Translating Pseudo-Boolean Constraints
/// into SAT", 2006). An assignment that satisfies it is a solution that costs less than `k`, and
/// each such solution extends to one that does. No clause has a repeated literal, and those with
/// complementary literals are left out.
///
/// # Errors
///
/// `AllocError` where memory was refused.
pub fn formula(instance: &Instance, k: u64) -> Result<Formula, AllocError>
    requires { k ≤ NUMBER_LIMIT }
    ensures clauses { IfOk result (λ f. f ≡ bound_as Profile.One instance.now k) }
    ensures cheaper { OnOk result (SaysCheaper Profile.One instance.now k) }
    ensures few { OnOk result
        (length (bound_as Profile.One instance.now k).clauses < CLAUSE_LIMIT) }
    ensures without_bound { OnOk result
        (comparator_for Profile.One instance.now NUMBER_LIMIT ≡ []) }
{
    formula_as(instance, k, Profile::One)
}

/// As `formula`, in any profile: in `Profile::Two` a soft clause of one literal has no relaxation
/// variable and is not among the clauses, as the negation of its literal relaxes it.
///
/// # Errors
///
/// `AllocError` where memory was refused.
pub fn formula_as(instance: &Instance, k: u64, profile: Profile) -> Result<Formula, AllocError>
    requires { k ≤ NUMBER_LIMIT }
    ensures clauses { IfOk result (λ f. f ≡ bound_as profile instance.now k) }
    ensures cheaper { OnOk result (SaysCheaper profile instance.now k) }
    ensures few { OnOk result (length (bound_as profile instance.now k).clauses < CLAUSE_LIMIT) }
    ensures without_bound { OnOk result (comparator_for profile instance.now NUMBER_LIMIT ≡ []) }
{
    instance.limits();
    let mut clauses = ClauseList::new(instance.allocator());
    let last = keep_given(&mut clauses, instance, profile)?;
    let network = network_as(instance, profile)?;
    keep_cells(&mut clauses, network.cells())?;
    keep_comparator(&mut clauses, network.outputs(), k)?;
    let vars = last + 2 * network.cells().len() as u32;
    Ok(Formula::new(vars, clauses))
}

/// Adds the hard clauses and the soft ones with their relaxation variables; answers the last of all
/// these variables.
pub(crate) fn keep_given(
    clauses: &mut ClauseList,
    instance: &Instance,
    profile: Profile,
) -> Result<u32, AllocError>
    ensures clauses { OnOk result (clauses.new
        ≡ clauses.old
        ++ (kept instance.now.hard ++ kept (relaxed_clauses profile instance.now))) }
    ensures last { IfOk result (λ n. n ≡ relaxed_variables profile instance.now) }
{
    let most = instance.vars() + instance.soft().len() as u32;
    let mut marks = Marks::new(instance.allocator(), most)?;
    keep_hard(clauses, &mut marks, instance)?;
    keep_relaxed(clauses, &mut marks, instance, profile)
}
