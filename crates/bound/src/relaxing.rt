// The soft clauses of a formula, each with a variable that is true where the clause may be
// falsified.
ghost use Rattle.std.specs.Prelude.{◌≡◌, ◌+◌, ◌*◌, ◌<◌, ◌≤◌, [], ◌∷◌, ◌++◌, length, IfOk};
ghost use Rattle.std.specs.Prelude.{OnOk};
ghost use Rattle.cnf.specs.declared.limits.TheConstants.{VARIABLE_LIMIT};
ghost use Rattle.cnf.specs.Literal.{positive};
ghost use Rattle.adder.specs.Network.{relaxed_variables};
ghost use Rattle.bound.specs.Bound.{kept, relaxed_clauses};
ghost use Rattle.bound.specs.Adding.{gets_variable};

use crate::kept_clauses::keep;
use adder::profiles::{Profile, Relaxing};
use cnf::clause_list::ClauseList;
use cnf::marks::Marks;
use cnf::types::{Instance, Lit};
use std::alloc::{AllocError, Global};

/// Adds the soft clauses that take a relaxation variable, each with that as its last literal. These
/// variables come after the instance's own, in the order of the clauses; answers the last of them.
pub(crate) fn keep_relaxed(
    clauses: &mut ClauseList,
    marks: &mut Marks,
    instance: &Instance,
    profile: Profile,
) -> Result<u32, AllocError>
    requires { 2 * (instance.now.variables + length instance.now.soft) ≤ length marks.old }
    ensures clauses { OnOk result
        (clauses.new ≡ clauses.old ++ kept (relaxed_clauses profile instance.now)) }
    ensures last { IfOk result (λ n. n ≡ relaxed_variables profile instance.now) }
    ensures marks { length marks.new ≡ length marks.old }
{
    let mut last = instance.vars();
    for soft in instance.soft() {
        let lits = soft.clause().lits();
        if is_given_variable(profile.relaxing(), lits) {
            last += 1;
            let relaxed = with_variable(instance.allocator(), lits, last)?;
            keep(clauses, marks, &relaxed)?;
        }
    }
    Ok(last)
}

/// Whether a soft clause takes a relaxation variable. One of a single literal may not need it, as
/// the negation of that literal relaxes it.
fn is_given_variable(relaxing: Relaxing, lits: &[Lit]) -> bool
    ensures { result ≡ gets_variable relaxing lits.now }
{
    match relaxing {
        Relaxing::EachByVariable => true,
        Relaxing::UnitsByNegation => lits.len() != 1,
    }
}

/// The literals, and the variable last.
fn with_variable(alloc: Global, lits: &[Lit], variable: u32) -> Result<Vec<Lit>, AllocError>
    requires from_one { 0 < variable }
    requires small { variable < VARIABLE_LIMIT }
    ensures { IfOk result (λ c. c.items ≡ lits.now ++ positive variable ∷ []) }
{
    let mut relaxed = Vec::with_capacity(alloc, lits.len().saturating_add(1))?;
    relaxed.extend_from_slice(lits)?;
    relaxed.push(Lit::new(variable, false))?;
    Ok(relaxed)
}
