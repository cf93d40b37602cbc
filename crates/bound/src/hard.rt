// The hard clauses as a formula.
ghost use Rattle.std.specs.Prelude.{◌≡◌, ◌*◌, ◌<◌, ◌≤◌, ◌++◌, length, All, IfOk, OnOk, ◌↔◌};
ghost use Rattle.cnf.specs.declared.limits.TheConstants.{CLAUSE_LIMIT};
ghost use Rattle.cnf.specs.Literal.{Assignment};
ghost use Rattle.cnf.specs.Clause.{Satisfies};
ghost use Rattle.cnf.specs.Problem.{IsFeasible};
ghost use Rattle.bound.specs.Bound.{hard_cnf, kept};

use crate::kept_clauses::keep;
use cnf::clause_list::ClauseList;
use cnf::marks::Marks;
use cnf::types::{Formula, Instance};
use std::alloc::AllocError;

/// The hard clauses as a formula over the instance's variables, in their order, without those that
/// have a literal beside its negation. The assignments that satisfy it are the instance's
/// solutions.
///
/// # Errors
///
/// `AllocError` where memory was refused.
pub fn hard_formula(instance: &Instance) -> Result<Formula, AllocError>
    ensures clauses { IfOk result (λ f. f ≡ hard_cnf instance.now) }
    ensures feasible { OnOk result
        ((t : Assignment) → All (Satisfies t) (hard_cnf instance.now).clauses
        ↔ IsFeasible instance.now t) }
    ensures few { OnOk result (length (hard_cnf instance.now).clauses < CLAUSE_LIMIT) }
{
    let vars = instance.vars();
    let mut marks = Marks::new(instance.allocator(), vars)?;
    let mut clauses = ClauseList::new(instance.allocator());
    keep_hard(&mut clauses, &mut marks, instance)?;
    Ok(Formula::new(vars, clauses))
}

/// Adds the hard clauses, as a formula keeps them.
pub(crate) fn keep_hard(
    clauses: &mut ClauseList,
    marks: &mut Marks,
    instance: &Instance,
) -> Result<(), AllocError>
    requires { 2 * instance.now.variables ≤ length marks.old }
    ensures clauses { OnOk result (clauses.new ≡ clauses.old ++ kept instance.now.hard) }
    ensures marks { length marks.new ≡ length marks.old }
{
    // The literals have places in the table.
    instance.limits();
    for clause in instance.hard().iter() {
        keep(clauses, marks, clause)?;
    }
    Ok(())
}
