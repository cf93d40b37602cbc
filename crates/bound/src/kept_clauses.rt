// Clauses as formulas have them: each literal once, and none with complementary literals, which
// every assignment satisfies.
ghost use Rattle.std.specs.Prelude.{◌≡◌, false, [], ◌∷◌, ◌++◌, length, All, IfOk, OnOk};
ghost use Rattle.cnf.specs.Clause.{distinct, has_repeat, is_tautology};
ghost use Rattle.bound.specs.Bound.{kept};
ghost use Rattle.cnf.specs.Marks.{HasPlace};

use crate::repeats::has_repeat;
use cnf::clause_list::ClauseList;
use cnf::marks::Marks;
use cnf::tautologies::{is_tautology, is_tautology_by};
use cnf::types::Lit;
use std::alloc::{AllocError, Global};

/// Adds the clause of the literals, of which none stands twice, unless some literal stands with its
/// negation.
pub(crate) fn keep(
    clauses: &mut ClauseList,
    marks: &mut Marks,
    lits: &[Lit],
) -> Result<(), AllocError>
    requires no_repeat { has_repeat lits.now ≡ false }
    requires places { All (HasPlace (length marks.old)) lits.now }
    ensures clauses { OnOk result (clauses.new ≡ clauses.old ++ kept (lits.now ∷ [])) }
    ensures marks { length marks.new ≡ length marks.old }
{
    if is_tautology_by(marks, lits) {
        return Ok(());
    }
    clauses.push(lits)
}

/// As `keep`, for a few literals, of which some may stand twice. Its time is quadratic in their
/// number.
pub(crate) fn keep_short(clauses: &mut ClauseList, lits: &[Lit]) -> Result<(), AllocError>
    ensures { OnOk result (clauses.new ≡ clauses.old ++ kept (lits.now ∷ [])) }
{
    if has_repeat(lits) {
        let once = distinct(clauses.allocator(), lits)?;
        keep_once(clauses, &once)
    } else {
        keep_once(clauses, lits)
    }
}

/// As `keep`, for a few literals, of which none stands twice.
fn keep_once(clauses: &mut ClauseList, lits: &[Lit]) -> Result<(), AllocError>
    requires { has_repeat lits.now ≡ false }
    ensures { OnOk result (clauses.new ≡ clauses.old ++ kept (lits.now ∷ [])) }
{
    if is_tautology(lits) {
        return Ok(());
    }
    clauses.push(lits)
}

/// Each literal once, at its first place.
fn distinct(alloc: Global, lits: &[Lit]) -> Result<Vec<Lit>, AllocError>
    ensures { IfOk result (λ once. once.items ≡ distinct lits.now) }
{
    let mut once = Vec::with_capacity(alloc, lits.len())?;
    for lit in lits {
        if !once.contains(lit) {
            once.push(*lit)?;
        }
    }
    Ok(once)
}
