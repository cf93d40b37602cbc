// Whether the literals of a clause are of different variables that are there.
ghost use Rattle.std.specs.Prelude.{◌≡◌, ◌*◌, ◌<◌, ◌≤◌, ◌⊎◌, true, false, length, OnOk};
ghost use Rattle.cnf.specs.Literal.{negation};
ghost use Rattle.cnf.specs.Marks.{mark_of, HasPlace};
ghost use Rattle.cnf.specs.declared.limits.TheConstants.{VARIABLE_LIMIT};
ghost use Rattle.propagate.specs.Fits.{IsWithin};
ghost use Rattle.lrat_log.specs.Axioms.{IsNewClause};

use cnf::marks::Marks;
use cnf::types::Lit;
use std::alloc::AllocError;

/// Makes room for the marks of `variables` variables.
///
/// # Errors
///
/// `AllocError` where memory was refused.
pub fn make_room(marks: &mut Marks, variables: u32) -> Result<(), AllocError>
    ensures { OnOk result (2 * variables ≤ length marks.new) }
{
    if marks.len() < 2 * variables as usize {
        marks.grow(variables)?;
    }
    Ok(())
}

/// Whether the literals are of different variables, none of which is greater than this one: in time
/// linear in their number.
pub fn are_apart(marks: &mut Marks, variables: u32, lits: &[Lit]) -> bool
    requires few { variables < VARIABLE_LIMIT }
    requires room { 2 * variables ≤ length marks.old }
    ensures new { result ≡ true → IsNewClause lits.now }
    ensures within { result ≡ true → IsWithin variables lits.now }
    ensures no { result ≡ false → IsNewClause lits.now → IsWithin variables lits.now → ⊥ }
{
    marks.clear();
    for lit in lits {
        if lit.variable() > variables {
            return false;
        }
        if is_met(marks, *lit) {
            return false;
        }
        marks.mark(*lit);
    }
    true
}

/// Whether the literal or its negation is marked.
fn is_met(marks: &Marks, lit: Lit) -> bool
    requires { HasPlace (length marks.now) lit }
    ensures own { result ≡ false → mark_of marks.now lit ≡ false }
    ensures negated { result ≡ false → mark_of marks.now (negation lit) ≡ false }
    ensures met { result ≡ true → (mark_of marks.now lit ≡ true)
        ⊎ (mark_of marks.now (negation lit) ≡ true) }
{
    marks.is_marked(lit) || marks.is_marked(lit.negation())
}
