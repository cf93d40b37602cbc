// Which literals a line may name.
ghost use Rattle.std.specs.Prelude.{◌≡◌, ◌<◌, ◌||◌, length, All};
ghost use Rattle.cnf.specs.Clause.{greatest_variable, has_repeat, is_tautology};
ghost use Rattle.cnf.specs.declared.limits.TheConstants.{VARIABLE_LIMIT};
ghost use Rattle.cnf.specs.Marks.{HasPlace};

use cnf::marks::Marks;
use cnf::types::Lit;

/// Whether some variable stands twice, in time linear in the number of literals: each is compared
/// with the marks of those before it.
pub(crate) fn repeats_variable(marks: &mut Marks, lits: &[Lit]) -> bool
    requires { All (HasPlace (length marks.old)) lits.now }
    ensures value { result ≡ (has_repeat lits.now || is_tautology lits.now) }
    ensures marks { length marks.new ≡ length marks.old }
{
    marks.clear();
    let mut is_repeated = false;
    let mut is_complemented = false;
    for lit in lits {
        is_repeated |= marks.is_marked(*lit);
        is_complemented |= marks.is_marked(lit.negation());
        marks.mark(*lit);
    }
    is_repeated || is_complemented
}

/// The greatest variable, or 0 where there is none.
pub(crate) fn greatest_variable(lits: &[Lit]) -> u32
    ensures greatest { result ≡ greatest_variable lits.now }
    ensures small { result < VARIABLE_LIMIT }
    ensures from_one { All (λ l. 0 < l.variable) lits.now }
{
    let mut greatest = 0;
    for lit in lits {
        if lit.variable() > greatest {
            greatest = lit.variable();
        }
    }
    greatest
}
