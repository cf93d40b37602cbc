// Resolvents, built in a scratch vector against marks.
ghost use Rattle.std.specs.Prelude.{◌≡◌, true, not, ◌++◌, length, false};
ghost use Rattle.std.specs.Prelude.{All, IfOk, IfSome, None};
ghost use Rattle.std.specs.List.{list_any};
ghost use Rattle.cnf.specs.Clause.{without_literal, is_tautology};
ghost use Rattle.cnf.specs.Marks.{HasPlace};
ghost use Rattle.eliminate_tables.specs.Resolvents.{resolvent, unmarked_rest, clashes};

use cnf::marks::Marks;
use cnf::types::Lit;
use std::alloc::AllocError;

/// Builds the resolvent of two clauses, the first with the pivot and the second with its negation.
/// The answer is whether it has no complementary literals; where it has one, what was built is of
/// no use.
pub fn resolve(
    marks: &mut Marks,
    pivot: Lit,
    first: &[Lit],
    second: &[Lit],
    out: &mut Vec<Lit>,
) -> Result<bool, AllocError>
    requires first { All (HasPlace (length marks.old)) first.now }
    requires second { All (HasPlace (length marks.old)) second.now }
    requires plain_first { is_tautology first.now ≡ false }
    requires plain_second { is_tautology second.now ≡ false }
    ensures len { length marks.new ≡ length marks.old }
    ensures plain { IfOk result (λ plain.
        plain ≡ not (is_tautology (resolvent pivot first.now second.now))) }
    ensures built { IfOk result (λ plain. plain ≡ true
        → out.new.items ≡ resolvent pivot first.now second.now) }
{
    out.clear();
    add_others(pivot, first, out)?;
    marks.mark_without(first, pivot);
    let plain = add_rest(marks, pivot.negation(), second, out)?;
    Ok(plain)
}

/// Adds the literals but for one.
fn add_others(left_out: Lit, lits: &[Lit], out: &mut Vec<Lit>) -> Result<(), AllocError>
    ensures { IfOk result (λ _.
        out.new.items ≡ out.old.items ++ without_literal left_out lits.now) }
{
    for lit in lits {
        if *lit != left_out {
            out.push(*lit)?;
        }
    }
    Ok(())
}

/// Adds the literals that are not marked, but for one, and says whether the negation of none of
/// these is marked.
fn add_rest(
    marks: &Marks,
    left_out: Lit,
    lits: &[Lit],
    out: &mut Vec<Lit>,
) -> Result<bool, AllocError>
    requires { All (HasPlace (length marks.now)) lits.now }
    ensures plain { IfOk result (λ plain.
        plain ≡ not (list_any (clashes marks.now) (unmarked_rest marks.now left_out lits.now))) }
    ensures built { IfOk result (λ plain. plain ≡ true
        → out.new.items ≡ out.old.items ++ unmarked_rest marks.now left_out lits.now) }
{
    for lit in lits {
        if *lit != left_out && !marks.is_marked(*lit) {
            if marks.is_marked(lit.negation()) {
                return Ok(false);
            }
            out.push(*lit)?;
        }
    }
    Ok(true)
}

/// How many of the literals are not marked, but for one; none where the negation of such a one is
/// marked.
pub fn count_rest(marks: &Marks, left_out: Lit, lits: &[Lit]) -> Option<usize>
    requires { All (HasPlace (length marks.now)) lits.now }
    ensures clash { result ≡ None
        → list_any (clashes marks.now) (unmarked_rest marks.now left_out lits.now) ≡ true }
    ensures plain { IfSome result (λ _.
        list_any (clashes marks.now) (unmarked_rest marks.now left_out lits.now) ≡ false) }
    ensures count { IfSome result (λ n. n ≡ length (unmarked_rest marks.now left_out lits.now)) }
{
    let mut count = 0usize;
    for lit in lits {
        if *lit != left_out && !marks.is_marked(*lit) {
            if marks.is_marked(lit.negation()) {
                return None;
            }
            count += 1;
        }
    }
    Some(count)
}
