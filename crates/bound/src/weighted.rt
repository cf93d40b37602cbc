// An instance whose soft clauses are relaxed, with the weights of their relaxation literals.
ghost use Rattle.std.specs.Prelude.{◌≡◌, ℕ, ◌+◌, ◌<◌, ◌≤◌, ◌++◌, map, length, All, IfOk, OnOk};
ghost use Rattle.std.specs.Prelude.{if◌then◌else◌, sum_by};
ghost use Rattle.cnf.specs.declared.limits.TheConstants.{FORMULA_VARIABLE_LIMIT, NUMBER_LIMIT};
ghost use Rattle.adder.specs.Network.{relaxed_one, relaxed_variables};
ghost use Rattle.adder.specs.declared.profiles.Profile.TheVariants.{Two};
ghost use Rattle.adder.specs.declared.profiles.Relaxing.TheVariants.{UnitsByNegation};
ghost use Rattle.cnf.specs.Marks.{HasPlace};
ghost use Rattle.adder.specs.Parts.{weight_in};
ghost use Rattle.bound.specs.Weighted.{weighted_cnf, weights_of, weight_unless_true};

use crate::formulas::keep_given;
use adder::profiles::Profile;
use adder::relaxations::Relaxation;
use cnf::clause_list::ClauseList;
use cnf::marks::Marks;
use cnf::tautologies::is_tautology_by;
use cnf::types::{Formula, Instance, Lit, Soft};
use std::alloc::AllocError;

/// The hard clauses, and the soft ones that have not just one literal, each with its relaxation
/// variable last. No clause has a repeated literal, and those with complementary literals are left
/// out.
///
/// # Errors
///
/// `AllocError` where memory was refused.
pub fn weighted_formula(instance: &Instance) -> Result<Formula, AllocError>
    ensures { IfOk result (λ f. f ≡ weighted_cnf instance.now) }
{
    instance.limits();
    let mut clauses = ClauseList::new(instance.allocator());
    let last = keep_given(&mut clauses, instance, Profile::Two)?;
    Ok(Formula::new(last, clauses))
}

/// What each soft clause costs, and the literal that is true where it may be falsified: the
/// negation of a unit clause's literal, and of each other clause its relaxation variable. A
/// tautology costs nothing. The weights sum to less than 2^62, and no variable is above those of
/// the formula.
///
/// # Errors
///
/// `AllocError` where memory was refused.
pub fn weights(instance: &Instance) -> Result<Vec<Relaxation>, AllocError>
    ensures weights { IfOk result (λ w. map weight_in w.items ≡ weights_of instance.now) }
    ensures within { IfOk result
        (λ w. All (λ r. r.lit.variable ≤ relaxed_variables Two instance.now) w.items) }
    ensures sum { IfOk result (λ w. sum_by (λ r. r.weight) w.items < NUMBER_LIMIT) }
{
    let alloc = instance.allocator();
    let mut marks = Marks::new(alloc, instance.vars())?;
    let mut fresh = instance.vars() + 1;
    let mut weights = Vec::with_capacity(alloc, instance.soft().len())?;
    for soft in instance.soft() {
        let lits = soft.clause().lits();
        let lit = relaxation_lit(lits, fresh);
        push_weight(&mut weights, &mut marks, soft, lit)?;
        fresh = fresh_after(lits, fresh);
    }
    Ok(weights)
}

/// Puts the weight of the soft clause last, with the literal that relaxes it, unless it is a
/// tautology.
fn push_weight(
    weights: &mut Vec<Relaxation>,
    marks: &mut Marks,
    soft: &Soft,
    lit: Lit,
) -> Result<(), AllocError>
    requires { All (HasPlace (length marks.old)) soft.now.clause }
    ensures weights { OnOk result (map weight_in weights.new.items
        ≡ map weight_in weights.old.items ++ weight_unless_true soft.now lit) }
    ensures marks { length marks.new ≡ length marks.old }
{
    if is_tautology_by(marks, soft.clause().lits()) {
        return Ok(());
    }
    let weight = soft.weight();
    weights.push(Relaxation { lit, weight })?;
    Ok(())
}

/// The next new variable behind that of the soft clause, if it has one.
fn fresh_after(lits: &[Lit], fresh: u32) -> u32
    requires { fresh < FORMULA_VARIABLE_LIMIT }
    ensures next { (weight : ℕ) → result
        ≡ (if (relaxed_one UnitsByNegation fresh
        (record { weight = weight; clause = lits.now })).is_fresh then fresh + 1 else fresh) }
    ensures near { fresh ≤ result }
    ensures few { result ≤ fresh + 1 }
{
    match lits {
        [_] => fresh,
        _ => fresh + 1,
    }
}

/// The literal that is true where the soft clause may be falsified: its variable is the next new
/// one, unless the clause has just one literal.
fn relaxation_lit(lits: &[Lit], fresh: u32) -> Lit
    requires from_one { 0 < fresh }
    requires small { fresh < FORMULA_VARIABLE_LIMIT }
    ensures { (weight : ℕ) → result
        ≡ (relaxed_one UnitsByNegation fresh
        (record { weight = weight; clause = lits.now })).literal }
{
    match lits {
        [lit] => lit.negation(),
        _ => Lit::new(fresh, false),
    }
}
