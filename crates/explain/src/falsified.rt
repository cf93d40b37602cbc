// Which clauses of an instance bits make false.
ghost use Rattle.std.specs.Prelude.{◌≡◌, ◌-◌, sum_by, IfOk, OnOk};
ghost use Rattle.std.specs.Prelude.{IsPermutation};
ghost use Rattle.std.specs.List.Sorted.{IsNonDecreasingBy};
ghost use Rattle.cnf.specs.Bits.{assignment_of};
ghost use Rattle.cnf.specs.Clause.{clause_value};
ghost use Rattle.cnf.specs.Literal.{literal_value};
ghost use Rattle.cnf.specs.Problem.{cost_under};
ghost use Rattle.explain.specs.Falsified.{false_hard, false_soft, most_weight};

use cnf::limits::NUMBER_LIMIT;
use cnf::types::{Instance, Lit};
use std::alloc::AllocError;

/// A soft clause that bits make false.
#[derive(Clone, Copy, Debug, PartialEq, Eq, Drop)]
pub struct GivenUp {
    /// Its place among the soft clauses of the text, from 0.
    pub place: u32,
    /// What that costs, from 1 and below 2^62.
    pub weight: u64,
}

/// The soft clauses that the bits make false, heaviest first. Their weights sum to what the bits
/// cost. The bits are the values of the variables from 1; a variable without a bit is false.
///
/// # Errors
///
/// `AllocError` where memory was refused.
pub fn given_up(instance: &Instance, bits: &[bool]) -> Result<Vec<GivenUp>, AllocError>
    ensures listed { IfOk result (λ r. IsPermutation (false_soft instance.now bits.now) r.items) }
    ensures heaviest { IfOk result
        (λ r. IsNonDecreasingBy (λ g. most_weight - g.weight) r.items) }
    ensures cost { IfOk result (λ r.
        sum_by (λ g. g.weight) r.items ≡ cost_under instance.now (assignment_of bits.now)) }
{
    let mut falsified = falsified_soft(instance, bits)?;
    sort(&mut falsified)?;
    Ok(falsified)
}

/// The soft clauses that the bits make false, in their order.
fn falsified_soft(instance: &Instance, bits: &[bool]) -> Result<Vec<GivenUp>, AllocError>
    ensures { IfOk result (λ r. r.items ≡ false_soft instance.now bits.now) }
{
    instance.limits();
    let mut falsified = Vec::new(instance.allocator());
    let mut place = 0;
    for soft in instance.soft() {
        if !is_satisfied(soft.clause().lits(), bits) {
            falsified.push(GivenUp {
                place,
                weight: soft.weight(),
            })?;
        }
        place += 1;
    }
    Ok(falsified)
}

/// Sorts by weight, the heaviest first. Those of one weight stay in their order.
fn sort(falsified: &mut Vec<GivenUp>) -> Result<(), AllocError>
    ensures permutes { OnOk result (IsPermutation falsified.old.items falsified.new.items) }
    ensures heaviest { OnOk result
        (IsNonDecreasingBy (λ g. most_weight - g.weight) falsified.new.items) }
{
    falsified.sort_by_key(|each| MOST_WEIGHT.saturating_sub(each.weight))?;
    Ok(())
}

/// The hard clauses that the bits make false, by their places among the hard clauses of the text,
/// from 0. The bits are the values of the variables from 1; a variable without a bit is false.
///
/// # Errors
///
/// `AllocError` where memory was refused.
pub fn broken(instance: &Instance, bits: &[bool]) -> Result<Vec<u32>, AllocError>
    ensures { IfOk result (λ r. r.items ≡ false_hard instance.now bits.now) }
{
    instance.limits();
    let mut broken = Vec::new(instance.allocator());
    let mut place = 0;
    for clause in instance.hard().iter() {
        if !is_satisfied(clause, bits) {
            broken.push(place)?;
        }
        place += 1;
    }
    Ok(broken)
}

/// Whether the bits make some literal of the clause true.
fn is_satisfied(clause: &[Lit], bits: &[bool]) -> bool
    ensures { result ≡ clause_value (assignment_of bits.now) clause.now }
{
    clause.iter().any(|lit| is_true(*lit, bits))
}

/// Whether the bits make the literal true.
pub(crate) fn is_true(lit: Lit, bits: &[bool]) -> bool
    ensures { result ≡ literal_value (assignment_of bits.now) lit }
{
    let value = bits.get(lit.variable() as usize - 1);
    value.copied().unwrap_or(false) != lit.is_negated()
}

/// No weight is greater.
const MOST_WEIGHT: u64 = NUMBER_LIMIT - 1;
