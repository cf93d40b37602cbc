// Facts of counts and groups in a form.
ghost use Rattle.std.specs.Prelude.{◌≡◌, ℕ, ◌+◌, ◌*◌, ◌<◌, ◌≤◌, ◌^◌, All, length, pos};
ghost use Rattle.std.specs.Prelude.{◌-ℤ◌, if◌then◌else◌, ◌==◌};
ghost use Rattle.std.specs.Int.RustNames.{unsigned_abs};
ghost use Rattle.cnf.specs.declared.limits.TheConstants.{NUMBER_LIMIT};
ghost use Rattle.linear.specs.Costs.{width_of};
ghost use Rattle.totalizer.specs.Stages.{outputs_of};
ghost use Rattle.forms.specs.Forms.{Group, cited, clause_size, less, less_item, numbered_size};
ghost use Rattle.forms.specs.Forms.{plus_number};
ghost use Rattle.forms.specs.Forms.{plus as plus_literals};
ghost use Rattle.forms.specs.Within.{CanCite, IsStampedWithin};
ghost use Rattle.forms.specs.Stamped.{IsStamped, numbered_at};

use crate::numbered::{Count, Numbered};
use cnf::types::Lit;
use linear::bounds::CostBound;

/// Takes the fact of a count or group off the form with a stamp, `weight` times.
pub(crate) fn subtract_item(bound: &mut CostBound, item: &mut Numbered, weight: u64, present: u64)
    requires weight { weight < NUMBER_LIMIT }
    requires can { CanCite (width_of bound.old.form) item.old }
    requires room { bound.old.mass + 3 * 2 ^ 62 * numbered_size (numbered_at present item.old)
        ≤ 2 ^ 120 }
    ensures form { bound.new.form
        ≡ less_item weight (numbered_at present item.old) bound.old.form }
    ensures mass { bound.new.mass
        ≤ bound.old.mass + 3 * 2 ^ 62 * numbered_size (numbered_at present item.old) }
    ensures item { numbered_at present item.new ≡ cited weight (numbered_at present item.old) }
    ensures within { (variables terms : ℕ) → IsStampedWithin variables terms item.old
        → IsStampedWithin variables (terms + 1) item.new }
    ensures stamped { IsStamped present item.new }
{
    match item {
        Numbered::Group(lits) => subtract_group(bound, lits, weight),
        Numbered::Count(count) => {
            subtract_count(bound, &count.inputs, count.totalizer.outputs(), weight);
            count.multiplier = multiplier_at(count, present) + weight as u128;
            count.stamp = present;
        }
    }
}

/// Takes the fact of a clause off a form: its literals, less 1.
pub(crate) fn subtract_clause(bound: &mut CostBound, clause: &[Lit], weight: u64)
    requires weight { weight < NUMBER_LIMIT }
    requires variables { All (λ l. l.variable < width_of bound.old.form) clause.now }
    requires room { bound.old.mass + 3 * 2 ^ 62 * clause_size clause.now ≤ 2 ^ 120 }
    ensures form { bound.new.form
        ≡ plus_number (pos weight) (less weight clause.now bound.old.form) }
    ensures mass { bound.new.mass ≤ bound.old.mass + 3 * 2 ^ 62 * clause_size clause.now }
{
    bound.add_literals(clause, minus(weight));
    bound.add_constant(plus(weight));
}

/// Takes the fact of a group off a form: 1, less its literals.
fn subtract_group(bound: &mut CostBound, lits: &[Lit], weight: u64)
    requires weight { weight < NUMBER_LIMIT }
    requires some { 0 < length lits.now }
    requires variables { All (λ l. l.variable < width_of bound.old.form) lits.now }
    requires room { bound.old.mass + 3 * 2 ^ 62 * length lits.now ≤ 2 ^ 120 }
    ensures form { bound.new.form ≡ less_item weight (Group lits.now) bound.old.form }
    ensures mass { bound.new.mass ≤ bound.old.mass + 3 * 2 ^ 62 * length lits.now }
{
    bound.add_literals(lits, plus(weight));
    bound.add_constant(minus(weight));
}

/// Takes the fact of a count off a form: its inputs, less its outputs.
fn subtract_count(bound: &mut CostBound, inputs: &[Lit], outputs: &[Lit], weight: u64)
    requires weight { weight < NUMBER_LIMIT }
    requires inputs { All (λ l. l.variable < width_of bound.old.form) inputs.now }
    requires outputs { All (λ l. l.variable < width_of bound.old.form) outputs.now }
    requires room { bound.old.mass + 3 * 2 ^ 62 * (length inputs.now + length outputs.now)
        ≤ 2 ^ 120 }
    ensures form { bound.new.form
        ≡ plus_literals (pos weight) outputs.now (less weight inputs.now bound.old.form) }
    ensures mass { bound.new.mass
        ≤ bound.old.mass + 3 * 2 ^ 62 * (length inputs.now + length outputs.now) }
{
    bound.add_literals(inputs, minus(weight));
    bound.add_literals(outputs, plus(weight));
}

/// How many times the form with a stamp has the count's fact.
pub(crate) fn multiplier_at(count: &Count, present: u64) -> u128
    ensures { result ≡ (if count.now.stamp == present then count.now.multiplier else 0) }
{
    if count.stamp == present {
        count.multiplier
    } else {
        0
    }
}

/// A weight as a number that may be negative.
pub(crate) fn plus(weight: u64) -> i128
    requires { weight < NUMBER_LIMIT }
    ensures value { result ≡ pos weight }
    ensures small { unsigned_abs result ≤ 2 ^ 62 }
{
    weight as i128
}

/// A weight taken off 0.
pub(crate) fn minus(weight: u64) -> i128
    requires { weight < NUMBER_LIMIT }
    ensures value { result ≡ pos 0 -ℤ pos weight }
    ensures small { unsigned_abs result ≤ 2 ^ 62 }
{
    -(weight as i128)
}
