// Stages of totalizers in flat memory: the inputs of a node are a part of those of the root, and
// the outputs of the nodes below it follow its own. No node keeps its size, which is that of its
// part of the inputs. The depth of the calls is the logarithm of the number of inputs.
ghost use Rattle.std.specs.Prelude.{false, ◌≡◌, ℕ, ◌+◌, ◌-◌, ◌*◌, ◌^◌, ◌<◌, ◌≤◌, min, ◌++◌, length};
ghost use Rattle.std.specs.Prelude.{OnOk, IfOk};
ghost use Rattle.cnf.specs.declared.limits.TheConstants.{VARIABLE_LIMIT};
ghost use Rattle.cnf.specs.Literal.{positive, negative};
ghost use Rattle.totalizer.specs.Stages.{outputs_of, stage, sum_clauses, order_clause};
ghost use Rattle.totalizer.specs.Laid.{tree_at, IsLaid};

use cnf::clause_list::ClauseList;
use cnf::types::Lit;
use std::alloc::AllocError;

/// Gives each node with `at_least` inputs or more its next output, which is true where at least
/// that many are; answers the next new variable. The clauses come behind those that are there.
///
/// # Errors
///
/// `AllocError` where memory was refused; some outputs and clauses may then have come.
pub(crate) fn add_outputs(
    inputs: &[Lit],
    outputs: &mut [Vec<Lit>],
    at_least: usize,
    fresh: u32,
    clauses: &mut ClauseList,
) -> Result<u32, AllocError>
    requires laid { IsLaid inputs.now outputs.old }
    requires some { 0 < at_least }
    requires from_one { 0 < fresh }
    requires room { fresh + length outputs.old ≤ VARIABLE_LIMIT }
    ensures tree { OnOk result (tree_at inputs.now outputs.new
        ≡ (stage at_least fresh (tree_at inputs.now outputs.old)).tree) }
    ensures clauses { OnOk result (clauses.new ≡ clauses.old
        ++ (stage at_least fresh (tree_at inputs.now outputs.old)).clauses) }
    ensures fresh { IfOk result (λ next. next
        ≡ (stage at_least fresh (tree_at inputs.now outputs.old)).fresh) }
{
    if inputs.len() < at_least {
        return Ok(fresh);
    }
    let Some((own, below)) = outputs.split_first_mut() else {
        return Ok(fresh);
    };
    let half = inputs.len() / 2;
    let (left, right) = inputs.split_at(half);
    let (left_outputs, right_outputs) = below.split_at_mut(half - 1);
    let fresh = add_outputs(left, left_outputs, at_least, fresh, clauses)?;
    let fresh = add_outputs(right, right_outputs, at_least, fresh, clauses)?;
    let left = outputs_at(left, left_outputs);
    let right = outputs_at(right, right_outputs);
    let sum = Lit::new(fresh, false);
    push_sums(left, right, sum, at_least, clauses)?;
    push_order(own, sum, clauses)?;
    own.push(sum)?;
    Ok(fresh + 1)
}

/// How many clauses the next outputs take, where each node with `at_least` inputs or more gets one.
pub(crate) fn count_clauses(inputs: &[Lit], outputs: &[Vec<Lit>], at_least: usize) -> usize
    requires laid { IsLaid inputs.now outputs.now }
    requires room { length inputs.now * (at_least + 2) < 2 ^ 64 }
    ensures count { (v : ℕ)
        → result ≡ length (stage at_least v (tree_at inputs.now outputs.now)).clauses }
    ensures few { result + (at_least + 2) ≤ length inputs.now * (at_least + 2) }
{
    if inputs.len() < at_least {
        return 0;
    }
    let Some((own, below)) = outputs.split_first() else {
        return 0;
    };
    let half = inputs.len() / 2;
    let (left, right) = inputs.split_at(half);
    let (left_outputs, right_outputs) = below.split_at(half - 1);
    let before = count_clauses(left, left_outputs, at_least)
        + count_clauses(right, right_outputs, at_least);
    let left = count_outputs(left, left_outputs, at_least);
    let right = count_outputs(right, right_outputs, at_least);
    before + count_sums(left, right, at_least) + count_order(own)
}

/// How many outputs a node has once each node with `at_least` inputs or more got its next one.
fn count_outputs(inputs: &[Lit], outputs: &[Vec<Lit>], at_least: usize) -> usize
    requires laid { IsLaid inputs.now outputs.now }
    ensures { (v : ℕ) → result
        ≡ length (outputs_of (stage at_least v (tree_at inputs.now outputs.now)).tree) }
{
    let Some((own, _)) = outputs.split_first() else {
        return 1;
    };
    if inputs.len() < at_least {
        own.len()
    } else {
        own.len() + 1
    }
}

/// How many clauses `push_sums` pushes, for `left` and `right` outputs on the two sides.
fn count_sums(left: usize, right: usize, at_least: usize) -> usize
    requires { at_least + 1 < 2 ^ 64 }
    ensures { result ≡ min left at_least + 1 - (at_least - right) }
{
    (left.min(at_least) + 1).saturating_sub(at_least.saturating_sub(right))
}

/// The outputs of a node: of a single input, this one.
pub(crate) fn outputs_at<'a>(inputs: &'a [Lit], outputs: &'a [Vec<Lit>]) -> &'a [Lit]
    requires laid { IsLaid inputs.now outputs.now }
    ensures { result.now ≡ outputs_of (tree_at inputs.now outputs.now) }
{
    match outputs {
        [] => inputs,
        [own, ..] => own,
    }
}

/// How many clauses `push_order` pushes, for these outputs.
fn count_order(own: &[Lit]) -> usize
    ensures count { (v : ℕ) → result ≡ length (order_clause own.now v) }
    ensures few { result ≤ 1 }
{
    match own {
        [] => 0,
        [..] => 1,
    }
}

/// The clauses by which `at_least` inputs on both sides together make the sum true.
fn push_sums(
    left: &[Lit],
    right: &[Lit],
    sum: Lit,
    at_least: usize,
    clauses: &mut ClauseList,
) -> Result<(), AllocError>
    requires some { 0 < at_least }
    requires positive { sum.negated ≡ false }
    ensures { OnOk result
        (clauses.new ≡ clauses.old ++ sum_clauses left.now right.now sum.variable 0 at_least) }
{
    let first = at_least.saturating_sub(right.len());
    let end = left.len().min(at_least) + 1;
    for i in first..end {
        let j = at_least - i;
        if i == 0 {
            clauses.push(&[right[j - 1].negation(), sum])?;
        } else if j == 0 {
            clauses.push(&[left[i - 1].negation(), sum])?;
        } else {
            clauses.push(&[left[i - 1].negation(), right[j - 1].negation(), sum])?;
        }
    }
    Ok(())
}

/// The clause by which the sum is true only where the last of the outputs before it is.
fn push_order(own: &[Lit], sum: Lit, clauses: &mut ClauseList) -> Result<(), AllocError>
    requires { sum.negated ≡ false }
    ensures { OnOk result (clauses.new ≡ clauses.old ++ order_clause own.now sum.variable) }
{
    match own.last() {
        Some(before) => clauses.push(&[sum.negation(), *before]),
        None => Ok(()),
    }
}
