// The stages of counts, and room for their variables.
ghost use Rattle.std.specs.Prelude.{◌≡◌, ℕ, ◌+◌, ◌-◌, ◌*◌, ◌<◌, ◌≤◌, ◌^◌, ◌++◌, ◌∷◌, [], length};
ghost use Rattle.std.specs.Prelude.{All, List, IfOk, OnErr, OnOk, pos};
ghost use Rattle.cnf.specs.declared.limits.TheConstants.{VARIABLE_LIMIT};
ghost use Rattle.totalizer.specs.Stages.{size_of, stages};
ghost use Rattle.totalizer.specs.Grown.{HasStages};
ghost use Rattle.cnf.specs.Literal.{Literal, positive};
ghost use Rattle.linear.specs.Costs.{widened, width_of};
ghost use Rattle.totalizer.specs.Stages.{Tree};
ghost use Rattle.forms.specs.declared.faults.TheConstants.{MOST_COUNT_CLAUSES};
ghost use Rattle.forms.specs.Forms.{Count as CountOf, Forms, more_line, multiplier_of, next_stage};
ghost use Rattle.forms.specs.Forms.{plus};
ghost use Rattle.forms.specs.Answers.{IsGrown, IsMore, fault_of};
ghost use Rattle.forms.specs.Stamped.{AreStamped, IsStamped, numbered_at, numbered_in};
ghost use Rattle.forms.specs.Within.{CanGrow, IsCount, IsStampedWithin};

use crate::citing::multiplier_at;
use crate::faults::{LineFault, MOST_COUNT_CLAUSES};
use crate::numbered::{Count, Numbered, find};
use cnf::clause_list::ClauseList;
use cnf::marks::Marks;
use cnf::types::Lit;
use linear::bounds::CostBound;
use std::alloc::AllocError;
use totalizer::totalizer::Totalizer;

/// The first `count` stages of a totalizer that has none, as long as they make no more clauses than
/// there is room for: the next new variable after them. None where they make more; then there are
/// some of the stages.
///
/// # Errors
///
/// `AllocError` where memory was refused.
pub(crate) fn add_stages(
    totalizer: &mut Totalizer,
    count: usize,
    fresh: u32,
    room: usize,
    clauses: &mut ClauseList,
) -> Result<Option<u32>, AllocError>
    requires bare { HasStages 0 totalizer.old }
    requires some { 1 ≤ count }
    requires few { count ≤ size_of totalizer.old }
    requires none { clauses.old ≡ [] }
    requires from_one { 0 < fresh }
    requires variables { fresh + room + size_of totalizer.old ≤ VARIABLE_LIMIT }
    ensures { IfOk result (λ next. IsGrown (stages count 1 fresh totalizer.old) room
        totalizer.new clauses.new next) }
{
    if totalizer.size() == 1 {
        return Ok(Some(fresh));
    }
    let mut next = fresh;
    for done in 0..count {
        if totalizer.count_stage_clauses() > room - clauses.len() {
            return Ok(None);
        }
        next = totalizer.add_stage(next, clauses)?;
    }
    Ok(Some(next))
}

/// Puts a count of these literals last, which no form has the fact of.
///
/// # Errors
///
/// `AllocError` where memory was refused; then no count has come.
pub(crate) fn push_count(
    numbered: &mut Vec<Numbered>,
    inputs: &[Lit],
    totalizer: Totalizer,
) -> Result<(), AllocError>
    ensures count { OnOk result ((present : ℕ) → numbered_in present numbered.new.items
        ≡ numbered_in present numbered.old.items ++ CountOf inputs.now totalizer 0 ∷ []) }
    ensures within { OnOk result ((variables terms : ℕ)
        → All (IsStampedWithin variables terms) numbered.old.items
        → IsCount variables terms inputs.now totalizer 0
        → All (IsStampedWithin variables terms) numbered.new.items) }
    ensures stamped { OnOk result ((present : ℕ) → AreStamped present numbered.old.items
        → AreStamped present numbered.new.items) }
    ensures err { OnErr result (numbered.new.items ≡ numbered.old.items) }
{
    let inputs = Vec::from_slice(*numbered.allocator(), inputs)?;
    numbered.push(Numbered::Count(Count {
        inputs,
        totalizer,
        multiplier: 0,
        stamp: 0,
    }))?;
    Ok(())
}

/// Why the count with a number can have no further output, if it can't: there is no count with the
/// number, or all its outputs are there (`Name`), or the clauses would be too many (`Limit`).
pub(crate) fn more_fault(numbered: &[Numbered], number: u64, made: usize) -> Option<LineFault>
    requires { made ≤ MOST_COUNT_CLAUSES }
    ensures { (s : Forms) (present : ℕ) → s.numbered ≡ numbered_in present numbered.now
        → s.made ≡ made → result ≡ fault_of (more_line number s) }
{
    let Some(item) = find(numbered, number) else {
        return Some(LineFault::Name);
    };
    match item {
        Numbered::Group(_) => Some(LineFault::Name),
        Numbered::Count(count) => {
            if count.totalizer.outputs().len() >= count.totalizer.size() {
                Some(LineFault::Name)
            } else if count.totalizer.count_stage_clauses() > MOST_COUNT_CLAUSES - made {
                Some(LineFault::Limit)
            } else {
                None
            }
        }
    }
}

/// How many times the form with a stamp has the fact of a count; 0 of a group.
pub(crate) fn multiplier_of(item: &Numbered, present: u64) -> u128
    ensures value { result ≡ multiplier_of (numbered_at present item.now) }
    ensures small { (variables terms : ℕ) → IsStampedWithin variables terms item.now
        → result ≤ terms * 2 ^ 62 }
{
    match item {
        Numbered::Count(count) => multiplier_at(count, present),
        Numbered::Group(_) => 0,
    }
}

/// One more output of a count that has fewer outputs than inputs, with the clauses that it takes,
/// and room for its variables: the next new variable after them.
///
/// # Errors
///
/// `AllocError` where memory was refused; then nothing is said of the item.
pub(crate) fn grow_item(
    item: &mut Numbered,
    bound: &mut CostBound,
    marks: &mut Marks,
    fresh: u32,
    clauses: &mut ClauseList,
) -> Result<u32, AllocError>
    requires more { CanGrow item.old }
    requires from_one { 0 < fresh }
    requires room { fresh ≤ 2 ^ 26 }
    ensures grown { (present multiplier : ℕ) (inputs : List Literal) (tree : Tree)
        → numbered_at present item.old ≡ CountOf inputs tree multiplier
        → IfOk result (λ next. IsMore (next_stage fresh tree) inputs multiplier clauses.old
        (numbered_at present item.new) clauses.new next) }
    ensures within { IfOk result (λ next. (terms : ℕ) → IsStampedWithin (fresh - 1) terms item.old
        → IsStampedWithin (next - 1) terms item.new) }
    ensures stamped { OnOk result ((present : ℕ) → IsStamped present item.old
        → IsStamped present item.new) }
    ensures widened { IfOk result (λ next. bound.new
        ≡ record bound.old { form = widened next bound.old.form }) }
    ensures marks { IfOk result (λ next. 2 * (next - 1) ≤ length marks.new) }
    ensures mass { bound.new.mass ≡ bound.old.mass }
    ensures width { width_of bound.old.form ≤ width_of bound.new.form }
    ensures places { length marks.old ≤ length marks.new }
{
    match item {
        Numbered::Count(count) => {
            let next = count.totalizer.add_stage(fresh, clauses)?;
            widen(bound, marks, next)?;
            Ok(next)
        }
        Numbered::Group(_) => Ok(fresh),
    }
}

/// Adds the latest output of a count, which is a variable, to a form, `multiplier` times.
pub(crate) fn add_output(bound: &mut CostBound, variable: u32, multiplier: u128)
    requires from_one { 0 < variable }
    requires small { variable < VARIABLE_LIMIT }
    requires width { variable < width_of bound.old.form }
    requires few { multiplier ≤ 2 ^ 94 }
    requires room { bound.old.mass + 2 * multiplier ≤ 2 ^ 120 }
    ensures form { bound.new.form ≡ plus (pos multiplier) (positive variable ∷ []) bound.old.form }
    ensures mass { bound.new.mass ≤ bound.old.mass + 2 * multiplier }
{
    bound.add_literals(&[Lit::new(variable, false)], multiplier as i128);
}

/// Room for the variables below a number.
///
/// # Errors
///
/// `AllocError` where memory was refused.
pub(crate) fn widen(bound: &mut CostBound, marks: &mut Marks, fresh: u32) -> Result<(), AllocError>
    requires { 0 < fresh }
    ensures widened { OnOk result (bound.new
        ≡ record bound.old { form = widened fresh bound.old.form }) }
    ensures marks { OnOk result (2 * (fresh - 1) ≤ length marks.new) }
    ensures mass { bound.new.mass ≡ bound.old.mass }
    ensures width { width_of bound.old.form ≤ width_of bound.new.form }
    ensures places { length marks.old ≤ length marks.new }
{
    bound.widen(fresh as usize)?;
    if marks.len() < 2 * (fresh as usize - 1) {
        marks.grow(fresh - 1)?;
    }
    Ok(())
}
