//! Why nothing is cheaper: the facts of the form that a certificate of forms and cuts ends with.
ghost use Rattle.std.specs.Prelude.{◌≡◌, ◌-◌, map, IfOk, OnOk, IsPermutation};
ghost use Rattle.std.specs.List.Sorted.{IsNonDecreasingBy};
ghost use Rattle.explain.specs.Falsified.{most_weight};
ghost use Rattle.explain_certificate.specs.Reasons.{AreHeaviest};

use crate::meanings::{Meaning, Meanings, Place};
use cnf::limits::NUMBER_LIMIT;
use cnf::types::{Instance, Lit};
use forms::state::Forms;
use lrat_cuts::last_form::LastForm;
use lrat_read::facts::WeightedFact;
use std::alloc::{AllocError, Global};

/// How many facts are listed at most.
pub(crate) const MOST_LISTED: usize = 10;

/// What a fact says.
#[derive(Clone, Copy, Debug, PartialEq, Eq, Drop)]
pub(crate) enum Saying {
    /// This clause of the text holds.
    Source(Place),
    /// At least this number of some literals are true.
    AtLeast(u64),
    /// At most one of some literals is true.
    AtMostOne,
    /// A clause holds that is not there any more.
    Gone,
}

/// A fact of a form, and what it says.
#[derive(Drop)]
pub(crate) struct Reason {
    /// How many times the form has which fact.
    pub(crate) fact: WeightedFact,
    /// What it says.
    pub(crate) saying: Saying,
    /// The literals of which it says that.
    pub(crate) literals: Vec<Meaning>,
}

/// The ten facts, or all where there are fewer, that the form has most times.
pub(crate) fn heaviest(
    alloc: Global,
    facts: &[WeightedFact],
) -> Result<Vec<WeightedFact>, AllocError>
    ensures { IfOk result (λ r. AreHeaviest facts.now r.items) }
{
    let mut sorted = Vec::from_slice(alloc, facts)?;
    sort(&mut sorted)?;
    sorted.truncate(MOST_LISTED);
    Ok(sorted)
}

/// Sorts by weight, the greatest first. Those of one weight stay in their order.
fn sort(facts: &mut Vec<WeightedFact>) -> Result<(), AllocError>
    ensures permutes { OnOk result (IsPermutation facts.old.items facts.new.items) }
    ensures heaviest { OnOk result
        (IsNonDecreasingBy (λ f. most_weight - f.weight) facts.new.items) }
{
    facts.sort_by_key(|each| MOST_WEIGHT.saturating_sub(each.weight()))?;
    Ok(())
}

/// No weight is greater.
const MOST_WEIGHT: u64 = NUMBER_LIMIT - 1;

/// Each of the facts, with what it says.
pub(crate) fn explain_facts(
    instance: &Instance,
    last: &LastForm,
    facts: &[WeightedFact],
) -> Result<Vec<Reason>, AllocError>
    ensures { IfOk result (λ r. map (λ e. e.fact) r.items ≡ facts.now) }
{
    let alloc = instance.allocator();
    let counts = counts_of(alloc, last.facts())?;
    let meanings = Meanings::of(instance, last.machine().forms(), &counts)?;
    let mut reasons = Vec::new(alloc);
    for fact in facts {
        let (saying, literals) = explain_fact(alloc, &meanings, last, *fact)?;
        reasons.push(Reason {
            fact: *fact,
            saying,
            literals,
        })?;
    }
    Ok(reasons)
}

/// The numbers of the counts and groups among the facts, each once.
fn counts_of(alloc: Global, facts: &[WeightedFact]) -> Result<Vec<u64>, AllocError> {
    let mut numbers = Vec::new(alloc);
    for fact in facts {
        if fact.is_numbered() {
            numbers.push(fact.number())?;
        }
    }
    numbers.sort()?;
    numbers.dedup();
    Ok(numbers)
}

/// What the fact says, and of which literals.
fn explain_fact(
    alloc: Global,
    meanings: &Meanings,
    last: &LastForm,
    fact: WeightedFact,
) -> Result<(Saying, Vec<Meaning>), AllocError> {
    let forms = last.machine().forms();
    let number = fact.number();
    if fact.is_numbered() {
        let saying = match forms.outputs(number) {
            Some(outputs) => Saying::AtLeast(count_true(forms, outputs)),
            None => Saying::AtMostOne,
        };
        let inputs = forms.inputs(number).unwrap_or(&[]);
        return Ok((saying, name_all(alloc, meanings, inputs)?));
    }
    if let Some(place) = meanings.place(number) {
        return Ok((Saying::Source(place), Vec::new(alloc)));
    }
    match last.machine().find(number) {
        Some(clause) => Ok((Saying::AtLeast(1), name_all(alloc, meanings, clause)?)),
        None => Ok((Saying::Gone, Vec::new(alloc))),
    }
}

/// What it means that each of these literals is true.
fn name_all(alloc: Global, meanings: &Meanings, lits: &[Lit]) -> Result<Vec<Meaning>, AllocError> {
    let mut named = Vec::new(alloc);
    for lit in lits {
        meanings.name(*lit, &mut named)?;
    }
    Ok(named)
}

/// How many of the literals unit clauses have made true.
fn count_true(forms: &Forms, lits: &[Lit]) -> u64 {
    let mut count: u64 = 0;
    for lit in lits {
        if forms.value(lit.variable()) == Some(!lit.is_negated()) {
            count = count.saturating_add(1);
        }
    }
    count
}
