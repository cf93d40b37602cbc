//! Hard clauses that contradict each other, as few as an effort allows: first those that a
//! certificate uses, and then each of them is left out in turn (Belov, Lynce and Marques-Silva
//! 2012). Whatever is left contradicts itself by a certificate of its own, which was checked.
ghost use Rattle.std.specs.Prelude.{◌≡◌, IfOk, IfSome, IsTrue, length};
ghost use Rattle.cnf.specs.Problem.{IsInconsistent};
ghost use Rattle.contradiction.specs.Contradictions.{AreContradictory, IsTrueFinding};

use crate::trials::{Effort, Trial};
use crate::used::used_by;
use bound::formulas::hard_formula;
use cnf::clause_list::ClauseList;
use cnf::types::Instance;
use std::alloc::AllocError;

/// What was found out of hard clauses.
#[derive(Drop)]
pub enum Finding {
    /// The hard clauses at these places, from 0 and rising, contradict each other: no assignment
    /// satisfies them all.
    Contradiction(Vec<u32>),
    /// Some assignment satisfies all hard clauses.
    Solution,
    /// The effort was not enough to say either.
    Open,
}

/// Looks for hard clauses that contradict each other. The effort is the same on every machine: at
/// most 300,000 clauses are learned until all hard clauses are refuted, and 100,000 afterwards, in
/// searches through at most 50,000,000 literals. So what is found may be smaller still.
///
/// # Errors
///
/// `AllocError` where memory was refused.
pub fn find_contradiction(instance: &Instance) -> Result<Finding, AllocError>
    ensures { IfOk result (λ found. IsTrueFinding instance.now found) }
{
    let places = places_of(instance)?;
    let mut effort = Effort::of_all();
    match effort.try_clauses(instance, &places)? {
        Trial::Contradiction(proof) => {
            let mut effort = Effort::of_shrinking();
            let used = keep_used(instance, places, &proof, 0, &mut effort)?;
            Ok(Finding::Contradiction(shrink(instance, used, &mut effort)?))
        }
        Trial::Solution(bits) => judge(instance, bits),
        Trial::Open => Ok(Finding::Open),
    }
}

/// The places of the hard clauses, but for those with complementary literals, which are always
/// true.
fn places_of(instance: &Instance) -> Result<Vec<u32>, AllocError> {
    let formula = hard_formula(instance)?;
    let places = find_places(instance.hard(), formula.clauses());
    // By a call: that is proved once, and not field by field here.
    drop(formula);
    places
}

/// The places of those clauses that are among the kept ones, which stand in the same order.
fn find_places(clauses: &ClauseList, kept: &ClauseList) -> Result<Vec<u32>, AllocError> {
    let mut places = Vec::new(clauses.allocator());
    let mut kept = kept.iter();
    let mut next = kept.next();
    let mut place: u32 = 0;
    for clause in clauses.iter() {
        if next == Some(clause) {
            places.push(place)?;
            next = kept.next();
        }
        place = place.saturating_add(1);
    }
    Ok(places)
}

/// Whether these bits, and false for each variable that has none, satisfy all hard clauses.
fn judge(instance: &Instance, bits: Vec<bool>) -> Result<Finding, AllocError>
    ensures { IfOk result (λ found. IsTrueFinding instance.now found) }
{
    let mut bits = bits;
    let count = instance.vars() as usize;
    let missing = count.saturating_sub(bits.len());
    for _ in 0..missing {
        bits.push(false)?;
    }
    if bits.len() == count && is_feasible(instance, &bits) {
        Ok(Finding::Solution)
    } else {
        Ok(Finding::Open)
    }
}

/// Whether the bits, one for each variable, satisfy all hard clauses.
fn is_feasible(instance: &Instance, bits: &[bool]) -> bool
    requires { length bits.now ≡ instance.now.variables }
    ensures { IsTrue result → IsInconsistent instance.now → ⊥ }
{
    instance.feasible(bits)
}

/// Leaves out each clause in turn without which the others still contradict each other.
fn shrink(
    instance: &Instance,
    places: Vec<u32>,
    effort: &mut Effort,
) -> Result<Vec<u32>, AllocError>
    requires { AreContradictory instance.now places.items }
    ensures { IfOk result (λ left. AreContradictory instance.now left.items) }
{
    let mut places = places;
    let mut needed: usize = 0;
    for _ in 0..places.len() {
        if needed >= places.len() {
            break;
        }
        match leave_out(instance, &places, needed, effort)? {
            Some(fewer) => places = fewer,
            None => needed = needed.saturating_add(1),
        }
    }
    Ok(places)
}

/// What is left without the clause at this place of the list, if that is still a contradiction.
/// Those before it stay.
fn leave_out(
    instance: &Instance,
    places: &[u32],
    out: usize,
    effort: &mut Effort,
) -> Result<Option<Vec<u32>>, AllocError>
    ensures { IfOk result (λ found. IfSome found
        (λ left. AreContradictory instance.now left.items)) }
{
    let mut fewer = Vec::new(instance.allocator());
    for (at, place) in places.iter().enumerate() {
        if at != out {
            fewer.push(*place)?;
        }
    }
    match effort.try_clauses(instance, &fewer)? {
        Trial::Contradiction(proof) => {
            Ok(Some(keep_used(instance, fewer, &proof, out, effort)?))
        }
        Trial::Solution(_) | Trial::Open => Ok(None),
    }
}

/// Those of the clauses that their certificate uses, if these contradict each other too, and the
/// first ones; else all.
fn keep_used(
    instance: &Instance,
    places: Vec<u32>,
    proof: &[u8],
    first: usize,
    effort: &mut Effort,
) -> Result<Vec<u32>, AllocError>
    requires { AreContradictory instance.now places.items }
    ensures { IfOk result (λ left. AreContradictory instance.now left.items) }
{
    let used = used_by(instance.allocator(), proof, places.len())?;
    let mut fewer = Vec::new(instance.allocator());
    for (at, place) in places.iter().enumerate() {
        if at < first || used.get(at).copied().unwrap_or(true) {
            fewer.push(*place)?;
        }
    }
    if fewer.len() == places.len() {
        return Ok(places);
    }
    match effort.try_clauses(instance, &fewer)? {
        Trial::Contradiction(_) => Ok(fewer),
        Trial::Solution(_) | Trial::Open => Ok(places),
    }
}
