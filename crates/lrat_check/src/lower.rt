//! What a certificate of forms and cuts proves by itself, without a result: a lower bound of the
//! cost, or that there is no solution.
ghost use Rattle.std.specs.Prelude.{◌≡◌, [], None, IfOk, IfSome};
ghost use Rattle.cnf.specs.Problem.{Problem};
ghost use Rattle.lrat_cuts.specs.Pieces.{HasJudged};
ghost use Rattle.lrat_check.specs.Lower.{IsLowerByCuts, IsTrueLower, lower_by_cuts, shown_by_cuts};

use crate::verdicts::{Cause, CheckFault};
use cnf::limits::NUMBER_LIMIT;
use cnf::types::Instance;
use lrat_cuts::pieces::CutsChecker;
use lrat_cuts::streams::judge;
use lrat_cuts::verdicts::LowerVerdict as CutsLower;
use std::alloc::{AllocError, Global};
use std::io::Read;
use wcnf::faults::FaultKind;
use wcnf::reading::read;

/// What a certificate proves by itself.
#[derive(Clone, Copy, Debug, PartialEq, Eq, Drop)]
pub enum LowerVerdict {
    /// No solution costs less than this, which is below 2^62.
    AtLeast(u64),
    /// There is no solution.
    NoSolution,
    /// Nothing: the first fault, and its line from 1.
    No(Cause, u64),
}

/// What a certificate of forms and cuts proves of the instance by itself, up to its last line feed
/// and without a result. `text` is the instance as `checking::check` takes it.
///
/// `AtLeast` has the greatest lower bound that its lines prove, which is 0 where they prove none.
/// `NoSolution` comes where that is 2^62, which no solution costs. `No` gives the first fault, as
/// `cuts::check_cuts_from` does, but the certificate may end anywhere.
///
/// An AllocError comes only where memory was refused, or where the formula, or what the certificate
/// adds, has more than 2^32 - 2 literals or clauses.
pub fn check_lower(alloc: Global, text: &[u8], proof: &[u8]) -> Result<LowerVerdict, AllocError>
    ensures verdict { IfOk result (λ v. v ≡ lower_by_cuts text.now proof.now) }
    ensures sound { IfOk result (λ v. IsTrueLower text.now v) }
{
    let mut left = proof;
    match lower_cuts_from(alloc, text, &mut left) {
        Ok(verdict) => Ok(verdict),
        Err(_) => Err(AllocError),
    }
}

/// As `check_lower`, with the certificate from a reader, which is read up to the first faulty line.
/// A certificate of 2^64 bytes or more counts as a failed read.
///
/// # Errors
///
/// `Memory` where memory was refused, or where the formula, or what the certificate adds, has more
/// than 2^32 - 2 literals or clauses; `Read` where the reader failed.
pub fn lower_cuts_from<R: Read>(
    alloc: Global,
    text: &[u8],
    proof: &mut R,
) -> Result<LowerVerdict, CheckFault>
    ensures verdict { IfOk result (λ v.
        IfSome (R.remaining proof.old) (λ bytes. v ≡ lower_by_cuts text.now bytes)) }
    ensures sound { IfOk result (λ v. IsTrueLower text.now v) }
{
    match read(alloc, text) {
        Ok(instance) => {
            instance.limits();
            let lower = judge_own(&instance, proof);
            // By a call: that is proved once, and not field by field here.
            drop(instance);
            lower
        }
        Err(fault) if fault.kind == FaultKind::Memory => Err(CheckFault::Memory),
        Err(fault) => Ok(LowerVerdict::No(Cause::Text, fault.line)),
    }
}

// The verdict on the bytes of the reader.
fn judge_own<R: Read>(instance: &Instance, proof: &mut R) -> Result<LowerVerdict, CheckFault>
    ensures { IfOk result
        (λ v. IsLowerByCuts (R.remaining proof.old) (R.remaining proof.new) instance.now v) }
{
    let mut checker = CutsChecker::new(instance, None)?;
    let verdict = judge_bound(&mut checker, proof);
    // By a call: that is proved once, and not field by field here.
    drop(checker);
    verdict
}

// The verdict, where nothing was read before. It borrows the checker, so that none of its exits has
// to drop it.
fn judge_bound<R: Read>(
    checker: &mut CutsChecker,
    proof: &mut R,
) -> Result<LowerVerdict, CheckFault>
    ensures { IfOk result (λ v. (p : Problem) → HasJudged checker.old None p []
        → IsLowerByCuts (R.remaining proof.old) (R.remaining proof.new) p v) }
{
    judge(checker, proof)?;
    Ok(shown(checker.finish_ended()?))
}

// What the lines show that prove this.
fn shown(lower: CutsLower) -> LowerVerdict
    ensures { result ≡ shown_by_cuts lower }
{
    match lower {
        CutsLower::AtLeast(lower) if lower >= NUMBER_LIMIT => LowerVerdict::NoSolution,
        CutsLower::AtLeast(lower) => LowerVerdict::AtLeast(lower),
        CutsLower::No(cause, line) => LowerVerdict::No(cause, line),
    }
}
