//! A result with a certificate of forms and cuts, against the instance's text.
ghost use Rattle.std.specs.Prelude.{◌≡◌, ℕ, ◌≤◌, List, [], Option, Some, IfOk, IfSome};
ghost use Rattle.cnf.specs.Problem.{Problem};
ghost use Rattle.cnf.specs.declared.limits.TheConstants.{NUMBER_LIMIT};
ghost use Rattle.lrat_result.specs.Report.{reported};
ghost use Rattle.lrat_cuts.specs.Pieces.{HasJudged};
ghost use Rattle.lrat_cuts.specs.Verdict.{cuts_verdict};
ghost use Rattle.lrat_check.specs.Checks.{CostsAtLeast, IsTrueOf, IsTrueResult};
ghost use Rattle.lrat_check.specs.Cuts.{IsJudgedByCuts, ShowsByCuts, cuts_verdict_left};
ghost use Rattle.lrat_check.specs.Cuts.{said_cuts_verdict, verdict_by_cuts};
ghost use Rattle.lrat_check.specs.Left.{AreRead};

use crate::checking::{Texts, read_texts, refuse_status, solution_fault};
use crate::verdicts::{CheckFault, Verdict};
use cnf::limits::NUMBER_LIMIT;
use cnf::types::Instance;
use lrat_cuts::pieces::CutsChecker;
use lrat_cuts::streams::judge;
use lrat_result::report::{Cost, Report, Said};
use std::alloc::Global;
use std::io::Read;

// What is left to check of what was said of an instance.
#[derive(Clone, Copy, Drop)]
enum CutsLeft {
    // Nothing: the verdict stands.
    Nothing(Verdict),
    // A proof that nothing costs less.
    Bound(Cost),
    // A proof that there is no solution.
    NoSolution,
}

/// Checks what a solver answered on an instance, as `checking::check_from` does, where the proof is
/// a certificate of forms and cuts. Its cuts have to hold for the told cost, or for 2^62 where
/// there is no solution. The reader is read up to the first faulty line. A proof of 2^64 bytes or
/// more counts as a failed read.
///
/// # Errors
///
/// `Memory` where memory was refused, or where the formula has more than 2^32 - 2 literals; `Read`
/// where the reader failed.
pub fn check_cuts_from<R: Read>(
    alloc: Global,
    text: &[u8],
    answer: &[u8],
    proof: &mut R,
) -> Result<Verdict, CheckFault>
    ensures verdict { IfOk result (λ v.
        IfSome (R.remaining proof.old)
        (λ bytes. v ≡ verdict_by_cuts text.now answer.now bytes)) }
    ensures sound { IfOk result (λ v. v ≡ Verdict.Yes → IsTrueResult text.now answer.now) }
{
    let texts = read_texts(alloc, text, answer)?;
    let verdict = check_cuts_texts(&texts, proof);
    // By a call: that is proved once, and not field by field here.
    drop(texts);
    verdict
}

/// As `check_cuts_from`, of texts that were read. They stay as they are, so that one certificate
/// after another can be checked with them.
///
/// # Errors
///
/// Those of `check_cuts_from`.
pub fn check_cuts_texts<R: Read>(texts: &Texts, proof: &mut R) -> Result<Verdict, CheckFault>
    ensures verdict { (text answer : List ℕ) → AreRead text answer texts.now
        → IfOk result (λ v. IfSome (R.remaining proof.old)
        (λ bytes. v ≡ verdict_by_cuts text answer bytes)) }
    ensures sound { (text answer : List ℕ) → AreRead text answer texts.now
        → IfOk result (λ v. v ≡ Verdict.Yes → IsTrueResult text answer) }
{
    match texts {
        Texts::Refused(verdict) => Ok(*verdict),
        Texts::Read(instance, report) => check_cuts_read(instance, report, proof),
    }
}

// As `check_cuts_texts`, of an instance and a result.
fn check_cuts_read<R: Read>(
    instance: &Instance,
    report: &Report,
    proof: &mut R,
) -> Result<Verdict, CheckFault>
    ensures verdict { IfOk result (λ v. IfSome (R.remaining proof.old)
        (λ bytes. v ≡ said_cuts_verdict instance.now (reported report.now) bytes)) }
    ensures sound { IfOk result
        (λ v. v ≡ Verdict.Yes → IsTrueOf instance.now (reported report.now).said) }
{
    match read_claim(instance, report) {
        CutsLeft::Nothing(verdict) => Ok(verdict),
        CutsLeft::Bound(cost) => check_stream(instance, cost.cost, proof),
        CutsLeft::NoSolution => check_stream(instance, NUMBER_LIMIT, proof),
    }
}

// What is left of what was said of an instance. The bits come first, since they cost the least to
// check.
fn read_claim(instance: &Instance, report: &Report) -> CutsLeft
    ensures verdict { (proof : List ℕ) → cuts_verdict_left instance.now result proof
        ≡ said_cuts_verdict instance.now (reported report.now) proof }
    ensures sound { ShowsByCuts instance.now result
        (IsTrueOf instance.now (reported report.now).said) }
{
    instance.limits();
    match &report.said {
        Said::Optimum(solution) => match solution_fault(instance, solution) {
            Some(refused) => CutsLeft::Nothing(refused),
            None => CutsLeft::Bound(solution.cost),
        },
        Said::Sat(solution) => match solution_fault(instance, solution) {
            Some(refused) => CutsLeft::Nothing(refused),
            None => CutsLeft::Nothing(refuse_status(report)),
        },
        Said::Unsat => CutsLeft::NoSolution,
        Said::Limit => CutsLeft::Nothing(refuse_status(report)),
    }
}

// The verdict on the certificate of a reader, whose cuts have to hold for the cost.
fn check_stream<R: Read>(
    instance: &Instance,
    cost: u64,
    proof: &mut R,
) -> Result<Verdict, CheckFault>
    requires { cost ≤ NUMBER_LIMIT }
    ensures verdict { IfOk result (λ v. IfSome (R.remaining proof.old)
        (λ bytes. v ≡ cuts_verdict (Some cost) instance.now bytes)) }
    ensures sound { IfOk result (λ v. v ≡ Verdict.Yes → CostsAtLeast instance.now cost) }
{
    instance.limits();
    judge_stream(CutsChecker::new(instance, Some(cost))?, proof)
}

// The verdict on the bytes of the reader, where nothing was read before.
fn judge_stream<R: Read>(checker: CutsChecker, proof: &mut R) -> Result<Verdict, CheckFault>
    ensures { IfOk result (λ v. (cost : Option ℕ) (p : Problem) → HasJudged checker cost p []
        → IsJudgedByCuts (R.remaining proof.old) (R.remaining proof.new) cost p v) }
{
    let mut checker = checker;
    match judge(&mut checker, proof) {
        Ok(()) => Ok(checker.finish()?),
        Err(fault) => {
            // By a call: that is proved once, and not field by field here.
            drop(checker);
            Err(CheckFault::from(fault))
        }
    }
}
