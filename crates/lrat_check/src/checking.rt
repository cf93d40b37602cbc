//! A result with its certificate, against the instance's text. Everything that is checked is built
//! from that text: of the certificate, only the refutation is read. The result is a text too, which
//! is called the answer here, since in a contract `result` is what a function returns.
ghost use Rattle.std.specs.Prelude.{◌≡◌, ℕ, List, IfOk, IfSome, OnOk, ◌↔◌, None};
ghost use Rattle.lrat_result.specs.Result.{Report as Reported};
ghost use Rattle.lrat_result.specs.Report.{reported};
ghost use Rattle.lrat_check.specs.Checks.{ChecksAs, IsTrueResult, IsTrueOf, HasCost};
ghost use Rattle.lrat_check.specs.Verdict.{verdict_as, said_verdict, bits_fault};
ghost use Rattle.lrat_check.specs.Left.{AreRead, verdict_left, Shows};
ghost use Rattle.lrat_check.specs.Stopping.{StopsInTime};

use crate::streams::check_stream;
use crate::verdicts::{Cause, CheckFault, Verdict};
use adder::profiles::Profile;
use bound::formulas::{formula_as, hard_formula};
use cnf::types::{Formula, Instance};
use lrat_result::report::{ClaimedSolution, Report, ReportFault, Said};
use lrat_result::result::read_report;
use std::alloc::{AllocError, Global};
use std::io::Read;
use wcnf::faults::FaultKind;
use wcnf::reading::read;

/// What a text and an answer read as.
#[derive(Drop)]
pub enum Texts {
    /// Nothing, since one is faulty: this is the verdict, whatever the certificate is.
    Refused(Verdict),
    /// This instance, and this result.
    Read(Instance, Report),
}

// What is left to check once the texts but the proof were read.
#[derive(Drop)]
enum Left {
    // Nothing: the verdict stands.
    Nothing(Verdict),
    // A proof over this formula.
    Proof(Formula),
}

/// Checks what a solver answered on an instance, with its proof: `text` is the instance in the WCNF
/// of the MaxSAT Evaluation 2022, `answer` what the solver printed, in the result lines of that
/// evaluation, and `proof` an LRAT certificate (Cruz-Filipe et al. 2017).
///
/// `Yes` says that the answer is true. Of `s OPTIMUM FOUND`: the bits satisfy the hard clauses at
/// just the cost that was told, and no solution costs less. Of `s UNSATISFIABLE`: the hard clauses
/// have no solution. The certificate has to refute the formula for a cost below the told one, or
/// the hard clauses alone; either formula is built here, from the text.
///
/// `No` gives the first of these faults, with its line from 1:
/// - `Text`: a line of the text that cannot be read.
/// - `ResultForm`: a line of the answer that cannot stand there; line 0 where the answer ends too
/// soon.
/// - `BitsLength`, `NotFeasible`: there is not one bit for each variable, or the bits falsify a
/// hard clause; the `v` line.
/// - `CostWrong`: the bits have another cost than the last `o` line tells; that line.
/// - `StatusWithoutProof`: `SATISFIABLE` or `UNKNOWN`, which no certificate shows; the `s` line.
/// - Any other cause: the first fault of the certificate, as `check_lines` tells it.
///
/// An AllocError comes only where memory was refused, or where the formula, or what the certificate
/// adds, has more than 2^32 - 2 literals or clauses.
pub fn check(alloc: Global, text: &[u8], answer: &[u8], proof: &[u8]) -> Result<Verdict, AllocError>
    ensures verdict { IfOk result (λ v. v ≡ verdict_as Profile.One text.now answer.now proof.now) }
    ensures yes { IfOk result
        (λ v. (v ≡ Verdict.Yes) ↔ ChecksAs Profile.One text.now answer.now proof.now) }
    ensures sound { IfOk result (λ v. v ≡ Verdict.Yes → IsTrueResult text.now answer.now) }
{
    check_as(alloc, text, answer, proof, Profile::One)
}

/// As `check`, where the formula for a cost below the told one is that of `profile`.
pub fn check_as(
    alloc: Global,
    text: &[u8],
    answer: &[u8],
    proof: &[u8],
    profile: Profile,
) -> Result<Verdict, AllocError>
    ensures verdict { IfOk result (λ v. v ≡ verdict_as profile text.now answer.now proof.now) }
    ensures yes { IfOk result
        (λ v. (v ≡ Verdict.Yes) ↔ ChecksAs profile text.now answer.now proof.now) }
    ensures sound { IfOk result (λ v. v ≡ Verdict.Yes → IsTrueResult text.now answer.now) }
{
    let mut left = proof;
    match check_from_as(alloc, text, answer, &mut left, profile) {
        Ok(verdict) => Ok(verdict),
        Err(_) => Err(AllocError),
    }
}

/// As `check`, with the proof from a reader, which is read up to the first faulty line, in memory
/// that follows the live clauses. A proof of 2^64 bytes or more counts as a failed read.
///
/// # Errors
///
/// `Memory` where memory was refused, or where more than 2^32 - 2 literals or clauses are held;
/// `Read` where the reader failed.
pub fn check_from<R: Read>(
    alloc: Global,
    text: &[u8],
    answer: &[u8],
    proof: &mut R,
) -> Result<Verdict, CheckFault>
    ensures verdict { IfOk result (λ v.
        IfSome (R.remaining proof.old)
        (λ bytes. v ≡ verdict_as Profile.One text.now answer.now bytes)) }
    ensures yes { IfOk result (λ v.
        IfSome (R.remaining proof.old)
        (λ bytes. (v ≡ Verdict.Yes) ↔ ChecksAs Profile.One text.now answer.now bytes)) }
    ensures stops { OnOk result (StopsInTime (verdict_as Profile.One text.now answer.now)
        (R.remaining proof.old) (R.remaining proof.new)) }
    ensures sound { IfOk result (λ v. v ≡ Verdict.Yes → IsTrueResult text.now answer.now) }
{
    check_from_as(alloc, text, answer, proof, Profile::One)
}

/// As `check_from`, where the formula for a cost below the told one is that of `profile`.
pub fn check_from_as<R: Read>(
    alloc: Global,
    text: &[u8],
    answer: &[u8],
    proof: &mut R,
    profile: Profile,
) -> Result<Verdict, CheckFault>
    ensures verdict { IfOk result (λ v.
        IfSome (R.remaining proof.old)
        (λ bytes. v ≡ verdict_as profile text.now answer.now bytes)) }
    ensures yes { IfOk result (λ v.
        IfSome (R.remaining proof.old)
        (λ bytes. (v ≡ Verdict.Yes) ↔ ChecksAs profile text.now answer.now bytes)) }
    ensures stops { OnOk result (StopsInTime (verdict_as profile text.now answer.now)
        (R.remaining proof.old) (R.remaining proof.new)) }
    ensures sound { IfOk result (λ v. v ≡ Verdict.Yes → IsTrueResult text.now answer.now) }
{
    let left = read_left(alloc, text, answer, profile)?;
    match left {
        Left::Nothing(verdict) => Ok(verdict),
        Left::Proof(formula) => check_stream(formula, proof),
    }
}

/// As `check_from_as`, of texts that were read. They stay as they are, so that one certificate
/// after another can be checked with them.
///
/// # Errors
///
/// Those of `check_from`.
pub fn check_texts_as<R: Read>(
    texts: &Texts,
    proof: &mut R,
    profile: Profile,
) -> Result<Verdict, CheckFault>
    ensures verdict { (text answer : List ℕ) → AreRead text answer texts.now
        → IfOk result (λ v. IfSome (R.remaining proof.old)
        (λ bytes. v ≡ verdict_as profile text answer bytes)) }
    ensures yes { (text answer : List ℕ) → AreRead text answer texts.now
        → IfOk result (λ v. IfSome (R.remaining proof.old)
        (λ bytes. (v ≡ Verdict.Yes) ↔ ChecksAs profile text answer bytes)) }
    ensures stops { (text answer : List ℕ) → AreRead text answer texts.now
        → OnOk result (StopsInTime (verdict_as profile text answer)
        (R.remaining proof.old) (R.remaining proof.new)) }
    ensures sound { (text answer : List ℕ) → AreRead text answer texts.now
        → IfOk result (λ v. v ≡ Verdict.Yes → IsTrueResult text answer) }
{
    match texts {
        Texts::Refused(verdict) => Ok(*verdict),
        Texts::Read(instance, report) => check_read_as(instance, report, proof, profile),
    }
}

/// As `check_texts_as`, of an instance and a result.
///
/// # Errors
///
/// Those of `check_from`.
pub fn check_read_as<R: Read>(
    instance: &Instance,
    report: &Report,
    proof: &mut R,
    profile: Profile,
) -> Result<Verdict, CheckFault>
    ensures verdict { IfOk result (λ v. IfSome (R.remaining proof.old)
        (λ bytes. v ≡ said_verdict profile instance.now (reported report.now) bytes)) }
    ensures stops { OnOk result (StopsInTime
        (said_verdict profile instance.now (reported report.now))
        (R.remaining proof.old) (R.remaining proof.new)) }
    ensures sound { IfOk result
        (λ v. v ≡ Verdict.Yes → IsTrueOf instance.now (reported report.now).said) }
{
    let left = read_claim(instance, report, profile)?;
    match left {
        Left::Nothing(verdict) => Ok(verdict),
        Left::Proof(formula) => check_stream(formula, proof),
    }
}

// What is left to check of the texts, before a byte of the proof is read.
fn read_left(
    alloc: Global,
    text: &[u8],
    answer: &[u8],
    profile: Profile,
) -> Result<Left, AllocError>
    ensures verdict { IfOk result (λ left. (proof : List ℕ)
        → verdict_left left proof ≡ verdict_as profile text.now answer.now proof) }
    ensures sound { IfOk result (λ left. Shows left (IsTrueResult text.now answer.now)) }
{
    let texts = read_texts(alloc, text, answer)?;
    match texts {
        Texts::Refused(verdict) => Ok(Left::Nothing(verdict)),
        Texts::Read(instance, report) => {
            let left = read_claim(&instance, &report, profile);
            // By calls: that is proved once, and not field by field here.
            drop(instance);
            drop(report);
            left
        }
    }
}

/// The instance and the result that these texts read as, or the verdict on the first fault of
/// theirs.
///
/// # Errors
///
/// `AllocError` where memory was refused.
pub fn read_texts(alloc: Global, text: &[u8], answer: &[u8]) -> Result<Texts, AllocError>
    ensures { IfOk result (λ texts. AreRead text.now answer.now texts) }
{
    let instance = match read(alloc, text) {
        Ok(instance) => instance,
        Err(fault) if fault.kind == FaultKind::Memory => return Err(AllocError),
        Err(fault) => return Ok(Texts::Refused(Verdict::No(Cause::Text, fault.line))),
    };
    // Dropped by calls: that is proved once, and not field by field here.
    match read_report(alloc, answer) {
        Ok(report) => Ok(Texts::Read(instance, report)),
        Err(ReportFault::Form(line)) => {
            drop(instance);
            Ok(Texts::Refused(Verdict::No(Cause::ResultForm, line)))
        }
        Err(ReportFault::Memory) => {
            drop(instance);
            Err(AllocError)
        }
    }
}

// What is left of what was said of an instance. The bits come first, since they cost the least to
// check.
fn read_claim(instance: &Instance, report: &Report, profile: Profile) -> Result<Left, AllocError>
    ensures verdict { IfOk result (λ left. (proof : List ℕ)
        → verdict_left left proof ≡ said_verdict profile instance.now (reported report.now) proof) }
    ensures sound { IfOk result
        (λ left. Shows left (IsTrueOf instance.now (reported report.now).said)) }
{
    match &report.said {
        Said::Optimum(solution) => match solution_fault(instance, solution) {
            Some(refused) => Ok(Left::Nothing(refused)),
            None => {
                let formula = formula_as(instance, solution.cost.cost, profile)?;
                Ok(Left::Proof(formula))
            }
        },
        Said::Sat(solution) => match solution_fault(instance, solution) {
            Some(refused) => Ok(Left::Nothing(refused)),
            None => Ok(Left::Nothing(refuse_status(report))),
        },
        Said::Unsat => {
            let formula = hard_formula(instance)?;
            Ok(Left::Proof(formula))
        }
        Said::Limit => Ok(Left::Nothing(refuse_status(report))),
    }
}

// A certificate shows nothing of the status.
pub(crate) fn refuse_status(report: &Report) -> Verdict
    ensures { result ≡ Verdict.No Cause.StatusWithoutProof report.now.status_line }
{
    Verdict::No(Cause::StatusWithoutProof, report.status_line)
}

// The first fault of a solution: the number of its bits, a hard clause that they break, a cost that
// they do not have.
pub(crate) fn solution_fault(instance: &Instance, solution: &ClaimedSolution) -> Option<Verdict>
    ensures fault { (r : Reported) → r.bits_line ≡ solution.now.bits_line
        → r.cost_line ≡ solution.now.cost.line
        → result ≡ bits_fault instance.now r solution.now.cost.cost solution.now.bits.items }
    ensures no { IfSome result (λ v. v ≡ Verdict.Yes → ⊥) }
    ensures right { result ≡ None
        → HasCost instance.now solution.now.bits.items solution.now.cost.cost }
{
    let bits = solution.bits.as_slice();
    if bits.len() != instance.vars() as usize {
        return Some(Verdict::No(Cause::BitsLength, solution.bits_line));
    }
    if !instance.feasible(bits) {
        return Some(Verdict::No(Cause::NotFeasible, solution.bits_line));
    }
    if instance.cost(bits) != solution.cost.cost {
        return Some(Verdict::No(Cause::CostWrong, solution.cost.line));
    }
    None
}
