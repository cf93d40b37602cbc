// Whether a result is right for an instance, and what it is worth.
ghost use Rattle.std.specs.Prelude.{IfOk, IfErr, option_map};
ghost use Rattle.lrat_result.specs.Report.{reported};
ghost use Rattle.explain.specs.Explained.{IsAnswerFault};
ghost use Rattle.explain.specs.Judging.{IsJudged, IsJudgedSolution, IsReadFault, JudgesAnswer};
ghost use Rattle.explain.specs.Judging.{JudgesTexts, TellsBits};

use crate::explaining::{ExplainFault, is_solution, read_answer, read_text};
use cnf::types::Instance;
use lrat_result::report::{ClaimedSolution, Report, Said};
use std::alloc::Global;

/// What a result comes to.
#[derive(Clone, Copy, Debug, PartialEq, Eq, Drop)]
pub enum Judgement {
    /// Its bits are a solution of the cost that it told last, which is below 2^62.
    Right(u64),
    /// Its bits are no solution, or one of another cost.
    Wrong,
    /// It says that there is no solution: no bits show that.
    Unsatisfiable,
    /// It says that no solution was met.
    Unknown,
}

/// Judges a result: `text` is the instance in the WCNF of the MaxSAT Evaluation 2022 or of the
/// years before, `answer` the result's `o`, `s` and `v` lines.
///
/// # Errors
///
/// `Text`, `Result` and `Memory`, as `write_explanation`.
pub fn judge(alloc: Global, text: &[u8], answer: &[u8]) -> Result<Judgement, ExplainFault>
    ensures ok { IfOk result (λ judgement. JudgesTexts text.now answer.now judgement) }
    ensures fault { IfErr result (λ fault. IsReadFault text.now answer.now fault) }
{
    let instance = read_text(alloc, text)?;
    let report = read_answer(alloc, answer)?;
    Ok(judge_report(&instance, &report))
}

/// As `judge`, of an instance that was read.
///
/// # Errors
///
/// `Result` and `Memory`, as `write_explanation`.
pub fn judge_answer(
    alloc: Global,
    instance: &Instance,
    answer: &[u8],
) -> Result<Judgement, ExplainFault>
    ensures ok { IfOk result (λ judgement. JudgesAnswer instance.now answer.now judgement) }
    ensures fault { IfErr result (λ fault. IsAnswerFault answer.now fault) }
{
    let said = read_answer(alloc, answer)?;
    Ok(judge_report(instance, &said))
}

/// The bits that a result tells; none where it tells none.
///
/// # Errors
///
/// `Result` and `Memory`, as `write_explanation`.
pub fn read_bits(alloc: Global, answer: &[u8]) -> Result<Option<Vec<bool>>, ExplainFault>
    ensures ok { IfOk result (λ found. TellsBits answer.now (option_map (λ b. b.items) found)) }
    ensures fault { IfErr result (λ fault. IsAnswerFault answer.now fault) }
{
    let report = read_answer(alloc, answer)?;
    match report.said {
        Said::Optimum(solution) | Said::Sat(solution) => Ok(Some(solution.bits)),
        Said::Unsat | Said::Limit => Ok(None),
    }
}

/// Judges a result that was read.
fn judge_report(instance: &Instance, report: &Report) -> Judgement
    ensures { IsJudged instance.now (reported report.now).said result }
{
    match &report.said {
        Said::Optimum(solution) | Said::Sat(solution) => judge_solution(instance, solution),
        Said::Unsat => Judgement::Unsatisfiable,
        Said::Limit => Judgement::Unknown,
    }
}

/// Judges bits, which may be too few or too many.
fn judge_solution(instance: &Instance, solution: &ClaimedSolution) -> Judgement
    ensures { IsJudgedSolution instance.now solution.now.bits.items solution.now.cost.cost result }
{
    let bits = solution.bits.as_slice();
    let cost = solution.cost.cost;
    if bits.len() == instance.vars() as usize && is_solution(instance, bits, cost) {
        Judgement::Right(cost)
    } else {
        Judgement::Wrong
    }
}
