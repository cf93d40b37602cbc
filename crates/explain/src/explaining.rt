// What a person reads: the cost, what is given up for it, and what the bits break.
ghost use Rattle.std.specs.Prelude.{◌≡◌, ◌<◌, ◌^◌, Ok, IsTrue, ◌↔◌, IfOk, IfErr};
ghost use Rattle.std.specs.Prelude.{length, sum_by};
ghost use Rattle.text.specs.Writing.{Writes};
ghost use Rattle.wcnf.specs.Wcnf.{Reads};
ghost use Rattle.lrat_result.specs.Result.{OptimumFound, report_of};
ghost use Rattle.lrat_result.specs.Report.{reported};
ghost use Rattle.explain.specs.Explanation.{bits_line};
ghost use Rattle.explain.specs.Explained.{AreFindings, Explains, ExplainsTexts, IsAnswerFault};
ghost use Rattle.explain.specs.Explained.{IsSolutionOf, IsTextFault, Leaves, LeavesRead};
ghost use Rattle.explain.specs.Explained.{listing_text};

use crate::clause_lines::ClauseLines;
use crate::falsified::{GivenUp, broken, given_up};
use crate::names::put_names;
use crate::putting::{put_bits, put_broken, put_cost, put_count, put_given_up};
use cnf::types::Instance;
use explain_text::sheet::Sheet;
use lrat_result::report::{ClaimedSolution, Report, ReportFault, Said};
use lrat_result::result::read_report;
use std::alloc::{AllocError, Global};
use std::io::Write;
use text::output::{WriteFault, write_piece};
use wcnf::faults::{FaultKind, ReadFault};
use wcnf::reading::read;

/// Why nothing, or not all, was explained.
#[derive(Clone, Copy, Debug, PartialEq, Eq, Drop)]
pub enum ExplainFault {
    /// The instance cannot be read: its first fault, or `Memory`.
    Text(ReadFault),
    /// The result is none: its first line that cannot stand there, or 0 where it ends too soon.
    Result(u64),
    /// Memory was refused.
    Memory,
    /// The writer failed. It has a beginning of the explanation.
    Output,
}

/// Writes for a person what a result comes to: `text` is the instance in the WCNF of the MaxSAT
/// Evaluation 2022 or of the years before, `answer` the result's `o`, `s` and `v` lines. First the
/// cost, then each soft clause that the bits give up, heaviest first, with its line and the comment
/// above it; then each hard clause that they break; then the name of each true variable that a
/// comment names, as `c 7 = Ann Tue`. Answers whether the bits are a solution of just the cost that
/// was told last; also where the result has none.
///
/// # Errors
///
/// Each as its name says. Nothing is written before `Text`, `Result` and `Memory`.
pub fn write_explanation<W: Write>(
    alloc: Global,
    text: &[u8],
    answer: &[u8],
    writer: &mut W,
) -> Result<bool, ExplainFault>
    ensures ok { IfOk result (λ is_right. ExplainsTexts text.now answer.now is_right
        (W.contents writer.old) (W.contents writer.new)) }
    ensures fault { IfErr result (λ fault. Leaves fault text.now answer.now
        (W.contents writer.old) (W.contents writer.new)) }
{
    let instance = read_text(alloc, text)?;
    let report = read_answer(alloc, answer)?;
    explain_report(alloc, text, &instance, &report, writer)
}

/// The instance.
pub(crate) fn read_text(alloc: Global, text: &[u8]) -> Result<Instance, ExplainFault>
    ensures ok { IfOk result (λ i. Reads text.now i) }
    ensures fault { IfErr result (λ fault. IsTextFault text.now fault) }
{
    match read(alloc, text) {
        Ok(instance) => Ok(instance),
        Err(fault) if fault.kind == FaultKind::Memory => Err(ExplainFault::Memory),
        Err(fault) => Err(ExplainFault::Text(fault)),
    }
}

/// The result.
pub(crate) fn read_answer(alloc: Global, answer: &[u8]) -> Result<Report, ExplainFault>
    ensures ok { IfOk result (λ r. report_of answer.now ≡ Ok (reported r)) }
    ensures fault { IfErr result (λ fault. IsAnswerFault answer.now fault) }
{
    match read_report(alloc, answer) {
        Ok(report) => Ok(report),
        Err(ReportFault::Form(line)) => Err(ExplainFault::Result(line)),
        Err(ReportFault::Memory) => Err(ExplainFault::Memory),
    }
}

/// Writes what is to be said of a result that was read.
fn explain_report<W: Write>(
    alloc: Global,
    text: &[u8],
    instance: &Instance,
    report: &Report,
    writer: &mut W,
) -> Result<bool, ExplainFault>
    ensures ok { IfOk result (λ is_right. Explains text.now instance.now (reported report.now).said
        is_right (W.contents writer.old) (W.contents writer.new)) }
    ensures fault { IfErr result (λ fault. LeavesRead fault text.now instance.now
        (reported report.now).said (W.contents writer.old) (W.contents writer.new)) }
{
    match &report.said {
        Said::Optimum(solution) | Said::Sat(solution) => {
            explain_solution(alloc, text, instance, solution, writer)
        }
        Said::Unsat => match write_piece(writer, NO_SOLUTION) {
            Ok(()) => Ok(true),
            Err(_) => Err(ExplainFault::Output),
        },
        Said::Limit => match write_piece(writer, NOTHING_MET) {
            Ok(()) => Ok(true),
            Err(_) => Err(ExplainFault::Output),
        },
    }
}

pub(crate) const NO_SOLUTION: &[u8] =
    b"the result has no bits: it says that there is no solution\n";

const NOTHING_MET: &[u8] = b"the result has no bits: no solution was met\n";

/// What is to be said of bits.
#[derive(Drop)]
pub(crate) struct Findings<'a> {
    /// What they give up, heaviest first.
    pub(crate) given_up: Vec<GivenUp>,
    /// The lines of all soft clauses, and of the hard ones that they break.
    pub(crate) lines: ClauseLines<'a>,
}

/// Writes what is to be said of a solution, or of bits that are none.
fn explain_solution<W: Write>(
    alloc: Global,
    text: &[u8],
    instance: &Instance,
    solution: &ClaimedSolution,
    writer: &mut W,
) -> Result<bool, ExplainFault>
    ensures ok { IfOk result (λ is_right. Explains text.now instance.now
        (OptimumFound solution.now.cost.cost solution.now.bits.items) is_right
        (W.contents writer.old) (W.contents writer.new)) }
    ensures fault { IfErr result (λ fault. LeavesRead fault text.now instance.now
        (OptimumFound solution.now.cost.cost solution.now.bits.items)
        (W.contents writer.old) (W.contents writer.new)) }
{
    let bits = solution.bits.as_slice();
    if bits.len() == instance.vars() as usize {
        return explain_bits(alloc, text, instance, solution, writer);
    }
    match write_bits(bits.len(), instance.vars(), writer) {
        Ok(()) => Ok(false),
        Err(_) => Err(ExplainFault::Output),
    }
}

/// Writes what is to be said of a solution with a bit for each variable.
fn explain_bits<W: Write>(
    alloc: Global,
    text: &[u8],
    instance: &Instance,
    solution: &ClaimedSolution,
    writer: &mut W,
) -> Result<bool, ExplainFault>
    requires { length solution.now.bits.items ≡ instance.now.variables }
    ensures ok { IfOk result (λ is_right. Explains text.now instance.now
        (OptimumFound solution.now.cost.cost solution.now.bits.items) is_right
        (W.contents writer.old) (W.contents writer.new)) }
    ensures fault { IfErr result (λ fault. LeavesRead fault text.now instance.now
        (OptimumFound solution.now.cost.cost solution.now.bits.items)
        (W.contents writer.old) (W.contents writer.new)) }
{
    let bits = solution.bits.as_slice();
    let Ok(findings) = find(alloc, text, instance, bits) else {
        return Err(ExplainFault::Memory);
    };
    instance.limits();
    let costs = Costs {
        cost: instance.cost(bits),
        told: solution.cost.cost,
        soft: instance.soft().len(),
    };
    let is_right = is_solution(instance, bits, costs.told);
    match write_listing(text, bits, costs, &findings, writer) {
        Ok(()) => Ok(is_right),
        Err(_) => Err(ExplainFault::Output),
    }
}

/// Whether the bits, one for each variable, are a solution of this cost.
pub(crate) fn is_solution(instance: &Instance, bits: &[bool], cost: u64) -> bool
    requires { length bits.now ≡ instance.now.variables }
    ensures { IsTrue result ↔ IsSolutionOf instance.now bits.now cost }
{
    instance.cost(bits) == cost && instance.feasible(bits)
}

/// Looks for what is to be said of the bits.
fn find<'a>(
    alloc: Global,
    text: &'a [u8],
    instance: &Instance,
    bits: &[bool],
) -> Result<Findings<'a>, AllocError>
    ensures { IfOk result (λ f. AreFindings text.now instance.now bits.now f) }
{
    let given_up = given_up(instance, bits)?;
    let broken = broken(instance, bits)?;
    let lines = ClauseLines::of(alloc, text, &broken)?;
    Ok(Findings { given_up, lines })
}

/// What bits cost.
#[derive(Drop)]
struct Costs {
    /// What they do cost.
    cost: u64,
    /// What the result says that they cost.
    told: u64,
    /// How many soft clauses there are.
    soft: usize,
}

/// Writes what was found, and then the names of the true variables.
fn write_listing<W: Write>(
    text: &[u8],
    bits: &[bool],
    costs: Costs,
    findings: &Findings<'_>,
    writer: &mut W,
) -> Result<(), WriteFault>
    requires { sum_by (λ g. g.weight) findings.now.given_up.items < 2 ^ 64 }
    ensures { Writes result (W.contents writer.old)
        (listing_text text.now bits.now costs.cost costs.told costs.soft findings.now)
        (W.contents writer.new) }
{
    let given_up = findings.given_up.as_slice();
    let soft = findings.lines.soft.as_slice();
    let hard = findings.lines.hard.as_slice();
    let mut sheet = Sheet::new();
    put_cost(&mut sheet, writer, costs.cost, costs.told);
    put_count(&mut sheet, writer, given_up.len(), costs.soft);
    put_given_up(&mut sheet, writer, given_up, soft);
    put_broken(&mut sheet, writer, hard);
    put_names(&mut sheet, writer, text, bits);
    sheet.finish(writer)
}

/// Writes that there are too few or too many bits.
fn write_bits<W: Write>(bits: usize, vars: u32, writer: &mut W) -> Result<(), WriteFault>
    ensures { Writes result (W.contents writer.old) (bits_line bits vars) (W.contents writer.new) }
{
    let mut sheet = Sheet::new();
    put_bits(&mut sheet, writer, bits, vars);
    sheet.finish(writer)
}
