//! What a result text says, read line by line: `o` lines with falling costs, one `s` line, and
//! where that has a solution one `v` line.
ghost use Rattle.std.specs.Prelude.{◌≡◌, ℕ, List, ◌<◌, IfOk, IfErr, IfSome, false, [], ◌∷◌};
ghost use Rattle.std.specs.Option.{option_map};
ghost use Rattle.cnf.specs.declared.limits.TheConstants.{NUMBER_LIMIT};
ghost use Rattle.text.specs.Text.{tokens_of};
ghost use Rattle.lrat_result.specs.Result.{same_bytes, bits_on, cost_of, claim_of, bits_of};
ghost use Rattle.lrat_result.specs.Result.{is_ignored};
ghost use Rattle.lrat_result.specs.Words.{HasWords};
ghost use Rattle.lrat_result.specs.Report.{IsNextStage, IsReadReport, falls_below, reported};
ghost use Rattle.lrat_result.specs.Report.{report_with};

use crate::report::{Claim, ClaimedSolution, Cost, Heading, Reading, Report, ReportFault, Said};
use crate::words::{Words, words_of};
use cnf::limits::NUMBER_LIMIT;
use std::alloc::{AllocError, Global};
use text::cutting::{lines, number};

/// What the result text says, or its first line that cannot stand there.
pub fn read_report(alloc: Global, text: &[u8]) -> Result<Report, ReportFault>
    ensures { IsReadReport text.now result }
{
    let mut stage = Reading::Costs(None);
    for (number, line) in lines(text) {
        stage = stage_after(alloc, stage, number, line)?;
    }
    match stage {
        Reading::End(report) => Ok(report),
        _ => Err(ReportFault::Form(0)),
    }
}

// One line on. A line without tokens and a comment change nothing, wherever they stand.
fn stage_after(
    alloc: Global,
    stage: Reading,
    number: u64,
    line: &[u8],
) -> Result<Reading, ReportFault>
    ensures { IsNextStage stage number (tokens_of line.now) result }
{
    let words = words_of(line);
    if is_ignored(words) {
        return Ok(stage);
    }
    match stage {
        Reading::Costs(last) => after_costs(last, number, words),
        Reading::Bits(heading) => after_status(alloc, heading, number, words),
        Reading::End(_) => Err(ReportFault::Form(number)),
    }
}

// After the costs so far, on a line that is not ignored: a cost or the status.
fn after_costs(last: Option<Cost>, line: u64, words: Words<'_>) -> Result<Reading, ReportFault>
    ensures next { (ts : List (List ℕ)) → HasWords ts words.entry → is_ignored ts ≡ false
        → IsNextStage (Reading.Costs last) line ts result }
    ensures form { IfErr result (λ f. f ≡ ReportFault.Form line) }
{
    if let Some(cost) = cost_in(words) {
        return if falls(last, cost) {
            Ok(Reading::Costs(Some(Cost { cost, line })))
        } else {
            Err(ReportFault::Form(line))
        };
    }
    match (claim_in(words), last) {
        (Some(Claim::Unsat), None) => Ok(Reading::End(Report {
            said: Said::Unsat,
            status_line: line,
        })),
        (Some(Claim::Limit), None) => Ok(Reading::End(Report {
            said: Said::Limit,
            status_line: line,
        })),
        (Some(Claim::Optimum), Some(cost)) => Ok(Reading::Bits(Heading {
            is_optimum: true,
            cost,
            status_line: line,
        })),
        (Some(Claim::Sat), Some(cost)) => Ok(Reading::Bits(Heading {
            is_optimum: false,
            cost,
            status_line: line,
        })),
        _ => Err(ReportFault::Form(line)),
    }
}

// After the status, on a line that is not ignored: the bits.
fn after_status(
    alloc: Global,
    heading: Heading,
    line: u64,
    words: Words<'_>,
) -> Result<Reading, ReportFault>
    ensures { (ts : List (List ℕ)) → HasWords ts words.entry → is_ignored ts ≡ false
        → IsNextStage (Reading.Bits heading) line ts result }
{
    match bits_in(alloc, words) {
        Err(_) => Err(ReportFault::Memory),
        Ok(None) => Err(ReportFault::Form(line)),
        Ok(Some(bits)) => Ok(Reading::End(report_with(heading, bits, line))),
    }
}

fn report_with(heading: Heading, bits: Vec<bool>, bits_line: u64) -> Report
    ensures { reported result ≡ report_with heading bits.items bits_line }
{
    let solution = ClaimedSolution {
        cost: heading.cost,
        bits,
        bits_line,
    };
    Report {
        said: if heading.is_optimum {
            Said::Optimum(solution)
        } else {
            Said::Sat(solution)
        },
        status_line: heading.status_line,
    }
}

// Whether a cost is below the last one.
fn falls(last: Option<Cost>, cost: u64) -> bool
    ensures { result ≡ falls_below last cost }
{
    match last {
        None => true,
        Some(before) => cost < before.cost,
    }
}

// A line without tokens, or a comment.
fn is_ignored(words: Words<'_>) -> bool
    ensures { (ts : List (List ℕ)) → HasWords ts words.entry → result ≡ is_ignored ts }
{
    match words {
        Words::None => true,
        Words::One(first) | Words::Two(first, _) | Words::Three(first, _, _) | Words::More(first) =>
            begins_with_c(first),
    }
}

fn begins_with_c(token: &[u8]) -> bool
    ensures { result ≡ is_ignored (token.now ∷ []) }
{
    matches!(token, [b'c', ..])
}

// The cost that an `o` line tells.
fn cost_in(words: Words<'_>) -> Option<u64>
    ensures cost { (ts : List (List ℕ)) → HasWords ts words.entry → result ≡ cost_of ts }
    ensures small { IfSome result (λ cost. cost < NUMBER_LIMIT) }
{
    match words {
        Words::Two(first, digits) if is(first, b"o") => {
            number(digits).filter(|cost| *cost < NUMBER_LIMIT)
        }
        _ => None,
    }
}

// What an `s` line says.
fn claim_in(words: Words<'_>) -> Option<Claim>
    ensures { (ts : List (List ℕ)) → HasWords ts words.entry → result ≡ claim_of ts }
{
    match words {
        Words::Two(first, second) if is(first, b"s") => {
            if is(second, b"UNSATISFIABLE") {
                Some(Claim::Unsat)
            } else if is(second, b"SATISFIABLE") {
                Some(Claim::Sat)
            } else if is(second, b"UNKNOWN") {
                Some(Claim::Limit)
            } else {
                None
            }
        }
        Words::Three(first, second, third)
            if is(first, b"s") && is(second, b"OPTIMUM") && is(third, b"FOUND") => {
            Some(Claim::Optimum)
        }
        _ => None,
    }
}

// The bits that a `v` line gives.
fn bits_in(alloc: Global, words: Words<'_>) -> Result<Option<Vec<bool>>, AllocError>
    ensures { (ts : List (List ℕ)) → HasWords ts words.entry
        → IfOk result (λ bits. option_map (λ v. v.items) bits ≡ bits_of ts) }
{
    match words {
        Words::One(first) if is(first, b"v") => Ok(Some(Vec::new(alloc))),
        Words::Two(first, digits) if is(first, b"v") => bits_at(alloc, digits),
        _ => Ok(None),
    }
}

// The bits that digits 0 and 1 give.
fn bits_at(alloc: Global, digits: &[u8]) -> Result<Option<Vec<bool>>, AllocError>
    ensures { IfOk result (λ bits. option_map (λ v. v.items) bits ≡ bits_on digits.now) }
{
    let mut bits = Vec::new(alloc);
    for digit in digits {
        match digit {
            b'0' => bits.push(false)?,
            b'1' => bits.push(true)?,
            _ => return Ok(None),
        }
    }
    Ok(Some(bits))
}

fn is(token: &[u8], word: &[u8]) -> bool
    ensures { result ≡ same_bytes token.now word.now }
{
    token == word
}
