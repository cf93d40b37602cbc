// A log that goes on behind lines that a checker has judged.
ghost use Rattle.std.specs.Prelude.{ℕ, IfOk, IfNone, IfSome};
ghost use Rattle.cuts_log.specs.Logs.{MayResume};
ghost use Rattle.cuts_log.specs.Starts.{IsReached, IsResumable, IsStart};

use crate::book::Book;
use crate::earlier::{are_live, count_lines};
use crate::given::FormulaClauses;
use bound::weighted::weighted_formula;
use cnf::clause_list::ClauseList;
use cnf::types::Instance;
use lrat_cuts::machine::CutsMachine;
use lrat_log::log::LINE_LIMIT;
use std::alloc::AllocError;
use std::io::Write;

/// The book and the formula of a log that goes on with what the checker has judged, if one can.
pub(super) fn go_on<W: Write + Drop>(
    instance: &Instance,
    machine: &CutsMachine,
    writer: W,
) -> Result<Option<(Book<W>, FormulaClauses)>, AllocError>
    requires reached { IsReached instance.now machine.now.state }
    ensures begun { IfOk result (λ found. IfSome found (λ begun. MayResume instance.now
        machine.now.state (W.contents writer) begun.0 begun.1)) }
    ensures refused { IfOk result (λ found. IfNone found
        (IsStart instance.now machine.now.state → ⊥)) }
{
    if machine.has_ended() || machine.worth() == 0 {
        return Ok(None);
    }
    let formula = weighted_formula(instance)?;
    let clauses = formula.into_clauses();
    let Some(lines) = resumable(machine, &clauses)? else {
        return Ok(None);
    };
    let book = Book::resume(instance, machine, clauses.len(), lines, writer)?;
    let formula = FormulaClauses::all_live(clauses)?;
    Ok(Some((book, formula)))
}

/// How many lines stand for what the checker has judged, if a log can go on with it.
fn resumable(machine: &CutsMachine, clauses: &ClauseList) -> Result<Option<usize>, AllocError>
    ensures can { IfOk result (λ found. IfSome found
        (IsResumable machine.now.state clauses.now)) }
    ensures refused { IfOk result (λ found. IfNone found
        ((lines : ℕ) → IsResumable machine.now.state clauses.now lines → ⊥)) }
{
    let base = clauses.len();
    let last = machine.last();
    if last >= LINE_LIMIT as u64 {
        return Err(AllocError);
    }
    if base as u64 > last || !are_live(machine, clauses) {
        return Ok(None);
    }
    Ok(count_lines(machine, base as u64))
}
