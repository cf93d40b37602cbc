//! What a result comes to that says that there is no solution: which hard clauses contradict each
//! other, as far as that was found out.
ghost use Rattle.std.specs.Prelude.{◌++◌, length, OnOk, IfErr};
ghost use Rattle.text.specs.Writing.{Writes};
ghost use Rattle.explain.specs.Contradicting.{LeavesContradiction, Lists, contradiction_text};
ghost use Rattle.explain.specs.Contradicting.{no_solution, open_text, refuted_text, sources_text};
ghost use Rattle.explain_text.specs.Sheets.{Displays};

use crate::clause_lines::{ClauseLine, ClauseLines};
use crate::explaining::{ExplainFault, NO_SOLUTION};
use crate::putting::put_source;
use explain_text::sheet::Sheet;
use std::alloc::Global;
use std::io::Write;
use text::output::WriteFault;

/// Writes that there is no solution, and then the lines of these hard clauses, which contradict
/// each other, with their comments. They are named by their places among `all` hard clauses of the
/// text, from 0 and rising.
///
/// # Errors
///
/// `Memory`, before anything is written; `Output` where the writer failed: it has a beginning of
/// that.
pub fn write_contradiction<W: Write>(
    alloc: Global,
    text: &[u8],
    places: &[u32],
    all: usize,
    writer: &mut W,
) -> Result<(), ExplainFault>
    ensures ok { OnOk result (Lists (length places.now) all
        (W.contents writer.old) (W.contents writer.new)) }
    ensures fault { IfErr result (λ fault. LeavesContradiction fault (length places.now) all
        (W.contents writer.old) (W.contents writer.new)) }
{
    let Ok(lines) = ClauseLines::of(alloc, text, places) else {
        return Err(ExplainFault::Memory);
    };
    match write_lines(places.len(), all, lines.hard.as_slice(), writer) {
        Ok(()) => Ok(()),
        Err(_) => Err(ExplainFault::Output),
    }
}

/// Writes that there is no solution, and that the effort was not enough to say why.
///
/// # Errors
///
/// `WriteFault` where the writer failed. It then has a prefix of that.
pub fn write_open<W: Write>(writer: &mut W) -> Result<(), WriteFault>
    ensures { Writes result (W.contents writer.old) open_text (W.contents writer.new) }
{
    write_with(OPEN, writer)
}

/// Writes that the result says that there is no solution, and that this is wrong.
///
/// # Errors
///
/// `WriteFault` where the writer failed. It then has a prefix of that.
pub fn write_refuted<W: Write>(writer: &mut W) -> Result<(), WriteFault>
    ensures { Writes result (W.contents writer.old) refuted_text (W.contents writer.new) }
{
    write_with(REFUTED, writer)
}

const OPEN: &[u8] = b"the effort was not enough to find hard clauses that contradict each other\n";

const REFUTED: &[u8] = b"that is wrong: the hard clauses have a solution\n";

/// Writes that the result says that there is no solution, and then this.
fn write_with<W: Write>(more: &[u8], writer: &mut W) -> Result<(), WriteFault>
    ensures { Writes result (W.contents writer.old) (no_solution ++ more.now)
        (W.contents writer.new) }
{
    let mut sheet = Sheet::new();
    sheet.put(writer, NO_SOLUTION);
    sheet.put(writer, more);
    sheet.finish(writer)
}

/// Writes the lines of `count` of `all` hard clauses.
fn write_lines<W: Write>(
    count: usize,
    all: usize,
    hard: &[ClauseLine<'_>],
    writer: &mut W,
) -> Result<(), WriteFault>
    ensures { Writes result (W.contents writer.old) (contradiction_text count all hard.now)
        (W.contents writer.new) }
{
    let mut sheet = Sheet::new();
    sheet.put(writer, NO_SOLUTION);
    sheet.put_number(writer, count as u64);
    sheet.put(writer, b" of ");
    sheet.put_number(writer, all as u64);
    sheet.put(writer, b" hard clauses contradict each other:\n");
    put_sources(&mut sheet, writer, hard);
    sheet.finish(writer)
}

/// Each line, with its comment.
fn put_sources<W: Write>(sheet: &mut Sheet, writer: &mut W, hard: &[ClauseLine<'_>])
    ensures { Displays (W.contents writer.old) sheet.old (sources_text hard.now)
        (W.contents writer.new) sheet.new }
{
    for clause_line in hard {
        put_source(sheet, writer, clause_line);
    }
}
