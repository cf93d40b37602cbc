//! What the program prints, and its exit statuses.
ghost use Rattle.std.specs.Prelude.{◌≡◌, ◌++◌, OnOk, IfErr, IsOk, codes};
ghost use Rattle.std.specs.Fmt.{decimal};
ghost use Rattle.std.specs.Io.KnownBytes.{Keeps};
ghost use Rattle.text.specs.Writing.{Writes};
ghost use Rattle.report_text.specs.Codes.{code_of_verdict, code_of_fault, code_of_lower};
ghost use Rattle.report_text.specs.Printing.{gap_text, lower_text, no_text, verdict_text};

use crate::fault::RunFault;
use lrat_check::lower::LowerVerdict;
use lrat_check::verdicts::{Cause, Verdict};
use std::io::Write;
use text::output::{Block, WriteFault, write_piece};
use wcnf::faults::{FaultKind, ReadFault};

/// Writes the verdict's line: `YES`, or `NO`, the cause's name and the line of the text, result or
/// certificate that it stands on.
///
/// # Errors
///
/// `WriteFault` where the writer failed. It then has a prefix of the line.
pub fn print_verdict<W: Write>(verdict: &Verdict, writer: &mut W) -> Result<(), WriteFault>
    ensures { Writes result (W.contents writer.old) (verdict_text verdict.now)
        (W.contents writer.new) }
{
    match verdict {
        Verdict::Yes => write_piece(writer, b"YES\n"),
        Verdict::No(cause, line) => print_numbered(spell_no(*cause), *line, writer),
    }
}

/// Writes the line on what a certificate proves by itself: `at least` and the bound, `no solution`,
/// or as `print_verdict` does.
///
/// # Errors
///
/// `WriteFault` where the writer failed. It then has a prefix of the line.
pub fn print_lower<W: Write>(verdict: &LowerVerdict, writer: &mut W) -> Result<(), WriteFault>
    ensures { Writes result (W.contents writer.old) (lower_text verdict.now)
        (W.contents writer.new) }
{
    match verdict {
        LowerVerdict::AtLeast(lower) => print_numbered(b"at least ", *lower, writer),
        LowerVerdict::NoSolution => write_piece(writer, b"no solution\n"),
        LowerVerdict::No(fault, line) => print_numbered(spell_no(*fault), *line, writer),
    }
}

/// Prints by how much a solution of this cost is above what is needed at least.
///
/// # Errors
///
/// `WriteFault` where the writer failed. It then has a prefix of the line.
pub fn print_gap<W: Write>(cost: u64, lower: u64, writer: &mut W) -> Result<(), WriteFault>
    ensures { Writes result (W.contents writer.old) (gap_text cost lower) (W.contents writer.new) }
{
    print_numbered(b"gap ", cost.saturating_sub(lower), writer)
}

/// Writes the words, the number and a line feed.
fn print_numbered<W: Write>(words: &[u8], number: u64, writer: &mut W) -> Result<(), WriteFault>
    ensures { Writes result (W.contents writer.old) (words.now ++ (decimal number ++ codes "\n"))
        (W.contents writer.new) }
{
    let mut block = Block::new();
    block.put(writer, words)?;
    block.put_number(writer, number)?;
    block.put(writer, b"\n")?;
    block.flush(writer)
}

/// What stands before the line's number.
fn spell_no(cause: Cause) -> &'static [u8]
    ensures { result.now ≡ no_text cause }
{
    match cause {
        Cause::Text => b"NO Text ",
        Cause::ResultForm => b"NO ResultForm ",
        Cause::BitsLength => b"NO BitsLength ",
        Cause::NotFeasible => b"NO NotFeasible ",
        Cause::CostWrong => b"NO CostWrong ",
        Cause::StatusWithoutProof => b"NO StatusWithoutProof ",
        Cause::LineForm => b"NO LineForm ",
        Cause::IdOrder => b"NO IdOrder ",
        Cause::DeadId => b"NO DeadId ",
        Cause::HintNotUnit => b"NO HintNotUnit ",
        Cause::HintAfterConflict => b"NO HintAfterConflict ",
        Cause::NoConflict => b"NO NoConflict ",
        Cause::Candidates => b"NO Candidates ",
        Cause::NoEmptyClause => b"NO NoEmptyClause ",
        Cause::TrailingLine => b"NO TrailingLine ",
        Cause::ClauseForm => b"NO ClauseForm ",
        Cause::LineName => b"NO LineName ",
        Cause::LineLimit => b"NO LineLimit ",
        Cause::CutWorth => b"NO CutWorth ",
    }
}

/// Writes the fault's line, which its `Display` gives: `error: line 2: WeightSum` for a faulty
/// text, and else `error: ` with the name of the fault. That it does so is tested, not proved.
///
/// # Errors
///
/// `WriteFault` where the writer failed.
pub fn print_fault<W: Write>(fault: &RunFault, writer: &mut W) -> Result<(), WriteFault> {
    writeln!(writer, "error: {fault}").map_err(|_| WriteFault)
}

/// Flushes what was written. No failed write or flush is tried again.
///
/// # Errors
///
/// `Output` where the writing or the flush failed.
pub fn deliver<W: Write>(written: Result<(), WriteFault>, writer: &mut W) -> Result<(), RunFault>
    ensures written { OnOk result (IsOk written) }
    ensures fault { IfErr result (λ fault. fault ≡ RunFault.Output) }
    ensures kept { Keeps (W.contents writer.old) (W.contents writer.new) }
{
    written.map_err(|_| RunFault::Output)?;
    writer.flush().map_err(|_| RunFault::Output)
}

/// The exit status of a verdict: 0 for `Yes`, 1 for `No`.
pub fn verdict_code(verdict: &Verdict) -> u8
    ensures { result ≡ code_of_verdict verdict.now }
{
    match verdict {
        Verdict::Yes => 0,
        Verdict::No(_, _) => 1,
    }
}

/// The exit status of what a certificate proves by itself: 1 where that is nothing.
pub fn lower_code(verdict: &LowerVerdict) -> u8
    ensures { result ≡ code_of_lower verdict.now }
{
    match verdict {
        LowerVerdict::AtLeast(_) | LowerVerdict::NoSolution => 0,
        LowerVerdict::No(..) => 1,
    }
}

/// The exit status of a fault: 2 for a faulty text, 3 for all else.
pub fn fault_code(fault: &RunFault) -> u8
    ensures { result ≡ code_of_fault fault.now }
{
    match fault {
        RunFault::Read(ReadFault { kind, .. }) => match kind {
            FaultKind::Read | FaultKind::Memory => 3,
            _ => 2,
        },
        RunFault::Memory | RunFault::Output | RunFault::ProofOutput => 3,
    }
}
