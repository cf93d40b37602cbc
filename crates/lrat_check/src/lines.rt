// The verdict on lines of a certificate, where one is faulty.
ghost use Rattle.std.specs.Prelude.{◌≡◌, ℕ, ◌+◌, ◌<◌, ◌≤◌, ◌^◌, ◌++◌, List, length, IfOk, OnOk};
ghost use Rattle.std.specs.Prelude.{OnErr};
ghost use Rattle.std.specs.Str.Lines.{strip_carriage_return};
ghost use Rattle.text.specs.Text.{tokens_of};
ghost use Rattle.lrat_read.specs.Batch.{AreRead};
ghost use Rattle.lrat_read.specs.Reader.{IsReadAs};
ghost use Rattle.lrat_check.specs.Pieces.{Judges, JudgesLines};

use crate::verdicts::Verdict;
use lrat_machine::machine::Machine;
use lrat_read::batch::Batch;
use lrat_read::line::ReadLine;
use std::alloc::AllocError;
use text::buffer::LineBuffer;

/// Judges the line. Answers the verdict where the certificate fails at it.
pub(crate) fn judge_line(machine: &mut Machine, line: &[u8]) -> Result<Option<Verdict>, AllocError>
    requires { machine.old.lines + 1 < 2 ^ 64 }
    ensures judges { IfOk result (Judges machine.old line.now machine.new) }
    ensures lines { OnOk result (machine.new.lines ≡ machine.old.lines + 1) }
    ensures err { OnErr result (machine.new ≡ machine.old) }
{
    match machine.step(line)? {
        Some(cause) => Ok(Some(Verdict::No(cause, machine.lines()))),
        None => Ok(None),
    }
}

/// As `judge_line`, with the line that these bytes and a line feed end. What is kept then is not
/// told: `clear` has to follow.
pub(crate) fn judge_ended(
    machine: &mut Machine,
    rest: &mut LineBuffer,
    end: &[u8],
) -> Result<Option<Verdict>, AllocError>
    requires { machine.old.lines + 1 < 2 ^ 64 }
    ensures judges { IfOk result
        (Judges machine.old (strip_carriage_return (rest.old ++ end.now)) machine.new) }
    ensures lines { OnOk result (machine.new.lines ≡ machine.old.lines + 1) }
    ensures err { OnErr result (machine.new ≡ machine.old) }
{
    let line = rest.line_ended_by(end)?;
    judge_line(machine, line)
}

/// As `judge_line`, with a line that was read already.
#[inline(always)]
fn judge_read(machine: &mut Machine, read: &ReadLine) -> Result<Option<Verdict>, AllocError>
    requires { machine.old.lines + 1 < 2 ^ 64 }
    ensures judges { IfOk result (λ f. (line : List ℕ)
        → IsReadAs (tokens_of line) read.now.form read.now.line
        → Judges machine.old line machine.new f) }
    ensures lines { OnOk result (machine.new.lines ≡ machine.old.lines + 1) }
    ensures err { OnErr result (machine.new ≡ machine.old) }
{
    let Some(cause) = machine.step_read(read)? else {
        return Ok(None);
    };
    Ok(Some(Verdict::No(cause, machine.lines())))
}

/// Judges the lines in turn, up to the first fault.
pub(crate) fn judge_batch(
    machine: &mut Machine,
    batch: &Batch,
) -> Result<Option<Verdict>, AllocError>
    requires { machine.old.lines + length batch.now < 2 ^ 64 }
    ensures judges { IfOk result (λ f. (bytes : List ℕ) → AreRead bytes batch.now
        → JudgesLines machine.old bytes machine.new f) }
    ensures lines { machine.new.lines ≤ machine.old.lines + length batch.now }
{
    for place in 0..batch.len() {
        machine.read_ahead(batch, place);
        if let Some(refused) = judge_read(machine, &batch.get(place))? {
            return Ok(Some(refused));
        }
    }
    Ok(None)
}
