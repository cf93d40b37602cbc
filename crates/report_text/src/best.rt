//! The best solution so far as a text of its own: a whole result, which states only its own cost.
ghost use Rattle.std.specs.Prelude.{◌≡◌, ◌++◌, [], ◌∷◌};
ghost use Rattle.text.specs.Writing.{Writes, spaced};
ghost use Rattle.cdcl_order.specs.Watch.{with_seen};
ghost use Rattle.lrat_result.specs.Result.{Satisfiable, Unknown, cost_tokens};
ghost use Rattle.improve_found.specs.Solutions.{IsSolution};
ghost use Rattle.report_text.specs.Answering.{words_text};
ghost use Rattle.report_text.specs.Best.{IsTrueOf, IsTrueText, best_text, end_of, said_by};

use crate::answering::{spell_optimum, spell_satisfiable, write_end};
use crate::finding::Finding;
use crate::told::write_cost;
use cdcl_order::watch::Unwatched;
use cnf::types::Instance;
use improve_found::watch::Watch;
use std::io::Write;
use text::output::WriteFault;

/// Looks on while a run goes, and is shown how it ended.
pub trait RunWatch: Watch {
    /// The search is over with this, and nothing of its end is written yet.
    fn searched(&mut self, finding: &Finding<'_>)
        ensures same_seen { Self.seen self.new ≡ Self.seen self.old }
        ensures same_waived { Self.waived self.new ≡ Self.waived self.old };

    /// Is shown what was found, once the result and the certificate are written and flushed.
    fn ended(&mut self, instance: &Instance, finding: &Finding<'_>)
        requires { IsTrueOf instance.now (said_by finding.now) }
        ensures shown { Self.seen self.new
            ≡ with_seen (end_of instance.now (said_by finding.now) ∷ []) (Self.seen self.old) }
        ensures same_waived { Self.waived self.new ≡ Self.waived self.old };
}

impl RunWatch for Unwatched {
    fn searched(&mut self, _finding: &Finding<'_>) {}

    fn ended(&mut self, _instance: &Instance, _finding: &Finding<'_>) {}
}

/// Writes that nothing is known, and flushes.
///
/// # Errors
///
/// `WriteFault` where the writer failed. It then has a prefix of the text.
pub fn write_unknown<W: Write>(writer: &mut W) -> Result<(), WriteFault>
    ensures { Writes result (W.contents writer.old) (best_text Unknown) (W.contents writer.new) }
{
    write_words(b"s UNKNOWN", &[], writer)
}

/// Writes a solution that may not be the cheapest, and flushes.
///
/// # Errors
///
/// `WriteFault` where the writer failed. It then has a prefix of the text.
pub fn write_best<W: Write>(
    instance: &Instance,
    cost: u64,
    bits: &[bool],
    writer: &mut W,
) -> Result<(), WriteFault>
    requires { IsSolution instance.now bits.now cost }
    ensures writes { Writes result (W.contents writer.old) (best_text (Satisfiable cost bits.now))
        (W.contents writer.new) }
    ensures true_text { IsTrueText instance.now (best_text (Satisfiable cost bits.now)) }
{
    instance.limits();
    write_solution(cost, spell_satisfiable(bits), bits, writer)
}

/// Writes what was found, and flushes.
///
/// # Errors
///
/// `WriteFault` where the writer failed. It then has a prefix of the text.
pub fn write_found<W: Write>(
    instance: &Instance,
    finding: &Finding<'_>,
    writer: &mut W,
) -> Result<(), WriteFault>
    requires { IsTrueOf instance.now (said_by finding.now) }
    ensures writes { Writes result (W.contents writer.old) (best_text (said_by finding.now))
        (W.contents writer.new) }
    ensures true_text { IsTrueText instance.now (best_text (said_by finding.now)) }
{
    instance.limits();
    match finding {
        Finding::Optimum { cost, bits } => {
            write_solution(*cost, spell_optimum(bits), bits, writer)
        }
        Finding::Unsat => write_words(b"s UNSATISFIABLE", &[], writer),
        Finding::Best { cost, bits } => {
            write_solution(*cost, spell_satisfiable(bits), bits, writer)
        }
        Finding::Nothing => write_unknown(writer),
    }
}

/// Writes the line of the cost, the words, the digits of the bits and a line feed, and flushes.
fn write_solution<W: Write>(
    cost: u64,
    words: &[u8],
    bits: &[bool],
    writer: &mut W,
) -> Result<(), WriteFault>
    ensures { Writes result (W.contents writer.old)
        (spaced (cost_tokens cost) ++ words_text words.now bits.now) (W.contents writer.new) }
{
    write_cost(writer, cost)?;
    write_words(words, bits, writer)
}

/// Writes the words, the digits of the bits and a line feed, and flushes.
fn write_words<W: Write>(words: &[u8], bits: &[bool], writer: &mut W) -> Result<(), WriteFault>
    ensures { Writes result (W.contents writer.old) (words_text words.now bits.now)
        (W.contents writer.new) }
{
    write_end(words, bits, writer)?;
    writer.flush().map_err(|_| WriteFault)
}
