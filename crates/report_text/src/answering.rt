// What was found, on its way to the writers: the certificate first, whole and flushed, then the
// lines of the status and the bits.
ghost use Rattle.std.specs.Prelude.{◌≡◌, ◌+◌, ◌<◌, ◌++◌, ◌∷◌, [], length, codes, OnOk, IfErr};
ghost use Rattle.cnf.specs.declared.limits.TheConstants.{CLAUSE_LIMIT, NUMBER_LIMIT};
ghost use Rattle.text.specs.LratText.{IsTextOf};
ghost use Rattle.text.specs.Writing.{Puts, Writes};
ghost use Rattle.lrat_log.specs.Log.{HasSmallIds, numbered_lines, text_of};
ghost use Rattle.lrat_result.specs.Result.{digit_of};
ghost use Rattle.report_text.specs.Answering.{Answers, LeavesAnswer, HasProofRoom, bits_word};
ghost use Rattle.report_text.specs.Answering.{digits_text, words_text};

use crate::fault::RunFault;
use crate::printing::deliver;
use improve_found::found::Found;
use lrat_log::log::{Log, write_to};
use lrat_log::sink::Sink;
use std::io::Write;
use text::output::{Block, WriteFault};

/// Writes what was found, and flushes each writer once.
///
/// # Errors
///
/// `ProofOutput` where the certificate's writer failed: nothing of the end of the result was
/// written then. `Output` where the result's writer failed.
pub fn write_answer<O: Write, P: Write>(
    found: &Found,
    out: &mut O,
    proof: &mut P,
) -> Result<(), RunFault>
    requires { HasProofRoom found.now }
    ensures ok { OnOk result (Answers found.now (O.contents out.old)
        (O.contents out.new) (P.contents proof.old) (P.contents proof.new)) }
    ensures fault { IfErr result (λ fault. LeavesAnswer fault found.now (O.contents out.old)
        (O.contents out.new) (P.contents proof.old) (P.contents proof.new)) }
{
    match found {
        Found::Optimum {
            bits,
            log,
            clauses,
            ..
        } => {
            deliver_proof(log, *clauses, proof)?;
            deliver_end(spell_optimum(bits), bits, out)
        }
        Found::Unsat { log, clauses } => {
            deliver_proof(log, *clauses, proof)?;
            deliver_end(b"s UNSATISFIABLE", &[], out)
        }
        Found::Best { bits, .. } => deliver_end(spell_satisfiable(bits), bits, out),
        Found::Nothing { .. } => deliver_end(b"s UNKNOWN", &[], out),
    }
}

/// Writes the log as a certificate whose formula has `clauses` clauses, and flushes.
fn deliver_proof<P: Write>(log: &Log, clauses: u64, proof: &mut P) -> Result<(), RunFault>
    requires few { clauses < CLAUSE_LIMIT }
    requires ids { clauses + length log.now < NUMBER_LIMIT → HasSmallIds clauses log.now }
    ensures writes { Writes result (P.contents proof.old) (text_of clauses log.now)
        (P.contents proof.new) }
    ensures fault { IfErr result (λ fault. fault ≡ RunFault.ProofOutput) }
    ensures lines { IsTextOf (text_of clauses log.now) (numbered_lines clauses log.now) }
{
    log.is_short();
    write_to(log, clauses, proof).map_err(|_| RunFault::ProofOutput)?;
    proof.flush().map_err(|_| RunFault::ProofOutput)
}

/// Writes the words, the digits of the bits and a line feed, and flushes.
pub fn deliver_end<O: Write>(words: &[u8], bits: &[bool], out: &mut O) -> Result<(), RunFault>
    ensures writes { Writes result (O.contents out.old) (words_text words.now bits.now)
        (O.contents out.new) }
    ensures fault { IfErr result (λ fault. fault ≡ RunFault.Output) }
{
    let written = write_end(words, bits, out);
    deliver(written, out)
}

/// Writes the words, the digits of the bits and a line feed.
///
/// # Errors
///
/// `WriteFault` where the writer failed. It then has a prefix of them.
pub fn write_end<O: Write>(words: &[u8], bits: &[bool], out: &mut O) -> Result<(), WriteFault>
    ensures { Writes result (O.contents out.old) (words_text words.now bits.now)
        (O.contents out.new) }
{
    let mut block = Block::new();
    block.put(out, words)?;
    put_bits(&mut block, out, bits)?;
    block.put(out, b"\n")?;
    block.flush(out)
}

/// Puts a digit for each bit.
fn put_bits<O: Write>(block: &mut Block, out: &mut O, bits: &[bool]) -> Result<(), WriteFault>
    ensures { Puts result (O.contents out.old) block.old (digits_text bits.now) (O.contents out.new)
        block.new }
{
    for bit in bits {
        block.put(out, spell_digit(*bit))?;
    }
    Ok(())
}

/// `1` for true, `0` for false.
fn spell_digit(bit: bool) -> &'static [u8]
    ensures { result.now ≡ digit_of bit ∷ [] }
{
    if bit { b"1" } else { b"0" }
}

/// What stands before the digits; with no digit, no space does.
pub fn spell_optimum(bits: &[bool]) -> &'static [u8]
    ensures { result.now ≡ codes "s OPTIMUM FOUND\n" ++ bits_word bits.now }
{
    match bits {
        [] => b"s OPTIMUM FOUND\nv",
        _ => b"s OPTIMUM FOUND\nv ",
    }
}

/// As `spell_optimum`, for a solution that may not be the cheapest.
pub fn spell_satisfiable(bits: &[bool]) -> &'static [u8]
    ensures { result.now ≡ codes "s SATISFIABLE\n" ++ bits_word bits.now }
{
    match bits {
        [] => b"s SATISFIABLE\nv",
        _ => b"s SATISFIABLE\nv ",
    }
}
