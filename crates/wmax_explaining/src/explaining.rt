//! `wmax explain`: what there is of an instance, or what a result comes to, and how much less a
//! solution could cost.
ghost use Rattle.text.specs.Writing.{Writes};
ghost use Rattle.wmax_explaining.specs.Explaining.{bound_text};

use contradiction::finding::{Finding, find_contradiction};
use explain::contradicting::{write_contradiction, write_open, write_refuted};
use explain::explaining::{ExplainFault, write_explanation};
use explain::judging::{Judgement, judge};
use explain::summary::write_summary;
use explain_certificate::holdings::{Holdings, find_holdings, write_holdings};
use explain_certificate::reasoning::{Reasons, find_reasons, write_reasons};
use explain_text::mending::write_mending;
use lrat_check::lower::LowerVerdict;
use lrat_check::verdicts::{Cause, Verdict};
use lrat_cuts::last_form::LastForm;
use report_text::fault::RunFault;
use report_text::printing::{deliver, fault_code, lower_code, print_fault, print_gap, print_lower};
use std::alloc::{AllocError, Global};
use std::io::Write;
use std::rt::Files;
use text::output::WriteFault;
use wcnf::faults::{FaultKind, ReadFault};
use wcnf::reading::read;
use wmax_commands::arguments::ExplainRequest;
use wmax_commands::checking::show;
use wmax_commands::faults::{Fault, end_output, is_regular, open, read_whole};
use wmax_commands::lower_bounds::judge_lower;
use wmax_onlooker::standard_error::Messages;
use wmax_onlooker::standard_output::standard_output;

/// FILE, and RESULT and PROOF if they are named, are opened, then read in their order. Of a faulty
/// FILE the line is shown, and what would mend it.
pub fn explain<'a, R: Files + AllocGlobal + Print, E: Write>(
    rt: &R,
    messages: &mut Messages<'_, E>,
    request: &ExplainRequest<'a>,
) -> Result<u8, Fault<'a>> {
    match (request.result, request.proof) {
        (None, _) => explain_one(rt, messages, request.text),
        (Some(result), None) => explain_two(rt, messages, request.text, result),
        (Some(result), Some(proof)) => explain_three(rt, messages, request.text, result, proof),
    }
}

/// Prints how much there is of this instance.
fn explain_one<'a, R: Files + AllocGlobal + Print, E: Write>(
    rt: &R,
    messages: &mut Messages<'_, E>,
    path: &'a str,
) -> Result<u8, Fault<'a>> {
    let mut text = open(rt, path)?;
    let text = read_whole(rt, &mut text, path)?;
    explain_instance(rt, messages, &text)
}

/// Prints what this result comes to.
fn explain_two<'a, R: Files + AllocGlobal + Print, E: Write>(
    rt: &R,
    messages: &mut Messages<'_, E>,
    text_path: &'a str,
    answer_path: &'a str,
) -> Result<u8, Fault<'a>> {
    let mut text = open(rt, text_path)?;
    let mut answer = open(rt, answer_path)?;
    let text = read_whole(rt, &mut text, text_path)?;
    let answer = read_whole(rt, &mut answer, answer_path)?;
    explain_result(rt, messages, &text, &answer)
}

/// Prints what this result comes to, and how far it is from what this certificate proves by itself.
fn explain_three<'a, R: Files + AllocGlobal + Print, E: Write>(
    rt: &R,
    messages: &mut Messages<'_, E>,
    text_path: &'a str,
    answer_path: &'a str,
    proof_path: &'a str,
) -> Result<u8, Fault<'a>> {
    let mut text = open(rt, text_path)?;
    let mut answer = open(rt, answer_path)?;
    let mut proof = Certificate {
        file: open(rt, proof_path)?,
        path: proof_path,
    };
    let text = read_whole(rt, &mut text, text_path)?;
    let answer = read_whole(rt, &mut answer, answer_path)?;
    explain_beside(rt, messages, &text, &answer, &mut proof)
}

/// A certificate that is open, and where it is.
#[derive(Drop)]
struct Certificate<'a, F> {
    /// The file.
    file: F,
    /// Its path.
    path: &'a str,
}

/// Prints what a result comes to, and if it is right what the certificate proves by itself. That is
/// judged first: where memory is refused for it, nothing is printed.
fn explain_beside<'a, R: Files + AllocGlobal + Print, E: Write>(
    rt: &R,
    messages: &mut Messages<'_, E>,
    text: &[u8],
    answer: &[u8],
    proof: &mut Certificate<'a, R::File>,
) -> Result<u8, Fault<'a>> {
    match judge(rt.alloc(), text, answer) {
        Ok(Judgement::Wrong) => explain_result(rt, messages, text, answer),
        Ok(judgement) => {
            let proved = judge_bound(rt, text, proof);
            if let Err(Fault::Run(RunFault::Memory)) = proved {
                return Err(Fault::Run(RunFault::Memory));
            }
            match explain_result(rt, messages, text, answer)? {
                0 => show_bound(rt, &proved?, judgement),
                status => Ok(status),
            }
        }
        Err(fault) => explain_fault(rt, messages, text, fault),
    }
}

/// What a certificate proves by itself, and why.
#[derive(Drop)]
struct Bound<'t> {
    /// The verdict on it.
    verdict: LowerVerdict,
    /// What it has inside, if it is right and can be read again.
    inside: Option<Inside<'t>>,
}

/// What a certificate has inside.
#[derive(Drop)]
struct Inside<'t> {
    /// The facts of the form that it ends with.
    why: Reasons<'t>,
    /// How much it holds.
    holdings: Holdings,
}

/// Judges the certificate. If it proves something and is in a regular file, it is read once more
/// for what it has inside, in memory.
fn judge_bound<'a, 't, R: Files + AllocGlobal>(
    rt: &R,
    text: &'t [u8],
    proof: &mut Certificate<'a, R::File>,
) -> Result<Bound<'t>, Fault<'a>> {
    let verdict = judge_lower(rt, text, &mut proof.file, proof.path)?;
    let inside = match verdict {
        LowerVerdict::No(..) => None,
        _ if is_regular(rt, proof.path) => read_inside(rt, text, proof.path)?,
        _ => None,
    };
    Ok(Bound { verdict, inside })
}

/// What the certificate at this path has inside.
fn read_inside<'a, 't, R: Files + AllocGlobal>(
    rt: &R,
    text: &'t [u8],
    path: &'a str,
) -> Result<Option<Inside<'t>>, Fault<'a>> {
    let mut proof = open(rt, path)?;
    let proof = read_whole(rt, &mut proof, path)?;
    match look_inside(rt.alloc(), text, &proof) {
        Ok(inside) => Ok(inside),
        Err(_) => Err(Fault::Run(RunFault::Memory)),
    }
}

/// What this certificate has inside, if it and the text are right.
///
/// # Errors
///
/// `AllocError` where memory was refused, where the text is faulty, or where its formula has more
/// than 2^32 - 2 literals.
fn look_inside<'t>(
    alloc: Global,
    text: &'t [u8],
    proof: &[u8],
) -> Result<Option<Inside<'t>>, AllocError> {
    let Ok(instance) = read(alloc, text) else {
        return Err(AllocError);
    };
    let Some(last) = LastForm::read(&instance, proof)? else {
        return Ok(None);
    };
    let why = find_reasons(alloc, text, &instance, &last);
    let holdings = find_holdings(proof, &last);
    // By a call: that is proved once, and not field by field here.
    drop(last);
    Ok(Some(Inside {
        why: why?,
        holdings,
    }))
}

/// Prints what the certificate proves by itself, how far the result is from that, why, and how much
/// it holds.
fn show_bound<'a, R: Print>(
    rt: &R,
    bound: &Bound<'_>,
    judgement: Judgement,
) -> Result<u8, Fault<'a>> {
    let mut out = standard_output(rt);
    let written = deliver(write_bound(bound, judgement, &mut out), &mut out);
    end_output(
        written.map(|()| lower_code(&bound.verdict)),
        out.is_closed(),
    )
}

/// Writes what a certificate proves by itself, how far a solution is from that, why, and how much
/// it holds.
fn write_bound<W: Write>(
    bound: &Bound<'_>,
    judgement: Judgement,
    out: &mut W,
) -> Result<(), WriteFault> {
    print_bound(&bound.verdict, judgement, out)?;
    if let Some(inside) = &bound.inside {
        write_reasons(&inside.why, out)?;
        write_holdings(&inside.holdings, out)?;
    }
    Ok(())
}

/// Writes what a certificate proves by itself, and how far a solution is from that.
fn print_bound<W: Write>(
    verdict: &LowerVerdict,
    judgement: Judgement,
    writer: &mut W,
) -> Result<(), WriteFault>
    ensures { Writes result (W.contents writer.old) (bound_text verdict.now judgement)
        (W.contents writer.new) }
{
    print_lower(verdict, writer)?;
    match (verdict, judgement) {
        (LowerVerdict::AtLeast(lower), Judgement::Right(cost)) => print_gap(cost, *lower, writer),
        _ => Ok(()),
    }
}

/// Prints how much there is of an instance.
fn explain_instance<'a, R: AllocGlobal + Print, E: Write>(
    rt: &R,
    messages: &mut Messages<'_, E>,
    text: &[u8],
) -> Result<u8, Fault<'a>> {
    let mut out = standard_output(rt);
    match write_summary(rt.alloc(), text, &mut out) {
        Ok(()) => {
            let flushed = deliver(Ok(()), &mut out);
            end_output(flushed.map(|()| 0), out.is_closed())
        }
        Err(ExplainFault::Output) => end_output(Err(RunFault::Output), out.is_closed()),
        Err(fault) => explain_fault(rt, messages, text, fault),
    }
}

/// Prints what a result comes to.
fn explain_result<'a, R: AllocGlobal + Print, E: Write>(
    rt: &R,
    messages: &mut Messages<'_, E>,
    text: &[u8],
    answer: &[u8],
) -> Result<u8, Fault<'a>> {
    let mut out = standard_output(rt);
    match write_result(rt.alloc(), text, answer, &mut out) {
        Ok(is_right) => {
            let flushed = deliver(Ok(()), &mut out);
            end_output(flushed.map(|()| u8::from(!is_right)), out.is_closed())
        }
        Err(ExplainFault::Output) => end_output(Err(RunFault::Output), out.is_closed()),
        Err(fault) => explain_fault(rt, messages, text, fault),
    }
}

/// Writes what a result comes to; whether what it says of solutions is so, as far as that was found
/// out.
fn write_result<W: Write>(
    alloc: Global,
    text: &[u8],
    answer: &[u8],
    out: &mut W,
) -> Result<bool, ExplainFault> {
    match judge(alloc, text, answer)? {
        Judgement::Unsatisfiable => write_reason(alloc, text, out),
        _ => write_explanation(alloc, text, answer, out),
    }
}

/// Writes which hard clauses contradict each other; whether there may be such.
fn write_reason<W: Write>(alloc: Global, text: &[u8], out: &mut W) -> Result<bool, ExplainFault> {
    let instance = match read(alloc, text) {
        Ok(instance) => instance,
        Err(fault) if fault.kind == FaultKind::Memory => return Err(ExplainFault::Memory),
        Err(fault) => return Err(ExplainFault::Text(fault)),
    };
    let Ok(found) = find_contradiction(&instance) else {
        return Err(ExplainFault::Memory);
    };
    match found {
        Finding::Contradiction(places) => {
            write_contradiction(alloc, text, &places, instance.hard().len(), out)?;
            Ok(true)
        }
        Finding::Open => end_reason(write_open(out), true),
        Finding::Solution => end_reason(write_refuted(out), false),
    }
}

/// What is answered once it is written.
fn end_reason(written: Result<(), WriteFault>, answer: bool) -> Result<bool, ExplainFault> {
    match written {
        Ok(()) => Ok(answer),
        Err(_) => Err(ExplainFault::Output),
    }
}

/// The exit status where there is no explanation, or not all of it.
fn explain_fault<'a, R: Print, E: Write>(
    rt: &R,
    messages: &mut Messages<'_, E>,
    text: &[u8],
    fault: ExplainFault,
) -> Result<u8, Fault<'a>> {
    match fault {
        ExplainFault::Text(fault) => Ok(tell_text(messages, text, fault)),
        ExplainFault::Result(line) => show(rt, &Verdict::No(Cause::ResultForm, line)),
        ExplainFault::Memory => Err(Fault::Run(RunFault::Memory)),
        ExplainFault::Output => Err(Fault::Run(RunFault::Output)),
    }
}

/// Tells the fault of a text, and what would mend it; the exit status.
fn tell_text<E: Write>(messages: &mut Messages<'_, E>, text: &[u8], fault: ReadFault) -> u8 {
    let told = RunFault::Read(fault);
    let _ = print_fault(&told, messages.below());
    let _ = write_mending(text, fault, messages.below());
    fault_code(&told)
}
