//! `wmax lower`: what a certificate proves by itself.
ghost use Rattle.std.specs.Prelude.{IfOk};
ghost use Rattle.lrat_check.specs.Lower.{IsTrueLower};

use crate::arguments::LowerRequest;
use crate::faults::{Fault, end_output, open, read_whole, tell_packed};
use lrat_check::lower::{LowerVerdict, lower_cuts_from};
use lrat_check::verdicts::{Cause, CheckFault};
use report_text::fault::RunFault;
use report_text::printing::{deliver, lower_code, print_lower};
use std::io::{Read, Write};
use std::rt::Files;
use wmax_onlooker::standard_error::Messages;
use wmax_onlooker::standard_output::standard_output;

/// Both files are opened before one is read. The certificate is judged while it is read, so none of
/// it is kept but the clauses that are live.
pub fn lower<'a, R: Files + AllocGlobal + Print, E: Write>(
    rt: &R,
    messages: &mut Messages<'_, E>,
    request: &LowerRequest<'a>,
) -> Result<u8, Fault<'a>> {
    let mut text = open(rt, request.text)?;
    let mut proof = open(rt, request.proof)?;
    let text = read_whole(rt, &mut text, request.text)?;
    let verdict = judge_lower(rt, &text, &mut proof, request.proof)?;
    show_lower(rt, messages, &text, &verdict)
}

/// Judges the certificate, which is at this path, as one of forms and cuts: only such a one proves
/// something without its result.
pub fn judge_lower<'a, R: AllocGlobal, P: Read>(
    rt: &R,
    text: &[u8],
    proof: &mut P,
    path: &'a str,
) -> Result<LowerVerdict, Fault<'a>>
    ensures sound { IfOk result (λ v. IsTrueLower text.now v) }
{
    match lower_cuts_from(rt.alloc(), text, proof) {
        Ok(verdict) => Ok(verdict),
        Err(CheckFault::Memory) => Err(Fault::Run(RunFault::Memory)),
        Err(CheckFault::Read) => Err(Fault::Unreadable(path)),
    }
}

/// Prints what a certificate proves of this text, and what to do with the text if it is packed; the
/// exit status.
fn show_lower<'a, R: Print, E: Write>(
    rt: &R,
    messages: &mut Messages<'_, E>,
    text: &[u8],
    verdict: &LowerVerdict,
) -> Result<u8, Fault<'a>> {
    let mut out = standard_output(rt);
    let written = deliver(print_lower(verdict, &mut out), &mut out);
    let status = end_output(written.map(|()| lower_code(verdict)), out.is_closed())?;
    if let LowerVerdict::No(Cause::Text, _) = verdict {
        tell_packed(messages, text);
    }
    Ok(status)
}
