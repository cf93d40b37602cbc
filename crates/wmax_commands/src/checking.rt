//! `wmax check`: a result and its certificate, in one profile or in each.
ghost use Rattle.std.specs.Prelude.{◌≡◌, ℕ, List, IfOk, IfSome};
ghost use Rattle.lrat_check.specs.Checks.{IsTrueResult};
ghost use Rattle.lrat_check.specs.Left.{AreRead};
ghost use Rattle.wmax_commands.specs.Checking.{later};

use crate::arguments::CheckRequest;
use crate::faults::{Fault, end_output, open, read_whole, say, tell_packed};
use crate::profiles::{Certifying, choose_profile, refuse_profile};
use adder::profiles::Profile;
use command_line::words::ANY;
use lrat_check::checking::{Texts, check_texts_as, read_texts};
use lrat_check::cuts::check_cuts_texts;
use lrat_check::verdicts::{Cause, CheckFault, Verdict};
use report_text::fault::RunFault;
use report_text::printing::{deliver, print_verdict, verdict_code};
use std::fs;
use std::io::{Read, Write};
use std::rt::{Env, Files};
use wmax_onlooker::beginning::Beginning;
use wmax_onlooker::files::UNREADABLE;
use wmax_onlooker::standard_error::Messages;
use wmax_onlooker::standard_output::standard_output;

/// What is said of a certificate that cannot be read more than once.
const NO_FILE: &str = "error: check --profile any needs a regular file as PROOF, not a pipe";

/// What begins the lines that only a certificate of forms and cuts has.
const WORDS_OF_CUTS: [&[u8]; 6] = [b"count ", b"more ", b"group ", b"form ", b"cut ", b"bound "];

/// What is said of a certificate of forms and cuts in another profile.
const CUTS_ADVICE: &str = "PROOF begins like a certificate of profile 3: try --profile 3";

/// The files are opened in their order before any is read, and read in their order. What FILE and
/// RESULT read as is kept. The certificate is judged while it is read, so none of it is kept but
/// the clauses that are live.
pub fn check<'a, R: Files + AllocGlobal + Print + Env, E: Write>(
    rt: &R,
    messages: &mut Messages<'_, E>,
    request: &CheckRequest<'a>,
) -> Result<u8, Fault<'a>> {
    if request.profile == Some(ANY) {
        return check_any(rt, messages, request);
    }
    let profile = match choose_profile(rt, request.profile) {
        Ok(profile) => profile,
        Err(why) => return refuse_profile(messages, why),
    };
    let mut files = open_all(rt, request)?;
    check_opened(rt, messages, request, profile, &mut files)
}

/// The files of a check, which are open.
#[derive(Drop)]
struct Opened<F: Read> {
    /// FILE.
    text: Beginning<F>,
    /// RESULT.
    answer: F,
    /// The certificate.
    proof: Beginning<F>,
}

/// Opens the files in their order.
fn open_all<'a, R: Files>(
    rt: &R,
    request: &CheckRequest<'a>,
) -> Result<Opened<R::File>, Fault<'a>> {
    let text = open(rt, request.text)?;
    let answer = open(rt, request.result)?;
    let proof = open(rt, request.proof)?;
    Ok(Opened {
        text: Beginning::new(text),
        answer,
        proof: Beginning::new(proof),
    })
}

/// Checks what stands in these files; the exit status.
fn check_opened<'a, R: AllocGlobal + Print, E: Write, F: Read>(
    rt: &R,
    messages: &mut Messages<'_, E>,
    request: &CheckRequest<'a>,
    profile: Certifying,
    files: &mut Opened<F>,
) -> Result<u8, Fault<'a>> {
    let texts = read_inputs(rt, request, &mut files.text, &mut files.answer)?;
    let checked = check_as(&texts, &mut files.proof, profile);
    // By a call: that is proved once, and not field by field here.
    drop(texts);
    match checked {
        Ok(verdict) => {
            let status = show_for(rt, messages, files.text.first(), &verdict)?;
            if status == 1 {
                advise_cuts(messages, files.proof.first(), profile);
            }
            Ok(status)
        }
        Err(fault) => Err(Fault::of_file(fault, request.proof)),
    }
}

/// What FILE and RESULT read as. Their bytes are given back here, before a byte of the certificate
/// is read.
///
/// # Errors
///
/// `Unreadable` where one of them cannot be read; `Run` with `Memory`.
fn read_inputs<'a, R: AllocGlobal, T: Read, A: Read>(
    rt: &R,
    request: &CheckRequest<'a>,
    text: &mut T,
    answer: &mut A,
) -> Result<Texts, Fault<'a>>
    ensures { IfOk result (λ texts. IfSome (T.remaining text.old) (λ bytes.
        IfSome (A.remaining answer.old) (λ lines. AreRead bytes lines texts))) }
{
    let text = read_whole(rt, text, request.text)?;
    let answer = read_whole(rt, answer, request.result)?;
    match read_texts(rt.alloc(), &text, &answer) {
        Ok(texts) => Ok(texts),
        Err(_) => Err(Fault::Run(RunFault::Memory)),
    }
}

/// Names the profile of forms and cuts, where only that reads a certificate with these first bytes,
/// and it was another one.
fn advise_cuts<E: Write>(messages: &mut Messages<'_, E>, first: &[u8], profile: Certifying) {
    if !profile.is_cuts() && begins_with_any(first, &WORDS_OF_CUTS) {
        say(messages, CUTS_ADVICE);
    }
}

/// Whether one of the words, with what follows it, stands first.
fn begins_with_any(first: &[u8], words: &[&[u8]; 6]) -> bool {
    words.iter().any(|word| first.starts_with(word))
}

/// As `check`, in any profile.
fn check_any<'a, R: Files + AllocGlobal + Print, E: Write>(
    rt: &R,
    messages: &mut Messages<'_, E>,
    request: &CheckRequest<'a>,
) -> Result<u8, Fault<'a>> {
    let mut text = Beginning::new(open(rt, request.text)?);
    let mut answer = open(rt, request.result)?;
    check_any_opened(rt, messages, request, &mut text, &mut answer)
}

/// The certificate is opened anew for each profile, so it has to be a file.
fn check_any_opened<'a, R: Files + AllocGlobal + Print, E: Write, T: Read, A: Read>(
    rt: &R,
    messages: &mut Messages<'_, E>,
    request: &CheckRequest<'a>,
    text: &mut Beginning<T>,
    answer: &mut A,
) -> Result<u8, Fault<'a>> {
    let Ok(data) = fs::metadata(rt, request.proof) else {
        return Err(Fault::Unreadable(request.proof));
    };
    if !data.is_file() {
        say(messages, NO_FILE);
        return Ok(2);
    }
    let texts = read_inputs(rt, request, text, answer)?;
    let verdict = check_each(rt, &texts, request.proof);
    // By a call: that is proved once, and not field by field here.
    drop(texts);
    show_for(rt, messages, text.first(), &verdict?)
}

/// The profiles that are tried, the one that finds most optima first.
const EACH: [Certifying; 3] = [
    Certifying::Cuts,
    Certifying::Formula(Profile::Two),
    Certifying::Formula(Profile::One),
];

/// Yes where one of the profiles says it; else the fault that stands last in the certificate, and
/// of two such the one that was met first.
fn check_each<'a, R: Files + AllocGlobal>(
    rt: &R,
    texts: &Texts,
    path: &'a str,
) -> Result<Verdict, Fault<'a>>
    ensures sound { (text answer : List ℕ) → AreRead text answer texts.now
        → IfOk result (λ v. v ≡ Verdict.Yes → IsTrueResult text answer) }
{
    let mut last: Option<CertificateFault> = None;
    for profile in EACH {
        let mut proof = open(rt, path)?;
        match check_as(texts, &mut proof, profile) {
            Ok(Verdict::Yes) => return Ok(Verdict::Yes),
            Ok(Verdict::No(cause, line)) => last = Some(later_of(
                last,
                CertificateFault { cause, line },
            )),
            Err(fault) => return Err(Fault::of_file(fault, path)),
        }
    }
    match last {
        Some(fault) => Ok(Verdict::No(fault.cause, fault.line)),
        None => Ok(Verdict::No(Cause::NoEmptyClause, 0)),
    }
}

/// Why it is not Yes.
#[derive(Clone, Copy, Drop)]
pub(crate) struct CertificateFault {
    /// What is wrong.
    pub(crate) cause: Cause,
    /// The line on which it stands, from 1; 0 where the text ends too soon.
    pub(crate) line: u64,
}

/// The fault that stands further down; the first where neither does.
fn later_of(first: Option<CertificateFault>, second: CertificateFault) -> CertificateFault
    ensures { result ≡ later first second }
{
    match first {
        Some(fault) if fault.line == 0 || (second.line != 0 && second.line <= fault.line) => fault,
        _ => second,
    }
}

/// Judges the certificate in this profile.
fn check_as<P: Read>(texts: &Texts, proof: &mut P, profile: Certifying) -> Result<Verdict, RunFault>
    ensures sound { (text answer : List ℕ) → AreRead text answer texts.now
        → IfOk result (λ v. v ≡ Verdict.Yes → IsTrueResult text answer) }
{
    let checked = match profile {
        Certifying::Formula(profile) => check_texts_as(texts, proof, profile),
        Certifying::Cuts => check_cuts_texts(texts, proof),
    };
    match checked {
        Ok(verdict) => Ok(verdict),
        Err(CheckFault::Memory) => Err(RunFault::Memory),
        Err(CheckFault::Read) => Err(UNREADABLE),
    }
}

/// Prints the verdict on what stands beside a text, and what to do with the text if its first bytes
/// are those of a packed one; the exit status.
pub(crate) fn show_for<'a, R: Print, E: Write>(
    rt: &R,
    messages: &mut Messages<'_, E>,
    first: &[u8],
    verdict: &Verdict,
) -> Result<u8, Fault<'a>> {
    let status = show(rt, verdict)?;
    if let Verdict::No(Cause::Text, _) = verdict {
        tell_packed(messages, first);
    }
    Ok(status)
}

/// Prints the verdict; its exit status.
pub fn show<'a, R: Print>(rt: &R, verdict: &Verdict) -> Result<u8, Fault<'a>> {
    let mut out = standard_output(rt);
    let written = deliver(print_verdict(verdict, &mut out), &mut out);
    end_output(written.map(|()| verdict_code(verdict)), out.is_closed())
}
