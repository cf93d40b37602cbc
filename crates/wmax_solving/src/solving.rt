//! `wmax solve`: a result and its certificate.
use crate::searching::solve_over;
use std::io::Write;
use std::num::saturating_f64_to_u64;
use std::rt::{Clock, Env, Files};
use std::time::Duration;
use wmax_commands::arguments::SolveRequest;
use wmax_commands::faults::{Fault, open, say, tell_text_fault};
use wmax_commands::profiles::{CUTS, Certifying, NoProfile, choose_profile, refuse_profile};
use wmax_onlooker::alarm::Deadline;
use wmax_onlooker::standard_error::Messages;
use wmax_opening::inputs::{Inputs, prepare};
use wmax_opening::outputs::{drop_certificate, open_outputs, resume_outputs};
use wmax_opening::refusals::{Refused, tell_refused};

/// What is said of a time that is none.
const NO_TIME: &str = "error: --time-limit takes a number of seconds above 0";

/// What is said where no file has a certificate that could go on.
const NO_PATH: &str = "error: solve takes --resume only with --proof";

/// What is said where the certificate that could go on would be one of another profile.
const NO_CUTS: &str = "error: solve takes --resume only with --profile 3";

/// FILE is opened, then RESULT, if the search begins with one: that is judged by FILE, which is
/// read then. Then the file of the best solution is looked at, and the search begins with what
/// stands there, if it is cheaper. Then the file of the certificate is opened or created, then that
/// of the best solution is written, then that of the certificate is emptied, and FILE is read, if
/// it was not before. Without a file the certificate is dropped.
///
/// If the certificate is to go on, FILE is read before that of the certificate is opened, which is
/// read then. Neither it nor the file of the best solution is changed before it is clear that the
/// search can begin.
pub fn solve<'a, R: Files + AllocGlobal + Print + Env + Clock, E: Write>(
    rt: &R,
    messages: &mut Messages<'_, E>,
    request: &SolveRequest<'a>,
) -> Result<u8, Fault<'a>> {
    if let Some(said) = misuse_of(request) {
        say(messages, said);
        return Ok(2);
    }
    let certifying = match choose_certifying(rt, request) {
        Ok(certifying) => certifying,
        Err(why) => return refuse_profile(messages, why),
    };
    let Some(limit) = limit_of(request.seconds) else {
        say(messages, NO_TIME);
        return Ok(2);
    };
    let plan = Plan {
        request: *request,
        certifying,
        deadline: Deadline::start(rt, limit),
    };
    let file = open(rt, request.text)?;
    Ok(solve_file(rt, messages, plan, file))
}

/// What is asked for, and how a search goes.
#[derive(Clone, Copy, Drop)]
pub(crate) struct Plan<'a> {
    /// What is asked for.
    pub(crate) request: SolveRequest<'a>,
    /// How its certificate shows that nothing is cheaper.
    pub(crate) certifying: Certifying,
    /// How long it may take.
    pub(crate) deadline: Deadline,
}

/// What is said where `--resume` is given without what it needs.
fn misuse_of(request: &SolveRequest<'_>) -> Option<&'static str> {
    if !request.is_resumed {
        return None;
    }
    if request.proof.is_none() {
        return Some(NO_PATH);
    }
    match request.profile {
        None | Some(CUTS) => None,
        Some(_) => Some(NO_CUTS),
    }
}

/// The profile that is asked for: only in the third one a certificate goes on.
///
/// # Errors
///
/// Those of `choose_profile`.
fn choose_certifying<R: Env + AllocGlobal>(
    rt: &R,
    request: &SolveRequest<'_>,
) -> Result<Certifying, NoProfile> {
    if request.is_resumed {
        return Ok(Certifying::Cuts);
    }
    choose_profile(rt, request.profile)
}

/// The limit of `seconds` seconds, to a thousandth of one; None where they are not above 0.
fn limit_of(seconds: Option<f64>) -> Option<Option<Duration>> {
    let Some(seconds) = seconds else {
        return Some(None);
    };
    if !(seconds > 0.0) {
        return None;
    }
    let millis = saturating_f64_to_u64((seconds * 1000.0).round());
    Some(Some(Duration::from_millis(millis.max(1))))
}

/// Solves this file; the exit status.
fn solve_file<'a, R: Files + AllocGlobal + Print + Clock, E: Write>(
    rt: &'a R,
    messages: &mut Messages<'_, E>,
    plan: Plan<'a>,
    file: R::File,
) -> u8 {
    let mut inputs = Inputs::of_file(file);
    let ended = match solve_into(rt, messages, plan, &mut inputs) {
        Ok(status) => Ok(status),
        Err(refused) => tell_refused(rt, messages, refused),
    };
    let status = match ended {
        Ok(status) => status,
        Err(fault) => {
            let fault = fault.of_text(plan.request.text);
            tell_text_fault(messages, fault, inputs.source.first())
        }
    };
    // By a call: that is proved once, and not field by field here.
    drop(inputs);
    status
}

/// Solves, with the certificate in its file, which may be none of those that are read.
///
/// # Errors
///
/// Why there is no run, or no answer.
fn solve_into<'a, R: Files + AllocGlobal + Print + Clock, E: Write>(
    rt: &'a R,
    messages: &mut Messages<'_, E>,
    plan: Plan<'a>,
    inputs: &mut Inputs<'a, R::File>,
) -> Result<u8, Refused<'a>> {
    let read = prepare(rt, plan.request, inputs)?;
    let Some(path) = plan.request.proof else {
        let outputs = drop_certificate(rt, inputs, read)?;
        return solve_over(rt, messages, plan, inputs, outputs);
    };
    if plan.request.is_resumed {
        let outputs = resume_outputs(rt, path, inputs, read)?;
        return solve_over(rt, messages, plan, inputs, outputs);
    }
    let outputs = open_outputs(rt, path, inputs, read)?;
    solve_over(rt, messages, plan, inputs, outputs)
}
