//! `wmax encode`: the formula that a certificate refutes.
ghost use Rattle.std.specs.Prelude.{◌<◌};
ghost use Rattle.cnf.specs.declared.limits.TheConstants.{NUMBER_LIMIT};

use crate::arguments::EncodeRequest;
use crate::faults::{Fault, end_output, open, say, tell_text_fault};
use crate::plain_encoding::encode_plain;
use crate::profiles::{Certifying, choose_profile, refuse_profile};
use bound::encoding::{WatchedWriter, write_formula};
use bound::formulas::write_dimacs;
use bound::weighted::weighted_formula;
use command_line::words::MOST_COST;
use report_text::fault::RunFault;
use report_text::printing::deliver;
use std::io::{Read, Write};
use std::mem::ManuallyDrop;
use std::rt::{Env, Files};
use wcnf::reading::read_from;
use wmax_onlooker::beginning::Beginning;
use wmax_onlooker::standard_error::Messages;
use wmax_onlooker::standard_output::standard_output;

/// What is said of a `--proof` in another profile.
const NO_PROOF: &str = "error: encode takes --proof only with --profile 3";

/// What is said of a `--lrat` beside another profile, or no certificate.
const NO_PLAIN: &str = "error: encode takes --lrat only with --profile 3 and --proof";

/// The formula for 'cost below COST', or in profile 3 that of the relaxed clauses, whatever COST
/// is, and with `--proof` what the lines of the certificate make. That is opened after FILE and
/// before any of it is read.
pub fn encode<'a, R: Files + AllocGlobal + Print + Env, E: Write>(
    rt: &R,
    messages: &mut Messages<'_, E>,
    request: &EncodeRequest<'a>,
) -> Result<u8, Fault<'a>> {
    let profile = match choose_profile(rt, request.profile) {
        Ok(profile) => profile,
        Err(why) => return refuse_profile(messages, why),
    };
    // `clap` lets no greater cost pass; said again, since nothing is known of that here.
    let cost = request.cost.min(MOST_COST);
    if request.lrat.is_some() && (request.proof.is_none() || !profile.is_cuts()) {
        say(messages, NO_PLAIN);
        return Ok(2);
    }
    if request.proof.is_some() && !profile.is_cuts() {
        say(messages, NO_PROOF);
        return Ok(2);
    }
    let mut text = Beginning::new(open(rt, request.text)?);
    let ended = match request.proof {
        None => encode_bound(rt, &mut text, cost, profile),
        Some(path) => encode_plain(rt, messages, request, &mut text, path),
    };
    Ok(tell_ended(messages, ended, request.text, text.first()))
}

/// The exit status of a command that read FILE from this path; it tells why there is no answer, if
/// there is none. `first` are the first bytes of FILE.
fn tell_ended<E: Write>(
    messages: &mut Messages<'_, E>,
    ended: Result<u8, Fault<'_>>,
    path: &str,
    first: &[u8],
) -> u8 {
    match ended {
        Ok(status) => status,
        Err(fault) => tell_text_fault(messages, fault.of_text(path), first),
    }
}

/// Prints the formula for 'cost below COST'. The process ends after it, so the clauses of the text
/// are not given back one by one.
fn encode_bound<'a, R: AllocGlobal + Print, T: Read>(
    rt: &R,
    text: &mut T,
    cost: u64,
    profile: Certifying,
) -> Result<u8, Fault<'a>>
    requires { cost < NUMBER_LIMIT }
{
    let mut out = standard_output(rt);
    let ended = write_bound(rt, text, cost, profile, &mut out);
    end_output(ended, out.is_closed())
}

/// Writes the formula for 'cost below COST'.
fn write_bound<R: AllocGlobal, T: Read, W: Write>(
    rt: &R,
    text: &mut T,
    cost: u64,
    profile: Certifying,
    out: &mut W,
) -> Result<u8, RunFault>
    requires { cost < NUMBER_LIMIT }
{
    let instance = ManuallyDrop::new(read_from(rt.alloc(), text)?);
    let mut watched = WatchedWriter::new(out);
    let written = match profile {
        Certifying::Formula(profile) => {
            write_formula(&instance, cost, profile, &mut watched)?;
            Ok(())
        }
        Certifying::Cuts => match weighted_formula(&instance) {
            Ok(formula) => write_dimacs(&formula, &mut watched),
            Err(_) => return Err(RunFault::Memory),
        },
    };
    deliver(written, &mut watched)?;
    Ok(0)
}
