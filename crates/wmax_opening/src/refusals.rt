//! Why there is no run of `wmax solve`, beside the faults that every command has, and what is said
//! of it.
ghost use Rattle.std.specs.Prelude.{◌≡◌};
ghost use Rattle.wmax_opening.specs.Refusals.{kept_status};

use command_line::words::{BEST_OPTION, FROM_OPTION, PROOF_OPTION, RESUME_OPTION};
use cuts_earlier::earlier::CannotResume;
use lrat_check::verdicts::Verdict;
use report_text::fault::RunFault;
use std::io::Write;
use wmax_commands::checking::show;
use wmax_commands::faults::Fault;
use wmax_onlooker::standard_error::Messages;

/// Why there is no run.
#[derive(Clone, Copy, Drop)]
pub enum Refused<'a> {
    /// A fault that any command may meet.
    Fault(Fault<'a>),
    /// The result with which the search was to begin is wrong, or the certificate that was to go
    /// on: what `check` says of it.
    Wrong(Verdict),
    /// The file of `--best` is of no use.
    Best(KeptFileFault),
    /// The certificate cannot go on.
    Resume(ResumeFault),
}

impl From<CannotResume> for ResumeFault {
    ghost use Rattle.wmax_opening.specs.Refusals.{resume_fault};

    ghost from_gives = { λ why made. made ≡ resume_fault why };

    fn from(why: CannotResume) -> Self {
        match why {
            CannotResume::Lacking(cost) => ResumeFault::Lacking(cost),
            CannotResume::Unfit => ResumeFault::Unfit,
        }
    }
}

impl From<RunFault> for Refused<'_> {
    ghost use Rattle.wmax_commands.specs.declared.faults.Fault.TheVariants.{Run};
    ghost use Rattle.wmax_opening.specs.declared.refusals.Refused.TheVariants.{Fault as FaultOf};

    ghost from_gives = { λ fault made. made ≡ FaultOf (Run fault) };

    fn from(fault: RunFault) -> Self {
        Refused::Fault(Fault::Run(fault))
    }
}

impl<'a> Refused<'a> {
    /// Why there is no run where this file cannot be read whole.
    pub(crate) fn of_file(fault: RunFault, path: &'a str) -> Self {
        Refused::Fault(Fault::of_file(fault, path))
    }
}

/// Why there is no run with the file of `--best`.
#[derive(Clone, Copy, Drop)]
pub enum KeptFileFault {
    /// The run uses the file otherwise, or it is no regular file.
    Taken,
    /// It has what would be lost.
    Other,
    /// It cannot be written.
    Unwritable,
}

/// Why a certificate cannot go on that has no fault.
#[derive(Clone, Copy, Drop)]
pub enum ResumeFault {
    /// It is in no regular file.
    NotRegular,
    /// There is no solution at hand that costs at most this, and it says nothing of others.
    Lacking(u64),
    /// No search can go on with what it leaves.
    Unfit,
}

/// Tells why there is no run; the exit status.
pub fn tell_refused<'a, R: Print, E: Write>(
    rt: &R,
    messages: &mut Messages<'_, E>,
    refused: Refused<'a>,
) -> Result<u8, Fault<'a>> {
    match refused {
        Refused::Fault(fault) => Err(fault),
        Refused::Wrong(verdict) => show(rt, &verdict),
        Refused::Best(why) => Ok(refuse_best(messages, why)),
        Refused::Resume(why) => Ok(refuse_resumed(messages, why)),
    }
}

/// Tells why a certificate cannot go on; the exit status.
fn refuse_resumed<E: Write>(messages: &mut Messages<'_, E>, why: ResumeFault) -> u8
    ensures status { result ≡ 2 }
{
    let out = messages.below();
    let _ = match why {
        ResumeFault::NotRegular => writeln!(
            out,
            "error: --{RESUME_OPTION} needs a regular file as PATH of --{PROOF_OPTION}"
        ),
        ResumeFault::Lacking(cost) => writeln!(
            out,
            "error: --{RESUME_OPTION} needs a solution that costs at most {cost}: name it by \
             --{BEST_OPTION} or --{FROM_OPTION}"
        ),
        ResumeFault::Unfit => writeln!(
            out,
            "error: no search can go on with the certificate that --{PROOF_OPTION} names"
        ),
    };
    2
}

/// Tells why `--best` cannot have what it names; the exit status.
fn refuse_best<E: Write>(messages: &mut Messages<'_, E>, why: KeptFileFault) -> u8
    ensures status { result ≡ kept_status why }
{
    let out = messages.below();
    let _ = match why {
        KeptFileFault::Taken => writeln!(
            out,
            "error: --{BEST_OPTION} names another file of the run, or something other than a \
             regular file"
        ),
        KeptFileFault::Other => writeln!(
            out,
            "error: --{BEST_OPTION} names a file that is not a correct result for FILE"
        ),
        KeptFileFault::Unwritable => writeln!(out, "error: --{BEST_OPTION} cannot be written"),
    };
    match why {
        KeptFileFault::Taken | KeptFileFault::Other => 2,
        KeptFileFault::Unwritable => 3,
    }
}
