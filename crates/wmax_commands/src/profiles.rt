//! Which profile a command takes: the one of `--profile`, else that of the environment, else the
//! first.
use crate::faults::Fault;
use adder::profiles::Profile;
use command_line::words::pick_profile;
use report_text::fault::RunFault;
use std::env::{self, VarError};
use std::io::Write;
use std::rt::Env;
use wmax_onlooker::standard_error::Messages;

/// The name of the profile of forms and cuts.
pub const CUTS: &str = "3";

/// The variable of the environment that names the profile where no `--profile` does.
const VARIABLE: &str = "WMAX_PROFILE";

/// How a certificate shows that nothing is cheaper.
#[derive(Clone, Copy, Drop)]
pub enum Certifying {
    /// It refutes the formula of this profile.
    Formula(Profile),
    /// By forms and cuts.
    Cuts,
}

impl Certifying {
    /// Whether it is by forms and cuts.
    pub fn is_cuts(&self) -> bool {
        matches!(self, Certifying::Cuts)
    }
}

/// Why there is no profile.
#[derive(Clone, Copy, Drop)]
pub enum NoProfile {
    /// What is named is none.
    Named,
    /// Memory was refused.
    Memory,
}

/// The profile of this name, which `--profile` gives, else that of the environment.
///
/// # Errors
///
/// `Named` where that of the environment is none; `Memory`.
pub fn choose_profile<R: Env + AllocGlobal>(
    rt: &R,
    named: Option<&str>,
) -> Result<Certifying, NoProfile> {
    match named {
        Some(name) => pick_certifying(name).ok_or(NoProfile::Named),
        None => usual_profile(rt),
    }
}

/// The profile of the environment; the first where the variable is not set, or empty.
fn usual_profile<R: Env + AllocGlobal>(rt: &R) -> Result<Certifying, NoProfile> {
    match env::var(rt, VARIABLE) {
        Ok(name) if name.is_empty() => Ok(Certifying::Formula(Profile::One)),
        Ok(name) => pick_certifying(name.as_str()).ok_or(NoProfile::Named),
        Err(VarError::NotPresent) => Ok(Certifying::Formula(Profile::One)),
        Err(VarError::NotUnicode) => Err(NoProfile::Named),
        Err(VarError::OutOfMemory) => Err(NoProfile::Memory),
    }
}

/// The profile of this name, a digit from 1 to 3.
fn pick_certifying(name: &str) -> Option<Certifying> {
    if name == CUTS {
        return Some(Certifying::Cuts);
    }
    match pick_profile(name) {
        Some(profile) => Some(Certifying::Formula(profile)),
        None => None,
    }
}

/// Tells why there is no profile; the exit status.
pub fn refuse_profile<'a, E: Write>(
    messages: &mut Messages<'_, E>,
    why: NoProfile,
) -> Result<u8, Fault<'a>> {
    match why {
        NoProfile::Named => {
            let _ = writeln!(
                messages.below(),
                "error: {VARIABLE} is not a profile from 1 to 3"
            );
            Ok(2)
        }
        NoProfile::Memory => Err(Fault::Run(RunFault::Memory)),
    }
}
