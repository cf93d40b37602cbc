//! The program `wmax`: hands its handles to the commands, and their exit status to the system.
#![tactic(auto)]

mod mistakes;
mod program;

use crate::program::run_program;
use std::io::IsTerminal;
use std::process::ExitCode;
use wmax_onlooker::standard_error::Messages;

fn main(rt: HostRuntime) -> ExitCode {
    let mut err = rt.stderr();
    let is_terminal = err.is_terminal();
    let mut messages = Messages::new(&mut err, is_terminal, rt.stdout().is_terminal());
    ExitCode::from(run_program(&rt, &mut messages))
}
