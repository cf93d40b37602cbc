//! The whole program but for `main`: what the command line asks for is done.
use crate::mistakes::{refuse, tell_memory, tell_words};
use command_line::making::make_command;
use std::env;
use std::fs::OpenOptions;
use std::io::Write;
use std::rt::{Clock, Env, Files};
use wmax_commands::arguments::Request;
use wmax_commands::checking::check;
use wmax_commands::encoding::encode;
use wmax_commands::faults::tell_fault;
use wmax_commands::lower_bounds::lower;
use wmax_explaining::explaining::explain;
use wmax_onlooker::standard_error::Messages;
use wmax_solving::solving::solve;

/// Does what the command line asks for; the exit status.
///
/// Where standard input, output or error was closed at the start, the next file that is opened
/// takes its number, and what is meant for the terminal would go into that file. So the empty file
/// is opened three times first, and held to the end.
pub(crate) fn run_program<R: Files + AllocGlobal + Print + Env + Clock, E: Write>(
    rt: &R,
    messages: &mut Messages<'_, E>,
) -> u8 {
    let held = (open_nothing(rt), open_nothing(rt), open_nothing(rt));
    let ended = run_command(rt, messages);
    messages.below();
    let _ = held;
    ended
}

/// The file on which nothing is read.
const NOTHING: &str = "/dev/null";

/// Opens it for reading alone, so that what is written to it fails and is not lost unseen.
fn open_nothing<R: Files>(rt: &R) -> Option<R::File> {
    let mut options = OpenOptions::new();
    options.read(true);
    match options.open(rt, NOTHING) {
        Ok(file) => Some(file),
        Err(_) => None,
    }
}

/// Reads the command line and does what it says.
fn run_command<R: Files + AllocGlobal + Print + Env + Clock, E: Write>(
    rt: &R,
    messages: &mut Messages<'_, E>,
) -> u8 {
    let args = match env::args(rt) {
        Ok(args) => args,
        Err(error) => return tell_words(messages, error.kind()),
    };
    let Ok(words) = args.collect(rt.alloc()) else {
        return tell_memory(messages);
    };
    let words: Vec<String> = words;
    match make_command(rt.alloc()) {
        Ok(command) => match command.try_get_matches_from(words.as_slice()) {
            Ok(matches) => match Request::of(&matches) {
                Some(request) => do_request(rt, messages, &request),
                // `clap` lets no such command line pass.
                None => 2,
            },
            Err(error) => refuse(rt, messages, &error),
        },
        Err(_) => tell_memory(messages),
    }
}

/// Does what is asked for; the exit status.
fn do_request<R: Files + AllocGlobal + Print + Env + Clock, E: Write>(
    rt: &R,
    messages: &mut Messages<'_, E>,
    request: &Request<'_>,
) -> u8 {
    let outcome = match request {
        Request::Solve(request) => solve(rt, messages, request),
        Request::Check(request) => check(rt, messages, request),
        Request::Lower(request) => lower(rt, messages, request),
        Request::Explain(request) => explain(rt, messages, request),
        Request::Encode(request) => encode(rt, messages, request),
    };
    match outcome {
        Ok(status) => status,
        Err(fault) => tell_fault(messages, fault),
    }
}
