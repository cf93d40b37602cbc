//! What is said where a command line cannot be read.
use clap::Error;
use clap::error::ErrorKind;
use explain_text::showing::Shown;
use report_text::fault::RunFault;
use std::io::{self, Write};
use wmax_commands::faults::{Fault, tell_fault};
use wmax_onlooker::standard_error::Messages;
use wmax_onlooker::standard_output::is_for_closing;

/// The exit status where memory was refused, which is told on standard error.
pub(crate) fn tell_memory<E: Write>(messages: &mut Messages<'_, E>) -> u8 {
    tell_fault(messages, Fault::Run(RunFault::Memory))
}

/// The exit status where the command line cannot be read: refused memory, or a word that is not
/// UTF-8.
pub(crate) fn tell_words<E: Write>(messages: &mut Messages<'_, E>, kind: io::ErrorKind) -> u8 {
    if kind == io::ErrorKind::OutOfMemory {
        return tell_memory(messages);
    }
    let _ = writeln!(
        messages.below(),
        "error: the command line has a word that is not UTF-8"
    );
    2
}

/// The exit status where `clap` gives no matches: refused memory, help, or a mistake.
pub(crate) fn refuse<R: AllocGlobal + Print, E: Write>(
    rt: &R,
    messages: &mut Messages<'_, E>,
    error: &Error,
) -> u8 {
    if error.kind() == ErrorKind::OutOfMemory {
        return tell_memory(messages);
    }
    print_refusal(rt, messages, error)
}

/// Prints what `clap` says: help that was asked for on standard output, and a mistake on standard
/// error, where a failure changes no status.
fn print_refusal<R: AllocGlobal + Print, E: Write>(
    rt: &R,
    messages: &mut Messages<'_, E>,
    error: &Error,
) -> u8 {
    if error.use_stderr() {
        let Ok(text) = format!(in rt.alloc(); "{error}") else {
            return tell_memory(messages);
        };
        print_mistake(messages, text.as_str());
        return 2;
    }
    let printed = rt.print(error);
    if printed.is_ok() {
        0
    } else if is_for_closing(&printed) {
        tell_fault(messages, Fault::Closed)
    } else {
        tell_fault(messages, Fault::Run(RunFault::Output))
    }
}

/// How a line begins that `clap` adds to many mistakes, and that is of no use here: no FILE begins
/// with '-'.
const TIP: &str = "  tip: to pass ";

/// Tells a mistake of the command line in the words of `clap`, without that line.
fn print_mistake<E: Write>(messages: &mut Messages<'_, E>, text: &str) {
    let err = messages.below();
    let mut is_blank = false;
    for line in text.lines() {
        if line.starts_with(TIP) || (is_blank && line.is_empty()) {
            continue;
        }
        is_blank = line.is_empty();
        let _ = writeln!(err, "{}", Shown(line));
    }
}
