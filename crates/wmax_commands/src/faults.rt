//! Why a command has no answer, and what is said of it.
ghost use Rattle.std.specs.Prelude.{◌≡◌, IfOk, IfSome};
ghost use Rattle.wmax_commands.specs.Faults.{fault_of_text, fault_status, file_fault};
ghost use Rattle.wmax_commands.specs.Faults.{output_outcome};

use explain_text::mending::advise_unpacking;
use report_text::fault::RunFault;
use report_text::printing::{fault_code, print_fault};
use std::fs::{self, File};
use std::io::{Read, Write};
use std::rt::Files;
use wcnf::faults::{FaultKind, ReadFault};
use wmax_onlooker::files::{read_file, tell_unreadable};
use wmax_onlooker::standard_error::Messages;

/// Why a command has no answer.
#[derive(Clone, Copy, Drop)]
pub enum Fault<'a> {
    /// What the libraries tell.
    Run(RunFault),
    /// This file cannot be opened or read.
    Unreadable(&'a str),
    /// Nobody reads standard output any more.
    Closed,
}

impl From<RunFault> for Fault<'_> {
    ghost use Rattle.wmax_commands.specs.declared.faults.Fault.TheVariants.{Run};

    ghost from_gives = { λ fault made. made ≡ Run fault };

    fn from(fault: RunFault) -> Self {
        Fault::Run(fault)
    }
}

impl<'a> Fault<'a> {
    /// Why this file cannot be read whole.
    pub fn of_file(fault: RunFault, path: &'a str) -> Self
        ensures { result ≡ file_fault fault path.entry }
    {
        match fault {
            RunFault::Read(_) => Fault::Unreadable(path),
            _ => Fault::Run(fault),
        }
    }

    /// What becomes of a fault of FILE, which is at this path: where it cannot be read, it is
    /// named.
    pub fn of_text(self, path: &'a str) -> Self
        ensures { result ≡ fault_of_text self.entry path.entry }
    {
        match self {
            Fault::Run(
                RunFault::Read(
                    ReadFault {
                        kind: FaultKind::Read,
                        ..
                    },
                ),
            ) => Fault::Unreadable(path),
            _ => self,
        }
    }
}

/// The exit status where nobody reads standard output any more, as of a program that the system
/// ends for that: 128 and the number of the signal SIGPIPE.
const CLOSED: u8 = 141;

/// Tells why a command has no answer; the exit status. A fault that cannot be told changes no
/// status.
pub fn tell_fault<E: Write>(messages: &mut Messages<'_, E>, fault: Fault<'_>) -> u8
    ensures { result ≡ fault_status fault.entry }
{
    match fault {
        Fault::Run(fault) => {
            let _ = print_fault(&fault, messages.below());
            fault_code(&fault)
        }
        Fault::Unreadable(path) => tell_unreadable(messages, path),
        Fault::Closed => CLOSED,
    }
}

/// Tells what to do with a text that is packed.
pub(crate) fn tell_packed<E: Write>(messages: &mut Messages<'_, E>, text: &[u8]) {
    if let Some(advice) = advise_unpacking(text) {
        say(messages, advice);
    }
}

/// Tells a line. One that cannot be told changes nothing else.
pub fn say<E: Write>(messages: &mut Messages<'_, E>, line: &str) {
    let _ = writeln!(messages.below(), "{line}");
}

/// Tells why a command that reads FILE from this path has no answer; the exit status. `first` are
/// the first bytes of FILE.
pub fn tell_text_fault<E: Write>(
    messages: &mut Messages<'_, E>,
    fault: Fault<'_>,
    first: &[u8],
) -> u8
    ensures { result ≡ fault_status fault.entry }
{
    let status = tell_fault(messages, fault);
    if let Fault::Run(RunFault::Read(_)) = fault {
        tell_packed(messages, first);
    }
    status
}

/// What a command comes to once standard output is written: its fault, where that failed, or that
/// nobody reads it any more.
pub fn end_output<'a>(written: Result<u8, RunFault>, is_closed: bool) -> Result<u8, Fault<'a>>
    ensures { result ≡ output_outcome written is_closed }
{
    match written {
        Ok(status) => Ok(status),
        Err(RunFault::Output) if is_closed => Err(Fault::Closed),
        Err(fault) => Err(Fault::Run(fault)),
    }
}

/// Opens a file that is read.
///
/// # Errors
///
/// `Unreadable` where it cannot be opened.
pub fn open<'a, R: Files>(rt: &R, path: &'a str) -> Result<R::File, Fault<'a>> {
    match File::open(rt, path) {
        Ok(file) => Ok(file),
        Err(_) => Err(Fault::Unreadable(path)),
    }
}

/// Whether the file can be read more than once.
pub fn is_regular<R: Files>(rt: &R, path: &str) -> bool {
    match fs::metadata(rt, path) {
        Ok(data) => data.is_file(),
        Err(_) => false,
    }
}

/// The whole file, which is at this path.
///
/// # Errors
///
/// `Unreadable` where it cannot be read; `Run` with `Memory`.
pub fn read_whole<'a, R: AllocGlobal, F: Read>(
    rt: &R,
    file: &mut F,
    path: &'a str,
) -> Result<Vec<u8>, Fault<'a>>
    ensures whole { IfOk result
        (λ text. IfSome (F.remaining file.old) (λ all. text.items ≡ all)) }
{
    match read_file(rt, file) {
        Ok(text) => Ok(text),
        Err(fault) => Err(Fault::of_file(fault, path)),
    }
}
