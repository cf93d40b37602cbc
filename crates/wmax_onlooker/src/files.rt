//! Files that are read whole.
ghost use Rattle.std.specs.Prelude.{◌≡◌, IfOk, IfErr, IfSome, OnOk};
ghost use Rattle.std.specs.Io.KnownBytes.{IsAtEnd};
ghost use Rattle.wmax_onlooker.specs.Files.{IsFileFault};

use crate::standard_error::Messages;
use explain_text::showing::Shown;
use report_text::fault::RunFault;
use std::io::{Read, Write};
use wcnf::faults::{FaultKind, ReadFault};
use wcnf::whole::read_all;

/// The fault of a file that cannot be opened or read.
pub const UNREADABLE: RunFault = RunFault::Read(ReadFault {
    kind: FaultKind::Read,
    line: 0,
});

/// The whole file's bytes.
///
/// # Errors
///
/// `Memory` where a growth was refused; `UNREADABLE` where the file cannot be read.
pub fn read_file<R: AllocGlobal, F: Read>(rt: &R, file: &mut F) -> Result<Vec<u8>, RunFault>
    ensures whole { IfOk result
        (λ text. IfSome (F.remaining file.old) (λ all. text.items ≡ all)) }
    ensures at_end { OnOk result (IsAtEnd (F.remaining file.new)) }
    ensures fault { IfErr result IsFileFault }
{
    Ok(read_all(rt.alloc(), file)?)
}

/// Tells that this file cannot be opened or read; the exit status.
pub fn tell_unreadable<E: Write>(messages: &mut Messages<'_, E>, path: &str) -> u8
    ensures status { result ≡ 3 }
{
    let _ = writeln!(messages.below(), "error: Read {}", Shown(path));
    3
}
