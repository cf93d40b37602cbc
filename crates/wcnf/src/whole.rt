// All bytes of a reader. This is a loop over `read`, since `read_to_end` does not tell a failed
// read from refused memory.
ghost use Rattle.std.specs.Prelude.{◌≡◌, IfOk, IfErr, IfSome, OnOk, Err, true, false, ◌⊎◌};
ghost use Rattle.std.specs.Io.KnownBytes.{IsAtEnd};
ghost use Rattle.wcnf.specs.declared.faults.FaultKind.{FaultKind};
ghost use Rattle.wcnf.specs.Parsing.{TellsFailure};

use crate::faults::{FAILED, NO_MEMORY, ReadFault};
use std::alloc::Global;
use std::io::Read;
use text::watched::{READ_SIZE, WatchedReader};

/// The bytes of the reader up to its end.
///
/// # Errors
///
/// `Memory` where a growth was refused, `Read` where the reader failed; both with line 0.
pub fn read_all<R: Read>(alloc: Global, reader: &mut R) -> Result<Vec<u8>, ReadFault>
    ensures whole { IfOk result
        (λ text. IfSome (R.remaining reader.old) (λ all. text.items ≡ all)) }
    ensures at_end { OnOk result (IsAtEnd (R.remaining reader.new)) }
    ensures fault { IfErr result (λ f. (f ≡ record { kind = FaultKind.Memory; line = 0 })
        ⊎ (f ≡ record { kind = FaultKind.Read; line = 0 })) }
{
    let mut watched = WatchedReader::new(reader);
    let text = read_all_watched(alloc, &mut watched);
    let reader = watched.finish();
    // Nothing is done here: the proof learns from this use what the reader has left.
    let _ = &*reader;
    text
}

/// As `read_all`, of a reader that has not failed. Where it fails nothing more is read.
///
/// # Errors
///
/// Those of `read_all`: `Read` just where the reader has failed.
pub fn read_all_watched<R: Read>(
    alloc: Global,
    reader: &mut WatchedReader<'_, R>,
) -> Result<Vec<u8>, ReadFault>
    requires { reader.old.has_failed ≡ false }
    ensures whole { IfOk result
        (λ text. IfSome (R.remaining reader.old.reader.now) (λ all. text.items ≡ all)) }
    ensures at_end { OnOk result (IsAtEnd (R.remaining reader.new.reader.now)) }
    ensures fault { IfErr result (λ f. (f ≡ record { kind = FaultKind.Memory; line = 0 })
        ⊎ TellsFailure reader.new.has_failed f) }

    // No failure is ignored.
    ensures failed { reader.new.has_failed ≡ true
        → result ≡ Err (record { kind = FaultKind.Read; line = 0 }) }
    ensures reader { reader.new.reader.ghost_name ≡ reader.old.reader.ghost_name }
{
    let mut text = Vec::new(alloc);
    let mut chunk = [0u8; READ_SIZE];
    loop {
        let count = match reader.read(&mut chunk) {
            Ok(0) => return Ok(text),
            Ok(count) => count,
            Err(_) => return Err(FAILED),
        };
        text.extend_from_slice(&chunk[..count])
            .map_err(|_| NO_MEMORY)?;
    }
}
