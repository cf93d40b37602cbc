// A certificate of forms and cuts that a reader gives.
ghost use Rattle.std.specs.Prelude.{◌≡◌, OnOk, None};
ghost use Rattle.std.specs.Io.KnownBytes.{IsAtEnd};
ghost use Rattle.lrat_cuts.specs.Pieces.{JudgesMore};

use crate::pieces::CutsChecker;
use crate::verdicts::CheckFault;
use std::io::Read;
use text::watched::READ_SIZE;

/// Hands the checker what the reader gives, up to the first faulty line or the end. A certificate
/// of 2^64 bytes or more counts as a failed read.
///
/// # Errors
///
/// `Memory` where memory was refused, then or before, and `Read` where the reader failed.
pub fn judge<R: Read>(checker: &mut CutsChecker, proof: &mut R) -> Result<(), CheckFault>
    ensures judges { OnOk result (JudgesMore checker.old checker.new
        (R.remaining proof.old) (R.remaining proof.new)) }
    ensures whole { OnOk result ((checker.new.reading).refused ≡ None
        → IsAtEnd (R.remaining proof.new)) }
{
    let mut chunk = [0u8; READ_SIZE];
    'pieces: while checker.refused().is_none() {
        let count = match proof.read(&mut chunk) {
            Ok(0) => return Ok(()),
            Ok(count) => count,
            Err(_) => return Err(CheckFault::Read),
        };
        if checker.fed() > u64::MAX - count as u64 {
            return Err(CheckFault::Read);
        }
        checker.feed(&chunk[..count])?;
    }
    Ok(())
}
