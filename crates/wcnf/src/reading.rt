// Reading a WCNF text, given as bytes or by a reader.
ghost use Rattle.std.specs.Prelude.{◌≡◌, IfOk, IfErr, OnOk, IfSome, Err, is_err, true, false, ◌⊎◌};
ghost use Rattle.std.specs.Io.KnownBytes.{IsAtEnd};
ghost use Rattle.cnf.specs.Problem.{Problem};
ghost use Rattle.wcnf.specs.declared.faults.FaultKind.{FaultKind};
ghost use Rattle.wcnf.specs.Wcnf.{Reads};
ghost use Rattle.wcnf.specs.Reading.{IsFirstFault};
ghost use Rattle.wcnf.specs.Parsing.{IsFaultOf, TellsFailure};

use crate::faults::{FAILED, ReadFault};
use crate::parser::Parser;
use cnf::types::Instance;
use std::alloc::Global;
use std::io::Read;
use text::watched::{READ_SIZE, ReadFailure, WatchedReader};

/// The instance that a WCNF text reads as, in the form of the MaxSAT Evaluation 2022 or in the
/// older one with a header.
///
/// Each line is blank, a comment that begins with `c`, or a clause: `h` or a weight from 1 to
/// 2^62 - 1, then literals, then `0`. Repeated literals are dropped, the first place stays, and the
/// variables are those up to the greatest one.
///
/// In the older form the first line that is neither blank nor a comment is the header `p wcnf V C
/// T`: then there are V variables and C clauses, each with a weight from 1 to T, and weight T makes
/// a clause hard.
///
/// # Errors
///
/// The first fault of the text with its line, as `FaultKind` lists them, among them a limit that is
/// passed; or `Memory` with line 0 where a growth was refused.
pub fn read(alloc: Global, text: &[u8]) -> Result<Instance, ReadFault>
    ensures instance { IfOk result (λ i. Reads text.now i) }
    ensures only_one { IfOk result (λ i. (p : Problem) → Reads text.now p → p ≡ i) }
    ensures fault { IfErr result
        (λ f. (f ≡ record { kind = FaultKind.Memory; line = 0 })
        ⊎ IsFirstFault text.now f.kind f.line) }
{
    let mut parser = Parser::new(alloc);
    parser.feed(text)?;
    parser.finish()
}

/// As `read`, of all bytes that the reader gives. They are read in pieces, and of the text only the
/// instance and the line that is being read are in memory.
///
/// # Errors
///
/// `Read` with line 0 where the reader failed, of whatever kind its error is, also where it failed
/// after a faulty line; else those of `read`. A text of 2^64 pieces or more counts as a failed
/// read.
pub fn read_from<R: Read>(alloc: Global, reader: &mut R) -> Result<Instance, ReadFault>
    ensures at_end { OnOk result (IsAtEnd (R.remaining reader.new)) }
    ensures instance { IfOk result (λ i. IfSome (R.remaining reader.old) (λ text. Reads text i)) }
    ensures only_one { IfOk result
        (λ i. IfSome (R.remaining reader.old) (λ text. (p : Problem) → Reads text p → p ≡ i)) }

    // The reader's own fault, or that of the whole text, which was read to its end.
    ensures fault { IfErr result (λ f. (f ≡ record { kind = FaultKind.Memory; line = 0 })
        ⊎ (f ≡ record { kind = FaultKind.Read; line = 0 })
        ⊎ IfSome (R.remaining reader.old) (λ text. IsFirstFault text f.kind f.line)) }
    ensures whole { IfErr result (λ f. (f ≡ record { kind = FaultKind.Read; line = 0 })
        ⊎ IsAtEnd (R.remaining reader.new)) }
{
    let mut watched = WatchedReader::new(reader);
    let instance = read_watched(alloc, &mut watched);
    let reader = watched.finish();
    // Nothing is done here: the proof learns from this use what the reader has left.
    let _ = &*reader;
    instance
}

/// As `read_from`, of a reader that has not failed. Where it fails nothing more is read.
///
/// # Errors
///
/// Those of `read_from`: `Read` just where the reader has failed.
pub fn read_watched<R: Read>(
    alloc: Global,
    reader: &mut WatchedReader<'_, R>,
) -> Result<Instance, ReadFault>
    requires { reader.old.has_failed ≡ false }
    ensures at_end { OnOk result (IsAtEnd (R.remaining reader.new.reader.now)) }
    ensures instance { IfOk result
        (λ i. IfSome (R.remaining reader.old.reader.now) (λ text. Reads text i)) }
    ensures only_one { IfOk result (λ i. IfSome (R.remaining reader.old.reader.now)
        (λ text. (p : Problem) → Reads text p → p ≡ i)) }

    // The reader has failed, or this is the fault of the whole text, which was read to its end.
    ensures fault { IfErr result (λ f. (f ≡ record { kind = FaultKind.Memory; line = 0 })
        ⊎ TellsFailure reader.new.has_failed f ⊎ IsFaultOf (R.remaining reader.old.reader.now) f) }
    ensures whole { IfErr result (λ f. (f ≡ record { kind = FaultKind.Read; line = 0 })
        ⊎ IsAtEnd (R.remaining reader.new.reader.now)) }

    // No failure is ignored.
    ensures failed { reader.new.has_failed ≡ true
        → result ≡ Err (record { kind = FaultKind.Read; line = 0 }) }
    ensures reader { reader.new.reader.ghost_name ≡ reader.old.reader.ghost_name }
{
    let mut parser = Parser::new(alloc);
    let mut chunk = [0u8; READ_SIZE];
    // Dropped by calls: that is proved once, and not field by field here.
    'pieces: loop {
        let count = match reader.read(&mut chunk) {
            Ok(0) => return parser.finish(),
            Ok(count) => count,
            Err(_) => {
                drop(parser);
                return Err(FAILED);
            }
        };
        if let Err(fault) = parser.feed(&chunk[..count]) {
            drop(parser);
            read_on(reader)?;
            return Err(fault);
        }
    }
}

/// Reads to the end, and keeps nothing.
fn read_on<R: Read>(reader: &mut WatchedReader<'_, R>) -> Result<(), ReadFault>
    requires { reader.old.has_failed ≡ false }
    ensures at_end { OnOk result (IsAtEnd (R.remaining reader.new.reader.now)) }
    ensures fault { IfErr result (λ f. f ≡ record { kind = FaultKind.Read; line = 0 }) }
    ensures failed { reader.new.has_failed ≡ is_err result }
    ensures reader { reader.new.reader.ghost_name ≡ reader.old.reader.ghost_name }
{
    let mut chunk = [0u8; READ_SIZE];
    'rest: loop {
        match reader.read(&mut chunk) {
            Ok(0) => return Ok(()),
            Ok(_) => {}
            Err(ReadFailure) => return Err(FAILED),
        }
    }
}
