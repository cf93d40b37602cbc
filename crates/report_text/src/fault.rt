//! Why a run of the program ended without an answer.
ghost use Rattle.std.specs.Prelude.{◌≡◌};

use bound::encoding::EncodeFault;
use std::fmt;
use thiserror::Error;
use wcnf::faults::{FaultKind, ReadFault};

/// Why there is no answer. Its `Display` is what the program says of it.
#[derive(Clone, Copy, Debug, PartialEq, Eq, Error)]
pub enum RunFault {
    /// The text is faulty, or its reader failed (then its kind is `Read` and its line 0). Its kind
    /// is never `Memory`.
    #[error("{}", TextFault(*.0))]
    Read(ReadFault),
    /// A growth was refused.
    #[error("Memory")]
    Memory,
    /// The writer of the answer failed.
    #[error("Output")]
    Output,
    /// The writer of the certificate failed.
    #[error("ProofOutput")]
    ProofOutput,
}

/// Want of memory while a text is read is a fault of its own.
impl From<ReadFault> for RunFault {
    ghost use Rattle.report_text.specs.Faults.{IsRunFault};

    ghost from_gives = { IsRunFault };

    fn from(fault: ReadFault) -> RunFault {
        match fault.kind {
            FaultKind::Memory => RunFault::Memory,
            _ => RunFault::Read(fault),
        }
    }
}

/// The faults of a formula that is written, by their names.
impl From<EncodeFault> for RunFault {
    ghost use Rattle.report_text.specs.Faults.{encode_fault};

    ghost from_gives = { λ f g. g ≡ encode_fault f };

    fn from(fault: EncodeFault) -> RunFault {
        match fault {
            EncodeFault::Memory => RunFault::Memory,
            EncodeFault::Output => RunFault::Output,
        }
    }
}

// A fault of a text with its line, or that there is no text.
#[derive(Drop)]
struct TextFault(ReadFault);

impl fmt::Display for TextFault {
    fn fmt<W: fmt::Write>(&self, f: &mut fmt::Formatter<W>) -> fmt::Result {
        let ReadFault { kind, line } = self.0;
        match kind {
            FaultKind::Read => write!(f, "Read"),
            _ => write!(f, "line {line}: {kind:?}"),
        }
    }
}
