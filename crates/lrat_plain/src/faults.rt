// Why there is no plain certificate.
use lrat_cuts::verdicts::Cause;
use std::alloc::AllocError;
use text::output::WriteFault;

/// Why there is no plain certificate.
#[derive(Clone, Copy, Debug, PartialEq, Eq, Drop)]
pub enum PlainFault {
    /// The certificate is faulty: why, and on which line, from 1.
    Line(Cause, u64),
    /// Memory was refused.
    Memory,
    /// The certificate could not be read.
    Read,
    /// The lines do not make what those of the first pass made.
    Changed,
    /// A writer failed.
    Output,
}

impl From<AllocError> for PlainFault {
    ghost use Rattle.std.specs.Prelude.{◌≡◌};
    ghost use Rattle.lrat_plain.specs.declared.faults.PlainFault.TheVariants.{Memory};

    ghost from_gives = { λ _ fault. fault ≡ Memory };

    fn from(_error: AllocError) -> Self {
        PlainFault::Memory
    }
}

impl From<WriteFault> for PlainFault {
    ghost use Rattle.std.specs.Prelude.{◌≡◌};
    ghost use Rattle.lrat_plain.specs.declared.faults.PlainFault.TheVariants.{Output};

    ghost from_gives = { λ _ fault. fault ≡ Output };

    fn from(_fault: WriteFault) -> Self {
        PlainFault::Output
    }
}
