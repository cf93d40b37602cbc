// What the checker answers.
use lrat_cuts::verdicts::{CheckFault as CutsReadFault, FeedFault as CutsFeedFault};
pub use lrat_machine::verdicts::{Cause, Verdict};
use std::alloc::AllocError;

/// Why a checker takes no more.
#[derive(Clone, Copy, Debug, PartialEq, Eq, Drop)]
pub enum FeedFault {
    /// Memory was refused. No certificate is judged from there on.
    Memory,
    /// Memory was refused before.
    Failed,
}

/// Why there is no verdict on a certificate that is read.
#[derive(Clone, Copy, Debug, PartialEq, Eq, Drop)]
pub enum CheckFault {
    /// Memory was refused.
    Memory,
    /// The reader failed.
    Read,
}

impl From<AllocError> for CheckFault {
    ghost use Rattle.std.specs.Prelude.{◌≡◌};
    ghost use Rattle.lrat_check.specs.declared.verdicts.CheckFault.TheVariants.{Memory};

    ghost from_gives = { λ _ fault. fault ≡ Memory };

    fn from(_error: AllocError) -> Self {
        CheckFault::Memory
    }
}

impl From<FeedFault> for CheckFault {
    ghost use Rattle.std.specs.Prelude.{◌≡◌};
    ghost use Rattle.lrat_check.specs.declared.verdicts.CheckFault.TheVariants.{Memory};

    ghost from_gives = { λ _ fault. fault ≡ Memory };

    fn from(_fault: FeedFault) -> Self {
        CheckFault::Memory
    }
}

impl From<CutsFeedFault> for CheckFault {
    ghost use Rattle.std.specs.Prelude.{◌≡◌};
    ghost use Rattle.lrat_check.specs.declared.verdicts.CheckFault.TheVariants.{Memory};

    ghost from_gives = { λ _ fault. fault ≡ Memory };

    fn from(_fault: CutsFeedFault) -> Self {
        CheckFault::Memory
    }
}

impl From<CutsReadFault> for CheckFault {
    ghost use Rattle.std.specs.Prelude.{◌≡◌, ◌↔◌};
    ghost use Rattle.lrat_cuts.specs.declared.verdicts.CheckFault.TheVariants.{Memory as Refused};
    ghost use Rattle.lrat_check.specs.declared.verdicts.CheckFault.TheVariants.{Memory};

    ghost from_gives = { λ given fault. (fault ≡ Memory) ↔ (given ≡ Refused) };

    fn from(fault: CutsReadFault) -> Self {
        match fault {
            CutsReadFault::Memory => CheckFault::Memory,
            CutsReadFault::Read => CheckFault::Read,
        }
    }
}
