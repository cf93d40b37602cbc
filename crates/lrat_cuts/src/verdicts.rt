// What the checker answers.
pub use lrat_machine::verdicts::{Cause, Verdict};
use std::alloc::AllocError;

/// What a certificate proves by itself.
#[derive(Clone, Copy, Debug, PartialEq, Eq, Drop)]
pub enum LowerVerdict {
    /// No solution costs less than this, which is at most 2^62; that much says that there is none.
    AtLeast(u64),
    /// Nothing: the first fault, and its line from 1.
    No(Cause, u64),
}

/// Why a checker takes no more.
#[derive(Clone, Copy, Debug, PartialEq, Eq, Drop)]
pub enum FeedFault {
    /// Memory was refused. No certificate is judged from there on.
    Memory,
    /// Memory was refused before.
    Failed,
}

/// Why a certificate could not be read.
#[derive(Clone, Copy, Debug, PartialEq, Eq, Drop)]
pub enum CheckFault {
    /// Memory was refused.
    Memory,
    /// The reader failed.
    Read,
}

impl From<AllocError> for CheckFault {
    ghost use Rattle.std.specs.Prelude.{◌≡◌};
    ghost use Rattle.lrat_cuts.specs.declared.verdicts.CheckFault.TheVariants.{Memory};

    ghost from_gives = { λ _ fault. fault ≡ Memory };

    fn from(_error: AllocError) -> Self {
        CheckFault::Memory
    }
}

impl From<FeedFault> for CheckFault {
    ghost use Rattle.std.specs.Prelude.{◌≡◌};
    ghost use Rattle.lrat_cuts.specs.declared.verdicts.CheckFault.TheVariants.{Memory};

    ghost from_gives = { λ _ fault. fault ≡ Memory };

    fn from(_fault: FeedFault) -> Self {
        CheckFault::Memory
    }
}
