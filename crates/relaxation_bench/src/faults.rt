// What keeps the program from its answer.
use std::alloc::AllocError;

/// Why the program has no answer.
#[derive(Clone, Copy, Debug, PartialEq, Eq, Drop)]
pub(crate) enum BenchFault {
    /// The words of the command line are others, or there is no round.
    Usage,
    /// The file could not be read.
    Read,
    /// The text is no instance.
    Text,
    /// Memory was refused.
    Memory,
}

impl From<AllocError> for BenchFault {
    fn from(_error: AllocError) -> Self {
        BenchFault::Memory
    }
}
