// What the checker holds between lines, and what the check of a line works on.
use crate::assumed::AssumedLits;
use lrat_live::live::LiveClauses;

/// What the lines so far leave.
#[derive(Drop)]
pub(crate) struct ClauseBase {
    /// The live clauses under their ids, from 1 to `last`.
    pub(crate) live: LiveClauses,
    /// The id of the last clause that was added, or of the formula's last.
    pub(crate) last: u64,
    /// Whether the empty clause was added.
    pub(crate) ended: bool,
}

/// What the check of a line works on. Nothing of it lasts but its memory.
#[derive(Drop)]
pub(crate) struct Scratch {
    /// The literals that are assumed true; the variables of the live clauses may be.
    pub(crate) assumed: AssumedLits,
    /// The ids that the line names as candidates.
    pub(crate) candidates: Vec<u64>,
}
