// Where many clauses are live, each look-up of a hint waits for memory. So before some lines are
// judged, what the look-ups of their hints will read is read once, in a loop that does nothing
// else: there no reading waits for the one before it, and the look-ups then find all in the caches.
//
// Measured in one run against the plain C checker, over a million live clauses and lines of twelve
// hints, on a quiet machine: 3.2 times as fast, where sixteen look-ups of a line together, and each
// line for itself, gave 2.5 to 2.7. Tried: first all places and then all literals in two loops, 20
// to 35 % slower. Small certificates, of which all is in the caches, are better off without.
use lrat_live::live::LiveClauses;
use lrat_read::batch::Batch;

/// How many lines are read ahead together.
const LINES: usize = 16;

/// With more clauses than these the caches do not hold what look-ups read.
const MANY: usize = 32_768;

/// Reads ahead for the lines from a place on, where that pays and these lines are due. The answer
/// is made of all that was read, so that no reading can be left out; nothing else is to be had
/// from it.
pub(crate) fn read_ahead(live: &LiveClauses, batch: &Batch, from: usize) -> usize {
    let mut seen = 0usize;
    if from % LINES != 0 || live.entries() <= MANY {
        return seen;
    }
    for place in from..batch.len().min(from.saturating_add(LINES)) {
        for hint in batch.get(place).line.hints() {
            if let Some([first, ..]) = live.find(hint.id()) {
                seen = seen.wrapping_add(first.index());
            }
        }
    }
    seen
}
