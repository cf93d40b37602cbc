// The pairs that meet often. Only rows that can hold such a pair are sorted, by one word a meeting;
// all meetings sorted at once by three words took more time than the rest.
use crate::meeting_rows::{place_of, right_of};
use std::alloc::{AllocError, Global};

/// A pair with its meetings. The order puts the pair of most meetings first, and then the pair that
/// was met first; of two that met first in one clause, the one of lower indices.
#[derive(Clone, Copy, PartialEq, Eq, PartialOrd, Ord, Drop)]
pub(crate) struct Run {
    // A number that falls as the meetings are more.
    rarity: u32,
    // The place of the clause of the first meeting.
    place: u32,
    /// The place of the first meeting among those of all pairs.
    pub(crate) start: u32,
    /// The place after the last one.
    pub(crate) end: u32,
    /// The index of the lower literal.
    pub(crate) left: u32,
}

/// The pairs with at least `fewest` meetings, whose rows are sorted.
pub(crate) fn runs_of(
    alloc: Global,
    meetings: &mut [u64],
    ends: &[u32],
    fewest: usize,
) -> Result<Vec<Run>, AllocError> {
    let mut runs = Vec::new(alloc);
    let mut start = 0u32;
    for left in 0..ends.len() {
        let end = ends[left];
        if end.saturating_sub(start) as usize >= fewest {
            if let Some(row) = meetings.get_mut(start as usize..end as usize) {
                row.sort_unstable();
                add_runs(&mut runs, row, start, left, fewest)?;
            }
        }
        start = end;
    }
    Ok(runs)
}

/// Adds the runs of a row that starts at this place.
fn add_runs(
    runs: &mut Vec<Run>,
    row: &[u64],
    start: u32,
    left: usize,
    fewest: usize,
) -> Result<(), AllocError> {
    let mut first = 0usize;
    for end in 1..row.len() + 1 {
        if is_within(row, first, end) {
            continue;
        }
        let count = end.saturating_sub(first);
        if count >= fewest {
            if let Some(meeting) = row.get(first) {
                let from = start.saturating_add(word(first));
                runs.push(Run {
                    rarity: u32::MAX - word(count),
                    place: place_of(*meeting),
                    start: from,
                    end: from.saturating_add(word(count)),
                    left: word(left),
                })?;
            }
        }
        first = end;
    }
    Ok(())
}

/// A number that fits a word here.
fn word(number: usize) -> u32 {
    u32::try_from(number).unwrap_or(u32::MAX)
}

/// Whether the second meeting of a row is of the pair of the first.
fn is_within(row: &[u64], first: usize, second: usize) -> bool {
    match (row.get(first), row.get(second)) {
        (Some(a), Some(b)) => right_of(*a) == right_of(*b),
        _ => false,
    }
}
