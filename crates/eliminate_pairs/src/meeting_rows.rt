// Where pairs meet. A first walk over the store counts them in a sketch; a second one writes down
// those with a large counter, each with its clause, so what is written down stays small on sparse
// formulas. Each walk ends after a fixed number of pairs. What was written down is dealt into a row
// for each lower literal.
use crate::frequencies::{Frequencies, LONGEST};
use crate::sketch::Sketch;
use clauses::store::Store;
use std::alloc::{AllocError, Global};

/// How many pairs a walk looks at.
const MOST_MEETINGS: usize = 1 << 23;

/// Two literals that stand together in a clause.
#[derive(Clone, Copy, Drop)]
struct Meeting {
    // The index of the lower literal.
    left: u32,
    // The index of the higher one.
    right: u32,
    // The place of the clause in the store.
    place: u32,
}

const _: () = prove!(size_of::<Meeting>() == 12);

/// The meetings of the pairs that may stand in enough clauses, in the order of the store.
fn meetings_of(
    alloc: Global,
    store: &Store,
    frequencies: &Frequencies,
) -> Result<Vec<Meeting>, AllocError> {
    let mut lits = Vec::new(alloc);
    let (sketch, end) = sketch_of(alloc, store, frequencies, &mut lits)?;
    // Room for all at once: a list that doubles leaves its old places between what comes later.
    let mut meetings = Vec::with_capacity(alloc, sketch.many)?;
    for place in frequencies.first..end {
        frequencies.list(store, place, &mut lits)?;
        write_down(&mut meetings, &sketch, &lits, place)?;
    }
    Ok(meetings)
}

/// Counts the pairs of the store, up to the place where they are too many.
fn sketch_of(
    alloc: Global,
    store: &Store,
    frequencies: &Frequencies,
    lits: &mut Vec<u32>,
) -> Result<(Sketch, usize), AllocError> {
    let mut pairs = 0usize;
    let mut end = frequencies.first;
    for place in frequencies.first..store.places() {
        frequencies.list(store, place, lits)?;
        let length = lits.len().min(LONGEST);
        pairs = pairs.saturating_add(length * length / 2);
        if pairs > MOST_MEETINGS {
            break;
        }
        end = place + 1;
    }
    let mut sketch = Sketch::new(alloc, pairs, frequencies.fewest)?;
    for place in frequencies.first..end {
        frequencies.list(store, place, lits)?;
        for j in 0..lits.len() {
            for i in 0..j {
                sketch.count(lits[i].min(lits[j]), lits[i].max(lits[j]));
            }
        }
    }
    Ok((sketch, end))
}

/// Writes down the pairs of a clause that may stand in enough clauses, the first literals first.
fn write_down(
    meetings: &mut Vec<Meeting>,
    sketch: &Sketch,
    lits: &[u32],
    place: usize,
) -> Result<(), AllocError> {
    for i in 0..lits.len() {
        for j in i + 1..lits.len() {
            let left = lits[i].min(lits[j]);
            let right = lits[i].max(lits[j]);
            if sketch.is_many(left, right) {
                meetings.push(Meeting {
                    left,
                    right,
                    place: u32::try_from(place).unwrap_or(u32::MAX),
                })?;
            }
        }
    }
    Ok(())
}

/// The meetings in rows, and where each row ends.
pub(crate) fn rows_of(
    alloc: Global,
    store: &Store,
    frequencies: &Frequencies,
) -> Result<(Vec<u64>, Vec<u32>), AllocError> {
    let written = meetings_of(alloc, store, frequencies)?;
    dealt(alloc, &written, frequencies.literals())
}

/// The index of the higher literal of a meeting.
pub(crate) fn right_of(meeting: u64) -> u32 {
    (meeting >> 32) as u32
}

/// The place of the clause of a meeting.
pub(crate) fn place_of(meeting: u64) -> u32 {
    (meeting & 0xFFFF_FFFF) as u32
}

/// The meetings in `rows` rows, by lower literal, and where each row ends.
fn dealt(
    alloc: Global,
    written: &[Meeting],
    rows: usize,
) -> Result<(Vec<u64>, Vec<u32>), AllocError> {
    let mut ends = Vec::from_elem(alloc, 0u32, rows)?;
    for meeting in written {
        if let Some(count) = ends.get_mut(meeting.left as usize) {
            *count = count.saturating_add(1);
        }
    }
    let mut sum = 0u32;
    for end in ends.iter_mut() {
        let count = *end;
        *end = sum;
        sum = sum.saturating_add(count);
    }
    let mut meetings = Vec::from_elem(alloc, 0u64, written.len())?;
    for meeting in written {
        if let Some(end) = ends.get_mut(meeting.left as usize) {
            if let Some(word) = meetings.get_mut(*end as usize) {
                *word = u64::from(meeting.right) << 32 | u64::from(meeting.place);
            }
            *end = end.saturating_add(1);
        }
    }
    Ok((meetings, ends))
}
