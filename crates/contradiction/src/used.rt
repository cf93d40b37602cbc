// Which clauses of a formula a certificate uses: those that the hints name from the empty clause
// back. Nothing rests on it.
use std::alloc::{AllocError, Global};
use text::cutting::{lines, number, tokens};

/// For each of `count` clauses of the formula, which are numbered from 1, whether the certificate
/// uses it; true of all where its lines are numbered with large gaps.
pub(crate) fn used_by(alloc: Global, proof: &[u8], count: usize) -> Result<Vec<bool>, AllocError> {
    let additions = additions_of(alloc, proof)?;
    let most = proof.len().saturating_add(count);
    match additions.last() {
        Some(last) if last.id <= most as u64 => marks_of(alloc, &additions, most, count),
        _ => Ok(Vec::from_elem(alloc, true, count)?),
    }
}

/// A line that adds a clause.
#[derive(Clone, Copy)]
struct Addition<'a> {
    // The number of the clause.
    id: u64,
    // The line.
    line: &'a [u8],
}

/// The lines that add a clause.
fn additions_of(alloc: Global, proof: &[u8]) -> Result<Vec<Addition<'_>>, AllocError> {
    let mut additions = Vec::new(alloc);
    for (_, line) in lines(proof) {
        let mut words = tokens(line);
        let (Some(id), Some(next)) = (words.next(), words.next()) else {
            continue;
        };
        if let Some(id) = number(id) {
            if next != DELETION {
                additions.push(Addition { id, line })?;
            }
        }
    }
    Ok(additions)
}

/// The second word of a line that deletes clauses.
const DELETION: &[u8] = b"d";

/// What ends the literals of a line, and its hints.
const END: &[u8] = b"0";

/// Which of the first clauses are used, where no number is above this one, which is no less than
/// their count.
fn marks_of(
    alloc: Global,
    additions: &[Addition<'_>],
    most: usize,
    count: usize,
) -> Result<Vec<bool>, AllocError> {
    let mut marks = Vec::from_elem(alloc, false, most)?;
    if let Some(last) = additions.last() {
        mark(&mut marks, last.id);
    }
    for addition in additions.iter().rev() {
        if is_marked(&marks, addition.id) {
            mark_hints(&mut marks, addition.line);
        }
    }
    marks.truncate(count);
    Ok(marks)
}

/// Marks the clause of this number, if it has a place.
fn mark(marks: &mut [bool], id: u64) {
    if 0 < id && id <= marks.len() as u64 {
        marks[id as usize - 1] = true;
    }
}

/// Whether the clause of this number has a place, and is marked.
fn is_marked(marks: &[bool], id: u64) -> bool {
    0 < id && id <= marks.len() as u64 && marks[id as usize - 1]
}

/// Marks the clauses that the hints of a line name: what stands behind its first 0.
fn mark_hints(marks: &mut [bool], line: &[u8]) {
    let mut is_behind = false;
    for word in tokens(line) {
        if is_behind {
            if let Some(id) = number(word.strip_prefix(b"-").unwrap_or(word)) {
                mark(marks, id);
            }
        }
        is_behind = is_behind || word == END;
    }
}
