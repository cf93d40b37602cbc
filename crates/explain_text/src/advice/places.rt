// Where in a faulty line the word stands at which it is faulty.
use super::EMPTY;
use crate::mending::MOST_SHOWN;
use cnf::limits::MOST_VARIABLES;
use text::cutting::tokens;
use text::digits::{is_blank, number};
use text::pieces::Tokens;
use text::words::{Word, read_word};

/// The word of the line with this number, which counts from 0; nothing where there is none.
pub(super) fn word_at(line: &[u8], place: usize) -> &[u8] {
    let mut left = place;
    for word in tokens(line) {
        if left == 0 {
            return word;
        }
        left -= 1;
    }
    EMPTY
}

/// How many variables a header says, where a `u32` holds them.
pub(super) fn variables_of(header: &[u8]) -> u32 {
    match number(word_at(header, 2)) {
        Some(variables) => variables.min(u64::from(MOST_VARIABLES)) as u32,
        None => MOST_VARIABLES,
    }
}

/// The words of a clause line after its first.
fn words_of(line: &[u8]) -> Tokens<'_> {
    let mut words = tokens(line);
    let _ = words.next();
    words
}

/// Which word is the first that is no literal and no 0; none where there is none.
pub(super) fn first_other(line: &[u8]) -> Option<usize> {
    let mut place: usize = 1;
    for word in words_of(line) {
        if matches!(read_word(word), Word::Other) {
            return Some(place);
        }
        place = place.saturating_add(1);
    }
    None
}

/// Whether the first word that is no literal and no 0 stands after a 0.
pub(super) fn is_behind_zero(line: &[u8]) -> bool {
    let mut is_ended = false;
    for word in words_of(line) {
        match read_word(word) {
            Word::Other => return is_ended,
            Word::End => is_ended = true,
            _ => {}
        }
    }
    false
}

/// Which word is the first after the 0; none where there is none.
pub(super) fn first_after_zero(line: &[u8]) -> Option<usize> {
    let mut place: usize = 1;
    let mut is_ended = false;
    for word in words_of(line) {
        if is_ended {
            return Some(place);
        }
        is_ended = matches!(read_word(word), Word::End);
        place = place.saturating_add(1);
    }
    None
}

/// Which word is the first literal with a variable above this one; none where there is none.
pub(super) fn first_above(line: &[u8], most: u32) -> Option<usize> {
    let mut place: usize = 1;
    for word in words_of(line) {
        match read_word(word) {
            Word::Above => return Some(place),
            Word::Literal(lit) if lit.variable() > most => return Some(place),
            _ => {}
        }
        place = place.saturating_add(1);
    }
    None
}

/// How many bytes stand before the word of this number, which counts from 0.
pub(super) fn word_start(line: &[u8], place: usize) -> usize {
    let mut left = place;
    let mut is_between = true;
    for (at, byte) in line.iter().enumerate() {
        if is_between && !is_blank(*byte) {
            if left == 0 {
                return at;
            }
            left -= 1;
        }
        is_between = is_blank(*byte);
    }
    line.len()
}

/// The column of a word of `length` bytes with `start` bytes before it; 0 where the line as it is
/// shown has the whole word. No character before a faulty word takes more than one byte.
pub(super) fn hidden_column(start: usize, length: usize) -> usize {
    if start.saturating_add(length) <= MOST_SHOWN {
        0
    } else {
        start.saturating_add(1)
    }
}
