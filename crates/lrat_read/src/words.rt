// The word that begins a line.
ghost use Rattle.std.specs.Prelude.{◌≡◌, ◌≤◌, length, drop, slice_range, not, true, false};
ghost use Rattle.std.specs.List.{list_all};
ghost use Rattle.text.specs.Text.{is_blank, begins_with_token};
ghost use Rattle.lrat_read.specs.Words.{word_of};
ghost use Rattle.lrat_read.specs.Words.{IsWordAt, IsAfterPlus};

use crate::numbers::{is_blank_byte, skip_blanks};

/// What a line that begins with a word brings.
#[derive(Clone, Copy, Debug, PartialEq, Eq, Drop)]
pub enum Word {
    /// A count over literals.
    Count,
    /// One more output of a count.
    More,
    /// A group: literals of which at most one is true.
    Group,
    /// A form, or further facts for the present one.
    Form,
    /// A clause that follows from the present form.
    Cut,
    /// A lower bound of the cost that follows from the present form.
    Bound,
}

/// The word that begins a line.
#[derive(Clone, Copy, Drop)]
pub(crate) struct WordAt {
    // Which word it is.
    pub(crate) word: Word,
    // The place behind it.
    pub(crate) end: usize,
}

/// The place of the first blank from here on, or the line's length.
fn token_end(line: &[u8], start: usize) -> usize
    requires { start ≤ length line.now }
    ensures from { start ≤ result }
    ensures within { result ≤ length line.now }
    ensures solid { list_all (λ b. not (is_blank b)) (slice_range line.now start result) ≡ true }
    ensures stops { begins_with_token (drop result line.now) ≡ false }
{
    let mut end = start;
    while end < line.len() && !is_blank_byte(line[end]) {
        end += 1;
    }
    end
}

/// Which word a token is, if it is one.
pub fn known_word(token: &[u8]) -> Option<Word>
    ensures { result ≡ word_of token.now }
{
    if token == b"cut".as_slice() {
        Some(Word::Cut)
    } else if token == b"form".as_slice() {
        Some(Word::Form)
    } else if token == b"bound".as_slice() {
        Some(Word::Bound)
    } else if token == b"count".as_slice() {
        Some(Word::Count)
    } else if token == b"more".as_slice() {
        Some(Word::More)
    } else if token == b"group".as_slice() {
        Some(Word::Group)
    } else {
        None
    }
}

/// The word that begins the line; None where its first token is no word, or there is no token.
/// Nearly all lines begin with a digit, and of those nothing else is looked at.
#[inline]
pub(crate) fn word_at(line: &[u8]) -> Option<WordAt>
    ensures { IsWordAt line.now result }
{
    let start = skip_blanks(line, 0);
    if start == line.len() || line[start] < b'a' {
        return None;
    }
    let end = token_end(line, start);
    let word = known_word(&line[start..end])?;
    Some(WordAt { word, end })
}

/// The place behind the token `+`, where that is the next one.
pub(crate) fn after_plus(line: &[u8], at: usize) -> Option<usize>
    requires { at ≤ length line.now }
    ensures { IsAfterPlus line.now at result }
{
    let start = skip_blanks(line, at);
    let end = token_end(line, start);
    (&line[start..end] == b"+".as_slice()).then_some(end)
}
