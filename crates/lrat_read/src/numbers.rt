// Where a number of a line begins and ends, and what it is, however the line is written. Nearly all
// lines of a certificate are written plainly, and are read by `plain.rt` in place of this.
ghost use Rattle.std.specs.Prelude.{◌≡◌, ◌+◌, ◌<◌, ◌≤◌, ◌↔◌, length, drop, slice_index, not, false};
ghost use Rattle.std.specs.Prelude.{IsTrue, IfSome, slice_range, true};
ghost use Rattle.cnf.specs.declared.limits.TheConstants.{NUMBER_LIMIT};
ghost use Rattle.std.specs.List.{list_all};
ghost use Rattle.text.specs.Text.{tokens_of, is_blank, begins_with_token};
ghost use Rattle.lrat_read.specs.Numbers.{IsDigitsAt, IsNumber, IsNumberAt};
ghost use Rattle.lrat_read.specs.Numbers.{IsAfterLetter, IsUnsignedAt};
ghost use Rattle.lrat_read.specs.Words.{ended_number};

use cnf::limits::NUMBER_LIMIT;

/// Any number of up to this many digits fits 64 bits, and one with more is too large for an id.
const MOST_DIGITS: usize = 19;

/// What stands in a line from a place on.
#[derive(Clone, Copy, Drop)]
pub enum NumberAt {
    /// Nothing but blanks.
    End,
    /// A token that is no number below 2^62.
    Malformed,
    /// A number: whether a dash stands before it, its value, and a place after it.
    Number {
        is_dashed: bool,
        value: u64,
        end: usize,
    },
}

/// A number without a dash.
#[derive(Clone, Copy, Drop)]
pub struct UnsignedAt {
    /// Its value, below 2^62.
    pub value: u64,
    /// A place after it.
    pub end: usize,
}

/// A run of digits: its value and where it ends.
#[derive(Clone, Copy, Drop)]
pub struct Digits {
    /// What they write in base ten, below 10^19.
    pub value: u64,
    /// The place behind the last of them.
    pub end: usize,
}

#[inline(always)]
pub(crate) fn is_blank_byte(byte: u8) -> bool
    ensures { result ≡ is_blank byte }
{
    byte == b' ' || byte == b'\t'
}

/// The place of the first byte that is not a blank, or the line's length.
#[inline(always)]
pub fn skip_blanks(line: &[u8], at: usize) -> usize
    requires { at ≤ length line.now }
    ensures from { at ≤ result }
    ensures within { result ≤ length line.now }
    ensures tokens { tokens_of (drop result line.now) ≡ tokens_of (drop at line.now) }
    ensures blank { list_all is_blank (slice_range line.now at result) ≡ true }
    ensures stops { result < length line.now → is_blank (slice_index line.now result) ≡ false }
{
    let mut place = at;
    while place < line.len() && is_blank_byte(line[place]) {
        place += 1;
    }
    place
}

/// The digits from a place on, at most 19 of them.
#[inline(always)]
fn digits_at(line: &[u8], start: usize) -> Digits
    requires { start ≤ length line.now }
    ensures { IsDigitsAt line.now start result }
{
    let stop = if line.len() - start > MOST_DIGITS {
        start + MOST_DIGITS
    } else {
        line.len()
    };
    let mut value = 0;
    let mut end = start;
    while end < stop {
        let byte = line[end];
        if byte < b'0' || byte > b'9' {
            break;
        }
        value = 10 * value + u64::from(byte - b'0');
        end += 1;
    }
    Digits { value, end }
}

/// Whether no token goes on or begins here.
#[inline(always)]
fn is_token_end(line: &[u8], at: usize) -> bool
    requires { at ≤ length line.now }
    ensures { result ≡ not (begins_with_token (drop at line.now)) }
{
    at == line.len() || is_blank_byte(line[at])
}

/// Whether a run of digits is a plainly spelled number below 2^62, and a token to its end.
#[inline(always)]
fn is_number(line: &[u8], start: usize, digits: Digits) -> bool
    requires { IsDigitsAt line.now start digits }
    ensures { IsTrue result ↔ IsNumber line.now start digits }
{
    let count = digits.end - start;
    (count == 1 || count > 1 && line[start] != b'0')
        && digits.value < NUMBER_LIMIT
        && is_token_end(line, digits.end)
}

/// The number that begins at a place, or after the blanks there. The blanks after it are passed
/// over, so that the next one begins at its place.
#[inline(always)]
pub fn number_at(line: &[u8], at: usize) -> NumberAt
    requires { at ≤ length line.now }
    ensures { IsNumberAt line.now at result }
{
    let first = skip_blanks(line, at);
    if first == line.len() {
        return NumberAt::End;
    }
    let is_dashed = line[first] == b'-';
    let start = first + usize::from(is_dashed);
    let digits = digits_at(line, start);
    if is_number(line, start, digits) {
        let end = skip_blanks(line, digits.end);
        NumberAt::Number {
            is_dashed,
            value: digits.value,
            end,
        }
    } else {
        NumberAt::Malformed
    }
}

/// The number without a dash that begins at a place, or after the blanks there; None where there is
/// none.
pub fn unsigned_at(line: &[u8], at: usize) -> Option<UnsignedAt>
    requires { at ≤ length line.now }
    ensures { IsUnsignedAt line.now at result }
{
    match number_at(line, at) {
        NumberAt::Number {
            is_dashed: false,
            value,
            end,
        } => Some(UnsignedAt { value, end }),
        NumberAt::Number { .. } | NumberAt::Malformed | NumberAt::End => None,
    }
}

/// The number without a dash that begins at a place, where a 0 ends the line after it.
pub fn last_number(line: &[u8], at: usize) -> Option<u64>
    requires { at ≤ length line.now }
    ensures number { result ≡ ended_number (tokens_of (drop at line.now)) }
    ensures small { IfSome result (λ n. n < NUMBER_LIMIT) }
{
    let number = unsigned_at(line, at)?;
    let zero = unsigned_at(line, number.end)?;
    let is_last = zero.value == 0 && skip_blanks(line, zero.end) == line.len();
    is_last.then_some(number.value)
}

/// The place after the letter `d`, where that is the next token.
pub fn after_letter(line: &[u8], at: usize) -> Option<usize>
    requires { at ≤ length line.now }
    ensures { IsAfterLetter line.now at result }
{
    let first = skip_blanks(line, at);
    if first < line.len() && line[first] == b'd' && is_token_end(line, first + 1) {
        Some(first + 1)
    } else {
        None
    }
}
