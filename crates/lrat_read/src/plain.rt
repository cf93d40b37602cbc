// A line that is written plainly, read in one pass: single spaces, numbers of at most eight digits,
// and nothing behind the last 0. This is the inner loop of a check: nearly every byte of a
// certificate is looked at here. All other lines are left to the reader of any line.
//
// The last byte of a line is its line feed, which is no digit, so that no digit needs a test for
// the line's end; a number takes two bytes at least, so that the room of the buffers is asked for
// once a line. The compiler makes one loop without calls of it.
// Many lines are read before the first of them is judged. Read and judged so, certificates of
// pigeons and of random clauses take an eighth to a tenth less time than line by line with buffers
// that grow. What was tried, each by the time of whole checks: buffers of fixed room, but each line
// judged before the next is read, 5 % more; buffers that grow, 5 % more; eight digits at once by
// multiplications, and the places of separators by masks, no less; batches of 512, of 4,096 and of
// all numbers of a piece, all the same. A literal's dash is added to its place, since nothing says
// which literals have one; hints have a dash so seldom that they are read without it first.
ghost use Rattle.std.specs.Prelude.{◌≡◌, ◌+◌, ◌<◌, ◌≤◌, List, length, slice_index, false, IfSome};
ghost use Rattle.cnf.specs.Literal.{Literal};
ghost use Rattle.lrat_read.specs.Numbers.{IsNumberAt};
ghost use Rattle.lrat_read.specs.Plain.{EndsInFeed, before_feed, IsPlainDigits, IsPlainNumber};
ghost use Rattle.lrat_read.specs.Plain.{IsPastSpace, ArePlainLits, ArePlainHints, HasRoomFrom};
ghost use Rattle.lrat_read.specs.Plain.{HasLineRoom, IsKeptBefore, AreKeptBefore, IsPlainLine};
ghost use Rattle.lrat_read.specs.declared.numbers.NumberAt.TheVariants.{Number};

use crate::numbers::Digits;
use crate::types::{Form, SignedId};
use cnf::types::Lit;

/// A number of a plain line has no more digits: it is below 10^8, and so below the greatest bound
/// of a literal.
const MOST_PLAIN_DIGITS: usize = 8;

/// The byte of the digit 0.
const ZERO: u64 = 48;

/// Where a line's numbers stand in the buffers.
#[derive(Clone, Copy, Drop)]
pub struct LineSpan {
    /// `Addition` or `Deletion`.
    pub form: Form,
    /// The leading number, below 2^62.
    pub id: u64,
    /// Where its literals begin.
    pub lits_start: usize,
    /// The place behind the last of its literals.
    pub lits_end: usize,
    /// Where its hints or ids begin.
    pub hints_start: usize,
    /// The place behind the last of its hints or ids.
    pub hints_end: usize,
}

/// How much is used of each buffer.
#[derive(Clone, Copy, Drop)]
pub struct Used {
    /// How many literals.
    pub lits: usize,
    /// How many hints or ids.
    pub hints: usize,
}

/// A number, with a dash before it or without.
#[derive(Clone, Copy, Drop)]
struct PlainNumber {
    /// Whether a dash stands before it.
    is_dashed: bool,
    /// What its digits write, below 10^8, and the place behind them.
    digits: Digits,
}

/// Where a block of literals ends.
#[derive(Clone, Copy, Drop)]
struct PlainLits {
    // The place in the line behind the 0 that ends the block, and the space there.
    end: usize,
    // The place in the buffer behind the last literal.
    count: usize,
}

/// The number that leads a line.
#[derive(Clone, Copy, Drop)]
struct Lead {
    /// Its value, below 2^62.
    id: u64,
    /// Where the rest of the line begins: the place behind the number and the space there.
    end: usize,
}

/// The number of few digits that stands here.
#[inline(always)]
fn plain_digits(line: &[u8], at: usize) -> Option<Digits>
    requires within { at < length line.now }
    requires feed { EndsInFeed line.now }
    ensures { IfSome result (λ d. IsPlainDigits line.now at d) }
{
    let first = u64::from(line[at]).wrapping_sub(ZERO);
    if first > 9 {
        return None;
    }
    let mut value = first;
    let mut end = at + 1;
    loop {
        let digit = u64::from(line[end]).wrapping_sub(ZERO);
        if digit > 9 {
            break;
        }
        if first == 0 || end - at == MOST_PLAIN_DIGITS {
            return None;
        }
        value = 10 * value + digit;
        end += 1;
    }
    Some(Digits { value, end })
}

/// The literal or the 0 that stands here.
#[inline(always)]
fn plain_literal(line: &[u8], at: usize) -> Option<PlainNumber>
    requires within { at < length line.now }
    requires feed { EndsInFeed line.now }
    ensures { IfSome result (λ n. IsPlainNumber line.now at n) }
{
    let is_dashed = line[at] == b'-';
    let digits = plain_digits(line, at + usize::from(is_dashed))?;
    Some(PlainNumber { is_dashed, digits })
}

/// The hint, the id or the 0 that stands here. A dash is rare, so that it is looked for last.
#[inline(always)]
fn plain_hint(line: &[u8], at: usize) -> Option<PlainNumber>
    requires within { at < length line.now }
    requires feed { EndsInFeed line.now }
    ensures { IfSome result (λ n. IsPlainNumber line.now at n) }
{
    if let Some(digits) = plain_digits(line, at) {
        return Some(PlainNumber {
            is_dashed: false,
            digits,
        });
    }
    if line[at] != b'-' {
        return None;
    }
    let digits = plain_digits(line, at + 1)?;
    Some(PlainNumber {
        is_dashed: true,
        digits,
    })
}

/// The place behind the space that stands here.
#[inline(always)]
fn past_space(line: &[u8], at: usize) -> Option<usize>
    requires within { at < length line.now }
    requires feed { EndsInFeed line.now }
    ensures { IfSome result (λ next. IsPastSpace line.now at next) }
{
    if line[at] == b' ' { Some(at + 1) } else { None }
}

/// Reads the literals from a place on, into the buffer from `from` on.
#[inline(always)]
fn plain_lits(lits: &mut [Lit], from: usize, line: &[u8], at: usize) -> Option<PlainLits>
    requires within { at < length line.now }
    requires feed { EndsInFeed line.now }
    requires room { HasRoomFrom line.now lits.old from }
    ensures kept { IsKeptBefore lits.old lits.new from }
    ensures read { IfSome result (λ e. ArePlainLits line.now at lits.new from e) }
{
    let mut place = at;
    let mut count = from;
    loop {
        let number = plain_literal(line, place)?;
        let value = number.digits.value;
        place = past_space(line, number.digits.end)?;
        if value == 0 {
            return if number.is_dashed {
                None
            } else {
                Some(PlainLits { end: place, count })
            };
        }
        lits[count] = Lit::new(value as u32, number.is_dashed);
        count += 1;
    }
}

/// Reads the hints or ids from a place on, into the buffer from `from` on, up to the 0 that ends
/// the line; says where they end in the buffer.
#[inline(always)]
fn plain_hints(
    hints: &mut [SignedId],
    from: usize,
    line: &[u8],
    at: usize,
    is_deletion: bool,
) -> Option<usize>
    requires within { at < length line.now }
    requires feed { EndsInFeed line.now }
    requires room { HasRoomFrom line.now hints.old from }
    ensures kept { IsKeptBefore hints.old hints.new from }
    ensures read { IfSome result
        (λ count. ArePlainHints line.now at is_deletion hints.new from count) }
{
    let mut place = at;
    let mut count = from;
    loop {
        let number = plain_hint(line, place)?;
        let digits = number.digits;
        if digits.value == 0 {
            let is_last = !number.is_dashed && digits.end + 1 == line.len();
            return if is_last { Some(count) } else { None };
        }
        if number.is_dashed && is_deletion {
            return None;
        }
        place = past_space(line, digits.end)?;
        hints[count] = SignedId::new(digits.value, number.is_dashed);
        count += 1;
    }
}

/// Reads what follows the leading number of an addition.
#[inline(always)]
fn plain_addition(
    lits: &mut [Lit],
    hints: &mut [SignedId],
    used: Used,
    line: &[u8],
    lead: Lead,
) -> Option<LineSpan>
    requires within { lead.end < length line.now }
    requires feed { EndsInFeed line.now }
    requires room { HasLineRoom line.now lits.old hints.old used }
    requires number { IsNumberAt (before_feed line.now) 0 (Number false lead.id lead.end) }
    ensures kept { AreKeptBefore lits.old hints.old lits.new hints.new used }
    ensures read { IfSome result (λ s. IsPlainLine line.now lits.new hints.new used s) }
{
    let clause = plain_lits(lits, used.lits, line, lead.end)?;
    let hints_end = plain_hints(hints, used.hints, line, clause.end, false)?;
    Some(LineSpan {
        form: Form::Addition,
        id: lead.id,
        lits_start: used.lits,
        lits_end: clause.count,
        hints_start: used.hints,
        hints_end,
    })
}

/// Reads what follows the leading number of a deletion: the letter, and the ids.
#[inline(always)]
fn plain_deletion(hints: &mut [SignedId], used: Used, line: &[u8], lead: Lead) -> Option<LineSpan>
    requires within { lead.end + 1 < length line.now }
    requires feed { EndsInFeed line.now }
    requires room { HasRoomFrom line.now hints.old used.hints }
    requires number { IsNumberAt (before_feed line.now) 0 (Number false lead.id lead.end) }
    requires letter { slice_index line.now lead.end ≡ 100 }
    ensures kept { IsKeptBefore hints.old hints.new used.hints }
    ensures read { IfSome result (λ s. (lits : List Literal) → used.lits ≤ length lits
        → IsPlainLine line.now lits hints.new used s) }
{
    let ids = past_space(line, lead.end + 1)?;
    let hints_end = plain_hints(hints, used.hints, line, ids, true)?;
    Some(LineSpan {
        form: Form::Deletion,
        id: lead.id,
        lits_start: used.lits,
        lits_end: used.lits,
        hints_start: used.hints,
        hints_end,
    })
}

/// Reads a line with its line feed into the buffers behind what is used of them, and says where.
/// `None` says nothing of the line: it is not written plainly, and what is used is as it was.
#[inline(always)]
pub fn plain_line(
    lits: &mut [Lit],
    hints: &mut [SignedId],
    used: Used,
    line: &[u8],
) -> Option<LineSpan>
    requires within { 0 < length line.now }
    requires feed { EndsInFeed line.now }
    requires room { HasLineRoom line.now lits.old hints.old used }
    ensures kept { AreKeptBefore lits.old hints.old lits.new hints.new used }
    ensures read { IfSome result (λ s. IsPlainLine line.now lits.new hints.new used s) }
{
    let number = plain_digits(line, 0)?;
    let end = past_space(line, number.end)?;
    let lead = Lead {
        id: number.value,
        end,
    };
    if line[end] == b'd' {
        plain_deletion(hints, used, line, lead)
    } else {
        plain_addition(lits, hints, used, line, lead)
    }
}
