// Lines that are read together: as many as are written plainly and find room in the buffers.
ghost use Rattle.std.specs.Prelude.{◌≡◌, ◌+◌, ◌-◌, ◌*◌, ◌∷◌, [], ◌<◌, ◌≤◌, length, take, drop};
ghost use Rattle.std.specs.Prelude.{IfOk, IfSome, IsTrue};
ghost use Rattle.lrat_read.specs.Batch.{AreRead, IsNextRead};
ghost use Rattle.lrat_read.specs.Plain.{AreKeptBefore, AreSpansWithin, lines_in};

use crate::line::{LineView, ReadLine};
use crate::plain::{LineSpan, Used, plain_line};
use crate::types::SignedId;
use cnf::types::Lit;
use std::alloc::{AllocError, Global};
use std::marker::Model;
use text::pieces::line_feed_at;

/// The most literals, and the most hints, that are held of lines that are read together.
const ROOM: usize = 16_384;

/// The lines that were read together, in buffers that are used again.
#[derive(Drop)]
pub struct Batch {
    /// Where each line's numbers lie in the buffers.
    spans: Vec<LineSpan>,
    /// Their literals, one line after another, and then what is left of the room.
    lits: Vec<Lit>,
    /// Their hints and ids, as the literals.
    hints: Vec<SignedId>,
}

impl Model for Batch {
    ghost use Rattle.std.specs.Prelude.{List, length};
    ghost use Rattle.lrat_read.specs.Plain.{AreSpansWithin, lines_in};
    ghost use Rattle.lrat_read.specs.declared.line.ReadLine.{ReadLine};

    ghost Value = { List ReadLine };

    ghost view = { λ b. lines_in b.lits.items b.hints.items b.spans.items };

    ghost invariant = { λ b.
        AreSpansWithin (length b.lits.items) (length b.hints.items) b.spans.items };
}

/// A line that was read.
#[derive(Clone, Copy, Drop)]
struct NextLine {
    // Where its numbers lie in the buffers.
    span: LineSpan,
    // The place in the text behind its line feed.
    end: usize,
}

/// Makes room for the numbers of a text of `bytes` bytes, though not for more than `ROOM`.
fn make_room(
    lits: &mut Vec<Lit>,
    hints: &mut Vec<SignedId>,
    bytes: usize,
) -> Result<(), AllocError> {
    let count = (bytes / 2).min(ROOM);
    if lits.len() < count {
        lits.resize(count, Lit::new(1, false))?;
    }
    if hints.len() < count {
        hints.resize(count, SignedId::new(1, false))?;
    }
    Ok(())
}

/// Whether each number of a line finds room in a buffer of which `used` places are used: a number
/// takes two bytes at least.
#[inline(always)]
fn has_room(room: usize, used: usize, line: &[u8]) -> bool
    requires { used ≤ room }
    ensures { IsTrue result → length line.now < 2 * (room - used) + 2 }
{
    line.len() / 2 <= room - used
}

/// Reads the line that begins at a place of the text, if it is written plainly and finds room.
#[inline(always)]
fn next_line(
    lits: &mut [Lit],
    hints: &mut [SignedId],
    used: Used,
    text: &[u8],
    at: usize,
) -> Option<NextLine>
    requires within { at ≤ length text.now }
    requires lits { used.lits ≤ length lits.old }
    requires hints { used.hints ≤ length hints.old }
    ensures kept { AreKeptBefore lits.old hints.old lits.new hints.new used }
    ensures read { IfSome result (λ n. IsNextRead text.now at lits.new hints.new used n) }
{
    let rest = &text[at..];
    let feed = line_feed_at(rest)?;
    let line = &rest[..feed + 1];
    if !has_room(lits.len(), used.lits, line) || !has_room(hints.len(), used.hints, line) {
        return None;
    }
    let span = plain_line(lits, hints, used, line)?;
    Some(NextLine {
        span,
        end: at + line.len(),
    })
}

/// Reads lines from the front of the text, as `Batch::read` does, with spans for none so far.
#[inline]
fn read_lines(
    spans: &mut Vec<LineSpan>,
    lits: &mut [Lit],
    hints: &mut [SignedId],
    text: &[u8],
) -> Result<usize, AllocError>
    requires { spans.old.items ≡ [] }
    ensures within { IfOk result (λ count. count ≤ length text.now) }
    ensures read { IfOk result (λ count.
        AreRead (take count text.now) (lines_in lits.new hints.new spans.new.items)) }
    ensures spans { AreSpansWithin (length lits.old) (length hints.old) spans.new.items }
    ensures lits { length lits.new ≡ length lits.old }
    ensures hints { length hints.new ≡ length hints.old }
{
    let mut used = Used { lits: 0, hints: 0 };
    let mut at = 0;
    while let Some(next) = next_line(lits, hints, used, text, at) {
        spans.push(next.span)?;
        used = Used {
            lits: next.span.lits_end,
            hints: next.span.hints_end,
        };
        at = next.end;
    }
    Ok(at)
}

impl Batch {
    /// No lines. The buffers grow with the first texts, up to a fixed size.
    pub fn new(alloc: Global) -> Self
        ensures { result ≡ [] }
    {
        Batch {
            spans: Vec::new(alloc),
            lits: Vec::new(alloc),
            hints: Vec::new(alloc),
        }
    }

    /// How many lines there are.
    pub fn len(&self) -> usize
        ensures { result ≡ length self.now }
    {
        self.spans.len()
    }

    /// A line by its place, from 0.
    pub fn get(&self, place: usize) -> ReadLine<'_>
        requires { place < length self.now }
        ensures { drop place self.now ≡ result ∷ drop (place + 1) self.now }
    {
        let span = self.spans[place];
        let lits = &self.lits[span.lits_start..span.lits_end];
        let hints = &self.hints[span.hints_start..span.hints_end];
        ReadLine {
            form: span.form,
            line: LineView::new(span.id, lits, false, hints),
        }
    }

    /// Reads lines from the front of the text, in place of those before: up to the first that is
    /// not written plainly, that has no line feed, or for which there is no room. Answers how many
    /// bytes they take with their line feeds. How many lines are read is a matter of time alone:
    /// none would be a right answer too.
    ///
    /// # Errors
    ///
    /// `AllocError` where memory was refused.
    pub fn read(&mut self, text: &[u8]) -> Result<usize, AllocError>
        ensures within { IfOk result (λ count. count ≤ length text.now) }
        ensures read { IfOk result (λ count. AreRead (take count text.now) self.new) }
    {
        self.spans.clear();
        make_room(&mut self.lits, &mut self.hints, text.len())?;
        read_lines(&mut self.spans, &mut self.lits, &mut self.hints, text)
    }
}
