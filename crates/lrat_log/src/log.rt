// The log in memory, and its text. A log has millions of lines of a few literals and hints each,
// so it keeps them in three lists: the literals of all lines, the hints of all lines, and for each
// line its kind, and where its literals and hints end. Preprocessing of 100,000 planning-like
// clauses gives 372,000 lines of 3.7 literals and 1.6 hints: 25.7 bytes a line. With hints of 8
// bytes and heads of 12 they were 39.8. The view is that of three plain lists, so no other proof
// knows how they are packed. What is left is mostly literals, whose slices are lent as they lie.
ghost use Rattle.std.specs.Prelude.{◌≡◌, ◌+◌, ◌<◌, ◌≤◌, List, [], Some, length, All, ⊤};
ghost use Rattle.std.specs.Prelude.{IfOk, slice_get, slice_range, ◌==◌};
ghost use Rattle.cnf.specs.declared.limits.TheConstants.{NUMBER_LIMIT};
ghost use Rattle.text.specs.LratText.{IsTextOf};
ghost use Rattle.text.specs.Writing.{Writes, Puts};
ghost use Rattle.lrat_log.specs.Steps.{HoldsAtEachBase, added_count};
ghost use Rattle.lrat_log.specs.Log.{LogLine, IsLine, IsLog, HasSmallIds, line_at, numbered_lines};
ghost use Rattle.lrat_log.specs.Log.{text_of, id_of, name_of};
ghost use Rattle.lrat_log.specs.Texts.{line_text, numbered_after, last_after};
ghost use Rattle.lrat_log.specs.Flat.{lits_before, hints_before, lits_on, hints_on};

use crate::heads::{HeadList, LineHead};
use crate::hints::{HintList, HintSlice};
use crate::lines::{Hint, Kind};
use crate::sink::Sink;
use crate::spelling::{put_addition, put_deletion};
use cnf::types::Lit;
use std::alloc::{AllocError, Global};
use std::io::Write;
use std::marker::Model;
use text::output::{Block, WriteFault};

/// A log has fewer lines than this, 2^61.
pub const LINE_LIMIT: usize = 1 << 61;

/// The lines of a solver, in memory: 4 bytes for each literal and each hint, and 4.5 for each line.
/// From the first line on with a number of 2^30 or more a hint takes 8, and from the first on that
/// ends too far behind its block a line takes 12.
#[derive(Drop)]
pub struct Log {
    // By line, in their order; fewer than 2^61.
    heads: HeadList,
    // The literals of all lines, those of one line after those of the line before.
    lits: Vec<Lit>,
    // The hints of all lines, in the same order.
    hints: HintList,
}

impl Model for Log {
    ghost use Rattle.std.specs.Prelude.{List};
    ghost use Rattle.lrat_log.specs.Log.{LogLine};

    ghost Value = { List LogLine };

    ghost use Rattle.lrat_log.specs.Flat.{lines_in, IsFlat};

    ghost view = { λ l. lines_in l.heads l.lits.items l.hints };

    ghost invariant = { λ l. IsFlat l.heads l.lits.items l.hints };
}

impl Log {
    /// A log without lines.
    pub fn new(alloc: Global) -> Self
        ensures { result ≡ [] }
    {
        Log {
            heads: HeadList::new(alloc),
            lits: Vec::new(alloc),
            hints: HintList::new(alloc),
        }
    }

    /// How many lines it has, fewer than 2^61.
    pub fn len(&self) -> usize
        ensures len { result ≡ length self.now }
        ensures log { IsLog self.now }
    {
        self.heads.len()
    }

    /// Whether it has no lines.
    pub fn is_empty(&self) -> bool
        ensures { result ≡ (length self.now == 0) }
    {
        self.len() == 0
    }

    /// What the line in this place, from 0, is for.
    pub fn kind(&self, line: usize) -> Kind
        requires { line < length self.now }
        ensures { result ≡ (line_at self.now line).kind }
    {
        self.heads.get(line).kind
    }

    /// The literals of the line in this place, from 0.
    pub fn lits(&self, line: usize) -> &[Lit]
        requires { line < length self.now }
        ensures { result.now ≡ (line_at self.now line).clause }
    {
        let (start, _) = find_ends(&self.heads, line);
        let (end, _) = find_ends(&self.heads, line + 1);
        cut_out(&self.lits, start, end)
    }

    /// How many hints the line in this place, from 0, has.
    pub fn hints_len(&self, line: usize) -> usize
        requires { line < length self.now }
        ensures { result ≡ length (line_at self.now line).hints }
    {
        self.packed_hints(line).len()
    }

    /// The hint in the place `index`, from 0, of the line in the place `line`, from 0.
    pub fn hint(&self, line: usize, index: usize) -> Hint
        requires line { line < length self.now }
        requires index { index < length (line_at self.now line).hints }
        ensures { slice_get (line_at self.now line).hints index ≡ Some result }
    {
        self.packed_hints(line).get(index)
    }

    /// What its memory comes from.
    pub fn allocator(&self) -> Global {
        *self.lits.allocator()
    }

    /// The hints of the line in this place, from 0.
    fn packed_hints(&self, line: usize) -> HintSlice<'_>
        requires { line < length self.now }
        ensures hints { result ≡ (line_at self.now line).hints }
        ensures line { IsLine (line_at self.now line) }
    {
        let (_, start) = find_ends(&self.heads, line);
        let (_, end) = find_ends(&self.heads, line + 1);
        self.hints.part(start, end)
    }

    /// The line in this place, whose literals and hints begin where those of the line before end;
    /// and where its own end.
    pub(crate) fn line_from(&self, line: usize, start: Ends) -> (LineSlice<'_>, Ends)
        requires line { line < length self.now }
        requires lits { start.lits ≡ lits_on self.now line }
        requires hints { start.hints ≡ hints_on self.now line }
        ensures line { result.0 ≡ line_at self.now line }
        ensures is_line { IsLine (line_at self.now line) }
        ensures lits { (result.1).lits ≡ lits_on self.now (line + 1) }
        ensures hints { (result.1).hints ≡ hints_on self.now (line + 1) }
    {
        let head = self.heads.get(line);
        let end = Ends {
            lits: head.lits_end as usize,
            hints: head.hints_end as usize,
        };
        let slice = LineSlice {
            kind: head.kind,
            lits: cut_out(&self.lits, start.lits, end.lits),
            hints: self.hints.part(start.hints, end.hints),
        };
        (slice, end)
    }
}

/// Where the literals and the hints of a line end.
#[derive(Clone, Copy, Drop)]
pub(crate) struct Ends {
    /// The place behind the last literal.
    pub lits: usize,
    /// The place behind the last hint.
    pub hints: usize,
}

/// A line as it lies in the log.
#[derive(Drop)]
pub(crate) struct LineSlice<'a> {
    /// What it is for.
    pub kind: Kind,
    /// Its literals.
    pub lits: &'a [Lit],
    /// Its hints.
    pub hints: HintSlice<'a>,
}

impl<'a> Model for LineSlice<'a> {
    ghost use Rattle.lrat_log.specs.Log.{LogLine};

    ghost Value = { LogLine };

    ghost view = { λ l. record { kind = l.kind; clause = l.lits.now; hints = l.hints } };
}

impl Sink for Log {
    ghost lines = { λ l. l };

    ghost follows = { λ _ _. ⊤ };

    fn append(&mut self, kind: Kind, lits: &[Lit], hints: &[Hint]) -> Result<(), AllocError> {
        if self.heads.len() >= LINE_LIMIT - 1 {
            return Err(AllocError);
        }
        let count = self.hints.len();
        let head = LineHead {
            kind,
            lits_end: (self.lits.len() + lits.len()) as u64,
            hints_end: count.saturating_add(hints.len()) as u64,
        };
        self.lits.reserve(lits.len())?;
        self.hints.extend(hints)?;
        match self.heads.push(head) {
            Ok(()) => {
                self.lits.extend_from_slice(lits)?;
                Ok(())
            }
            Err(AllocError) => {
                self.hints.truncate(count);
                Err(AllocError)
            }
        }
    }

    fn cut(&mut self, _lits: &[Lit]) -> Result<bool, AllocError> {
        Ok(false)
    }

    fn is_short(&self) {
        let _ = &self.heads;
    }
}

/// How many literals, and hints, the first lines have.
fn find_ends(heads: &HeadList, count: usize) -> (usize, usize)
    requires { count ≤ length heads.now }
    ensures lits { result.0 ≡ lits_before 0 heads.now count }
    ensures hints { result.1 ≡ hints_before 0 heads.now count }
{
    if count == 0 {
        return (0, 0);
    }
    let head = heads.get(count - 1);
    (head.lits_end as usize, head.hints_end as usize)
}

/// The items from one place up to another.
fn cut_out<T>(items: &[T], start: usize, end: usize) -> &[T]
    requires { (start ≤ end) × (end ≤ length items.now) }
    ensures { result.now ≡ slice_range items.now start end }
{
    &items[start..end]
}

/// The text of the log as an LRAT certificate (Cruz-Filipe et al. 2017), where the first addition
/// has the id `base + 1`: a line for each line of the log, its tokens with single spaces, and a
/// line feed behind each. An addition is spelled as its id, its literals, `0`, its hints and `0`,
/// where a hint that begins a group is negative. A deletion is spelled as the last id that was
/// given, `d`, the ids that are deleted and `0`.
///
/// # Errors
///
/// `AllocError` where memory for the text was refused.
pub fn render(log: &Log, base: u64) -> Result<Vec<u8>, AllocError>
    requires room { base + added_count log.now < NUMBER_LIMIT }
    requires ids { HasSmallIds base log.now }
    ensures text { IfOk result (λ bytes. bytes.items ≡ text_of base log.now) }
    ensures lines { IfOk result (λ bytes. IsTextOf bytes.items (numbered_lines base log.now)) }
{
    let mut bytes = Vec::new(log.allocator());
    // a vector fails to take bytes only where its growth was refused
    match write_to(log, base, &mut bytes) {
        Ok(()) => Ok(bytes),
        Err(WriteFault) => Err(AllocError),
    }
}

/// Writes the text that [`render`] gives, in pieces of some thousands of bytes. The writer is not
/// flushed. No memory is asked for.
///
/// # Errors
///
/// `WriteFault` where the writer answered `Err`, or took none of the bytes that it was given. It
/// then has a beginning of the text, and is not called again.
pub fn write_to<W: Write>(log: &Log, base: u64, writer: &mut W) -> Result<(), WriteFault>
    requires room { base + added_count log.now < NUMBER_LIMIT }
    requires ids { HasSmallIds base log.now }
    ensures writes { Writes result (W.contents writer.old) (text_of base log.now)
        (W.contents writer.new) }
    ensures lines { IsTextOf (text_of base log.now) (numbered_lines base log.now) }

    // Numbering at another base renames ids alone.
    ensures bases { HoldsAtEachBase log.now }
{
    let mut block = Block::new();
    let mut last = base;
    let mut ends = Ends { lits: 0, hints: 0 };
    for line in 0..log.len() {
        let (slice, next) = log.line_from(line, ends);
        last = put_line(&mut block, writer, base, last, &slice)?;
        ends = next;
    }
    block.flush(writer)
}

/// Puts the line, where `last` is the last id that was given before; answers the last one after it.
fn put_line<W: Write>(
    block: &mut Block,
    writer: &mut W,
    base: u64,
    last: u64,
    line: &LineSlice<'_>,
) -> Result<u64, WriteFault>
    requires line { IsLine line.now }
    requires last { last < NUMBER_LIMIT }
    requires ids { All (λ h. id_of base (name_of h) < NUMBER_LIMIT) line.now.hints }
    ensures puts { Puts result (W.contents writer.old) block.old
        (line_text (numbered_after base last line.now)) (W.contents writer.new) block.new }
    ensures last { IfOk result (λ next. next ≡ last_after last line.now) }
{
    if line.kind.is_delete() {
        put_deletion(block, writer, base, last, &line.hints)?;
        Ok(last)
    } else {
        put_addition(block, writer, base, last + 1, line)?;
        Ok(last + 1)
    }
}
