//! What a certificate of forms and cuts holds: its lines, kind by kind, and what they leave.
ghost use Rattle.std.specs.Prelude.{◌≡◌, ◌+◌, ◌<◌, ◌^◌, IfSome};
ghost use Rattle.text.specs.Text.{tokens_of};
ghost use Rattle.text.specs.Writing.{Writes};
ghost use Rattle.lrat_live.specs.Listed.{listed_at};
ghost use Rattle.explain_certificate.specs.Holdings.{count_line, count_of_lines, counted};
ghost use Rattle.explain_certificate.specs.Holdings.{counts_of, end_text};
ghost use Rattle.explain_certificate.specs.Holdings.{holdings_text, kind_of, kind_of_word};
ghost use Rattle.explain_certificate.specs.Holdings.{lines_text};
ghost use Rattle.explain_certificate.specs.Holdings.{live_text, live_up_to, proved_text};
ghost use Rattle.explain_text.specs.Sheets.{Displays};

use cnf::limits::NUMBER_LIMIT;
use explain_text::sheet::Sheet;
use lrat_cuts::last_form::LastForm;
use lrat_cuts::machine::CutsMachine;
use lrat_read::words::{Word, known_word};
use std::io::Write;
use text::cutting::tokens;
use text::output::WriteFault;
use text::pieces::{split_line, without_return};

/// How many more ids are looked at than the certificate has bytes: counts bring many clauses, but
/// from an addition to the next ids may leap as far as they like.
const MOST_IDS: u64 = 1 << 26;

/// What a line brings.
#[derive(Clone, Copy, Debug, PartialEq, Eq, Drop)]
pub(crate) enum LineKind {
    /// A clause, with its hints.
    Addition,
    /// Clauses that go.
    Deletion,
    /// A count over literals.
    Count,
    /// One more output of a count.
    Output,
    /// A group of literals of which at most one is true.
    Group,
    /// A form, or further facts for the present one.
    Form,
    /// A clause that follows from a form.
    Cut,
    /// A lower bound of the cost that follows from a form.
    Bound,
}

/// How many lines there are of each kind.
#[derive(Clone, Copy, Drop)]
pub(crate) struct LineCounts {
    /// Additions.
    pub(crate) additions: u64,
    /// Deletions.
    pub(crate) deletions: u64,
    /// Counts.
    pub(crate) counts: u64,
    /// Further outputs of counts.
    pub(crate) outputs: u64,
    /// Groups.
    pub(crate) groups: u64,
    /// Forms, and further facts for them.
    pub(crate) forms: u64,
    /// Cuts.
    pub(crate) cuts: u64,
    /// Lower bounds.
    pub(crate) bounds: u64,
}

impl LineCounts {
    /// Counts a line more.
    fn add(&mut self, kind: LineKind)
        requires room { count_of_lines self.old + 1 < 2 ^ 64 }
        ensures { self.new ≡ counted kind self.old }
    {
        match kind {
            LineKind::Addition => self.additions += 1,
            LineKind::Deletion => self.deletions += 1,
            LineKind::Count => self.counts += 1,
            LineKind::Output => self.outputs += 1,
            LineKind::Group => self.groups += 1,
            LineKind::Form => self.forms += 1,
            LineKind::Cut => self.cuts += 1,
            LineKind::Bound => self.bounds += 1,
        }
    }
}

/// What a certificate holds, up to its last line feed.
#[derive(Drop)]
pub struct Holdings {
    /// How many lines there are of each kind.
    pub(crate) lines: LineCounts,
    /// How many clauses are live after them, those of the formula among them; none where ids leap,
    /// so that to look at each would take long.
    pub(crate) live: Option<u64>,
    /// Whether the last line brings the empty clause.
    pub(crate) has_ended: bool,
    /// No solution costs less, as they prove, up to 2^62: that much says that there is none.
    pub(crate) proved: u64,
}

/// What this certificate holds, which leaves `last`.
pub fn find_holdings(proof: &[u8], last: &LastForm) -> Holdings
    ensures lines { result.lines ≡ counts_of proof.now }
    ensures live { IfSome result.live (λ n. n
        ≡ live_up_to (listed_at (last.now.state).live) (last.now.state).last) }
    ensures ended { result.has_ended ≡ (last.now.state).ended }
    ensures proved { result.proved ≡ (last.now.state).proved }
{
    let machine = last.machine();
    Holdings {
        lines: count_lines(proof),
        live: count_live(machine, MOST_IDS.saturating_add(proof.len() as u64)),
        has_ended: machine.has_ended(),
        proved: machine.proved(),
    }
}

/// How many lines there are of each kind that a line feed ends.
fn count_lines(proof: &[u8]) -> LineCounts
    ensures { result ≡ counts_of proof.now }
{
    let mut counts = LineCounts {
        additions: 0,
        deletions: 0,
        counts: 0,
        outputs: 0,
        groups: 0,
        forms: 0,
        cuts: 0,
        bounds: 0,
    };
    let mut left = proof;
    while let Some((line, after)) = split_line(left) {
        if let Some(kind) = kind_of(without_return(line)) {
            counts.add(kind);
        }
        left = after;
    }
    counts
}

/// What a line brings; none where it is blank. All but a deletion and what begins with a word
/// counts as an addition.
fn kind_of(line: &[u8]) -> Option<LineKind>
    ensures { result ≡ kind_of (tokens_of line.now) }
{
    let mut words = tokens(line);
    let first = words.next()?;
    if let Some(word) = known_word(first) {
        return Some(kind_of_word(word));
    }
    match words.next() {
        Some([b'd']) => Some(LineKind::Deletion),
        _ => Some(LineKind::Addition),
    }
}

/// What a line brings that begins with this word.
fn kind_of_word(word: Word) -> LineKind
    ensures { result ≡ kind_of_word word }
{
    match word {
        Word::Count => LineKind::Count,
        Word::More => LineKind::Output,
        Word::Group => LineKind::Group,
        Word::Form => LineKind::Form,
        Word::Cut => LineKind::Cut,
        Word::Bound => LineKind::Bound,
    }
}

/// How many clauses are live; none where there are more ids than `most`.
fn count_live(machine: &CutsMachine, most: u64) -> Option<u64>
    ensures { IfSome result (λ n. n
        ≡ live_up_to (listed_at (machine.now.state).live) (machine.now.state).last) }
{
    let last = machine.last();
    if last > most {
        return None;
    }
    let mut count = 0;
    let mut id = 0;
    while id < last {
        id += 1;
        if machine.find(id).is_some() {
            count += 1;
        }
    }
    Some(count)
}

/// Writes how many lines there are of each kind, how many clauses are live, and how the
/// certificate ends.
///
/// # Errors
///
/// `WriteFault` where the writer failed. It then has a prefix of that.
pub fn write_holdings<W: Write>(holdings: &Holdings, writer: &mut W) -> Result<(), WriteFault>
    ensures { Writes result (W.contents writer.old) (holdings_text holdings.now)
        (W.contents writer.new) }
{
    let mut sheet = Sheet::new();
    put_lines(&mut sheet, writer, holdings.lines);
    put_live(&mut sheet, writer, holdings.live);
    put_proved(&mut sheet, writer, holdings.has_ended, holdings.proved);
    sheet.finish(writer)
}

/// Each number of lines, on a line of its own.
fn put_lines<W: Write>(sheet: &mut Sheet, writer: &mut W, lines: LineCounts)
    ensures { Displays (W.contents writer.old) sheet.old (lines_text lines)
        (W.contents writer.new) sheet.new }
{
    put_count(sheet, writer, b"additions: ", lines.additions);
    put_count(sheet, writer, b"deletions: ", lines.deletions);
    put_count(sheet, writer, b"counts: ", lines.counts);
    put_count(sheet, writer, b"further outputs of counts: ", lines.outputs);
    put_count(sheet, writer, b"groups: ", lines.groups);
    put_count(sheet, writer, b"lines of forms: ", lines.forms);
    put_count(sheet, writer, b"cuts: ", lines.cuts);
    put_count(sheet, writer, b"bounds: ", lines.bounds);
}

/// What is counted, how many there are of it, and a line feed.
fn put_count<W: Write>(sheet: &mut Sheet, writer: &mut W, label: &[u8], count: u64)
    ensures { Displays (W.contents writer.old) sheet.old (count_line label.now count)
        (W.contents writer.new) sheet.new }
{
    sheet.put(writer, label);
    sheet.put_number(writer, count);
    sheet.put(writer, b"\n");
}

/// How many clauses are live, if that is known.
fn put_live<W: Write>(sheet: &mut Sheet, writer: &mut W, live: Option<u64>)
    ensures { Displays (W.contents writer.old) sheet.old (live_text live)
        (W.contents writer.new) sheet.new }
{
    if let Some(live) = live {
        sheet.put(writer, b"live clauses: ");
        sheet.put_number(writer, live);
        sheet.put(writer, b"\n");
    }
}

/// How the certificate ends, and the bound that it proves.
fn put_proved<W: Write>(sheet: &mut Sheet, writer: &mut W, has_ended: bool, proved: u64)
    ensures { Displays (W.contents writer.old) sheet.old (proved_text has_ended proved)
        (W.contents writer.new) sheet.new }
{
    put_end(sheet, writer, has_ended);
    if proved == NUMBER_LIMIT {
        sheet.put(writer, b"that there is no solution\n");
        return;
    }
    sheet.put(writer, b"at least ");
    sheet.put_number(writer, proved);
    sheet.put(writer, b"\n");
}

/// How the certificate ends.
fn put_end<W: Write>(sheet: &mut Sheet, writer: &mut W, has_ended: bool)
    ensures { Displays (W.contents writer.old) sheet.old (end_text has_ended)
        (W.contents writer.new) sheet.new }
{
    if has_ended {
        sheet.put(writer, b"PROOF ends with the empty clause: it proves ");
    } else {
        sheet.put(writer, b"PROOF does not end: so far it proves ");
    }
}
