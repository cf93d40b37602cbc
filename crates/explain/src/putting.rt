// The lines of an explanation.
ghost use Rattle.std.specs.Prelude.{◌<◌, ◌^◌, sum_by};
ghost use Rattle.std.specs.List.{flat_map};
ghost use Rattle.explain_text.specs.Sheets.{Displays};
ghost use Rattle.explain.specs.Explanation.{bits_line, broken_line, comment_text, cost_line};
ghost use Rattle.explain.specs.Explanation.{count_line, paid_line, paid_lines, source_text};
ghost use Rattle.explain.specs.Explanation.{source_text_at, told_text};

use crate::clause_lines::ClauseLine;
use crate::falsified::GivenUp;
use explain_text::sheet::Sheet;
use explain_text::showing::put_shown;
use std::io::Write;

/// There are too few or too many bits.
pub(crate) fn put_bits<W: Write>(sheet: &mut Sheet, writer: &mut W, bits: usize, vars: u32)
    ensures { Displays (W.contents writer.old) sheet.old (bits_line bits vars)
        (W.contents writer.new) sheet.new }
{
    sheet.put(writer, b"the result has ");
    sheet.put_number(writer, bits as u64);
    sheet.put(writer, b" bits, and the instance ");
    sheet.put_number(writer, vars as u64);
    sheet.put(writer, b" variables\n");
}

/// What the bits cost, and whether that was told.
pub(crate) fn put_cost<W: Write>(sheet: &mut Sheet, writer: &mut W, cost: u64, told: u64)
    ensures { Displays (W.contents writer.old) sheet.old (cost_line cost told)
        (W.contents writer.new) sheet.new }
{
    sheet.put(writer, b"cost ");
    sheet.put_number(writer, cost);
    put_told(sheet, writer, cost, told);
    sheet.put(writer, b"\n");
}

/// What was told, where that is another cost.
fn put_told<W: Write>(sheet: &mut Sheet, writer: &mut W, cost: u64, told: u64)
    ensures { Displays (W.contents writer.old) sheet.old (told_text cost told)
        (W.contents writer.new) sheet.new }
{
    if cost == told {
        return;
    }
    sheet.put(writer, b", where the result says ");
    sheet.put_number(writer, told);
}

/// How many of the soft clauses are given up.
pub(crate) fn put_count<W: Write>(sheet: &mut Sheet, writer: &mut W, count: usize, all: usize)
    ensures { Displays (W.contents writer.old) sheet.old (count_line count all)
        (W.contents writer.new) sheet.new }
{
    sheet.put(writer, b"given up: ");
    sheet.put_number(writer, count as u64);
    sheet.put(writer, b" of ");
    sheet.put_number(writer, all as u64);
    sheet.put(writer, b" soft clauses\n");
}

/// Each of them, with what is paid from the first one up to it.
pub(crate) fn put_given_up<W: Write>(
    sheet: &mut Sheet,
    writer: &mut W,
    given_up: &[GivenUp],
    soft: &[ClauseLine<'_>],
)
    requires { sum_by (λ g. g.weight) given_up.now < 2 ^ 64 }
    ensures { Displays (W.contents writer.old) sheet.old (paid_lines soft.now 0 given_up.now)
        (W.contents writer.new) sheet.new }
{
    let mut paid: u64 = 0;
    for each in given_up {
        paid += each.weight;
        put_paid(sheet, writer, each, paid, soft);
    }
}

/// One of them; `paid` is the sum of the weights up to it.
fn put_paid<W: Write>(
    sheet: &mut Sheet,
    writer: &mut W,
    each: &GivenUp,
    paid: u64,
    soft: &[ClauseLine<'_>],
)
    ensures { Displays (W.contents writer.old) sheet.old
        (paid_line each.now.weight paid (source_text_at soft.now each.now.place))
        (W.contents writer.new) sheet.new }
{
    sheet.put(writer, b"+ ");
    sheet.put_number(writer, each.weight);
    sheet.put(writer, b" = ");
    sheet.put_number(writer, paid);
    sheet.put(writer, b", ");
    put_source_at(sheet, writer, soft, each.place as usize);
}

/// The line at this place.
pub fn put_source_at<W: Write>(
    sheet: &mut Sheet,
    writer: &mut W,
    soft: &[ClauseLine<'_>],
    place: usize,
)
    ensures { Displays (W.contents writer.old) sheet.old (source_text_at soft.now place)
        (W.contents writer.new) sheet.new }
{
    if let Some(clause_line) = soft.get(place) {
        put_source(sheet, writer, clause_line);
    }
}

/// The hard clauses that are broken.
pub(crate) fn put_broken<W: Write>(sheet: &mut Sheet, writer: &mut W, hard: &[ClauseLine<'_>])
    ensures { Displays (W.contents writer.old) sheet.old (flat_map broken_line hard.now)
        (W.contents writer.new) sheet.new }
{
    for clause_line in hard {
        sheet.put(writer, b"broken, hard, ");
        put_source(sheet, writer, clause_line);
    }
}

/// A line of the text with its number, and its comment.
pub(crate) fn put_source<W: Write>(sheet: &mut Sheet, writer: &mut W, clause_line: &ClauseLine<'_>)
    ensures { Displays (W.contents writer.old) sheet.old (source_text clause_line.now)
        (W.contents writer.new) sheet.new }
{
    sheet.put(writer, b"line ");
    sheet.put_number(writer, clause_line.line());
    sheet.put(writer, b": ");
    put_shown(sheet, writer, clause_line.text());
    sheet.put(writer, b"\n");
    put_comment(sheet, writer, clause_line.comment());
}

/// A comment, where there is one.
fn put_comment<W: Write>(sheet: &mut Sheet, writer: &mut W, comment: &[u8])
    ensures { Displays (W.contents writer.old) sheet.old (comment_text comment.now)
        (W.contents writer.new) sheet.new }
{
    if comment.is_empty() {
        return;
    }
    sheet.put(writer, b"    ");
    put_shown(sheet, writer, comment);
    sheet.put(writer, b"\n");
}
