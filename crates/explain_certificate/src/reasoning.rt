//! Why nothing is cheaper, as a person reads it.
ghost use Rattle.std.specs.Prelude.{true, IfOk, OnErr, OnOk};
ghost use Rattle.explain_text.specs.Sheets.{Displays};
ghost use Rattle.explain_certificate.specs.Reasons.{Adds, AddsFact, AddsFacts, AreHeaviest};
ghost use Rattle.explain_certificate.specs.Reasons.{BreaksListing, WritesListing};
ghost use Rattle.explain_certificate.specs.Reasons.{fact_text, kind_text, times_text};

use crate::meanings::{Meaning, Place};
use crate::reasons::{Reason, Saying, explain_facts, heaviest};
use cnf::limits::NUMBER_LIMIT;
use cnf::types::{Instance, Lit};
use explain::clause_lines::ClauseLines;
use explain::putting::put_source_at;
use explain_text::sheet::Sheet;
use lrat_cuts::last_form::LastForm;
use lrat_read::facts::WeightedFact;
use std::alloc::{AllocError, Global};
use std::io::Write;
use std::marker::Model;
use text::output::WriteFault;

/// Why nothing is cheaper: the facts of a form that are listed. It is seen as these facts.
#[derive(Drop)]
pub struct Reasons<'a> {
    // The facts, each with what it says.
    listed: Vec<Reason>,
    // How many the form has.
    count: usize,
    // The form: how many times it has the cost, and what it is worth by itself; none where there
    // is no form.
    form: Option<(u64, Option<u64>)>,
    // The places of the hard clauses that facts say, rising.
    wanted: Vec<u32>,
    // The lines of the wanted hard clauses, and of all soft clauses.
    lines: ClauseLines<'a>,
}

impl<'a> Model for Reasons<'a> {
    ghost use Rattle.std.specs.Prelude.{List, map};
    ghost use Rattle.lrat_read.specs.Words.{NamedFact};

    ghost Value = { List NamedFact };

    ghost view = { λ r. map (λ e. e.fact) r.listed.items };
}

/// What the form says that a certificate of forms and cuts ends with. Its facts are listed, with
/// the numbers of times that it has them; of more than ten those that it has most times. `text` is
/// that of the instance.
///
/// # Errors
///
/// `AllocError` where memory was refused.
pub fn find_reasons<'a>(
    alloc: Global,
    text: &'a [u8],
    instance: &Instance,
    last: &LastForm,
) -> Result<Reasons<'a>, AllocError>
    ensures { IfOk result (λ r. AreHeaviest last.now.facts r) }
{
    let facts = heaviest(alloc, last.facts())?;
    let listed = explain_facts(instance, last, &facts)?;
    let wanted = hard_places(alloc, &listed)?;
    let lines = ClauseLines::of(alloc, text, &wanted)?;
    let forms = last.machine().forms();
    let form = match forms.bound() {
        Ok(worth) => Some((forms.scale(), worth)),
        Err(_) => None,
    };
    Ok(Reasons {
        listed,
        count: last.facts().len(),
        form,
        wanted,
        lines,
    })
}

/// The places of the hard clauses that facts say, rising.
fn hard_places(alloc: Global, listed: &[Reason]) -> Result<Vec<u32>, AllocError> {
    let mut places = Vec::new(alloc);
    for reason in listed {
        if let Saying::Source(Place::Hard(place)) = reason.saying {
            places.push(place)?;
        }
    }
    places.sort()?;
    places.dedup();
    Ok(places)
}

/// Writes what the form is worth, and the facts that are listed, each with what it says.
///
/// # Errors
///
/// `WriteFault` where the writer failed. It then has a prefix of that.
pub fn write_reasons<W: Write>(reasons: &Reasons<'_>, writer: &mut W) -> Result<(), WriteFault>
    ensures ok { OnOk result (WritesListing reasons.now
        (W.contents writer.old) (W.contents writer.new)) }
    ensures fault { OnErr result (BreaksListing reasons.now
        (W.contents writer.old) (W.contents writer.new)) }
{
    let mut sheet = Sheet::new();
    put_head(&mut sheet, writer, reasons.form);
    put_reasons(&mut sheet, writer, reasons);
    put_rest(&mut sheet, writer, reasons.listed.len(), reasons.count);
    sheet.finish(writer)
}

/// What the form is worth, and how many times it has the cost.
fn put_head<W: Write>(sheet: &mut Sheet, writer: &mut W, form: Option<(u64, Option<u64>)>)
    ensures { Adds (W.contents writer.old) sheet.old (W.contents writer.new) sheet.new }
{
    let Some((scale, worth)) = form else {
        sheet.put(writer, b"why: there is no form\n");
        return;
    };
    sheet.put(writer, b"why: the last form shows ");
    put_worth(sheet, writer, worth);
    sheet.put(writer, b"\nthe cost");
    put_times(sheet, writer, scale);
    sheet.put(writer, b"\n");
}

/// How many times something is taken.
fn put_times<W: Write>(sheet: &mut Sheet, writer: &mut W, times: u64)
    ensures { Displays (W.contents writer.old) sheet.old (times_text times)
        (W.contents writer.new) sheet.new }
{
    if times == 1 {
        sheet.put(writer, b", once");
        return;
    }
    sheet.put(writer, b", ");
    sheet.put_number(writer, times);
    sheet.put(writer, b" times");
}

/// What a form is worth.
fn put_worth<W: Write>(sheet: &mut Sheet, writer: &mut W, worth: Option<u64>)
    ensures { Adds (W.contents writer.old) sheet.old (W.contents writer.new) sheet.new }
{
    match worth {
        None => sheet.put(writer, b"nothing"),
        Some(NUMBER_LIMIT) => sheet.put(writer, b"that there is no solution"),
        Some(lower) => {
            sheet.put(writer, b"at least ");
            sheet.put_number(writer, lower);
        }
    }
}

/// Each fact that is listed.
fn put_reasons<W: Write>(sheet: &mut Sheet, writer: &mut W, reasons: &Reasons<'_>)
    ensures { AddsFacts reasons.now
        (W.contents writer.old) sheet.old (W.contents writer.new) sheet.new }
{
    for reason in &reasons.listed {
        put_reason(sheet, writer, reasons, reason);
    }
}

/// A fact, and what it says.
fn put_reason<W: Write>(sheet: &mut Sheet, writer: &mut W, reasons: &Reasons<'_>, reason: &Reason)
    ensures { AddsFact reason.now.fact
        (W.contents writer.old) sheet.old (W.contents writer.new) sheet.new }
{
    put_fact(sheet, writer, reason.fact, is_group(reason.saying));
    put_saying(sheet, writer, reasons, reason.saying);
    put_meanings(sheet, writer, &reasons.lines, &reason.literals);
}

/// What it means that each of some literals is true.
fn put_meanings<W: Write>(
    sheet: &mut Sheet,
    writer: &mut W,
    lines: &ClauseLines<'_>,
    meanings: &[Meaning],
)
    ensures { Adds (W.contents writer.old) sheet.old (W.contents writer.new) sheet.new }
{
    for meaning in meanings {
        put_meaning(sheet, writer, lines, *meaning);
    }
}

/// Whether a fact that says this is that of a group.
fn is_group(saying: Saying) -> bool {
    matches!(saying, Saying::AtMostOne)
}

/// Which fact the form has, and how many times.
fn put_fact<W: Write>(sheet: &mut Sheet, writer: &mut W, fact: WeightedFact, is_group: bool)
    ensures { Displays (W.contents writer.old) sheet.old (fact_text is_group fact)
        (W.contents writer.new) sheet.new }
{
    sheet.put(writer, b"less ");
    put_kind(sheet, writer, fact.is_numbered(), is_group);
    sheet.put_number(writer, fact.number());
    put_times(sheet, writer, fact.weight());
}

/// Whether a fact is that of a count or group, or that of a clause.
fn put_kind<W: Write>(sheet: &mut Sheet, writer: &mut W, is_numbered: bool, is_group: bool)
    ensures { Displays (W.contents writer.old) sheet.old (kind_text is_numbered is_group)
        (W.contents writer.new) sheet.new }
{
    if is_numbered {
        put_numbered(sheet, writer, is_group);
    } else {
        sheet.put(writer, b"clause ");
    }
}

/// Whether a fact is that of a group, or that of a count.
fn put_numbered<W: Write>(sheet: &mut Sheet, writer: &mut W, is_group: bool)
    ensures { Displays (W.contents writer.old) sheet.old (kind_text true is_group)
        (W.contents writer.new) sheet.new }
{
    if is_group {
        sheet.put(writer, b"group ");
    } else {
        sheet.put(writer, b"count ");
    }
}

/// What a fact says.
fn put_saying<W: Write>(sheet: &mut Sheet, writer: &mut W, reasons: &Reasons<'_>, saying: Saying)
    ensures { Adds (W.contents writer.old) sheet.old (W.contents writer.new) sheet.new }
{
    match saying {
        Saying::Source(place) => {
            sheet.put(writer, b": ");
            put_place(sheet, writer, reasons, place);
        }
        Saying::AtLeast(count) => {
            sheet.put(writer, b": at least ");
            sheet.put_number(writer, count);
            sheet.put(writer, b" of these\n");
        }
        Saying::AtMostOne => sheet.put(writer, b": at most 1 of these\n"),
        Saying::Gone => sheet.put(writer, b": it was deleted\n"),
    }
}

/// A clause of the text.
fn put_place<W: Write>(sheet: &mut Sheet, writer: &mut W, reasons: &Reasons<'_>, place: Place)
    ensures { Adds (W.contents writer.old) sheet.old (W.contents writer.new) sheet.new }
{
    match place {
        Place::Soft(place) => put_source_at(sheet, writer, &reasons.lines.soft, place),
        Place::Hard(place) => {
            let at = reasons.wanted.partition_point(|each| *each < place);
            put_source_at(sheet, writer, &reasons.lines.hard, at);
        }
    }
}

/// What it means that a literal is true.
fn put_meaning<W: Write>(
    sheet: &mut Sheet,
    writer: &mut W,
    lines: &ClauseLines<'_>,
    meaning: Meaning,
)
    ensures { Adds (W.contents writer.old) sheet.old (W.contents writer.new) sheet.new }
{
    match meaning {
        Meaning::GivenUp(place) => {
            sheet.put(writer, b"  given up: ");
            put_source_at(sheet, writer, &lines.soft, place);
        }
        Meaning::Reached(number, count) => {
            sheet.put(writer, b"  count ");
            sheet.put_number(writer, number);
            sheet.put(writer, b" has ");
            sheet.put_number(writer, count);
            sheet.put(writer, b" or more\n");
        }
        Meaning::Literal(lit) => put_literal(sheet, writer, lit),
    }
}

/// A literal of which no more is known.
fn put_literal<W: Write>(sheet: &mut Sheet, writer: &mut W, lit: Lit)
    ensures { Adds (W.contents writer.old) sheet.old (W.contents writer.new) sheet.new }
{
    sheet.put(writer, b"  literal ");
    if lit.is_negated() {
        sheet.put(writer, b"-");
    }
    sheet.put_number(writer, u64::from(lit.variable()));
    sheet.put(writer, b"\n");
}

/// How many further facts there are, if there are more than were listed.
fn put_rest<W: Write>(sheet: &mut Sheet, writer: &mut W, listed: usize, all: usize)
    ensures { Adds (W.contents writer.old) sheet.old (W.contents writer.new) sheet.new }
{
    if listed < all {
        sheet.put(writer, b"less ");
        sheet.put_number(writer, (all - listed) as u64);
        sheet.put(writer, b" further facts\n");
    }
}
