// How the lines of a certificate are spelled: their tokens with single spaces. The line feed of a
// line comes later.
ghost use Rattle.std.specs.Prelude.{◌≡◌, ◌<◌, false, map};
ghost use Rattle.std.specs.List.{flat_map};
ghost use Rattle.cnf.specs.Lrat.{Addition, Deletion};
ghost use Rattle.text.specs.LratText.{line_tokens};
ghost use Rattle.lrat_log.specs.Log.{group_ids, id_of, leading_ids, name_of};
ghost use Rattle.lrat_log.specs.declared.log.TheConstants.{LINE_LIMIT};
ghost use Rattle.lrat_log.specs.Texts.{hint_text, hints_text, literals_text, number_text};
ghost use Rattle.lrat_read.specs.WordTokens.{word_tokens};
ghost use Rattle.lrat_read.specs.Words.{CountLine as SpelledCount, MoreLine as SpelledMore};
ghost use Rattle.lrat_read.specs.Words.{FormLine as SpelledForm, CutLine as SpelledCut};
ghost use Rattle.lrat_read.specs.Words.{BoundLine as SpelledBound, GroupLine as SpelledGroup};
ghost use Rattle.text.specs.Writing.{joined};
ghost use Rattle.cuts_log.specs.Outs.{Says};
ghost use Rattle.cuts_log.specs.Facts.{fact_text, ids_text, numbers_text, scale_text};
ghost use Rattle.cuts_log.specs.Facts.{spelled};

use crate::out::Out;
use cnf::types::Lit;
use forms::types::NamedFact;
use lrat_log::lines::{Hint, Name};
use std::io::Write;

/// Puts the deletion of the clauses that these hints name, after the last id.
pub(crate) fn put_deletion<W: Write>(out: &mut Out<W>, base: u64, last: u64, hints: &[Hint])
    requires { base < LINE_LIMIT }
    ensures { Says out.old
        (joined (line_tokens (Deletion last (map (λ h. id_of base (name_of h)) hints.now))))
        out.new }
{
    put_number(out, last);
    out.put(b"d ");
    put_ids(out, base, hints);
    out.put(b"0");
}

/// Puts the addition of a clause under this id, by these hints.
pub(crate) fn put_addition<W: Write>(
    out: &mut Out<W>,
    base: u64,
    id: u64,
    lits: &[Lit],
    hints: &[Hint],
)
    requires { base < LINE_LIMIT }
    ensures { Says out.old (joined (line_tokens
        (Addition id lits.now (leading_ids base hints.now) (group_ids base hints.now)))) out.new }
{
    put_number(out, id);
    put_lits(out, lits);
    out.put(b"0 ");
    put_hints(out, base, hints);
    out.put(b"0");
}

/// Puts a count of these literals.
pub(crate) fn put_count<W: Write>(out: &mut Out<W>, outputs: u64, inputs: &[Lit])
    ensures { Says out.old (joined (word_tokens (SpelledCount outputs inputs.now))) out.new }
{
    out.put(b"count ");
    put_number(out, outputs);
    put_lits(out, inputs);
    out.put(b"0");
}

/// Puts a further output of the count with this number.
pub(crate) fn put_more<W: Write>(out: &mut Out<W>, number: u64)
    ensures { Says out.old (joined (word_tokens (SpelledMore number))) out.new }
{
    out.put(b"more ");
    put_number(out, number);
    out.put(b"0");
}

/// Puts a group of these literals, as the clauses with these ids say.
pub(crate) fn put_group<W: Write>(out: &mut Out<W>, inputs: &[Lit], ids: &[u64])
    ensures { Says out.old (joined (word_tokens (SpelledGroup inputs.now ids.now))) out.new }
{
    out.put(b"group ");
    put_lits(out, inputs);
    out.put(b"0 ");
    put_numbers(out, ids);
    out.put(b"0");
}

/// Puts the numbers, each with a space behind it.
fn put_numbers<W: Write>(out: &mut Out<W>, numbers: &[u64])
    ensures { Says out.old (numbers_text numbers.now) out.new }
{
    for number in numbers {
        put_number(out, *number);
    }
}

/// Puts a form of this scale, or further facts where there is none.
pub(crate) fn put_form<W: Write>(out: &mut Out<W>, scale: Option<u64>, facts: &[NamedFact])
    ensures { Says out.old (joined (word_tokens (SpelledForm scale (map spelled facts.now))))
        out.new }
{
    out.put(b"form ");
    put_scale(out, scale);
    put_facts(out, facts);
    out.put(b"0");
}

/// Puts a cut of these literals.
pub(crate) fn put_cut<W: Write>(out: &mut Out<W>, lits: &[Lit])
    ensures { Says out.old (joined (word_tokens (SpelledCut lits.now))) out.new }
{
    out.put(b"cut ");
    put_lits(out, lits);
    out.put(b"0");
}

/// Puts a lower bound of the cost.
pub(crate) fn put_bound<W: Write>(out: &mut Out<W>, lower: u64)
    ensures { Says out.old (joined (word_tokens (SpelledBound lower))) out.new }
{
    out.put(b"bound ");
    put_number(out, lower);
    out.put(b"0");
}

/// Puts the scale, or a plus sign where there is none, with a space behind it.
fn put_scale<W: Write>(out: &mut Out<W>, scale: Option<u64>)
    ensures { Says out.old (scale_text scale) out.new }
{
    match scale {
        Some(scale) => put_number(out, scale),
        None => out.put(b"+ "),
    }
}

/// Puts the facts, each after its weight, with a space behind each.
fn put_facts<W: Write>(out: &mut Out<W>, facts: &[NamedFact])
    ensures { Says out.old (flat_map (λ f. fact_text (spelled f)) facts.now) out.new }
{
    for fact in facts {
        put_fact(out, fact);
    }
}

/// Puts the weight and the fact, with a space behind each.
fn put_fact<W: Write>(out: &mut Out<W>, fact: &NamedFact)
    ensures { Says out.old (fact_text (spelled fact.now)) out.new }
{
    put_number(out, fact.weight);
    put_signed(out, fact.is_numbered, fact.number);
}

/// Puts the literals, each with a space behind it.
fn put_lits<W: Write>(out: &mut Out<W>, lits: &[Lit])
    ensures { Says out.old (literals_text lits.now) out.new }
{
    for lit in lits {
        out.put_lit(*lit);
    }
}

/// Puts the ids of the hints, each with a space behind it.
fn put_hints<W: Write>(out: &mut Out<W>, base: u64, hints: &[Hint])
    requires { base < LINE_LIMIT }
    ensures { Says out.old (hints_text base hints.now) out.new }
{
    for hint in hints {
        put_hint(out, base, *hint);
    }
}

/// Puts the ids of the hints, each with a space behind it and none with a dash.
fn put_ids<W: Write>(out: &mut Out<W>, base: u64, hints: &[Hint])
    requires { base < LINE_LIMIT }
    ensures { Says out.old (ids_text base hints.now) out.new }
{
    for hint in hints {
        put_id(out, base, *hint);
    }
}

/// Puts the id of the hint with a space behind it, and no dash.
fn put_id<W: Write>(out: &mut Out<W>, base: u64, hint: Hint)
    requires { base < LINE_LIMIT }
    ensures { Says out.old (number_text false (id_of base (name_of hint))) out.new }
{
    match hint {
        Hint::Plain(name) | Hint::Group(name) => put_number(out, id_of(base, name)),
    }
}

/// Puts the id of the hint with a space behind it, and a dash before it where it begins a group.
fn put_hint<W: Write>(out: &mut Out<W>, base: u64, hint: Hint)
    requires { base < LINE_LIMIT }
    ensures { Says out.old (hint_text base hint) out.new }
{
    match hint {
        Hint::Plain(name) => put_number(out, id_of(base, name)),
        Hint::Group(name) => put_signed(out, true, id_of(base, name)),
    }
}

/// The id that a name has.
fn id_of(base: u64, name: Name) -> u64
    requires { base < LINE_LIMIT }
    ensures { result ≡ id_of base name }
{
    match name {
        Name::Formula(number) => number.get(),
        Name::Added(number) => base + number.get(),
    }
}

/// Puts the number, with a dash before it where it is negative, and a space behind it.
fn put_signed<W: Write>(out: &mut Out<W>, negative: bool, number: u64)
    ensures { Says out.old (number_text negative number) out.new }
{
    if negative {
        out.put(b"-");
        put_number(out, number);
    } else {
        put_number(out, number);
    }
}

/// Puts the number with a space behind it.
fn put_number<W: Write>(out: &mut Out<W>, number: u64)
    ensures { Says out.old (number_text false number) out.new }
{
    out.put_number(number);
    out.put(b" ");
}
