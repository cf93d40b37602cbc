// The lines of a certificate, on their way to a writer.
ghost use Rattle.std.specs.Prelude.{◌≡◌, ◌-◌, ◌<◌, ◌≤◌, map, drop, slice_index, All};
ghost use Rattle.lrat_log.specs.declared.spelling.TheConstants.{NUMBER_ROOM};
ghost use Rattle.cnf.specs.declared.limits.TheConstants.{NUMBER_LIMIT};
ghost use Rattle.cnf.specs.Lrat.{Addition, Deletion};
ghost use Rattle.text.specs.Writing.{Puts};
ghost use Rattle.lrat_log.specs.Log.{IsPlain, id_of, name_of, leading_ids, group_ids};
ghost use Rattle.lrat_log.specs.Texts.{number_text, literals_text, hint_text, hints_text, end_text};
ghost use Rattle.lrat_log.specs.Texts.{line_text};

use crate::hints::HintSlice;
use crate::log::LineSlice;
use crate::packed::PackedHint;
use cnf::types::Lit;
use itoa::write_digits;
use std::io::Write;
use text::output::{Block, WriteFault};

/// Room for a dash, the 20 digits of the largest number, and a space.
const NUMBER_ROOM: usize = 22;

/// Puts the line that adds a clause, under this id.
pub(crate) fn put_addition<W: Write>(
    block: &mut Block,
    writer: &mut W,
    base: u64,
    id: u64,
    line: &LineSlice<'_>,
) -> Result<(), WriteFault>
    requires { All (λ h. id_of base (name_of h) < NUMBER_LIMIT) line.now.hints }
    ensures { Puts result (W.contents writer.old) block.old
        (line_text (Addition id line.now.clause (leading_ids base line.now.hints)
        (group_ids base line.now.hints))) (W.contents writer.new) block.new }
{
    put_number(block, writer, false, id)?;
    put_literals(block, writer, line.lits)?;
    put_end(block, writer, b"0 ", base, &line.hints)
}

/// Puts the line that deletes the clauses that these hints name.
pub(crate) fn put_deletion<W: Write>(
    block: &mut Block,
    writer: &mut W,
    base: u64,
    lead: u64,
    hints: &HintSlice<'_>,
) -> Result<(), WriteFault>
    requires small { All (λ h. id_of base (name_of h) < NUMBER_LIMIT) hints.now }
    requires plain { All IsPlain hints.now }
    ensures { Puts result (W.contents writer.old) block.old
        (line_text (Deletion lead (map (λ h. id_of base (name_of h)) hints.now)))
        (W.contents writer.new) block.new }
{
    put_number(block, writer, false, lead)?;
    put_end(block, writer, b"d ", base, hints)
}

/// Puts a word, the hints and the 0 that ends the line.
fn put_end<W: Write>(
    block: &mut Block,
    writer: &mut W,
    word: &[u8],
    base: u64,
    hints: &HintSlice<'_>,
) -> Result<(), WriteFault>
    requires { All (λ h. id_of base (name_of h) < NUMBER_LIMIT) hints.now }
    ensures { Puts result (W.contents writer.old) block.old
        (end_text word.now base hints.now) (W.contents writer.new) block.new }
{
    block.put(writer, word)?;
    put_hints(block, writer, base, hints)?;
    block.put(writer, b"0\n")
}

/// Puts the hints, each with a space behind it.
fn put_hints<W: Write>(
    block: &mut Block,
    writer: &mut W,
    base: u64,
    hints: &HintSlice<'_>,
) -> Result<(), WriteFault>
    requires { All (λ h. id_of base (name_of h) < NUMBER_LIMIT) hints.now }
    ensures { Puts result (W.contents writer.old) block.old
        (hints_text base hints.now) (W.contents writer.new) block.new }
{
    for narrow in hints.narrow {
        put_hint(block, writer, base, narrow.widen())?;
    }
    for wide in hints.wide {
        put_hint(block, writer, base, *wide)?;
    }
    Ok(())
}

/// Puts the hint with a space behind it.
fn put_hint<W: Write>(
    block: &mut Block,
    writer: &mut W,
    base: u64,
    hint: PackedHint,
) -> Result<(), WriteFault>
    requires { id_of base (name_of hint) < NUMBER_LIMIT }
    ensures { Puts result (W.contents writer.old) block.old
        (hint_text base hint) (W.contents writer.new) block.new }
{
    put_number(block, writer, hint.is_group(), hint.id(base))
}

/// Puts the literals, each with a space behind it.
fn put_literals<W: Write>(block: &mut Block, writer: &mut W, lits: &[Lit]) -> Result<(), WriteFault>
    ensures { Puts result (W.contents writer.old) block.old
        (literals_text lits.now) (W.contents writer.new) block.new }
{
    for lit in lits {
        put_number(block, writer, lit.is_negated(), u64::from(lit.variable()))?;
    }
    Ok(())
}

/// Puts the number, with a dash before it where `negative` is set, and a space behind it.
fn put_number<W: Write>(
    block: &mut Block,
    writer: &mut W,
    negative: bool,
    number: u64,
) -> Result<(), WriteFault>
    ensures { Puts result (W.contents writer.old) block.old
        (number_text negative number) (W.contents writer.new) block.new }
{
    let mut room = [b' '; NUMBER_ROOM];
    let start = spell(negative, number, &mut room);
    block.put(writer, &room[start..])
}

/// Spells the number before the last byte of the room; answers where it begins.
fn spell(negative: bool, number: u64, room: &mut [u8; NUMBER_ROOM]) -> usize
    requires { slice_index room.old (NUMBER_ROOM - 1) ≡ 32 }
    ensures within { result ≤ NUMBER_ROOM }
    ensures text { drop result room.new ≡ number_text negative number }
{
    let start = write_digits(number, room, NUMBER_ROOM - 1);
    if !negative {
        return start;
    }
    room[start - 1] = b'-';
    start - 1
}
