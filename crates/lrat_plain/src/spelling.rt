// The lines of the formula and of the plain certificate, on their way to writers.
ghost use Rattle.std.specs.Prelude.{◌≡◌, [], ◌∷◌, ◌++◌, map, OnOk};
ghost use Rattle.std.specs.List.{flat_map};
ghost use Rattle.std.specs.Fmt.{decimal};
ghost use Rattle.cnf.specs.Lrat.{Addition, Deletion};
ghost use Rattle.text.specs.Text.{literal_text};
ghost use Rattle.text.specs.LratText.{line_tokens};
ghost use Rattle.text.specs.Writing.{PassesOn, spaced};
ghost use Rattle.bound.specs.Bound.{dimacs_clause, header_line};
ghost use Rattle.lrat_plain.specs.Names.{added, renumbered};

use crate::names::Names;
use cnf::clause_list::ClauseList;
use cnf::types::Lit;
use lrat_read::line::LineView;
use lrat_read::types::SignedId;
use std::io::Write;
use text::output::{Block, WriteFault};

/// Puts the first line of the formula.
pub(crate) fn put_header<W: Write>(
    block: &mut Block,
    writer: &mut W,
    variables: u32,
    count: u64,
) -> Result<(), WriteFault>
    ensures { OnOk result (PassesOn (W.contents writer.old) block.old (header_line variables count)
        (W.contents writer.new) block.new) }
{
    block.put(writer, b"p cnf ")?;
    put_spaced(block, writer, u64::from(variables))?;
    block.put_number(writer, count)?;
    block.put(writer, b"\n")
}

/// Puts the lines of clauses of the formula.
pub(crate) fn put_clauses<W: Write>(
    block: &mut Block,
    writer: &mut W,
    clauses: &ClauseList,
) -> Result<(), WriteFault>
    ensures { OnOk result (PassesOn (W.contents writer.old) block.old
        (flat_map dimacs_clause clauses.now) (W.contents writer.new) block.new) }
{
    for clause in clauses.iter() {
        put_clause(block, writer, clause)?;
    }
    Ok(())
}

/// Puts the line of a clause of the formula.
fn put_clause<W: Write>(block: &mut Block, writer: &mut W, lits: &[Lit]) -> Result<(), WriteFault>
    ensures { OnOk result (PassesOn (W.contents writer.old) block.old (dimacs_clause lits.now)
        (W.contents writer.new) block.new) }
{
    put_lits(block, writer, lits)?;
    block.put(writer, b"0\n")
}

/// Puts the line that adds the clause of this one.
pub(crate) fn put_addition<W: Write>(
    block: &mut Block,
    writer: &mut W,
    names: &Names,
    line: &LineView<'_>,
) -> Result<(), WriteFault>
    ensures { OnOk result (PassesOn (W.contents writer.old) block.old
        (spaced (line_tokens (Addition (added names.now line.now.id) line.now.clause
        (map (λ h. renumbered names.now h.1) line.now.hints) [])))
        (W.contents writer.new) block.new) }
{
    put_spaced(block, writer, names.added(line.id()))?;
    put_lits(block, writer, line.lits())?;
    block.put(writer, b"0 ")?;
    put_ids(block, writer, names, line.hints())?;
    block.put(writer, b"0\n")
}

/// Puts the line that deletes the clauses with these ids.
pub(crate) fn put_deletion<W: Write>(
    block: &mut Block,
    writer: &mut W,
    lead: u64,
    names: &Names,
    ids: &[SignedId],
) -> Result<(), WriteFault>
    ensures { OnOk result (PassesOn (W.contents writer.old) block.old
        (spaced (line_tokens (Deletion lead (map (λ i. renumbered names.now i.1) ids.now))))
        (W.contents writer.new) block.new) }
{
    put_spaced(block, writer, lead)?;
    block.put(writer, b"d ")?;
    put_ids(block, writer, names, ids)?;
    block.put(writer, b"0\n")
}

/// Puts the line that adds the empty clause under this id, by one hint.
pub(crate) fn put_empty<W: Write>(
    block: &mut Block,
    writer: &mut W,
    id: u64,
    hint: u64,
) -> Result<(), WriteFault>
    ensures { OnOk result (PassesOn (W.contents writer.old) block.old
        (spaced (line_tokens (Addition id [] (hint ∷ []) []))) (W.contents writer.new) block.new) }
{
    put_spaced(block, writer, id)?;
    block.put(writer, b"0 ")?;
    put_spaced(block, writer, hint)?;
    block.put(writer, b"0\n")
}

/// Puts the number, and a space behind it.
fn put_spaced<W: Write>(block: &mut Block, writer: &mut W, number: u64) -> Result<(), WriteFault>
    ensures { OnOk result (PassesOn (W.contents writer.old) block.old (decimal number ++ 32 ∷ [])
        (W.contents writer.new) block.new) }
{
    block.put_number(writer, number)?;
    block.put(writer, b" ")
}

/// Puts the literals, each with a space behind it.
fn put_lits<W: Write>(block: &mut Block, writer: &mut W, lits: &[Lit]) -> Result<(), WriteFault>
    ensures { OnOk result (PassesOn (W.contents writer.old) block.old
        (flat_map (λ l. literal_text l ++ 32 ∷ []) lits.now) (W.contents writer.new) block.new) }
{
    for lit in lits {
        block.put_spaced(writer, *lit)?;
    }
    Ok(())
}

/// Puts the ids in the plain certificate of live clauses, each with a space behind it.
fn put_ids<W: Write>(
    block: &mut Block,
    writer: &mut W,
    names: &Names,
    ids: &[SignedId],
) -> Result<(), WriteFault>
    ensures { OnOk result (PassesOn (W.contents writer.old) block.old
        (flat_map (λ i. decimal (renumbered names.now i.1) ++ 32 ∷ []) ids.now)
        (W.contents writer.new) block.new) }
{
    for id in ids {
        put_spaced(block, writer, names.renumbered(id.id()))?;
    }
    Ok(())
}
