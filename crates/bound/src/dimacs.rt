// The text of a formula in DIMACS CNF, the form that SAT solvers read.
ghost use Rattle.std.specs.List.{flat_map};
ghost use Rattle.text.specs.Writing.{Writes, Puts};
ghost use Rattle.bound.specs.Bound.{dimacs_text, header_line, dimacs_clause};

use cnf::clause_list::ClauseList;
use cnf::types::{Formula, Lit};
use std::io::Write;
use text::output::{Block, WriteFault};

/// Writes the formula as DIMACS CNF ("Satisfiability: Suggested Format", DIMACS Challenge, 1993):
/// the line `p cnf VARIABLES CLAUSES`, and a line for each clause, its literals and then `0`. One
/// space stands between tokens, and a line feed ends each line. The writer is given the text in
/// pieces of some thousands of bytes, and is not flushed. No memory is asked for.
///
/// # Errors
///
/// `WriteFault` where the writer answered `Err`, or took none of the bytes that it was given. The
/// writer then has a beginning of the text, and is not called again.
pub fn write_dimacs<W: Write>(formula: &Formula, writer: &mut W) -> Result<(), WriteFault>
    ensures { Writes result (W.contents writer.old) (dimacs_text formula.now)
        (W.contents writer.new) }
{
    let mut block = Block::new();
    let clauses = formula.clauses();
    put_header(&mut block, writer, formula.vars(), clauses.len())?;
    put_clauses(&mut block, writer, clauses)?;
    block.flush(writer)
}

/// Puts the first line.
pub(crate) fn put_header<W: Write>(
    block: &mut Block,
    writer: &mut W,
    vars: u32,
    count: usize,
) -> Result<(), WriteFault>
    ensures { Puts result (W.contents writer.old) block.old (header_line vars count)
        (W.contents writer.new) block.new }
{
    block.put(writer, b"p cnf ")?;
    block.put_number(writer, u64::from(vars))?;
    block.put(writer, b" ")?;
    block.put_number(writer, count as u64)?;
    block.put(writer, b"\n")
}

/// Puts the lines of the clauses.
pub(crate) fn put_clauses<W: Write>(
    block: &mut Block,
    writer: &mut W,
    clauses: &ClauseList,
) -> Result<(), WriteFault>
    ensures { Puts result (W.contents writer.old) block.old (flat_map dimacs_clause clauses.now)
        (W.contents writer.new) block.new }
{
    for clause in clauses.iter() {
        put_clause(block, writer, clause)?;
    }
    Ok(())
}

/// Puts the line of a clause.
pub(crate) fn put_clause<W: Write>(
    block: &mut Block,
    writer: &mut W,
    lits: &[Lit],
) -> Result<(), WriteFault>
    ensures { Puts result (W.contents writer.old) block.old (dimacs_clause lits.now)
        (W.contents writer.new) block.new }
{
    for lit in lits {
        block.put_spaced(writer, *lit)?;
    }
    block.put(writer, b"0\n")
}
