// The text of a formula, written while its clauses are made: memory holds only what the formula is
// made of and the clauses of one cell, so the formula may be far larger than memory.
ghost use Rattle.std.specs.Prelude.{◌≡◌, ◌+◌, ◌*◌, ◌<◌, ◌≤◌, length, All, IfOk, IfErr};
ghost use Rattle.std.specs.List.{flat_map};
ghost use Rattle.cnf.specs.declared.limits.TheConstants.{NUMBER_LIMIT};
ghost use Rattle.adder.specs.Network.{adders_as};
ghost use Rattle.adder.specs.declared.networks.TheConstants.{CELL_LIMIT};
ghost use Rattle.text.specs.Writing.{Writes, Puts};
ghost use Rattle.bound.specs.Bound.{kept, bound_as, cell_clauses, comparator_for, dimacs_clause};
ghost use Rattle.bound.specs.Bound.{dimacs_text, relaxed_clauses};
ghost use Rattle.bound.specs.Adding.{HasVariables};
ghost use Rattle.bound.specs.Encoding.{fault_by, outlined};

use crate::cells::keep_cell;
use crate::comparators::keep_comparator;
use crate::dimacs::{put_clause, put_clauses, put_header};
use crate::relaxing::keep_relaxed;
use adder::building::network_as;
use adder::cells::Cell;
use adder::networks::Network;
use adder::profiles::Profile;
use cnf::clause_list::ClauseList;
use cnf::marks::Marks;
use cnf::tautologies::is_tautology_by;
use cnf::types::Instance;
use std::alloc::AllocError;
use std::io::Write;
use text::output::{Block, WriteFault};
pub use text::watched::WatchedWriter;

/// Why a formula was not written to its end.
#[derive(Clone, Copy, Debug, PartialEq, Eq, Drop)]
pub enum EncodeFault {
    /// A growth was refused.
    Memory,
    /// The writer answered `Err`, or took none of the bytes that it was given.
    Output,
}

impl From<AllocError> for EncodeFault {
    ghost use Rattle.bound.specs.declared.encoding.EncodeFault.TheVariants.{Memory};

    ghost from_gives = { λ _ fault. fault ≡ Memory };

    fn from(_error: AllocError) -> Self {
        EncodeFault::Memory
    }
}

impl From<WriteFault> for EncodeFault {
    ghost use Rattle.bound.specs.declared.encoding.EncodeFault.TheVariants.{Output};

    ghost from_gives = { λ _ fault. fault ≡ Output };

    fn from(_fault: WriteFault) -> Self {
        EncodeFault::Output
    }
}

/// Writes the formula that `formula_as` gives, as `write_dimacs` does, without building it. Its
/// clauses are made twice, first to be counted, as their number stands in the first line.
///
/// # Errors
///
/// `Output` where the writer has failed, and else `Memory`: a growth was refused. The writer then
/// has a beginning of the text, and is not called again.
pub fn write_formula<W: Write>(
    instance: &Instance,
    k: u64,
    profile: Profile,
    writer: &mut WatchedWriter<'_, W>,
) -> Result<(), EncodeFault>
    requires { k ≤ NUMBER_LIMIT }
    ensures writes { Writes result (W.contents writer.old.writer.now)
        (dimacs_text (bound_as profile instance.now k)) (W.contents writer.new.writer.now) }
    ensures why { IfErr result (λ fault. fault ≡ fault_by writer.new.has_failed) }
{
    match write_parts(instance, k, profile, writer) {
        Ok(()) => Ok(()),
        Err(_) => Err(fault_by(writer.has_failed())),
    }
}

/// Why a formula was not written to its end, by whether the writer has failed.
fn fault_by(has_failed: bool) -> EncodeFault
    ensures { result ≡ fault_by has_failed }
{
    if has_failed {
        EncodeFault::Output
    } else {
        EncodeFault::Memory
    }
}

/// As `write_formula`, to any writer: why it ended is then open.
fn write_parts<W: Write>(
    instance: &Instance,
    k: u64,
    profile: Profile,
    writer: &mut W,
) -> Result<(), EncodeFault>
    requires { k ≤ NUMBER_LIMIT }
    ensures { Writes result (W.contents writer.old) (dimacs_text (bound_as profile instance.now k))
        (W.contents writer.new) }
{
    let most = instance.vars() + instance.soft().len() as u32;
    let mut marks = Marks::new(instance.allocator(), most)?;
    let outline = Outline::of(instance, k, profile, &mut marks)?;
    put_formula(instance, &outline, &mut marks, writer)
}

/// Puts the formula of an outline, part after part.
fn put_formula<W: Write>(
    instance: &Instance,
    outline: &Outline,
    marks: &mut Marks,
    writer: &mut W,
) -> Result<(), EncodeFault>
    requires places { 2 * instance.now.variables ≤ length marks.old }
    requires cells { All HasVariables outline.now.network.cells }
    requires count { outline.now.count ≡ length (outlined instance.now.hard outline.now).clauses }
    ensures { Writes result (W.contents writer.old)
        (dimacs_text (outlined instance.now.hard outline.now)) (W.contents writer.new) }
{
    let mut block = Block::new();
    put_header(&mut block, writer, outline.vars, outline.count)?;
    put_hard(&mut block, writer, instance, marks)?;
    put_clauses(&mut block, writer, &outline.relaxed)?;
    put_cells(&mut block, writer, &outline.network)?;
    put_clauses(&mut block, writer, &outline.comparator)?;
    Ok(block.flush(writer)?)
}

/// What is known of a formula before its first clause is written.
#[derive(Drop)]
struct Outline {
    /// The soft clauses with their relaxation variables.
    relaxed: ClauseList,
    /// What adds up the weights of the soft clauses that are given up.
    network: Network,
    /// What compares their sum with the bound.
    comparator: ClauseList,
    /// The last variable.
    vars: u32,
    /// How many clauses there are.
    count: usize,
}

impl Outline {
    fn of(
        instance: &Instance,
        k: u64,
        profile: Profile,
        marks: &mut Marks,
    ) -> Result<Self, AllocError>
        requires bound { k ≤ NUMBER_LIMIT }
        requires places { 2 * (instance.now.variables + length instance.now.soft)
            ≤ length marks.old }
        ensures relaxed { IfOk result
            (λ o. o.relaxed ≡ kept (relaxed_clauses profile instance.now)) }
        ensures network { IfOk result (λ o. o.network ≡ adders_as profile instance.now) }
        ensures comparator { IfOk result
            (λ o. o.comparator ≡ comparator_for profile instance.now k) }
        ensures vars { IfOk result (λ o. o.vars ≡ (bound_as profile instance.now k).variables) }
        ensures count { IfOk result
            (λ o. o.count ≡ length (bound_as profile instance.now k).clauses) }
        ensures marks { length marks.new ≡ length marks.old }
    {
        instance.limits();
        let alloc = instance.allocator();
        let mut relaxed = ClauseList::new(alloc);
        let last = keep_relaxed(&mut relaxed, marks, instance, profile)?;
        let network = network_as(instance, profile)?;
        let mut comparator = ClauseList::new(alloc);
        keep_comparator(&mut comparator, network.outputs(), k)?;
        let hard = count_hard(instance, marks);
        let soft = relaxed.len();
        let cells = count_cells(&network)?;
        let last_part = comparator.len();
        let count = hard + soft + cells + last_part;
        let vars = last + 2 * network.cells().len() as u32;
        Ok(Outline {
            relaxed,
            network,
            comparator,
            vars,
            count,
        })
    }
}

/// How many hard clauses a formula keeps.
fn count_hard(instance: &Instance, marks: &mut Marks) -> usize
    requires { 2 * instance.now.variables ≤ length marks.old }
    ensures count { result ≡ length (kept instance.now.hard) }
    ensures marks { length marks.new ≡ length marks.old }
{
    instance.limits();
    let mut count = 0;
    for clause in instance.hard().iter() {
        if !is_tautology_by(marks, clause) {
            count += 1;
        }
    }
    count
}

/// How many clauses of its cells a formula keeps.
fn count_cells(network: &Network) -> Result<usize, AllocError>
    requires variables { All HasVariables network.now.cells }
    requires few { length network.now.cells < CELL_LIMIT }
    ensures { IfOk result (λ n. n ≡ length (kept (flat_map cell_clauses network.now.cells))) }
{
    let mut part = ClauseList::new(network.allocator());
    let mut count = 0;
    let cells = network.cells();
    for cell in cells {
        part.clear();
        keep_cell(&mut part, *cell)?;
        count += part.len();
    }
    Ok(count)
}

/// Puts the hard clauses, as a formula keeps them.
fn put_hard<W: Write>(
    block: &mut Block,
    writer: &mut W,
    instance: &Instance,
    marks: &mut Marks,
) -> Result<(), WriteFault>
    requires { 2 * instance.now.variables ≤ length marks.old }
    ensures { Puts result (W.contents writer.old) block.old
        (flat_map dimacs_clause (kept instance.now.hard)) (W.contents writer.new) block.new }
{
    instance.limits();
    for clause in instance.hard().iter() {
        if !is_tautology_by(marks, clause) {
            put_clause(block, writer, clause)?;
        }
    }
    Ok(())
}

/// Puts the clauses of the cells.
fn put_cells<W: Write>(
    block: &mut Block,
    writer: &mut W,
    network: &Network,
) -> Result<(), EncodeFault>
    requires { All HasVariables network.now.cells }
    ensures { Puts result (W.contents writer.old) block.old
        (flat_map dimacs_clause (kept (flat_map cell_clauses network.now.cells)))
        (W.contents writer.new) block.new }
{
    let mut part = ClauseList::new(network.allocator());
    let cells = network.cells();
    for cell in cells {
        part.clear();
        keep_cell(&mut part, *cell)?;
        put_clauses(block, writer, &part)?;
    }
    Ok(())
}
